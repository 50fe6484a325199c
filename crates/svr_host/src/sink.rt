ghost use Rattle.std.specs.Prelude.{◌≡◌, ◌<◌, ℕ, List, Option, None, IfOk, IsOk, OnOk, length};
ghost use Rattle.std.specs.Io.{WritesAtMost};
ghost use Rattle.std.specs.Io.KnownBytes.{WriteAppends};
ghost use Rattle.svr_edge.specs.Causes.{HasCause};
ghost use Rattle.svr_host.specs.Faults.{counted_fault};

use std::io::Print;
use std::marker::Model;
use svr_edge::{Failed, Sink};

/// A sink over standard output, which contracts see as its count of faults. It tells no content.
///
/// Each write asks the system once, and what it takes is out of the program when it returns.
#[derive(Drop)]
pub struct StdSink<'a, R: Print> {
    rt: &'a R,
    faults: u64,
}

impl<'a, R: Print> Model for StdSink<'a, R> {
    ghost use Rattle.std.specs.Prelude.{ℕ};

    ghost Value = { ℕ };

    ghost view = { λ s. s.faults };
}

impl<'a, R: Print> StdSink<'a, R> {
    /// The sink of what the runtime prints, with no fault so far.
    pub fn new(rt: &'a R) -> StdSink<'a, R>
        ensures faults { result ≡ 0 }
        ensures tells_nothing { ⟦<StdSink<'a, R> as Sink>⟧.taken result ≡ None }
        ensures tells_no_sending { ⟦<StdSink<'a, R> as Sink>⟧.sent result ≡ None }
    {
        StdSink { rt, faults: 0 }
    }
}

impl<'a, R: Print> Sink for StdSink<'a, R> {
    ghost taken = { λ _. None };

    ghost sent = { λ _. None };

    ghost faults = { λ s. s };

    /// A write of a piece that is not empty, of which the system takes no byte, is a fault.
    fn write(&mut self, piece: &[u8]) -> Result<usize, Failed>
        ensures bound { WritesAtMost result piece.now }
        ensures progress { 0 < length piece.now → IfOk result (λ count. 0 < count) }
        ensures bytes { WriteAppends None None result piece.now }
        ensures cause { HasCause self.old self.new result }
        ensures next { self.new ≡ counted_fault self.old result }
    {
        match self.rt.write_some(piece) {
            Ok(count) if count > 0 || piece.is_empty() => Ok(count),
            _ => {
                self.faults = self.faults.saturating_add(1);
                Err(Failed)
            }
        }
    }

    /// There is nothing to send: the runtime keeps no byte back between two writes.
    fn flush(&mut self) -> Result<(), Failed>
        ensures sent { OnOk result (◌≡◌ {A = Option (List ℕ)} None None) }
        ensures cause { HasCause self.old self.new result }
        ensures answer { IsOk result }
        ensures next { self.new ≡ self.old }
    {
        Ok(())
    }
}
