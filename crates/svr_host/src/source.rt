ghost use Rattle.std.specs.Prelude.{◌≡◌, None};
ghost use Rattle.std.specs.Io.{ReadsAtMost};
ghost use Rattle.svr_edge.specs.Causes.{HasCause};
ghost use Rattle.svr_host.specs.Faults.{counted_fault};

use std::io::{Input, Read};
use std::marker::Model;
use svr_edge::{Failed, Source};

/// A source over standard input, which contracts see as its count of faults. It tells no content.
///
/// Each read asks the system once, with the whole of the caller's buffer. Nothing is read ahead, so a large buffer
/// makes few calls.
#[derive(Drop)]
pub struct StdSource<R: Read + Drop> {
    reader: R,
    faults: u64,
}

impl<R: Read + Drop> Model for StdSource<R> {
    ghost use Rattle.std.specs.Prelude.{ℕ};

    ghost Value = { ℕ };

    ghost view = { λ s. s.faults };
}

impl<R: Read + Drop> StdSource<R> {
    /// The source of what the runtime reads, with no fault so far.
    pub fn new<I: Input<Reader = R>>(rt: &I) -> StdSource<R>
        ensures faults { result ≡ 0 }
        ensures tells_nothing { ⟦<StdSource<R> as Source>⟧.left result ≡ None }
    {
        StdSource {
            reader: rt.reader(),
            faults: 0,
        }
    }
}

impl<R: Read + Drop> Source for StdSource<R> {
    ghost left = { λ _. None };

    ghost faults = { λ s. s };

    fn read(&mut self, into: &mut [u8]) -> Result<usize, Failed>
        ensures bound { ReadsAtMost result into.new }
        ensures cause { HasCause self.old self.new result }
        ensures next { self.new ≡ counted_fault self.old result }
    {
        match self.reader.read(into) {
            Ok(count) => Ok(count),
            Err(_) => {
                self.faults = self.faults.saturating_add(1);
                Err(Failed)
            }
        }
    }
}
