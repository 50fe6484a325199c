ghost use Rattle.std.specs.Prelude.{◌≡◌, ◌+◌, ◌^◌, ◌<◌, Some, IfOk, OnOk, length};
ghost use Rattle.std.specs.Io.{WritesAtMost};
ghost use Rattle.std.specs.Io.KnownBytes.{Keeps, WriteAppends};
ghost use Rattle.svr_edge.specs.Causes.{HasCause};
ghost use Rattle.svr_fakes.specs.Calls.{is_listed};
ghost use Rattle.svr_fakes.specs.Writes.{new_sink, WriteAnswers, after_write, flush_answer, after_flush};

use crate::counter::raise;
use std::marker::Model;
use svr_edge::{Failed, Sink};

/// What is added to the number of a flush, so that the one list of failing calls names flushes too.
const FLUSH: u64 = 1 << 32;

/// Whether the flush of this number is among the calls that fail.
fn lists_flush(fail: &[u64], number: u64) -> bool
    ensures { result ≡ is_listed fail.now (number + 2 ^ 32) }
{
    match number.checked_add(FLUSH) {
        Some(number) => fail.contains(&number),
        None => false,
    }
}

/// A sink that keeps what it takes. A write takes at most `step` bytes, and the writes whose numbers, from 1, were
/// listed fail, as do the flushes whose numbers plus 2^32 were; a failed flush sends nothing. Want of memory is a write
/// that fails too.
#[derive(Drop)]
pub struct MemSink {
    taken: Vec<u8>,
    /// How many of the bytes were sent on.
    sent: usize,
    step: u32,
    fail: Vec<u64>,
    writes: u64,
    flushes: u64,
    faults: u64,
}

impl Model for MemSink {
    ghost use Rattle.std.specs.Prelude.{◌<◌, ◌≤◌, length, take};
    ghost use Rattle.svr_fakes.specs.Writes.{SinkState};

    ghost Value = { SinkState };

    ghost view = { λ s. record { taken = s.taken.items; sent = take s.sent s.taken.items; step = s.step; fail = s.fail.items; writes = s.writes; flushes = s.flushes; faults = s.faults } };

    ghost invariant = { λ s. (0 < s.step) × (s.sent ≤ length s.taken.items) };
}

impl MemSink {
    /// A sink that has taken nothing. What it takes comes from the allocator of `fail`.
    pub fn new(step: u32, fail: Vec<u64>) -> MemSink
        requires { 0 < step }
        ensures { result ≡ new_sink step fail.items }
    {
        MemSink {
            taken: Vec::new(*fail.allocator()),
            sent: 0,
            step,
            fail,
            writes: 0,
            flushes: 0,
            faults: 0,
        }
    }

    /// All bytes that were taken so far.
    pub fn taken(&self) -> &[u8]
        ensures { result.now ≡ self.now.taken }
    {
        self.taken.as_slice()
    }

    /// Those of them that were sent on.
    pub fn sent(&self) -> &[u8]
        ensures { result.now ≡ self.now.sent }
    {
        &self.taken[..self.sent]
    }
}

impl Sink for MemSink {
    ghost taken = { λ s. Some s.taken };

    ghost sent = { λ s. Some s.sent };

    ghost faults = { λ s. s.faults };

    fn write(&mut self, piece: &[u8]) -> Result<usize, Failed>
        ensures bound { WritesAtMost result piece.now }
        ensures progress { 0 < length piece.now → IfOk result (λ count. 0 < count) }
        ensures bytes { WriteAppends (Some self.old.taken) (Some self.new.taken) result piece.now }
        ensures sent { Some self.new.sent ≡ Some self.old.sent }
        ensures cause { HasCause self.old.faults self.new.faults result }
        ensures answer { WriteAnswers self.old (length piece.now) result }
        ensures next { self.new ≡ after_write self.old piece.now result }
    {
        raise(&mut self.writes);
        let count = piece.len().min(self.step as usize);
        let fails = self.fail.as_slice().contains(&self.writes);
        if fails || self.taken.extend_from_slice(&piece[..count]).is_err() {
            raise(&mut self.faults);
            return Err(Failed);
        }
        Ok(count)
    }

    fn flush(&mut self) -> Result<(), Failed>
        ensures bytes { Keeps (Some self.old.taken) (Some self.new.taken) }
        ensures sent { OnOk result (Some self.new.sent ≡ Some self.new.taken) }
        ensures cause { HasCause self.old.faults self.new.faults result }
        ensures answer { result ≡ flush_answer self.old }
        ensures next { self.new ≡ after_flush self.old }
    {
        raise(&mut self.flushes);
        if lists_flush(&self.fail, self.flushes) {
            raise(&mut self.faults);
            return Err(Failed);
        }
        self.sent = self.taken.len();
        Ok(())
    }
}
