ghost use Rattle.std.specs.Prelude.{◌≡◌, ◌<◌, Some, length};
ghost use Rattle.std.specs.Io.{ReadsAtMost};
ghost use Rattle.std.specs.Io.KnownBytes.{ReadConsumes};
ghost use Rattle.svr_edge.specs.Causes.{HasCause};
ghost use Rattle.svr_fakes.specs.Reads.{new_source, read_answer, after_read, filled};

use crate::counter::raise;
use std::marker::Model;
use svr_edge::{Failed, Source};

/// A source over bytes in memory. A read gives at most `step` bytes, and the reads whose numbers, from 1, were listed
/// fail.
#[derive(Drop)]
pub struct MemSource {
    bytes: Vec<u8>,
    at: usize,
    step: u32,
    fail: Vec<u64>,
    reads: u64,
    faults: u64,
}

impl Model for MemSource {
    ghost use Rattle.std.specs.Prelude.{◌<◌, ◌≤◌, length, drop};
    ghost use Rattle.svr_fakes.specs.Reads.{SourceState};

    ghost Value = { SourceState };

    ghost view = { λ s. record { left = drop s.at s.bytes.items; step = s.step; fail = s.fail.items; reads = s.reads; faults = s.faults } };

    ghost invariant = { λ s. (0 < s.step) × (s.at ≤ length s.bytes.items) };
}

impl MemSource {
    /// A source of all of `bytes`, which has not been read.
    pub fn new(bytes: Vec<u8>, step: u32, fail: Vec<u64>) -> MemSource
        requires { 0 < step }
        ensures { result ≡ new_source bytes.items step fail.items }
    {
        MemSource {
            bytes,
            at: 0,
            step,
            fail,
            reads: 0,
            faults: 0,
        }
    }
}

impl Source for MemSource {
    ghost left = { λ s. Some s.left };

    ghost faults = { λ s. s.faults };

    fn read(&mut self, into: &mut [u8]) -> Result<usize, Failed>
        ensures bound { ReadsAtMost result into.new }
        ensures bytes { ReadConsumes (Some self.old.left) (Some self.new.left) result into.new }
        ensures cause { HasCause self.old.faults self.new.faults result }
        ensures answer { result ≡ read_answer self.old (length into.old) }
        ensures given { into.new ≡ filled self.old into.old }
        ensures next { self.new ≡ after_read self.old (length into.old) }
    {
        raise(&mut self.reads);
        if self.fail.as_slice().contains(&self.reads) {
            raise(&mut self.faults);
            return Err(Failed);
        }
        let rest = &self.bytes[self.at..];
        let count = rest.len().min(into.len()).min(self.step as usize);
        into[..count].copy_from_slice(&rest[..count]);
        self.at += count;
        Ok(count)
    }
}
