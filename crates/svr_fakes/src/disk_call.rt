ghost use Rattle.std.specs.Prelude.{◌≡◌, ◌↔◌, IsTrue, Contains};
ghost use Rattle.svr_fakes.specs.DiskCalls.{call_fails, after_count, asked_next, is_due};

use crate::counter::raise;
use svr_edge::Items;

/// A kind of call of a disk.
#[derive(Clone, Copy, PartialEq, Eq)]
pub enum DiskCall {
    Len,
    Read,
    Write,
    Sync,
}

/// A call that a disk in memory keeps. A write or a sync that isn't done has failed.
#[derive(Drop)]
pub enum Call {
    Len,
    Read,
    Write {
        at: u64,
        piece: Items<u8>,
        done: bool,
    },
    Sync {
        done: bool,
    },
}

/// What a crash makes of the writes since the last sync that succeeded, failed ones among them.
#[derive(Clone, Copy)]
pub enum Torn {
    /// None of them was made.
    Old,
    /// Each was made whole.
    New,
    /// Each byte of such a write is the one from the last sync, or the one that was written, or 7, as its place and this
    /// number together are 0, 1 or 2 modulo 3.
    Mixed(u8),
}

/// The calls of one kind: how many were made, and the number of the one that was asked to fail last, 0 for none.
#[derive(Clone, Copy)]
pub struct Count {
    made: u64,
    asked: u64,
}

impl Count {
    /// No call was made, and none is asked to fail.
    pub const NONE: Count = Count { made: 0, asked: 0 };

    /// Counts a call of this kind, and answers whether it has to fail.
    pub fn next(&mut self, kind: DiskCall, fail: &[(DiskCall, u64)]) -> bool
        ensures answer { result ≡ call_fails fail.now kind self.old }
        ensures next { self.new ≡ after_count self.old }
    {
        raise(&mut self.made);
        is_listed(fail, kind, self.made) || self.made == self.asked
    }

    /// Asks the next call to fail.
    pub fn ask(&mut self)
        ensures { self.new ≡ asked_next self.old }
    {
        self.asked = self.made.saturating_add(1);
    }
}

/// Whether the call of this kind and number is listed.
fn is_listed(fail: &[(DiskCall, u64)], kind: DiskCall, number: u64) -> bool
    ensures { result ≡ is_due fail.now kind number }
{
    fail.iter().any(|call| call.0 == kind && call.1 == number)
}
