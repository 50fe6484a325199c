ghost use Rattle.std.specs.Prelude.{true, false, ◌≡◌, ◌⊎◌, ◌≤◌, ◌+◌, ◌^◌, ◌++◌, ◌∷◌, [], ℕ, List, length, take, drop, IfOk, OnOk, OnErr};
ghost use Rattle.svr_edge.specs.Disk.{IsSettled, IsTornImage, Leaves, MayWrite, ReadCause, Reads, Stays, WriteCause, Writes, traced};
ghost use Rattle.svr_fakes.specs.DiskCalls.{asked_next};
ghost use Rattle.svr_fakes.specs.Disks.{DoesLen, DoesRead, DoesSync, DoesWrite, IsCrash, after_ask, mem_laws, new_disk, view_of};
ghost use Rattle.svr_fakes.specs.Platter.{MayNote, noted, platter_of};

use crate::counter::raise;
use crate::disk_call::{Call, Count, DiskCall, Torn};
use crate::history::History;
use std::alloc::Global;
use std::marker::Model;
use svr_edge::{Disk, Failed, Memory};

/// Copies a part of some bytes.
fn copy_part(bytes: &[u8], from: usize, into: &mut [u8])
    requires { from + length into.old ≤ length bytes.now }
    ensures { into.new ≡ take (length into.old) (drop from bytes.now) }
{
    let (_, rest) = bytes.split_at(from);
    into.copy_from_slice(&rest[..into.len()]);
}

/// Notes a read, and answers whether memory sufficed.
fn note_read(history: &mut History, reads: &mut Vec<(u64, u64)>, at: u64, count: u64) -> bool
    ensures noted { result ≡ true → (history.new ≡ noted history.old Call.Read) × (reads.new.items ≡ reads.old.items ++ (at, count) ∷ []) }
    ensures not_noted { result ≡ false → (history.new ≡ history.old) × (reads.new.items ≡ reads.old.items) }
    ensures may { MayNote history.old history.new Call.Read }
    ensures read { (platter_of history.new).read ≡ (platter_of history.old).read }
{
    if reads.push((at, count)).is_err() {
        return false;
    }
    let noted = history.note(Call::Read);
    if !noted {
        let _ = reads.pop();
    }
    noted
}

/// A disk in memory. It keeps all its calls, and so what a crash at any moment leaves of it.
///
/// Calls are numbered from 1, each kind apart, and those whose kinds and numbers were listed fail. Want of memory is a call that fails
/// too; it is counted, and not kept. A failed write leaves the bytes as they are, but a crash may have made it.
#[derive(Drop)]
pub struct MemDisk {
    history: History,
    reads: Vec<(u64, u64)>,
    fail: Vec<(DiskCall, u64)>,
    len_calls: Count,
    read_calls: Count,
    write_calls: Count,
    sync_calls: Count,
    read_faults: u64,
    write_faults: u64,
}

impl Model for MemDisk {
    ghost use Rattle.svr_fakes.specs.Disks.{MemState};

    ghost Value = { MemState };

    ghost view = { λ d. record { past = d.history; reads = d.reads.items; fail = d.fail.items; len_calls = d.len_calls; read_calls = d.read_calls; write_calls = d.write_calls; sync_calls = d.sync_calls; read_faults = d.read_faults; write_faults = d.write_faults } };
}

impl MemDisk {
    /// A disk of these bytes, as after a sync that succeeded. What it takes comes from the allocator of `bytes`.
    pub fn new(bytes: Vec<u8>, fail: Vec<(DiskCall, u64)>) -> MemDisk
        ensures { result ≡ new_disk bytes.items fail.items }
    {
        MemDisk {
            reads: Vec::new(*bytes.allocator()),
            history: History::new(bytes),
            fail,
            len_calls: Count::NONE,
            read_calls: Count::NONE,
            write_calls: Count::NONE,
            sync_calls: Count::NONE,
            read_faults: 0,
            write_faults: 0,
        }
    }

    /// Makes the next call of this kind fail.
    pub fn fail_next(&mut self, kind: DiskCall)
        ensures { self.new ≡ after_ask self.old kind }
    {
        match kind {
            DiskCall::Len => self.len_calls.ask(),
            DiskCall::Read => self.read_calls.ask(),
            DiskCall::Write => self.write_calls.ask(),
            DiskCall::Sync => self.sync_calls.ask(),
        }
    }

    /// The reads so far, each by its place and its length, failed ones among them.
    pub fn reads(&self) -> &[(u64, u64)]
        ensures { result.now ≡ self.now.reads }
    {
        self.reads.as_slice()
    }

    /// How many calls of all kinds are kept, failed ones among them.
    pub fn calls(&self) -> u64
        ensures { result ≡ length self.now.past.calls }
    {
        self.history.calls() as u64
    }

    /// What a crash after the first so many calls leaves.
    pub fn crash(&self, alloc: Global, calls: u64, torn: Torn) -> Result<Vec<u8>, Memory>
        requires { calls ≤ length self.now.past.calls }
        ensures { IfOk result (λ image. IsCrash self.now calls torn image.items) }
    {
        Ok(self.history.crash(alloc, calls as usize, torn)?)
    }
}

impl Disk for MemDisk {
    ghost view = { view_of };

    ghost laws = { mem_laws };

    fn len(&mut self) -> Result<u64, Failed>
        ensures size { IfOk result (λ n. n ≡ (view_of self.old).size) }
        ensures stays { Stays (view_of self.old) (view_of self.new) }
        ensures trace { (view_of self.new).trace ≡ (view_of self.old).trace }
        ensures cause { ReadCause (view_of self.old) (view_of self.new) result }
        ensures does { DoesLen self.old self.new result }
    {
        let fails = self.len_calls.next(DiskCall::Len, self.fail.as_slice());
        let noted = self.history.note(Call::Len);
        if noted && !fails {
            return Ok(self.history.bytes().len() as u64);
        }
        raise(&mut self.read_faults);
        Err(Failed)
    }

    fn read_at(&mut self, at: u64, into: &mut [u8]) -> Result<(), Failed>
        requires { at + length into.old ≤ (view_of self.old).size }
        ensures bytes { OnOk result ((bytes : List ℕ) → Reads (view_of self.old) bytes → into.new ≡ take (length into.old) (drop at bytes)) }
        ensures stays { Stays (view_of self.old) (view_of self.new) }
        ensures trace { OnOk result ((view_of self.new).trace ≡ traced (view_of self.old).trace at (length into.old)) }
        ensures trace_failed { OnErr result (((view_of self.new).trace ≡ (view_of self.old).trace)
            ⊎ ((view_of self.new).trace ≡ traced (view_of self.old).trace at (length into.old))) }
        ensures cause { ReadCause (view_of self.old) (view_of self.new) result }
        ensures does { DoesRead self.old self.new at (length into.old) result }
    {
        let fails = self.read_calls.next(DiskCall::Read, self.fail.as_slice());
        let noted = note_read(&mut self.history, &mut self.reads, at, into.len() as u64);
        if noted && !fails {
            copy_part(self.history.bytes(), at as usize, into);
            return Ok(());
        }
        raise(&mut self.read_faults);
        Err(Failed)
    }

    fn write_at(&mut self, at: u64, bytes: &[u8]) -> Result<(), Failed>
        requires inside { at ≤ (view_of self.old).size }
        requires fits { at + length bytes.now ≤ 2 ^ 40 }
        ensures ok { OnOk result (Writes (view_of self.old) (view_of self.new) at bytes.now) }
        ensures err { OnErr result (MayWrite (view_of self.old) (view_of self.new) at (length bytes.now)) }
        ensures images { Leaves (view_of self.old) (view_of self.new) (IsTornImage (view_of self.old) at (length bytes.now)) }
        ensures cause { WriteCause (view_of self.old) (view_of self.new) result }
        ensures does { DoesWrite self.old self.new at bytes.now result }
    {
        let done = !self.write_calls.next(DiskCall::Write, self.fail.as_slice());
        let noted = self.history.note_write(at, bytes, done);
        if noted && done {
            return Ok(());
        }
        raise(&mut self.write_faults);
        Err(Failed)
    }

    fn sync(&mut self) -> Result<(), Failed>
        ensures settled { OnOk result (IsSettled (view_of self.new)) }
        ensures stays { Stays (view_of self.old) (view_of self.new) }
        ensures cause { WriteCause (view_of self.old) (view_of self.new) result }
        ensures does { DoesSync self.old self.new result }
    {
        let done = !self.sync_calls.next(DiskCall::Sync, self.fail.as_slice());
        let noted = self.history.note(Call::Sync { done });
        if noted && done {
            return Ok(());
        }
        raise(&mut self.write_faults);
        Err(Failed)
    }
}
