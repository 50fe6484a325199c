ghost use Rattle.std.specs.Prelude.{◌≡◌, ◌≤◌, ◌+◌, ◌↔◌, ◌∷◌, [], List, ℕ, length, take, drop, Contains, IfErr, IsTrue, OnOk};
ghost use Rattle.svr_edge.specs.Disk.{Reads};
ghost use Rattle.svr_journal.specs.Ahead.{Covers, IsAhead, piece_of};
ghost use Rattle.svr_journal.specs.Causes.{ReadsAlone};

use crate::faults::JournalError;
use std::alloc::Global;
use std::marker::Model;
use svr_edge::Disk;

/// A window of a disk that is read again and again in order: it is filled in large pieces. Contracts see what stands in it, and
/// the body that was found last.
#[derive(Drop)]
pub struct ReadAhead {
    at: u64,
    window: Vec<u8>,
    start: usize,
    end: usize,
}

impl Model for ReadAhead {
    ghost use Rattle.svr_journal.specs.Ahead.{Ahead};

    ghost Value = { Ahead };

    ghost use Rattle.svr_journal.specs.Window.{IsWindow, ahead_in};

    ghost view = { ahead_in };

    ghost invariant = { IsWindow };
}

/// How many bytes are read at once, where there are as many and no body is longer.
const WINDOW_BYTES: u64 = 1 << 16;

impl ReadAhead {
    /// Nothing was read. It takes no memory as yet.
    pub fn new(alloc: Global) -> ReadAhead
        ensures { result ≡ record { at = 0; bytes = []; body = [] } }
    {
        ReadAhead {
            at: 0,
            window: Vec::new(alloc),
            start: 0,
            end: 0,
        }
    }

    /// The body that was found last.
    pub fn body(&self) -> &[u8]
        ensures { result.now ≡ self.now.body }
    {
        &self.window[self.start..self.end]
    }

    /// Whether so many bytes from a place on are in the window.
    fn covers(&self, at: u64, count: u64) -> bool
        ensures { IsTrue result ↔ Covers self.now at count }
    {
        let length = self.window.len() as u64;
        self.at <= at && at - self.at <= length && count <= length - (at - self.at)
    }

    /// Reads the window again, from a place on.
    fn refill<D: Disk>(&mut self, disk: &mut D, at: u64, count: u64) -> Result<(), JournalError>
        requires { at + count ≤ (D.view disk.old).size }
        ensures ahead { IsAhead self.new (D.view disk.new) }
        ensures covers { OnOk result (Covers self.new at count) }
        ensures journal { IfErr result (λ e. Contains (JournalError.Device ∷ JournalError.Memory ∷ []) e) }
        ensures reads { ReadsAlone (D.view disk.old) (D.view disk.new) result }
    {
        self.start = 0;
        self.end = 0;
        self.at = at;
        read_window(disk, at, count, &mut self.window)
    }

    /// Sees to it that so many bytes from a place on are in the window.
    pub(crate) fn cover<D: Disk>(
        &mut self,
        disk: &mut D,
        at: u64,
        count: u64,
        size: u64,
    ) -> Result<(), JournalError>
        requires size { size ≡ (D.view disk.old).size }
        requires inside { at + count ≤ size }
        requires ahead { IsAhead self.old (D.view disk.old) }
        ensures ahead { IsAhead self.new (D.view disk.new) }
        ensures covers { OnOk result (Covers self.new at count) }
        ensures journal { IfErr result (λ e. Contains (JournalError.Device ∷ JournalError.Memory ∷ []) e) }
        ensures reads { ReadsAlone (D.view disk.old) (D.view disk.new) result }
    {
        if self.covers(at, count) {
            return Ok(());
        }
        let piece = count.max(WINDOW_BYTES.min(size - at));
        self.refill(disk, at, piece)
    }

    /// Bytes of the window.
    pub(crate) fn piece(&self, at: u64, count: u64) -> &[u8]
        requires { Covers self.now at count }
        ensures piece { result.now ≡ piece_of self.now at count }
        ensures count { length result.now ≡ count }
    {
        let start = (at - self.at) as usize;
        &self.window[start..start + count as usize]
    }

    /// Takes bytes of the window as the body.
    fn note_body(&mut self, at: u64, count: u64)
        requires { Covers self.old at count }
        ensures { self.new ≡ record self.old { body = piece_of self.old at count } }
    {
        self.start = (at - self.at) as usize;
        self.end = self.start + count as usize;
    }

    /// Finds the body of so many bytes from a place on.
    pub(crate) fn find_body<D: Disk>(
        &mut self,
        disk: &mut D,
        at: u64,
        count: u64,
        size: u64,
    ) -> Result<(), JournalError>
        requires size { size ≡ (D.view disk.old).size }
        requires inside { at + count ≤ size }
        requires ahead { IsAhead self.old (D.view disk.old) }
        ensures ahead { IsAhead self.new (D.view disk.new) }
        ensures body { (bytes : List ℕ) → Reads (D.view disk.old) bytes → OnOk result (self.new.body ≡ take count (drop at bytes)) }
        ensures count { OnOk result (length self.new.body ≡ count) }
        ensures journal { IfErr result (λ e. Contains (JournalError.Device ∷ JournalError.Memory ∷ []) e) }
        ensures reads { ReadsAlone (D.view disk.old) (D.view disk.new) result }
    {
        self.cover(disk, at, count, size)?;
        self.note_body(at, count);
        Ok(())
    }
}

/// Reads so many bytes from a place on, in place of those that are there. After `Err` there are none.
fn read_window<D: Disk>(
    disk: &mut D,
    at: u64,
    count: u64,
    window: &mut Vec<u8>,
) -> Result<(), JournalError>
    requires { at + count ≤ (D.view disk.old).size }
    ensures stand { (bytes : List ℕ) → Reads (D.view disk.old) bytes → window.new.items ≡ take (length window.new.items) (drop at bytes) }
    ensures count { OnOk result (length window.new.items ≡ count) }
    ensures journal { IfErr result (λ e. Contains (JournalError.Device ∷ JournalError.Memory ∷ []) e) }
    ensures reads { ReadsAlone (D.view disk.old) (D.view disk.new) result }
{
    window.clear();
    window.resize(count as usize, 0)?;
    match disk.read_at(at, window.as_mut_slice()) {
        Ok(()) => Ok(()),
        Err(_) => {
            window.clear();
            Err(JournalError::Device)
        }
    }
}
