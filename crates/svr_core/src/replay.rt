ghost use Rattle.std.specs.Prelude.{◌≡◌, ◌≢◌, ◌+◌, ◌<◌, ◌≤◌, ◌^◌, ℕ, List, None, Some, Err, IfOk, OnOk};
ghost use Rattle.svr_edge.specs.Disk.{Reads};
ghost use Rattle.svr_journal.specs.Causes.{ReadsAlone};
ghost use Rattle.svr_record.specs.Bodies.{body_of};
ghost use Rattle.svr_record.specs.Grammar.{record_in};
ghost use Rattle.svr_record.specs.Limits.{IsRecord};
ghost use Rattle.svr_core.specs.Kept.{ServesAs};
ghost use Rattle.svr_core.specs.Replay.{IsAtFault, Replays};
ghost use Rattle.svr_core.specs.State.{Served};
ghost use Rattle.svr_core.specs.Steps.{IsNext, RefusesBody, TakesBody, error_at, is_step};

use crate::served::Core;
use std::alloc::Global;
use svr_edge::{Disk, Memory};
use svr_journal::{Journal, JournalError, ReadAhead};
use svr_lists::SliceFault;
use svr_record::{Record, RecordFault, read_record};
use svr_request::Refusal;

/// Why a record that is read again isn't taken.
#[derive(Clone, Copy, Debug, PartialEq, Eq)]
pub(crate) enum ReplayFault {
    /// The body says no record, or one that isn't accepted in its place.
    Refused,
    Memory,
}

impl From<Memory> for ReplayFault {
    ghost use Rattle.std.specs.Prelude.{◌≡◌};
    ghost use Rattle.svr_core.specs.declared.replay.ReplayFault.TheVariants as fault;

    ghost from_gives = { λ _ why. why ≡ fault.Memory };

    fn from(_memory: Memory) -> ReplayFault {
        ReplayFault::Memory
    }
}

impl From<Refusal> for ReplayFault {
    ghost use Rattle.std.specs.Prelude.{◌≡◌};
    ghost use Rattle.svr_core.specs.Steps.{fault_of};

    ghost from_gives = { λ refusal why. why ≡ fault_of refusal };

    fn from(refusal: Refusal) -> ReplayFault {
        match refusal {
            Refusal::Memory => ReplayFault::Memory,
            _ => ReplayFault::Refused,
        }
    }
}

impl From<SliceFault> for ReplayFault {
    ghost use Rattle.std.specs.Prelude.{◌≡◌};
    ghost use Rattle.svr_core.specs.Steps.{fault_of_slice};

    ghost from_gives = { λ slice why. why ≡ fault_of_slice slice };

    fn from(slice: SliceFault) -> ReplayFault {
        match slice {
            SliceFault::BadSlice => ReplayFault::Refused,
            SliceFault::Memory => ReplayFault::Memory,
        }
    }
}

impl ReplayFault {
    /// The error of a journal whose record at this gate isn't taken.
    fn at(self, gate: u64) -> JournalError
        ensures { result ≡ error_at gate self }
    {
        match self {
            ReplayFault::Refused => JournalError::NotAJournal { at: gate },
            ReplayFault::Memory => JournalError::Memory,
        }
    }
}

/// The record that a body says.
fn record_of(alloc: Global, body: &[u8]) -> Result<Record, ReplayFault>
    ensures found { IfOk result (λ entry. record_in body.now ≡ Some entry) }
    ensures body { IfOk result (λ entry. body.now ≡ body_of entry) }
    ensures lawful { IfOk result IsRecord }
    ensures none { result ≡ Err ReplayFault.Refused → record_in body.now ≡ None }
{
    match read_record(alloc, body) {
        Ok(entry) => Ok(entry),
        Err(RecordFault::NotARecord) => Err(ReplayFault::Refused),
        Err(RecordFault::Memory) => Err(ReplayFault::Memory),
    }
}

/// Whether a record is a step of a merge.
fn is_step(entry: &Record) -> bool
    ensures { result ≡ is_step entry.now }
{
    match entry {
        Record::Begin | Record::Slice { .. } | Record::Publish => true,
        Record::Schema(_) | Record::Change(_) | Record::Load { .. } => false,
    }
}

impl Core {
    /// Makes the change of the record that a body says, which ends at this place. After `Err` the core is spent.
    fn take(&mut self, alloc: Global, end: u64, body: &[u8]) -> Result<(), ReplayFault>
        requires { self.old.changes + 1 < 2 ^ 64 }
        ensures taken { (before : List (List ℕ)) (s : Served) → IsNext before body.now end → ServesAs self.old s
            → OnOk result (TakesBody before s self.new body.now) }
        ensures refused { (before : List (List ℕ)) (s : Served) → IsNext before body.now end → ServesAs self.old s
            → result ≡ Err ReplayFault.Refused → RefusesBody before s body.now }
        ensures changes { OnOk result (self.new.changes ≤ self.old.changes + 1) }
    {
        let entry = record_of(alloc, body)?;
        if is_step(&entry) {
            return self.take_step(alloc, entry, end);
        }
        let edit = self.edit_of(alloc, entry)?;
        self.take_edit(alloc, edit)?;
        Ok(())
    }

    /// The same for the record at a gate, which the error names.
    fn take_at(
        &mut self,
        alloc: Global,
        gate: u64,
        end: u64,
        body: &[u8],
    ) -> Result<(), JournalError>
        requires { self.old.changes + 1 < 2 ^ 64 }
        ensures ok { (before : List (List ℕ)) (s : Served) → IsNext before body.now end → ServesAs self.old s
            → OnOk result (TakesBody before s self.new body.now) }
        ensures fault { (before : List (List ℕ)) (s : Served) (at : ℕ) → IsNext before body.now end → ServesAs self.old s
            → result ≡ Err (JournalError.NotAJournal at) → (at ≡ gate) × RefusesBody before s body.now }
        ensures device { result ≢ Err JournalError.Device }
    {
        match self.take(alloc, end, body) {
            Ok(()) => Ok(()),
            Err(fault) => Err(fault.at(gate)),
        }
    }

    /// What the records of a journal give, from its first gate on, which is read to its closed gate. A record that isn't accepted in
    /// its place is answered as `NotAJournal` at its gate. After `Err` the journal is spent.
    pub fn replay<D: Disk>(
        alloc: Global,
        disk: &mut D,
        journal: &mut Journal,
    ) -> Result<Core, JournalError>
        requires { journal.old ≡ record { end = 8; size = (D.view disk.old).size } }
        ensures ok { IfOk result (λ core. Replays (D.view disk.old) journal.new.end core) }
        ensures fault { (at : ℕ) (bytes : List ℕ) → result ≡ Err (JournalError.NotAJournal at) → Reads (D.view disk.old) bytes → IsAtFault bytes at }
        ensures inside { OnOk result (journal.new.end < (D.view disk.new).size) }
        // Each record takes more than one byte.
        ensures numbers { IfOk result (λ core. core.changes < journal.new.end) }
        ensures reads { ReadsAlone (D.view disk.old) (D.view disk.new) result }
    {
        let mut core = Core::empty();
        let mut ahead = ReadAhead::new(alloc);
        while let Some(address) = journal.next(disk, &mut ahead)? {
            core.take_at(alloc, address - 5, journal.end(), ahead.body())?;
        }
        Ok(core)
    }
}
