use std::alloc::AllocError;
use svr_edge::Failed;

/// Why a record was not appended.
#[derive(Clone, Copy, Debug, PartialEq, Eq)]
pub enum AppendFault {
    /// A write or a sync failed. The record may be there or not.
    Write,
    /// The journal has no room for it. Nothing was written.
    Full,
}

impl From<Failed> for AppendFault {
    ghost use Rattle.std.specs.Prelude.{◌≡◌};
    ghost use Rattle.svr_journal.specs.declared.faults.AppendFault.TheVariants as fault;

    ghost from_gives = { λ _ why. why ≡ fault.Write };

    fn from(_failed: Failed) -> AppendFault {
        AppendFault::Write
    }
}

/// Why a journal can't be read.
#[derive(Clone, Copy, Debug, PartialEq, Eq)]
pub enum JournalError {
    /// The disk failed.
    Device,
    /// The disk holds no journal: this place is at fault.
    NotAJournal { at: u64 },
    Memory,
}

impl From<Failed> for JournalError {
    ghost use Rattle.std.specs.Prelude.{◌≡◌};
    ghost use Rattle.svr_journal.specs.declared.faults.JournalError.TheVariants as error;

    ghost from_gives = { λ _ why. why ≡ error.Device };

    fn from(_failed: Failed) -> JournalError {
        JournalError::Device
    }
}

impl From<AllocError> for JournalError {
    ghost use Rattle.std.specs.Prelude.{◌≡◌};
    ghost use Rattle.svr_journal.specs.declared.faults.JournalError.TheVariants as error;

    ghost from_gives = { λ _ why. why ≡ error.Memory };

    fn from(_error: AllocError) -> JournalError {
        JournalError::Memory
    }
}
