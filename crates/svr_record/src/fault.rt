//! Why no record was read.

ghost use Rattle.std.specs.Prelude.{◌≡◌};
ghost use Rattle.svr_record.specs.declared.fault.RecordFault.TheVariants as fault;

use std::alloc::{AllocError, AllocFailed};
use svr_edge::Memory;

/// Why no record was read.
#[derive(Clone, Copy, Debug, PartialEq, Eq)]
pub enum RecordFault {
    /// The bytes are outside the grammar.
    NotARecord,
    Memory,
}

impl From<Memory> for RecordFault {
    ghost from_gives = { λ _ why. why ≡ fault.Memory };

    fn from(_memory: Memory) -> RecordFault {
        RecordFault::Memory
    }
}

impl From<AllocError> for RecordFault {
    ghost from_gives = { λ _ why. why ≡ fault.Memory };

    fn from(_error: AllocError) -> RecordFault {
        RecordFault::Memory
    }
}

impl<T: Drop> From<AllocFailed<T>> for RecordFault {
    ghost from_gives = { λ _ why. why ≡ fault.Memory };

    fn from(_error: AllocFailed<T>) -> RecordFault {
        RecordFault::Memory
    }
}
