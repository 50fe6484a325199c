use std::alloc::AllocFailed;
use svr_edge::Memory;

/// Why a block makes no rows.
#[derive(Clone, Copy, Debug, PartialEq, Eq)]
pub enum CsvRefusal {
    /// The first record, counted from 1, that is no row. A header isn't counted.
    Number(u32),
    Memory,
}

impl From<Memory> for CsvRefusal {
    ghost use Rattle.std.specs.Prelude.{◌≡◌};
    ghost use Rattle.svr_csvload.specs.declared.refusal.CsvRefusal.TheVariants as refusal;

    ghost from_gives = { λ _ why. why ≡ refusal.Memory };

    fn from(_memory: Memory) -> CsvRefusal {
        CsvRefusal::Memory
    }
}

impl<T: Drop> From<AllocFailed<T>> for CsvRefusal {
    ghost use Rattle.std.specs.Prelude.{◌≡◌};
    ghost use Rattle.svr_csvload.specs.declared.refusal.CsvRefusal.TheVariants as refusal;

    ghost from_gives = { λ _ why. why ≡ refusal.Memory };

    fn from(_error: AllocFailed<T>) -> CsvRefusal {
        CsvRefusal::Memory
    }
}
