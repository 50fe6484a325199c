ghost use Rattle.std.specs.Prelude.{◌≡◌};
ghost use Rattle.svr_iter.specs.declared.fault.ScanFault.TheVariants as ScanFault;

use svr_edge::Memory;
use svr_postpage::PageFault;

/// Why a search came to no end. It is over then, and what gave its groups is dropped.
#[derive(Clone, Copy, Debug, PartialEq, Eq)]
pub enum ScanFault {
    Page(PageFault),
    Memory,
}

impl From<Memory> for ScanFault {
    ghost from_gives = { λ _ fault. fault ≡ ScanFault.Memory };

    fn from(_memory: Memory) -> ScanFault {
        ScanFault::Memory
    }
}
