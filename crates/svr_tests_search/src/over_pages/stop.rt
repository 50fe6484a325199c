use std::alloc::AllocError;
use svr_edge::Memory;
use svr_iter::ScanFault;

/// Why a step was not made.
#[derive(Drop)]
pub enum Stop {
    /// A search ended so, or memory was wanting.
    Scan(ScanFault),
    /// What a call asks for did not hold.
    Barred,
    /// The index told something else than the plain listing.
    Differs,
}

impl From<ScanFault> for Stop {
    fn from(fault: ScanFault) -> Stop {
        Stop::Scan(fault)
    }
}

impl From<Memory> for Stop {
    fn from(_memory: Memory) -> Stop {
        Stop::Scan(ScanFault::Memory)
    }
}

impl From<AllocError> for Stop {
    fn from(_error: AllocError) -> Stop {
        Stop::Scan(ScanFault::Memory)
    }
}
