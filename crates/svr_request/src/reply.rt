use crate::refusal::Refusal;
use svr_topk::Answer;

/// What went wrong with the device, or after a change was stored.
#[derive(Clone, Copy, Debug, PartialEq, Eq)]
pub enum Fault {
    /// A page could not be read.
    Read,
    /// What stands at this address is not the page that should stand there.
    Damaged { page: u64 },
    /// A change could not be written.
    Write,
    /// Memory was wanting after a change was stored.
    Memory,
}

/// What is answered to a request.
#[derive(Drop)]
pub enum Reply {
    /// The number of the change, from 1.
    Accepted(u64),
    /// How many terms a merge has left.
    Left(u64),
    Found(Answer),
    Refused(Refusal),
    Faulted(Fault),
}
