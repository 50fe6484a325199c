//! A journal on a disk: a record is there or it is not, whenever a crash comes.
#![tactic(auto)]

mod ahead;
mod faults;
mod frame;
mod journal;

pub use ahead::ReadAhead;
pub use faults::{AppendFault, JournalError};
pub use frame::Frame;
pub use journal::{Journal, fits};
