//! Records of changes as bytes, both ways: what the body of a record is, and which record a body says.
#![tactic(auto)]

mod change;
mod fault;
mod number;
mod read;
mod record;
mod row;
mod slice;
mod text;
mod write;

pub use fault::RecordFault;
pub use read::read_record;
pub use record::{Record, TermPages};
pub use write::{write_change, write_load, write_record, write_record_into, write_schema};
