//! A source, a sink and disks in memory which fail on demand, for tests and for runs that need no outside.
#![tactic(auto)]

mod counter;
mod disk;
mod disk_call;
mod flip;
mod history;
mod replay;
mod sink;
mod source;

pub use disk::MemDisk;
pub use disk_call::{DiskCall, Torn};
pub use flip::FlipDisk;
pub use sink::MemSink;
pub use source::MemSource;
