//! The program's standard input and output, as a source and a sink, and a file, as a disk. Nothing below is known of the
//! bytes: what these few calls of the runtime do is trusted.
#![tactic(auto)]

mod disk;
mod sink;
mod source;

pub use disk::FileDisk;
pub use sink::StdSink;
pub use source::StdSource;
