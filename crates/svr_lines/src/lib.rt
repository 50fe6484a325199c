//! The lines and counted blocks of an input that comes in pieces of any size.
#![tactic(auto)]

mod buffer;
mod lines;

pub use lines::{BLOCK_BYTES, BlockEnd, InputStop, LINE_BYTES, Lines, Piece};
