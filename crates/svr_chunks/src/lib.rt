//! Chunks of scores: their bounds, the method by which documents are listed at the chunk of their score, and one enum of all methods.
//! No call takes memory.
#![tactic(auto)]

mod bounds;
mod chosen;
mod chunk;
mod passing;

pub use bounds::{Bounds, bounds_of, chunk_of};
pub use chosen::Chosen;
pub use chunk::ChunkMethod;
