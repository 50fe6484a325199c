//! What a schema says of a score: which rows a filter lets pass, and how the components' values are weighed.
#![tactic(auto)]

mod filter;
mod weights;

pub use filter::passes;
pub use weights::weighted;
