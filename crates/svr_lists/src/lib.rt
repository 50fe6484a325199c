//! The lists of documents by their terms: an index, and the merge that is begun beside it, if one is.
#![tactic(auto)]

mod change;
mod lists;
mod merge;
mod pages;
mod publish;
mod search;
mod slice;
mod taken;

pub use lists::Lists;
pub use publish::DocumentText;
pub use slice::Slice;
pub use taken::SliceFault;
