//! Documents by terms, listed by what ranks them: kept as scores and texts change, and searched.
#![tactic(auto)]

mod docs;
mod entries;
mod index;
mod search;
mod terms;

pub use index::Index;
