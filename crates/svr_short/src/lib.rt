//! The marks of documents under terms, which tell what posted lists don't.
#![tactic(auto)]

mod place;
mod short_lists;

pub use short_lists::ShortLists;
