//! A merge between its begin and its publish: its method, the new keys of documents, and the pages that were sliced.
#![tactic(auto)]

mod method;
mod pages;
mod run;
mod scores;

pub use method::method_for;
pub use run::MergeRun;
