//! A schema, the rows of its tables, and what is kept beside them for searches: scores, and lists of documents.
#![tactic(auto)]

mod catalog;
mod contents;
mod documents;
mod follow;
mod merge;
mod search;

pub use catalog::Catalog;
