//! The terms of a text: its words in default case folding, each once, ascending by their bytes.
#![tactic(auto)]

mod query;
mod terms;
mod words;

pub use query::{QUERY_TERMS, QueryRefusal, query_terms};
pub use terms::Tokens;
pub use words::{TERM_BYTES, tokens};
