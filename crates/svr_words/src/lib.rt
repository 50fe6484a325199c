//! What the words of the command line ask for.
#![tactic(auto)]

mod command;
mod fault;
mod read;
mod words;

pub use fault::WordsFault;
pub use read::read_words;
pub use words::Words;
