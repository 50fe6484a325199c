//! Pages read from a disk: a cache of them, and the reader over both.
#![tactic(auto)]

mod pages;
mod reader;

pub use pages::Pages;
pub use reader::Reader;
