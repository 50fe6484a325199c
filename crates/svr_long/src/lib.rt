//! The pages of each term, and the posted pairs of one term from its pages, group by group.
#![tactic(auto)]

mod buffer;
mod cursor;
mod heads;
mod lists;

pub use cursor::LongCursor;
pub use heads::are_heads;
pub use lists::LongLists;
