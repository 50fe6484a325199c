//! The values of counted rows, by component and document, and the one number that is made of them.
#![tactic(auto)]

mod by_id;
mod group;
mod groups;

pub use groups::Groups;
