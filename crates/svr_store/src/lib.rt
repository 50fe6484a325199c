//! What is served, kept on a disk: each accepted change is a record of the disk's journal before it is answered.
#![tactic(auto)]

mod finding;
mod merges;
mod store;

pub use store::{Closed, Store};
