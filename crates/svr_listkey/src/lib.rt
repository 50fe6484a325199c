//! Where each document is listed.
#![tactic(auto)]

mod list_keys;

pub use list_keys::ListKeys;
