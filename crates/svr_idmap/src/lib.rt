//! Values by id.
#![tactic(auto)]

mod dense;
mod id_map;

pub use id_map::{DENSE_IDS, IdMap};
