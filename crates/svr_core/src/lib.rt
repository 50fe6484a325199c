//! What is served: a schema, rows and lists; what requests come to over them, and what a journal's records give again.
#![tactic(auto)]

mod loads;
mod merges;
mod plan;
mod plans;
mod queries;
mod refusals;
mod replay;
mod served;
mod tables;

pub use crate::plan::{Edit, Entry, Plan, Step};
pub use crate::queries::Query;
pub use crate::served::Core;
