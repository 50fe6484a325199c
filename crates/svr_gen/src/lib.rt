//! The workload of a number: requests that are made by draws from a generator.
#![tactic(auto)]

mod changes;
mod generate;
mod loads;
mod rows;
mod schema;
mod searches;
mod steps;
mod words;
mod writer;

pub use generate::workload;
