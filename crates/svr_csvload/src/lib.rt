//! Rows that stand in a block of CSV.
#![tactic(auto)]

mod block;
mod record;
mod refusal;

pub use block::read_block;
pub use refusal::CsvRefusal;
