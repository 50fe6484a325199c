//! Exact numbers: whole numbers divided and read, numbers as bytes, scores, and hits in the order of an answer. No call
//! takes memory.
#![tactic(auto)]

mod aggregate;
mod bytes;
mod digits;
mod hit;
mod list_key;
mod mode;
mod numbers;
mod score;

pub use aggregate::Aggregate;
pub use bytes::{get_u16, get_u32, get_u64, put_u16, put_u32, put_u64};
pub use digits::{read_digits, read_int};
pub use hit::{DocId, Hit, keep_best, rank_hits};
pub use list_key::ListKey;
pub use mode::Mode;
pub use numbers::floor_div;
pub use score::{SCORE_MAX, Score, Scores, clamp_score};
