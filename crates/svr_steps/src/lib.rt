//! Steps that calls take, counted at no cost: a bound on a count is proved, and nothing of it runs.
#![tactic(auto)]

mod steps;

pub use steps::Steps;
