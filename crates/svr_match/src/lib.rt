//! Groups of several lists put together: the ids that stand in all of them, or in any.
#![tactic(auto)]

mod all_of;
mod any_of;
mod joined;
mod taking;

pub use all_of::AllOf;
pub use any_of::AnyOf;
