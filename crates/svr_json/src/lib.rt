//! Parts of JSON values: the members of an object, the elements of an array.
#![tactic(auto)]

mod array;
mod object;

pub use array::elements;
pub use object::{has_members, has_only, text_at};
