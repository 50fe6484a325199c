//! The rows of a schema's tables: what a change makes of them, or why it is refused.
#![tactic(auto)]

mod change;
mod columns;
mod kept;
mod load;
mod row;
mod tables;

pub use change::{Change, RowRefusal};
pub use load::LoadRefusal;
pub use row::{Given, Row, TypedRefusal, typed_row};
pub use tables::{ALL_TEXT_BYTES, TABLE_ROWS, TEXT_BYTES, Tables};
