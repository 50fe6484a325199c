//! Schemas: which tables there are, and how a document's score comes from their rows.
#![tactic(auto)]

mod component;
mod error;
mod lookup;
mod method;
mod named;
mod parts;
mod read_component;
mod read_method;
mod read_table;
mod schema;
mod table;

pub use component::{Cell, Component, Filter};
pub use error::SchemaError;
pub use method::MethodSpec;
pub use schema::{Schema, read_schema};
pub use table::{Column, ColumnKind, Table};
