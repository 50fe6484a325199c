use crate::named::Named;
use svr_edge::{Items, Text};

/// What the cells of a column are.
#[derive(Clone, Copy, Debug, PartialEq, Eq)]
pub enum ColumnKind {
    /// Whole numbers in i64.
    Int,
    /// UTF-8 text.
    Text,
}

/// A column of a table.
#[derive(Drop)]
pub struct Column {
    pub name: Text,
    pub kind: ColumnKind,
}

/// A table. Its first column holds the ids of its rows.
#[derive(Drop)]
pub struct Table {
    pub name: Text,
    pub columns: Items<Column>,
}

impl Named for Column {
    ghost name_of = { λ column. column.name };

    fn name(&self) -> &Text {
        &self.name
    }
}

impl Named for Table {
    ghost name_of = { λ table. table.name };

    fn name(&self) -> &Text {
        &self.name
    }
}
