use svr_edge::Text;
use svr_num::Aggregate;

/// The content of a row in one column.
#[derive(Debug, Drop)]
pub enum Cell {
    Int(i64),
    Text(Text),
}

/// Asks that one column of a row equals one value.
#[derive(Drop)]
pub struct Filter {
    /// The column's place in its table.
    pub column: u8,
    pub equals: Cell,
}

/// One part of a score: a number of the document, times a weight.
#[derive(Drop)]
pub enum Component {
    /// An int column of the document's own row.
    Own {
        column: u8,
        weight: i64,
    },
    /// A number made of the rows of another table whose column `by` holds the document's id and which pass the filter,
    /// if there is one.
    Over {
        how: Aggregate,
        /// The table's place in the schema.
        table: u8,
        /// The places of two int columns in that table. For `Count` there is no `column`, and it is 0.
        by: u8,
        column: u8,
        weight: i64,
        /// What stands in for the number where there is no row. For `Sum` and `Count` it is 0.
        empty: i64,
        filter: Option<Filter>,
    },
}
