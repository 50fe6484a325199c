use crate::row::Row;
use svr_num::DocId;

/// A change of one row. Tables go by their place in the schema.
#[derive(Debug, Drop)]
pub enum Change {
    /// Adds a row whose id isn't there.
    Insert { table: u8, row: Row },
    /// Replaces the row that has the id of this one.
    Update { table: u8, row: Row },
    /// Takes out the row with the id.
    Delete { table: u8, id: DocId },
}

/// Why a change is refused, in the order in which it is tested.
#[derive(Clone, Copy, Debug, PartialEq, Eq)]
pub enum RowRefusal {
    /// No table has this place.
    NoTable,
    /// The first place at which a cell is missing, superfluous or of another kind than the column; 0 for a negative id.
    BadRow { column: u8 },
    /// The first place at which a text has more than `TEXT_BYTES` bytes.
    TextTooLong { column: u8 },
    /// An insert of an id that is there.
    KeyExists,
    /// An update or a delete of an id that isn't there.
    NoRow,
    /// An insert into a table of `TABLE_ROWS` rows.
    TableFull,
    /// All texts after the change would have more than `ALL_TEXT_BYTES` bytes.
    TextFull,
}
