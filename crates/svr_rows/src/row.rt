ghost use Rattle.std.specs.Prelude.{◌≡◌, ◌<◌, ◌^◌, ℕ, filter_map, map, IfOk, IfErr, None, Some};
ghost use Rattle.svr_schema.specs.Lawful.{IsTable};
ghost use Rattle.svr_rows.specs.Kept.{bytes_at};
ghost use Rattle.svr_rows.specs.Rows.{HasId, bad_column, cell_in, cell_bytes, id_of, kinds_of, row_bytes, IsRowOf};

use crate::columns::bad_value;
use std::alloc::Global;
use svr_edge::{Items, Memory, Text};
use svr_num::DocId;
use svr_schema::{Cell, Table};

/// A row of a table: one cell for each column, the id first.
#[derive(Debug, Drop)]
pub struct Row {
    pub cells: Items<Cell>,
}

impl Row {
    /// The number in the first cell.
    pub fn id(&self) -> DocId
        requires { HasId self.now }
        ensures { result ≡ id_of self.now }
    {
        match self.cells.as_slice() {
            [Cell::Int(id), ..] => *id as DocId,
            _ => unreachable!(),
        }
    }

    /// How many bytes its texts have.
    pub(crate) fn text_bytes(&self) -> u64
        requires { row_bytes self.now < 2 ^ 64 }
        ensures { result ≡ row_bytes self.now }
    {
        self.cells
            .as_slice()
            .iter()
            .map(|cell| text_bytes(cell))
            .sum()
    }
}

/// How many bytes a cell's text has, 0 for a number.
fn text_bytes(cell: &Cell) -> u64
    ensures { result ≡ cell_bytes cell.now }
{
    match cell {
        Cell::Int(_) => 0,
        Cell::Text(text) => text.len() as u64,
    }
}

/// How many bytes the texts of a row have, 0 where there is none.
pub(crate) fn bytes_of(row: &Option<Row>) -> u64
    requires { bytes_at row.now < 2 ^ 64 }
    ensures { result ≡ bytes_at row.now }
{
    match row {
        Some(row) => row.text_bytes(),
        None => 0,
    }
}

/// A value that is given for a cell.
#[derive(Debug, Drop)]
pub enum Given {
    Int(i64),
    Text(Text),
    /// A value that fits no column.
    Other,
}

impl Given {
    fn into_cell(self) -> Option<Cell>
        ensures { result ≡ cell_in self }
    {
        match self {
            Given::Int(number) => Some(Cell::Int(number)),
            Given::Text(text) => Some(Cell::Text(text)),
            Given::Other => None,
        }
    }
}

/// Why values make no row.
#[derive(Clone, Copy, Debug, PartialEq, Eq)]
pub enum TypedRefusal {
    /// The first place at which a value is missing, superfluous or of another kind than the column; 0 for a negative id.
    BadRow { column: u8 },
    Memory,
}

impl From<Memory> for TypedRefusal {
    ghost use Rattle.std.specs.Prelude.{◌≡◌};
    ghost use Rattle.svr_rows.specs.declared.row.TypedRefusal.TheVariants as refusal;

    ghost from_gives = { λ _ why. why ≡ refusal.Memory };

    fn from(_memory: Memory) -> TypedRefusal {
        TypedRefusal::Memory
    }
}

/// Makes a row of the values that are given for it. Texts are moved, not copied.
pub fn typed_row(alloc: Global, table: &Table, given: Vec<Given>) -> Result<Row, TypedRefusal>
    requires { IsTable table.now }
    ensures cells { IfOk result (λ row. map Some row.cells ≡ map cell_in given.items) }
    ensures fits { IfOk result (IsRowOf (kinds_of table.now)) }
    ensures bad { IfErr result (λ why. (column : ℕ) → why ≡ TypedRefusal.BadRow column
        → bad_column (kinds_of table.now) (map cell_in given.items) ≡ Some column) }
    ensures memory { result ≡ Err TypedRefusal.Memory → bad_column (kinds_of table.now) (map cell_in given.items) ≡ None }
{
    if let Some(column) = bad_value(table.columns.as_slice(), given.as_slice()) {
        return Err(TypedRefusal::BadRow { column });
    }
    Ok(Row {
        cells: Items::from_vec(cells_of(alloc, given)?),
    })
}

/// The cells that values make, without those that make none.
fn cells_of(alloc: Global, given: Vec<Given>) -> Result<Vec<Cell>, Memory>
    ensures { IfOk result (λ cells. cells.items ≡ filter_map cell_in given.items) }
{
    let cells = given
        .into_iter()
        .filter_map(|value| value.into_cell())
        .collect(alloc)?;
    Ok(cells)
}
