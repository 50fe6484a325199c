//! The row that a record is.
ghost use Rattle.std.specs.Prelude.{◌≡◌, IfOk, map, option_map};
ghost use Rattle.csv.specs.Records.{fields_of};
ghost use Rattle.svr_csvload.specs.Blocks.{cells_in, field_cell, record_row};

use csv::ByteRecord;
use std::alloc::Global;
use std::str;
use svr_edge::{Items, Memory, Text};
use svr_num::read_int;
use svr_rows::Row;
use svr_schema::{Cell, Column, ColumnKind};

/// The row that a record is under the columns, if it is one.
pub fn read_row(
    alloc: Global,
    columns: &[Column],
    fields: &ByteRecord,
) -> Result<Option<Row>, Memory>
    ensures { IfOk result (λ row. row ≡ record_row (map (λ c. c.kind) columns.now) (fields_of fields.now)) }
{
    let Some(cells) = read_cells(alloc, columns, fields)? else {
        return Ok(None);
    };
    if let [Cell::Int(..0), ..] = cells.as_slice() {
        return Ok(None);
    }
    Ok(Some(Row {
        cells: Items::from_vec(cells),
    }))
}

/// A cell for each field, if there are as many fields as columns and each is a cell of its column.
fn read_cells(
    alloc: Global,
    columns: &[Column],
    fields: &ByteRecord,
) -> Result<Option<Vec<Cell>>, Memory>
    ensures { IfOk result (λ cells. option_map (λ v. v.items) cells ≡ cells_in (map (λ c. c.kind) columns.now) (fields_of fields.now)) }
{
    if fields.len() != columns.len() {
        return Ok(None);
    }
    let mut cells = Vec::with_capacity(alloc, columns.len())?;
    for (place, column) in columns.iter().enumerate() {
        let field = fields.get(place).unwrap();
        let Some(cell) = read_cell(alloc, column.kind, field)? else {
            return Ok(None);
        };
        cells.push(cell)?;
    }
    Ok(Some(cells))
}

/// The cell that a field is in a column of the kind, if it is one.
fn read_cell(alloc: Global, kind: ColumnKind, field: &[u8]) -> Result<Option<Cell>, Memory>
    ensures { IfOk result (λ cell. cell ≡ field_cell kind field.now) }
{
    match kind {
        ColumnKind::Int => Ok(read_int(field).map(|number| Cell::Int(number))),
        ColumnKind::Text => read_text(alloc, field),
    }
}

/// The cell that a field is in a column of texts, if it is UTF-8.
fn read_text(alloc: Global, field: &[u8]) -> Result<Option<Cell>, Memory>
    ensures { IfOk result (λ cell. cell ≡ field_cell ColumnKind.Text field.now) }
{
    match str::from_utf8(field) {
        Ok(text) => Ok(Some(Cell::Text(Text::new(alloc, text)?))),
        Err(_) => Ok(None),
    }
}
