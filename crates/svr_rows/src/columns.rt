//! Where cells fit no columns, or are too long.
ghost use Rattle.std.specs.Prelude.{◌≡◌, ◌≤◌, ◌<◌, ◌==◌, if◌then◌else◌, length, map, min, nat_lt, zip, position, Some, None, IfSome};
ghost use Rattle.std.specs.Option.{option_or};
ghost use Rattle.svr_rows.specs.Rows.{bad_column, begins_negative, cell_bytes, cell_in, fits, long_text_from};

use crate::row::Given;
use crate::tables::TEXT_BYTES;
use svr_schema::{Cell, Column, ColumnKind};

fn value_fits(value: &Given, kind: ColumnKind) -> bool
    ensures { result ≡ fits (cell_in value.now) kind }
{
    matches!(
        (value, kind),
        (Given::Int(_), ColumnKind::Int) | (Given::Text(_), ColumnKind::Text)
    )
}

fn cell_fits(cell: &Cell, kind: ColumnKind) -> bool
    ensures { result ≡ fits (Some cell.now) kind }
{
    matches!(
        (cell, kind),
        (Cell::Int(_), ColumnKind::Int) | (Cell::Text(_), ColumnKind::Text)
    )
}

/// The place of the first misfit; where there is none and the lengths differ, the end of the shorter list.
fn first_fault(misfit: Option<usize>, columns: usize, cells: usize) -> Option<u8>
    requires few { columns ≤ 8 }
    requires within { IfSome misfit (λ place. place < columns) }
    ensures { result ≡ option_or misfit (if columns == cells then None else Some (min columns cells)) }
{
    if let Some(place) = misfit {
        return Some(place as u8);
    }
    (columns != cells).then_some(columns.min(cells) as u8)
}

fn values_begin_negative(values: &[Given]) -> bool
    ensures { result ≡ begins_negative (map cell_in values.now) }
{
    matches!(values, [Given::Int(..0), ..])
}

fn cells_begin_negative(cells: &[Cell]) -> bool
    ensures { result ≡ begins_negative (map Some cells.now) }
{
    matches!(cells, [Cell::Int(..0), ..])
}

/// The first place at which values make no row of the columns.
pub fn bad_value(columns: &[Column], values: &[Given]) -> Option<u8>
    requires { length columns.now ≤ 8 }
    ensures { result ≡ bad_column (map (λ c. c.kind) columns.now) (map cell_in values.now) }
{
    if values_begin_negative(values) {
        return Some(0);
    }
    let misfit = columns
        .iter()
        .zip(values)
        .position(|(column, value)| !value_fits(value, column.kind));
    first_fault(misfit, columns.len(), values.len())
}

/// The first place at which cells are no row of columns of these kinds.
pub fn bad_cell(kinds: &[ColumnKind], cells: &[Cell]) -> Option<u8>
    requires { length kinds.now ≤ 8 }
    ensures { result ≡ bad_column kinds.now (map Some cells.now) }
{
    if cells_begin_negative(cells) {
        return Some(0);
    }
    let misfit = kinds
        .iter()
        .zip(cells)
        .position(|(kind, cell)| !cell_fits(cell, *kind));
    first_fault(misfit, kinds.len(), cells.len())
}

fn is_too_long(cell: &Cell) -> bool
    ensures { result ≡ nat_lt TEXT_BYTES (cell_bytes cell.now) }
{
    match cell {
        Cell::Int(_) => false,
        Cell::Text(text) => text.len() > TEXT_BYTES,
    }
}

/// The first place at which a text has more than `TEXT_BYTES` bytes.
pub fn long_text(cells: &[Cell]) -> Option<u8>
    requires { length cells.now ≤ 8 }
    ensures { result ≡ long_text_from 0 cells.now }
{
    let place = cells.iter().position(|cell| is_too_long(cell))?;
    Some(place as u8)
}
