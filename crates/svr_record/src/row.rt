ghost use Rattle.std.specs.Prelude.{◌≡◌, ◌++◌, ◌<◌, ◌^◌, OnOk};
ghost use Rattle.svr_record.specs.Bodies.{cell_body, row_body};
ghost use Rattle.svr_record.specs.Grammar.{begins_with_id, row_in};
ghost use Rattle.svr_record.specs.Limits.{CellFits, IsCell, IsRow, RowFits};
ghost use Rattle.svr_record.specs.Reading.{Gives, cell_at, int_cell_at, many_at, text_cell_at};

use crate::fault::RecordFault;
use crate::number::{long_number, number};
use crate::text::text;
use std::alloc::Global;
use svr_edge::{Items, Memory};
use svr_rows::Row;
use svr_schema::Cell;

/// A cell's number, and the bytes behind it.
#[tactic(auto, unfolding(crate::specs::Reading::int_cell_at))]
fn int_cell(bytes: &[u8]) -> Result<(Cell, &[u8]), RecordFault>
    ensures { Gives (λ x. (x.0, x.1.now)) result (int_cell_at bytes.now) }
{
    let (number, rest) = long_number(bytes)?;
    Ok((Cell::Int(number.cast_signed()), rest))
}

/// A cell's text, and the bytes behind it.
#[tactic(auto, unfolding(crate::specs::Reading::text_cell_at))]
fn text_cell(alloc: Global, bytes: &[u8]) -> Result<(Cell, &[u8]), RecordFault>
    ensures { Gives (λ x. (x.0, x.1.now)) result (text_cell_at bytes.now) }
{
    let (count, rest) = number(bytes)?;
    if count > 65_536 {
        return Err(RecordFault::NotARecord);
    }
    let (text, rest) = text(alloc, rest, count as usize)?;
    Ok((Cell::Text(text), rest))
}

/// A cell, and the bytes behind it.
#[tactic(auto, unfolding(crate::specs::Reading::cell_at))]
fn cell(alloc: Global, bytes: &[u8]) -> Result<(Cell, &[u8]), RecordFault>
    ensures { Gives (λ x. (x.0, x.1.now)) result (cell_at bytes.now) }
{
    match bytes {
        [0, rest @ ..] => int_cell(rest),
        [1, rest @ ..] => text_cell(alloc, rest),
        _ => Err(RecordFault::NotARecord),
    }
}

/// So many cells, and the bytes behind them.
fn cells(alloc: Global, count: u8, bytes: &[u8]) -> Result<(Vec<Cell>, &[u8]), RecordFault>
    ensures { Gives (λ x. (x.0.items, x.1.now)) result (many_at cell_at count bytes.now) }
{
    let mut cells = Vec::new(alloc);
    let mut rest = bytes;
    for _ in 0..count {
        let (cell, after) = cell(alloc, rest)?;
        cells.push(cell)?;
        rest = after;
    }
    Ok((cells, rest))
}

/// Whether the first cell is a number that isn't negative.
fn begins_with_id(cells: &[Cell]) -> bool
    ensures { result ≡ begins_with_id cells.now }
{
    match cells {
        [Cell::Int(number), ..] => *number >= 0,
        _ => false,
    }
}

/// The row that all of these bytes are.
#[tactic(auto, unfolding(crate::specs::Grammar::row_in))]
pub(crate) fn row(alloc: Global, bytes: &[u8]) -> Result<Row, RecordFault>
    ensures { Gives (λ row. row) result (row_in bytes.now) }
{
    let [count, rest @ ..] = bytes else {
        return Err(RecordFault::NotARecord);
    };
    if *count > 8 {
        return Err(RecordFault::NotARecord);
    }
    let (cells, rest) = cells(alloc, *count, rest)?;
    if !rest.is_empty() || !begins_with_id(cells.as_slice()) {
        return Err(RecordFault::NotARecord);
    }
    Ok(Row {
        cells: Items::from_vec(cells),
    })
}

/// Appends a cell.
fn put_cell(out: &mut Vec<u8>, cell: &Cell) -> Result<(), Memory>
    requires { CellFits cell.now }
    ensures is_cell { OnOk result (IsCell cell.now) }
    ensures body { OnOk result (out.new.items ≡ out.old.items ++ cell_body cell.now) }
{
    match cell {
        Cell::Int(number) => {
            out.push(0)?;
            out.extend_from_slice(&number.to_be_bytes())?;
        }
        Cell::Text(text) => {
            out.push(1)?;
            out.extend_from_slice(&(text.len() as u32).to_be_bytes())?;
            out.extend_from_slice(text.as_str().as_bytes())?;
        }
    }
    Ok(())
}

/// Appends a row.
pub(crate) fn put_row(out: &mut Vec<u8>, row: &Row) -> Result<(), Memory>
    requires { RowFits row.now }
    ensures is_row { OnOk result (IsRow row.now) }
    ensures body { OnOk result (out.new.items ≡ out.old.items ++ row_body row.now) }
{
    out.push(row.cells.len() as u8)?;
    for cell in row.cells.as_slice() {
        put_cell(out, cell)?;
    }
    Ok(())
}
