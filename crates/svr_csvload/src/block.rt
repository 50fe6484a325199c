//! The rows of a block.
ghost use Rattle.std.specs.Prelude.{◌≡◌, ◌≤◌, ◌∷◌, [], ℕ, IfOk, IfErr, MatchBool, Ok, Err, length, map};
ghost use Rattle.csv.specs.Reading.{default_config, records, strip_bom};
ghost use Rattle.csv.specs.Records.{fields_of};
ghost use Rattle.svr_schema.specs.Lawful.{IsTable};
ghost use Rattle.svr_rows.specs.Rows.{kinds_of};
ghost use Rattle.svr_csvload.specs.Ahead.{IsBetween, ahead};
ghost use Rattle.svr_csvload.specs.Blocks.{AreRows, rows_in_block, rows_in_records};

use crate::record::read_row;
use crate::refusal::CsvRefusal;
use csv::{ByteRecord, ErrorKind, Reader, ReaderBuilder, Trim};
use std::alloc::Global;
use svr_edge::Memory;
use svr_rows::Row;
use svr_schema::{Column, Table};

/// The rows of a block of CSV (RFC 4180, as the `csv` crate reads it), in the order of its records: fields are parted by
/// commas and may stand in double quotes; lines end with CR, LF or both, and the last may end with the block; empty
/// lines are no records; a byte order mark at the front is left out. Where `header` is true the first record is dropped
/// unread. A block without records is no rows.
pub fn read_block(
    alloc: Global,
    table: &Table,
    bytes: &[u8],
    header: bool,
) -> Result<Vec<Row>, CsvRefusal>
    requires lawful { IsTable table.now }
    requires few { length bytes.now ≤ 8388608 }
    ensures rows { IfOk result (λ rows.
        AreRows (kinds_of table.now) (rows_in_block (kinds_of table.now) header bytes.now) rows.items) }
    ensures number { IfErr result (λ why. (n : ℕ) → why ≡ CsvRefusal.Number n
        → rows_in_block (kinds_of table.now) header bytes.now ≡ Err n) }
{
    let mut reader = block_reader(alloc, bytes);
    if header && !read_next(&mut reader, &mut ByteRecord::new(alloc))? {
        return Ok(Vec::new(alloc));
    }
    read_rows(alloc, table.columns.as_slice(), &mut reader)
}

/// The rows of the records that are ahead.
fn read_rows(
    alloc: Global,
    columns: &[Column],
    reader: &mut Reader<&[u8]>,
) -> Result<Vec<Row>, CsvRefusal>
    requires between { IsBetween reader.old }
    requires few { length (ahead reader.old) ≤ 8388608 }
    ensures rows { IfOk result (λ rows. AreRows (map (λ c. c.kind) columns.now)
        (rows_in_records (map (λ c. c.kind) columns.now) (ahead reader.old)) rows.items) }
    ensures number { IfErr result (λ why. (n : ℕ) → why ≡ CsvRefusal.Number n
        → rows_in_records (map (λ c. c.kind) columns.now) (ahead reader.old) ≡ Err n) }
{
    let mut record = ByteRecord::new(alloc);
    let mut rows = Vec::new(alloc);
    while read_next(reader, &mut record)? {
        match read_row(alloc, columns, &record)? {
            Some(row) => rows.push(row)?,
            None => return Err(CsvRefusal::Number(rows.len() as u32 + 1)),
        }
    }
    Ok(rows)
}

/// A reader in front of the first record of a block.
fn block_reader(alloc: Global, bytes: &[u8]) -> Reader<&[u8]>
    ensures between { IsBetween result }
    ensures records { ahead result ≡ records default_config (strip_bom bytes.now) }
{
    ReaderBuilder::new()
        .has_headers(false)
        .flexible(true)
        .trim(Trim::None)
        .from_reader(alloc, bytes)
}

/// Reads the next record, and answers whether there was one. Records may have any number of fields and are no texts, so
/// that no error is left but those of the reader underneath, which has its bytes at hand, and of memory.
fn read_next(reader: &mut Reader<&[u8]>, into: &mut ByteRecord) -> Result<bool, Memory>
    requires { IsBetween reader.old }
    ensures { IfOk result (λ found. MatchBool found
        (IsBetween reader.new × (ahead reader.old ≡ fields_of into.new ∷ ahead reader.new)) (ahead reader.old ≡ [])) }
{
    match reader.read_byte_record(into) {
        Ok(found) => Ok(found),
        Err(error) => match error.kind() {
            ErrorKind::Io(_) | ErrorKind::OutOfMemory => Err(Memory),
            ErrorKind::UnequalLengths { .. }
            | ErrorKind::Utf8 { .. }
            | ErrorKind::Serialize(_)
            | ErrorKind::Deserialize { .. } => unreachable!(),
        },
    }
}
