ghost use Rattle.std.specs.Prelude.{◌≡◌, ◌++◌, ◌≤◌, IfOk, OnOk, Some, length};
ghost use Rattle.svr_record.specs.Bodies.{body_of};
ghost use Rattle.svr_record.specs.Grammar.{record_in};
ghost use Rattle.svr_record.specs.Limits.{ChangeFits, IsChange, IsRecord, IsSchemaText, RecordFits};

use crate::change::put_change;
use crate::record::Record;
use crate::slice::put_slice;
use std::alloc::Global;
use svr_edge::Memory;
use svr_rows::Change;

/// Appends the body of a schema's record.
fn put_schema(out: &mut Vec<u8>, text: &[u8]) -> Result<(), Memory>
    requires { IsSchemaText text.now }
    ensures { OnOk result (out.new.items ≡ out.old.items ++ body_of (Record.Schema text.now)) }
{
    out.reserve(text.len() + 1)?;
    out.push(1)?;
    out.extend_from_slice(text)?;
    Ok(())
}

/// Appends the body of a load.
fn put_load(out: &mut Vec<u8>, table: u8, header: bool, block: &[u8]) -> Result<(), Memory>
    requires { length block.now ≤ 8388608 }
    ensures { OnOk result (out.new.items ≡ out.old.items ++ body_of (Record.Load table header block.now)) }
{
    out.reserve(block.len() + 3)?;
    out.extend_from_slice(&[3, table, header as u8])?;
    out.extend_from_slice(block)?;
    Ok(())
}

/// The body of a schema's record.
pub fn write_schema(alloc: Global, text: &[u8]) -> Result<Vec<u8>, Memory>
    requires { IsSchemaText text.now }
    ensures body { IfOk result (λ out. out.items ≡ body_of (Record.Schema text.now)) }
    ensures is_record { IfOk result (λ _. IsRecord (Record.Schema text.now)) }
{
    let mut out = Vec::new(alloc);
    put_schema(&mut out, text)?;
    Ok(out)
}

/// The body of a change's record.
pub fn write_change(alloc: Global, change: &Change) -> Result<Vec<u8>, Memory>
    requires { ChangeFits change.now }
    ensures body { IfOk result (λ out. out.items ≡ body_of (Record.Change change.now)) }
    ensures is_record { IfOk result (λ _. IsRecord (Record.Change change.now)) }
{
    let mut out = Vec::new(alloc);
    put_change_record(&mut out, change)?;
    Ok(out)
}

/// The body of a load's record.
pub fn write_load(alloc: Global, table: u8, header: bool, block: &[u8]) -> Result<Vec<u8>, Memory>
    requires { length block.now ≤ 8388608 }
    ensures body { IfOk result (λ out. out.items ≡ body_of (Record.Load table header block.now)) }
    ensures is_record { IfOk result (λ _. IsRecord (Record.Load table header block.now)) }
{
    let mut out = Vec::new(alloc);
    put_load(&mut out, table, header, block)?;
    Ok(out)
}

/// Appends the body of a change's record.
fn put_change_record(out: &mut Vec<u8>, change: &Change) -> Result<(), Memory>
    requires { ChangeFits change.now }
    ensures is_change { OnOk result (IsChange change.now) }
    ensures body { OnOk result (out.new.items ≡ out.old.items ++ body_of (Record.Change change.now)) }
{
    out.push(2)?;
    put_change(out, change)
}

/// Appends a record's body, with the room for what is long in it taken at once.
pub fn write_record_into(out: &mut Vec<u8>, entry: &Record) -> Result<(), Memory>
    requires { RecordFits entry.now }
    // Its texts are UTF-8, and its numbers are in their types.
    ensures is_record { OnOk result (IsRecord entry.now) }
    ensures body { OnOk result (out.new.items ≡ out.old.items ++ body_of entry.now) }
{
    match entry {
        Record::Schema(text) => put_schema(out, text.as_slice())?,
        Record::Change(change) => put_change_record(out, change)?,
        Record::Load {
            table,
            header,
            block,
        } => put_load(out, *table, *header, block.as_slice())?,
        Record::Begin => out.push(4)?,
        Record::Slice { terms, pages } => put_slice(out, terms.as_slice(), pages.as_slice())?,
        Record::Publish => out.push(6)?,
    }
    Ok(())
}

/// A record's body.
pub fn write_record(alloc: Global, entry: &Record) -> Result<Vec<u8>, Memory>
    requires { RecordFits entry.now }
    ensures is_record { IfOk result (λ _. IsRecord entry.now) }
    ensures body { IfOk result (λ out. out.items ≡ body_of entry.now) }
    ensures read_again { IfOk result (λ out. record_in out.items ≡ Some entry.now) }
{
    let mut out = Vec::new(alloc);
    write_record_into(&mut out, entry)?;
    Ok(out)
}
