ghost use Rattle.std.specs.Prelude.{◌≡◌, ◌++◌, OnOk};
ghost use Rattle.svr_record.specs.Bodies.{change_body};
ghost use Rattle.svr_record.specs.Grammar.{change_in, delete_in, id_in, insert_in, update_in};
ghost use Rattle.svr_record.specs.Limits.{ChangeFits, IsChange};
ghost use Rattle.svr_record.specs.Reading.{Gives};

use crate::fault::RecordFault;
use crate::number::long_number;
use crate::row::{put_row, row};
use std::alloc::Global;
use svr_edge::Memory;
use svr_num::DocId;
use svr_rows::Change;

/// The id that all of these bytes are.
#[tactic(auto, unfolding(crate::specs::Grammar::id_in))]
fn id(bytes: &[u8]) -> Result<DocId, RecordFault>
    ensures { Gives (λ id. id) result (id_in bytes.now) }
{
    let (id, rest) = long_number(bytes)?;
    if !rest.is_empty() || id >= 1 << 63 {
        return Err(RecordFault::NotARecord);
    }
    Ok(id)
}

#[tactic(auto, unfolding(crate::specs::Grammar::insert_in))]
fn insert(alloc: Global, table: u8, bytes: &[u8]) -> Result<Change, RecordFault>
    ensures { Gives (λ made. made) result (insert_in table bytes.now) }
{
    let row = row(alloc, bytes)?;
    Ok(Change::Insert { table, row })
}

#[tactic(auto, unfolding(crate::specs::Grammar::update_in))]
fn update(alloc: Global, table: u8, bytes: &[u8]) -> Result<Change, RecordFault>
    ensures { Gives (λ made. made) result (update_in table bytes.now) }
{
    let row = row(alloc, bytes)?;
    Ok(Change::Update { table, row })
}

#[tactic(auto, unfolding(crate::specs::Grammar::delete_in))]
fn delete(table: u8, bytes: &[u8]) -> Result<Change, RecordFault>
    ensures { Gives (λ made. made) result (delete_in table bytes.now) }
{
    let id = id(bytes)?;
    Ok(Change::Delete { table, id })
}

/// The change that all of these bytes are.
#[tactic(auto, unfolding(crate::specs::Grammar::change_in))]
pub(crate) fn change(alloc: Global, bytes: &[u8]) -> Result<Change, RecordFault>
    ensures { Gives (λ made. made) result (change_in bytes.now) }
{
    match bytes {
        [1, table, rest @ ..] => insert(alloc, *table, rest),
        [2, table, rest @ ..] => update(alloc, *table, rest),
        [3, table, rest @ ..] => delete(*table, rest),
        _ => Err(RecordFault::NotARecord),
    }
}

/// Appends a change.
pub(crate) fn put_change(out: &mut Vec<u8>, change: &Change) -> Result<(), Memory>
    requires { ChangeFits change.now }
    ensures is_change { OnOk result (IsChange change.now) }
    ensures body { OnOk result (out.new.items ≡ out.old.items ++ change_body change.now) }
{
    match change {
        Change::Insert { table, row } => {
            out.extend_from_slice(&[1, *table])?;
            put_row(out, row)
        }
        Change::Update { table, row } => {
            out.extend_from_slice(&[2, *table])?;
            put_row(out, row)
        }
        Change::Delete { table, id } => {
            out.extend_from_slice(&[3, *table])?;
            out.extend_from_slice(&id.to_be_bytes())?;
            Ok(())
        }
    }
}
