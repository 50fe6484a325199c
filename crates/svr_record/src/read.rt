ghost use Rattle.std.specs.Prelude.{◌≡◌, IfOk, Some};
ghost use Rattle.svr_record.specs.Bodies.{body_of};
ghost use Rattle.svr_record.specs.Grammar.{flag_in, load_in, record_in, schema_in};
ghost use Rattle.svr_record.specs.Limits.{IsRecord};
ghost use Rattle.svr_record.specs.Reading.{Gives};

use crate::change::change;
use crate::fault::RecordFault;
use crate::record::Record;
use crate::slice::slice;
use std::alloc::Global;
use svr_edge::Items;

/// The schema's text that all of these bytes are.
#[tactic(auto, unfolding(crate::specs::Grammar::schema_in))]
fn schema(alloc: Global, bytes: &[u8]) -> Result<Record, RecordFault>
    ensures { Gives (λ entry. entry) result (schema_in bytes.now) }
{
    if bytes.is_empty() || bytes.len() > 1_048_576 {
        return Err(RecordFault::NotARecord);
    }
    Ok(Record::Schema(Items::from_vec(Vec::from_slice(alloc, bytes)?)))
}

/// Whether a block's first line is a header.
fn flag(byte: u8) -> Result<bool, RecordFault>
    ensures { Gives (λ flag. flag) result (flag_in byte) }
{
    match byte {
        0 => Ok(false),
        1 => Ok(true),
        _ => Err(RecordFault::NotARecord),
    }
}

/// The load that all of these bytes are.
#[tactic(auto, unfolding(crate::specs::Grammar::load_in))]
fn load(alloc: Global, bytes: &[u8]) -> Result<Record, RecordFault>
    ensures { Gives (λ entry. entry) result (load_in bytes.now) }
{
    let [table, header, block @ ..] = bytes else {
        return Err(RecordFault::NotARecord);
    };
    let header = flag(*header)?;
    if block.len() > 8_388_608 {
        return Err(RecordFault::NotARecord);
    }
    Ok(Record::Load {
        table: *table,
        header,
        block: Items::from_vec(Vec::from_slice(alloc, block)?),
    })
}

/// The record that the body says, all of it.
#[tactic(auto, unfolding(crate::specs::Grammar::record_in))]
fn read(alloc: Global, body: &[u8]) -> Result<Record, RecordFault>
    ensures { Gives (λ entry. entry) result (record_in body.now) }
{
    match body {
        [1, text @ ..] => schema(alloc, text),
        [2, rest @ ..] => Ok(Record::Change(change(alloc, rest)?)),
        [3, rest @ ..] => load(alloc, rest),
        [4] => Ok(Record::Begin),
        [5, rest @ ..] => slice(alloc, rest),
        [6] => Ok(Record::Publish),
        _ => Err(RecordFault::NotARecord),
    }
}

/// The record that a body says. `NotARecord` comes exactly where no record within the limits has this body.
pub fn read_record(alloc: Global, body: &[u8]) -> Result<Record, RecordFault>
    // A record that was read has this body.
    ensures found { IfOk result (λ entry. IsRecord entry × (body.now ≡ body_of entry)) }
    // A record that has this body is the one that is read, unless memory is wanting.
    ensures only { (entry : Record) → IsRecord entry → body.now ≡ body_of entry → Gives (λ read. read) result (Some entry) }
    // What reading from left to right gives.
    ensures exact { Gives (λ read. read) result (record_in body.now) }
{
    read(alloc, body)
}
