ghost use Rattle.std.specs.Prelude.{◌≡◌, ◌<◌, ◌≤◌, ◌+◌, ℕ, [], ◌∷◌, length, map, slice_get, IfOk, IfErr, IfSome, MatchOption, OnOk, OnErr, Some, None, option_map};
ghost use Rattle.svr_schema.specs.Lawful.{IsSchema};
ghost use Rattle.svr_rows.specs.Rows.{HasId, IsRowOf, id_of, kinds_in, rows_above, rows_in, row_after, row_at, text_bytes, no_rows, with_row, without_row};
ghost use Rattle.svr_rows.specs.Changes.{changed, refusal_of, row_before, with_rows};
ghost use Rattle.svr_rows.specs.Kept.{CanPut};
ghost use Rattle.svr_rows.specs.Load.{IsAhead, refusal_beside};

use crate::change::{Change, RowRefusal};
use crate::kept::KeptTable;
use crate::load::Ahead;
use crate::row::{Row, bytes_of};
use std::alloc::Global;
use std::collections::BTreeSet;
use std::marker::Model;
use svr_edge::Memory;
use svr_num::DocId;
use svr_schema::Schema;

/// The most rows that a table has.
pub const TABLE_ROWS: usize = 262_144;

/// The longest text of a row, in bytes.
pub const TEXT_BYTES: usize = 65_536;

/// The most bytes that all texts have together.
pub const ALL_TEXT_BYTES: u64 = 67_108_864;

/// The rows of all tables. Contracts see, for each table in the schema's order, the kinds of its columns and its rows in
/// ascending order of id, each id once.
#[derive(Drop)]
pub struct Tables {
    tables: Vec<KeptTable>,
    /// What all texts have together.
    bytes: u64,
}

impl Model for Tables {
    ghost use Rattle.std.specs.Prelude.{List, All};
    ghost use Rattle.svr_rows.specs.Rows.{TableRows};

    ghost Value = { List TableRows };

    ghost use Rattle.svr_rows.specs.Kept.{CountsTexts, IsTableRows};

    ghost view = { λ t. t.tables.items };

    ghost invariant = { λ t. CountsTexts t.bytes t.tables.items × All IsTableRows t.tables.items };
}

impl Tables {
    /// Tables without rows.
    pub fn new(alloc: Global, schema: &Schema) -> Result<Tables, Memory>
        requires { IsSchema schema.now }
        ensures { IfOk result (λ tables. tables ≡ map no_rows schema.now.tables) }
    {
        let mut tables = Vec::new(alloc);
        for table in schema.tables.as_slice() {
            tables.push(KeptTable::new(alloc, table)?)?;
        }
        Ok(Tables { tables, bytes: 0 })
    }

    fn table(&self, table: u8) -> Result<&KeptTable, RowRefusal>
        ensures ok { IfOk result (λ kept. slice_get self.now table ≡ Some kept.now) }
        ensures refused { IfErr result (λ why. (why ≡ RowRefusal.NoTable) × (slice_get self.now table ≡ None)) }
    {
        self.tables.get(table as usize).ok_or(RowRefusal::NoTable)
    }

    /// Tests a change: the first refusal that holds.
    pub fn check(&self, change: &Change) -> Result<(), RowRefusal>
        ensures ok { OnOk result (refusal_of self.now change.now ≡ None) }
        ensures refused { IfErr result (λ why. refusal_of self.now change.now ≡ Some why) }
    {
        match change {
            Change::Insert { table, row } => self.check_insert(*table, row),
            Change::Update { table, row } => self.check_update(*table, row),
            Change::Delete { table, id } => self.check_delete(*table, *id),
        }
    }

    fn check_insert(&self, table: u8, row: &Row) -> Result<(), RowRefusal>
        ensures ok { OnOk result (refusal_of self.now (Change.Insert table row.now) ≡ None) }
        ensures refused { IfErr result (λ why. refusal_of self.now (Change.Insert table row.now) ≡ Some why) }
    {
        let kept = self.table(table)?;
        kept.check_row(row)?;
        kept.check_new(row.id())?;
        check_text(self.bytes + row.text_bytes())
    }

    /// What is ahead of the first row that is tested.
    pub(crate) fn none_ahead(&self, alloc: Global) -> Ahead
        ensures { (place : ℕ) → IsAhead self.now place [] result }
    {
        Ahead {
            ids: BTreeSet::new(alloc),
            bytes: self.bytes,
        }
    }

    /// Tests an insert after those of the rows ahead.
    pub(crate) fn check_beside(&self, table: u8, row: &Row, ahead: &Ahead) -> Result<(), RowRefusal>
        requires { ahead.now.bytes ≤ 67108864 }
        ensures ok { OnOk result (refusal_beside self.now table ahead.now row.now ≡ None) }
        ensures refused { IfErr result (λ why. refusal_beside self.now table ahead.now row.now ≡ Some why) }
        ensures has_id { OnOk result (HasId row.now) }
    {
        let kept = self.table(table)?;
        kept.check_row(row)?;
        ahead.check_new(kept, row.id())?;
        check_text(ahead.bytes + row.text_bytes())
    }

    fn check_update(&self, table: u8, row: &Row) -> Result<(), RowRefusal>
        ensures ok { OnOk result (refusal_of self.now (Change.Update table row.now) ≡ None) }
        ensures refused { IfErr result (λ why. refusal_of self.now (Change.Update table row.now) ≡ Some why) }
    {
        let kept = self.table(table)?;
        kept.check_row(row)?;
        let before = kept.row(row.id()).ok_or(RowRefusal::NoRow)?;
        check_text(self.bytes - before.text_bytes() + row.text_bytes())
    }

    fn check_delete(&self, table: u8, id: DocId) -> Result<(), RowRefusal>
        ensures ok { OnOk result (refusal_of self.now (Change.Delete table id) ≡ None) }
        ensures refused { IfErr result (λ why. refusal_of self.now (Change.Delete table id) ≡ Some why) }
    {
        let kept = self.table(table)?;
        if kept.has(id) {
            Ok(())
        } else {
            Err(RowRefusal::NoRow)
        }
    }

    /// Makes a change that `check` accepts, and answers the row that stood there.
    pub fn apply(&mut self, change: Change) -> Result<Option<Row>, Memory>
        requires { refusal_of self.old change ≡ None }
        ensures changed { OnOk result (self.new ≡ changed self.old change) }
        ensures before { IfOk result (λ before. before ≡ row_before self.old change) }
        ensures err { OnErr result (self.new ≡ self.old) }
    {
        match change {
            Change::Insert { table, row } | Change::Update { table, row } => self.put(table, row),
            Change::Delete { table, id } => Ok(self.remove(table, id)),
        }
    }

    fn put(&mut self, table: u8, row: Row) -> Result<Option<Row>, Memory>
        requires { CanPut self.old table row }
        ensures changed { OnOk result (self.new ≡ with_rows self.old table (with_row (rows_in self.old table) row)) }
        ensures before { IfOk result (λ before. before ≡ row_at (rows_in self.old table) (id_of row)) }
        ensures err { OnErr result (self.new ≡ self.old) }
    {
        let bytes = self.bytes + row.text_bytes();
        let before = self.tables[table as usize].put(row)?;
        self.bytes = bytes - bytes_of(&before);
        Ok(before)
    }

    /// Takes out the row with the id, if one is there, and answers it. It takes no memory.
    pub fn remove(&mut self, table: u8, id: DocId) -> Option<Row>
        requires { table < length self.old }
        ensures changed { self.new ≡ with_rows self.old table (without_row (rows_in self.old table) id) }
        ensures before { result ≡ row_at (rows_in self.old table) id }
    {
        let before = self.tables[table as usize].remove(id);
        self.bytes -= bytes_of(&before);
        before
    }

    /// The row with the id, `None` where there is none.
    pub fn row(&self, table: u8, id: DocId) -> Option<&Row>
        requires { table < length self.now }
        ensures value { option_map (λ row. row.now) result ≡ row_at (rows_in self.now table) id }
        ensures fits { IfSome result (λ row. IsRowOf (kinds_in self.now table) row.now) }
    {
        self.tables[table as usize].row(id)
    }

    /// The row of the least id above the given one, or of all; `None` where there is none. To go from `None` on by the id of
    /// each row that is answered meets every row of the table once, in ascending order: `walk` says so step by step. All
    /// steps together cost a look-up for each row and a pass over the places of ids that have none.
    pub fn next_row(&self, table: u8, after: Option<DocId>) -> Option<&Row>
        requires { table < length self.now }
        ensures value { option_map (λ row. row.now) result ≡ row_after (rows_in self.now table) after }
        ensures walk { let rows = rows_in self.now table in
            MatchOption result (rows_above rows after ≡ []) (λ row. rows_above rows after ≡ row.now ∷ rows_above rows (Some (id_of row.now))) }
        ensures fits { IfSome result (λ row. IsRowOf (kinds_in self.now table) row.now) }
        ensures has_id { IfSome result (λ row. HasId row.now) }
    {
        self.tables[table as usize].next(after)
    }

    /// How many rows a table has.
    pub fn count(&self, table: u8) -> u32
        requires { table < length self.now }
        ensures value { result ≡ length (rows_in self.now table) }
        ensures few { result ≤ TABLE_ROWS }
    {
        self.tables[table as usize].len() as u32
    }

    /// How many bytes all texts have.
    pub fn text_bytes(&self) -> u64
        ensures value { result ≡ text_bytes self.now }
        ensures few { result ≤ ALL_TEXT_BYTES }
    {
        self.bytes
    }
}

/// Tests how many bytes all texts would have.
fn check_text(bytes: u64) -> Result<(), RowRefusal>
    ensures ok { OnOk result (bytes ≤ 67108864) }
    ensures refused { IfErr result (λ why. (why ≡ RowRefusal.TextFull) × (67108864 < bytes)) }
{
    if bytes > ALL_TEXT_BYTES {
        return Err(RowRefusal::TextFull);
    }
    Ok(())
}
