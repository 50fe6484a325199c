//! The rows of one table.
ghost use Rattle.std.specs.Prelude.{◌≡◌, ◌≤◌, ◌<◌, ℕ, length, map, false, IfOk, IfErr, OnOk, OnErr, Some, None, option_map};
ghost use Rattle.svr_rows.specs.Rows.{HasId, TableRows, has_row, id_of, kinds_of, no_rows, row_after, row_at, row_bytes, with_row, without_row};
ghost use Rattle.svr_rows.specs.Changes.{new_refusal, row_refusal, with_rows_of};
ghost use Rattle.svr_schema.specs.Lawful.{IsTable};

use crate::change::RowRefusal;
use crate::columns::{bad_cell, long_text};
use crate::row::Row;
use crate::tables::TABLE_ROWS;
use std::alloc::Global;
use std::marker::Model;
use svr_edge::Memory;
use svr_idmap::IdMap;
use svr_num::DocId;
use svr_schema::{ColumnKind, Table};

/// A table's rows by their ids, with the kinds of its columns.
#[derive(Drop)]
pub struct KeptTable {
    kinds: Vec<ColumnKind>,
    rows: IdMap<Row>,
}

impl Model for KeptTable {
    ghost use Rattle.svr_rows.specs.Rows.{TableRows};

    ghost Value = { TableRows };

    ghost use Rattle.svr_rows.specs.Kept.{IsKept, kept_rows};

    ghost view = { λ t. kept_rows t.kinds.items t.rows };

    ghost invariant = { λ t. IsKept t.kinds.items t.rows };
}

fn kinds(alloc: Global, table: &Table) -> Result<Vec<ColumnKind>, Memory>
    ensures { IfOk result (λ kinds. kinds.items ≡ kinds_of table.now) }
{
    let kinds = table
        .columns
        .as_slice()
        .iter()
        .map(|column| column.kind)
        .collect(alloc)?;
    Ok(kinds)
}

impl KeptTable {
    /// The table without rows.
    pub fn new(alloc: Global, table: &Table) -> Result<KeptTable, Memory>
        requires { IsTable table.now }
        ensures { IfOk result (λ kept. kept ≡ no_rows table.now) }
    {
        Ok(KeptTable {
            kinds: kinds(alloc, table)?,
            rows: IdMap::new(alloc),
        })
    }

    pub fn row(&self, id: DocId) -> Option<&Row>
        ensures { option_map (λ row. row.now) result ≡ row_at self.now.rows id }
    {
        self.rows.get(id)
    }

    /// The row of the least id above the given one, or of all.
    pub fn next(&self, after: Option<DocId>) -> Option<&Row>
        ensures { option_map (λ row. row.now) result ≡ row_after self.now.rows after }
    {
        match self.rows.next(after) {
            Some((_, row)) => Some(row),
            None => None,
        }
    }

    pub fn has(&self, id: DocId) -> bool
        ensures { result ≡ has_row self.now.rows id }
    {
        self.rows.get(id).is_some()
    }

    pub fn len(&self) -> usize
        ensures value { result ≡ length self.now.rows }
        ensures few { result ≤ TABLE_ROWS }
    {
        self.rows.len()
    }

    /// Tests whether the row is one of this table's columns, without a long text.
    pub fn check_row(&self, row: &Row) -> Result<(), RowRefusal>
        ensures ok { OnOk result (row_refusal self.now row.now ≡ None) }
        ensures refused { IfErr result (λ why. row_refusal self.now row.now ≡ Some why) }
        ensures has_id { OnOk result (HasId row.now) }
        ensures bytes { OnOk result (row_bytes row.now ≤ 524288) }
    {
        let cells = row.cells.as_slice();
        if let Some(column) = bad_cell(self.kinds.as_slice(), cells) {
            return Err(RowRefusal::BadRow { column });
        }
        if let Some(column) = long_text(cells) {
            return Err(RowRefusal::TextTooLong { column });
        }
        Ok(())
    }

    /// Tests whether a row with the id may be added.
    pub fn check_new(&self, id: DocId) -> Result<(), RowRefusal>
        ensures ok { OnOk result (new_refusal self.now id ≡ None) }
        ensures refused { IfErr result (λ why. new_refusal self.now id ≡ Some why) }
    {
        if self.has(id) {
            return Err(RowRefusal::KeyExists);
        }
        if self.len() >= TABLE_ROWS {
            return Err(RowRefusal::TableFull);
        }
        Ok(())
    }

    /// Adds the row, or puts it in the place of the one that has its id.
    pub fn put(&mut self, row: Row) -> Result<Option<Row>, Memory>
        requires fits { row_refusal self.old row ≡ None }
        requires room { has_row self.old.rows (id_of row) ≡ false → length self.old.rows < 262144 }
        ensures changed { OnOk result (self.new ≡ with_rows_of self.old (with_row self.old.rows row)) }
        ensures before { IfOk result (λ before. before ≡ row_at self.old.rows (id_of row)) }
        ensures err { OnErr result (self.new ≡ self.old) }
    {
        let before = self.rows.insert(row.id(), row)?;
        Ok(before)
    }

    pub fn remove(&mut self, id: DocId) -> Option<Row>
        ensures changed { self.new ≡ with_rows_of self.old (without_row self.old.rows id) }
        ensures before { result ≡ row_at self.old.rows id }
    {
        self.rows.remove(id)
    }
}
