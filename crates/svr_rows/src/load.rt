//! The inserts of many rows, tested before any is made.
ghost use Rattle.std.specs.Prelude.{◌≡◌, ◌≤◌, ◌+◌, ℕ, length, None, Some, IfErr, OnOk};
ghost use Rattle.svr_rows.specs.Rows.{HasId, row_bytes};
ghost use Rattle.svr_rows.specs.Changes.{load_refusal};
ghost use Rattle.svr_rows.specs.Load.{Adds, refusal_of_new};

use crate::change::RowRefusal;
use crate::kept::KeptTable;
use crate::row::Row;
use crate::tables::{TABLE_ROWS, Tables};
use std::alloc::Global;
use std::collections::BTreeSet;
use svr_edge::Memory;
use svr_num::DocId;

/// Why the inserts of rows are refused.
#[derive(Clone, Copy, Debug, PartialEq, Eq)]
pub enum LoadRefusal {
    /// The first row, counted from 1, that is refused after the inserts of those before it.
    At { number: u32, why: RowRefusal },
    Memory,
}

impl From<Memory> for LoadRefusal {
    ghost use Rattle.std.specs.Prelude.{◌≡◌};
    ghost use Rattle.svr_rows.specs.declared.load.LoadRefusal.TheVariants as refusal;

    ghost from_gives = { λ _ why. why ≡ refusal.Memory };

    fn from(_memory: Memory) -> LoadRefusal {
        LoadRefusal::Memory
    }
}

/// The rows whose inserts were accepted, ahead of the one that is tested.
#[derive(Drop)]
pub(crate) struct Ahead {
    pub ids: BTreeSet<DocId>,
    /// What all texts have after these inserts.
    pub bytes: u64,
}

impl Ahead {
    /// Tests whether a row with the id may be added to the table after these.
    pub fn check_new(&self, kept: &KeptTable, id: DocId) -> Result<(), RowRefusal>
        ensures ok { OnOk result (refusal_of_new kept.now self.now id ≡ None) }
        ensures refused { IfErr result (λ why. refusal_of_new kept.now self.now id ≡ Some why) }
    {
        if kept.has(id) || self.ids.contains(&id) {
            return Err(RowRefusal::KeyExists);
        }
        if kept.len() + self.ids.len() >= TABLE_ROWS {
            return Err(RowRefusal::TableFull);
        }
        Ok(())
    }

    fn add(&mut self, row: &Row) -> Result<(), Memory>
        requires has_id { HasId row.now }
        requires few { self.old.bytes + row_bytes row.now ≤ 67108864 }
        ensures { OnOk result (Adds self.old row.now self.new) }
    {
        self.ids.insert(row.id())?;
        self.bytes += row.text_bytes();
        Ok(())
    }
}

impl Tables {
    /// Tests the inserts of rows into a table, one after the other: the first row that is refused. The tables aren't
    /// copied: each row costs a search in its table and one in the ids of the rows before it.
    pub fn check_all(&self, alloc: Global, table: u8, rows: &[Row]) -> Result<(), LoadRefusal>
        requires { length rows.now ≤ 8388608 }
        ensures ok { OnOk result (load_refusal self.now table rows.now ≡ None) }
        ensures refused { IfErr result (λ why. (number : ℕ) → (reason : RowRefusal) → why ≡ LoadRefusal.At number reason
            → load_refusal self.now table rows.now ≡ Some (number, reason)) }
    {
        let mut ahead = self.none_ahead(alloc);
        for (index, row) in rows.iter().enumerate() {
            let number = index as u32 + 1;
            self.check_beside(table, row, &ahead)
                .map_err(|why| LoadRefusal::At { number, why })?;
            ahead.add(row)?;
        }
        Ok(())
    }
}
