//! What rows count for components.
ghost use Rattle.std.specs.Prelude.{◌≡◌, ◌≤◌, ◌<◌, ◌^◌, ◌==◌, ℕ, length, option_map, false, IfOk, OnOk};
ghost use Rattle.std.specs.BTreeSet.{contains};
ghost use Rattle.std.specs.List.{list_any};
ghost use Rattle.std.specs.List.Sorted.{IsStrictlyIncreasing};
ghost use Rattle.std.specs.Ordering.{nat_cmp};
ghost use Rattle.svr_groups.specs.Groups.{values_at};
ghost use Rattle.svr_rows.specs.Changes.{table_of};
ghost use Rattle.svr_rows.specs.Rows.{id_of};
ghost use Rattle.svr_view.specs.Layout.{AddsId, AllCounted, AllUntouched, IsCounted, IsRoomy, Recounts, RowHasId, SetsComponent, counted_for, counted_in, counted_of, id_changed, row_after};
ghost use Rattle.svr_view.specs.Layout.{values_for, with_values, without_values};
ghost use Rattle.svr_view.specs.Score.{number_at};

use std::alloc::Global;
use std::collections::BTreeSet;
use svr_edge::Memory;
use svr_groups::Groups;
use svr_num::DocId;
use svr_rows::{Change, Row};
use svr_schema::{Cell, Component};
use svr_spec::passes;

/// The value that a row counts for a document.
#[derive(Clone, Copy, Drop)]
pub(crate) struct Counted {
    pub id: DocId,
    pub value: i64,
}

/// The number in a column of a row, 0 where there is none.
pub(crate) fn number_at(row: &Row, column: u8) -> i64
    ensures { result ≡ number_at column row.now }
{
    match row.cells.as_slice().get(column as usize) {
        Some(Cell::Int(number)) => *number,
        _ => 0,
    }
}

/// What a row of a table counts for a component.
fn counted_by_row(component: &Component, table: u8, row: &Row) -> Option<Counted>
    ensures { result ≡ counted_in component.now table row.now }
{
    match component {
        Component::Over {
            table: over,
            by,
            column,
            filter,
            ..
        } if *over == table && passes(filter, row.cells.as_slice()) => {
            counted_value(number_at(row, *by), number_at(row, *column))
        }
        _ => None,
    }
}

/// A value for the document whose id a number is. A number below 0 is no id.
fn counted_value(id: i64, value: i64) -> Option<Counted>
    ensures { result ≡ counted_for id value }
{
    if id < 0 {
        return None;
    }
    Some(Counted {
        id: id as DocId,
        value,
    })
}

/// What a row of a table counts for a component, where there is a row.
fn counted_of(component: &Component, table: u8, row: Option<&Row>) -> Option<Counted>
    ensures { result ≡ counted_of component.now table (option_map (λ row. row.now) row.entry) }
{
    match row {
        Some(row) => counted_by_row(component, table, row),
        None => None,
    }
}

/// Adds what a row counts to the values of a component.
fn count_in(groups: &mut Groups, c: u8, counted: Option<Counted>) -> Result<(), Memory>
    requires component { c < length groups.old }
    requires few { (id : ℕ) → length (values_at groups.old c id) ≤ 2 ^ 18 }
    ensures { OnOk result (SetsComponent groups.old groups.new c (λ id. with_values (values_for counted id) (values_at groups.old c id))) }
{
    match counted {
        Some(Counted { id, value }) => groups.add(c, id, value),
        None => Ok(()),
    }
}

/// Takes what a row counted out of the values of a component.
fn count_out(groups: &mut Groups, c: u8, counted: Option<Counted>)
    requires component { c < length groups.old }
    requires there { IsCounted groups.old c counted }
    ensures { SetsComponent groups.old groups.new c (λ id. without_values (values_for counted id) (values_at groups.old c id)) }
{
    match counted {
        Some(Counted { id, value }) => groups.remove(c, id, value),
        None => {}
    }
}

/// Puts what one row counts for a component in the place of what another counted. A value is added before one is taken out:
/// there is room for one more than a table has rows.
fn recount_one(
    groups: &mut Groups,
    c: u8,
    old: Option<Counted>,
    new: Option<Counted>,
) -> Result<(), Memory>
    requires component { c < length groups.old }
    requires few { (id : ℕ) → length (values_at groups.old c id) ≤ 2 ^ 18 }
    requires there { IsCounted groups.old c old }
    ensures { OnOk result (SetsComponent groups.old groups.new c
        (λ id. without_values (values_for old id) (with_values (values_for new id) (values_at groups.old c id)))) }
{
    count_in(groups, c, new)?;
    count_out(groups, c, old);
    Ok(())
}

/// Puts what one row of a table counts in the place of what another counted, in all components.
pub(crate) fn recount(
    groups: &mut Groups,
    components: &[Component],
    table: u8,
    old: Option<&Row>,
    new: Option<&Row>,
) -> Result<(), Memory>
    requires components { length components.now ≤ 8 }
    requires as_many { length groups.old ≡ length components.now }
    requires few { IsRoomy components.now groups.old }
    requires there { AllCounted components.now table (option_map (λ row. row.now) old) groups.old }
    ensures { OnOk result (Recounts components.now table (option_map (λ row. row.now) old.entry) (option_map (λ row. row.now) new.entry)
        groups.old groups.new) }
{
    for (c, component) in components.iter().enumerate() {
        let before = counted_of(component, table, old);
        let after = counted_of(component, table, new);
        recount_one(groups, c as u8, before, after)?;
    }
    Ok(())
}

/// Adds the document that a value was counted for.
fn add_id(ids: &mut BTreeSet<DocId>, counted: Option<Counted>) -> Result<(), Memory>
    ensures { OnOk result (AddsId ids.old ids.new counted) }
{
    if let Some(Counted { id, .. }) = counted {
        ids.insert(id)?;
    }
    Ok(())
}

/// The documents for which one of two rows of a table counts in some component, by ascending id.
pub(crate) fn counted_ids(
    alloc: Global,
    components: &[Component],
    table: u8,
    old: Option<&Row>,
    new: Option<&Row>,
) -> Result<Vec<DocId>, Memory>
    ensures ascending { IfOk result (λ ids. IsStrictlyIncreasing ids.items) }
    ensures complete { IfOk result (λ ids. (id : ℕ) → list_any (λ k. k == id) ids.items ≡ false
        → AllUntouched components.now table (option_map (λ row. row.now) old.entry) (option_map (λ row. row.now) new.entry) id) }
{
    let mut ids = BTreeSet::new(alloc);
    for component in components {
        add_id(&mut ids, counted_of(component, table, old))?;
        add_id(&mut ids, counted_of(component, table, new))?;
    }
    ascending(alloc, &ids)
}

/// The ids of a set, ascending.
fn ascending(alloc: Global, ids: &BTreeSet<DocId>) -> Result<Vec<DocId>, Memory>
    ensures ascending { IfOk result (λ ids. IsStrictlyIncreasing ids.items) }
    ensures same { IfOk result (λ all. (id : ℕ) → contains nat_cmp ids.now id ≡ list_any (λ k. k == id) all.items) }
{
    let ids = ids.iter().copied().collect(alloc)?;
    Ok(ids)
}

/// The id of the row that a change is of.
pub(crate) fn id_changed(change: &Change) -> DocId
    requires { RowHasId change.now }
    ensures { result ≡ id_changed change.now }
{
    match change {
        Change::Insert { row, .. } | Change::Update { row, .. } => row.id(),
        Change::Delete { id, .. } => *id,
    }
}

/// The table that a change is of.
pub(crate) fn table_changed(change: &Change) -> u8
    ensures { result ≡ table_of change.now }
{
    match change {
        Change::Insert { table, .. }
        | Change::Update { table, .. }
        | Change::Delete { table, .. } => *table,
    }
}

/// The row that stands there after a change.
pub(crate) fn row_after(change: &Change) -> Option<&Row>
    ensures { option_map (λ row. row.now) result ≡ row_after change.now }
{
    match change {
        Change::Insert { row, .. } | Change::Update { row, .. } => Some(row),
        Change::Delete { .. } => None,
    }
}
