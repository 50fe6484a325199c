//! What is to be done for a request, or why it is refused. Nothing is changed.
ghost use Rattle.std.specs.Prelude.{◌≡◌, ◌<◌, ◌≤◌, ◌^◌, map, length, None, Some, IfOk, IfErr, IfSome, OnOk};
ghost use Rattle.svr_record.specs.Limits.{ChangeFits};
ghost use Rattle.svr_rows.specs.Changes.{refusal_of};
ghost use Rattle.svr_rows.specs.Rows.{HasId, bad_column, cell_in, id_of, kinds_of};
ghost use Rattle.svr_schema.specs.Lawful.{IsTable};
ghost use Rattle.svr_core.specs.Outcomes.{change_outcome, delete_outcome, insert_outcome, row_of, update_outcome};
ghost use Rattle.svr_core.specs.Outcomes.{refused};
ghost use Rattle.svr_core.specs.Plans.{MayRefuse, Plans};
ghost use Rattle.svr_core.specs.Steps.{DeletesId, Edits, IsBadRow};

use crate::plan::{Edit, Entry, Plan};
use crate::refusals::refused_row;
use crate::tables::{declared, table_named};
use std::alloc::Global;
use svr_catalog::Catalog;
use svr_edge::Items;
use svr_num::DocId;
use svr_record::write_change;
use svr_request::Refusal;
use svr_rows::{Change, Given, Row, TypedRefusal, typed_row};
use svr_schema::{Cell, Table};

/// To insert the row that values make.
pub(crate) fn plan_insert(
    alloc: Global,
    catalog: &Catalog,
    name: &str,
    given: Items<Given>,
) -> Result<Plan, Refusal>
    ensures { Plans (insert_outcome catalog.now.catalog name.now given) (Some catalog.now.catalog) result }
{
    let change = insertion(alloc, catalog, name, given)?;
    plan_change(alloc, catalog, change)
}

/// To put the row that values make in the place of the one that has its id.
pub(crate) fn plan_update(
    alloc: Global,
    catalog: &Catalog,
    name: &str,
    given: Items<Given>,
) -> Result<Plan, Refusal>
    ensures { Plans (update_outcome catalog.now.catalog name.now given) (Some catalog.now.catalog) result }
{
    let change = replacement(alloc, catalog, name, given)?;
    plan_change(alloc, catalog, change)
}

/// To take out the row with the id.
pub(crate) fn plan_delete(
    alloc: Global,
    catalog: &Catalog,
    name: &str,
    id: DocId,
) -> Result<Plan, Refusal>
    ensures { Plans (delete_outcome catalog.now.catalog name.now id) (Some catalog.now.catalog) result }
{
    let table = table_named(catalog, name)?;
    let id = row_id(catalog, table, id).ok_or(Refusal::NoRow)?;
    plan_change(alloc, catalog, Change::Delete { table, id })
}

/// The id as the row has it that stands at it.
fn row_id(catalog: &Catalog, table: u8, id: DocId) -> Option<DocId>
    requires { table < length catalog.now.catalog.schema.tables }
    ensures same { IfSome result (λ n. n ≡ id) }
    ensures within { IfSome result (λ n. n < 2 ^ 63) }
    ensures none { result ≡ None → change_outcome catalog.now.catalog (Change.Delete table id) ≡ refused Refusal.NoRow }
{
    let row = catalog.tables().row(table, id)?;
    Some(id_in(row))
}

/// The id of a row, which an `i64` holds.
fn id_in(row: &Row) -> DocId
    requires { HasId row.now }
    ensures value { result ≡ id_of row.now }
    ensures within { result < 2 ^ 63 }
{
    match row.cells.as_slice() {
        [Cell::Int(id), ..] => *id as DocId,
        _ => unreachable!(),
    }
}

/// To make a change, unless a row refuses it.
fn plan_change(alloc: Global, catalog: &Catalog, change: Change) -> Result<Plan, Refusal>
    requires { DeletesId change }
    ensures { Plans (change_outcome catalog.now.catalog change) (Some catalog.now.catalog) result }
{
    check(catalog, &change)?;
    let body = write_change(alloc, &change)?;
    Ok(Plan::Change(Entry {
        edit: Edit::Change(change),
        body: Items::from_vec(body),
    }))
}

/// A change, unless a row refuses it.
pub(crate) fn edit_change(catalog: &Catalog, change: Change) -> Result<Edit, Refusal>
    ensures { Edits (change_outcome catalog.now.catalog change) (Some catalog.now.catalog) result }
{
    check(catalog, &change)?;
    Ok(Edit::Change(change))
}

/// Tests that no row refuses a change.
fn check(catalog: &Catalog, change: &Change) -> Result<(), Refusal>
    ensures ok { OnOk result (refusal_of catalog.now.catalog.tables change.now ≡ None) }
    ensures fits { OnOk result (DeletesId change.now → ChangeFits change.now) }
    ensures refused { IfErr result (MayRefuse (change_outcome catalog.now.catalog change.now)) }
{
    catalog
        .tables()
        .check(change)
        .map_err(|why| refused_row(None, why))?;
    Ok(())
}

/// The insert of a row that values make.
fn insertion(
    alloc: Global,
    catalog: &Catalog,
    name: &str,
    given: Items<Given>,
) -> Result<Change, Refusal>
    ensures change { IfOk result (λ change. insert_outcome catalog.now.catalog name.now given ≡ change_outcome catalog.now.catalog change) }
    ensures id { IfOk result DeletesId }
    ensures refused { IfErr result (MayRefuse (insert_outcome catalog.now.catalog name.now given)) }
{
    let table = table_named(catalog, name)?;
    let row = row_in(alloc, declared(catalog, table), given)?;
    Ok(Change::Insert { table, row })
}

/// The update of a row to the one that values make.
fn replacement(
    alloc: Global,
    catalog: &Catalog,
    name: &str,
    given: Items<Given>,
) -> Result<Change, Refusal>
    ensures change { IfOk result (λ change. update_outcome catalog.now.catalog name.now given ≡ change_outcome catalog.now.catalog change) }
    ensures id { IfOk result DeletesId }
    ensures refused { IfErr result (MayRefuse (update_outcome catalog.now.catalog name.now given)) }
{
    let table = table_named(catalog, name)?;
    let row = row_in(alloc, declared(catalog, table), given)?;
    Ok(Change::Update { table, row })
}

/// The row that values make in a table.
fn row_in(alloc: Global, table: &Table, given: Items<Given>) -> Result<Row, Refusal>
    requires { IsTable table.now }
    ensures row { IfOk result (λ row. row ≡ row_of given) }
    ensures fits { OnOk result (bad_column (kinds_of table.now) (map cell_in given) ≡ None) }
    ensures refused { IfErr result (IsBadRow (bad_column (kinds_of table.now) (map cell_in given))) }
{
    match typed_row(alloc, table, given.into_vec()) {
        Ok(row) => Ok(row),
        Err(TypedRefusal::BadRow { column }) => Err(Refusal::BadRow { column }),
        Err(TypedRefusal::Memory) => Err(Refusal::Memory),
    }
}
