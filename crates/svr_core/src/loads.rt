//! All rows of a block, or none.
ghost use Rattle.std.specs.Prelude.{◌≡◌, ◌<◌, ◌≤◌, length, None, Some, IfOk, IfErr, OnOk};
ghost use Rattle.svr_csvload.specs.Blocks.{AreRows, rows_in_block};
ghost use Rattle.svr_rows.specs.Rows.{kinds_of};
ghost use Rattle.svr_schema.specs.Lawful.{IsTable};
ghost use Rattle.svr_record.specs.declared.record.Record.{Record};
ghost use Rattle.svr_rows.specs.Changes.{load_refusal};
ghost use Rattle.svr_core.specs.Outcomes.{block_outcome, load_outcome, placed_outcome, rows_outcome};
ghost use Rattle.svr_core.specs.Plans.{MayRefuse, Plans};
ghost use Rattle.svr_core.specs.Steps.{Edits, IsBadRecord};

use crate::plan::{Edit, Entry, Plan};
use crate::refusals::{refused_block, refused_load};
use crate::tables::{declared, table_named};
use std::alloc::Global;
use svr_catalog::Catalog;
use svr_csvload::read_block;
use svr_edge::Items;
use svr_record::write_load;
use svr_request::Refusal;
use svr_rows::Row;
use svr_schema::Table;

/// To insert the rows of a block, all or none.
pub(crate) fn plan_load(
    alloc: Global,
    catalog: &Catalog,
    name: &str,
    header: bool,
    block: &[u8],
) -> Result<Plan, Refusal>
    requires { length block.now ≤ 8388608 }
    ensures { Plans (load_outcome catalog.now.catalog name.now header block.now) (Some catalog.now.catalog) result }
{
    let table = table_named(catalog, name)?;
    let edit = edit_load(alloc, catalog, table, header, block)?;
    let body = write_load(alloc, table, header, block)?;
    Ok(Plan::Change(Entry {
        edit,
        body: Items::from_vec(body),
    }))
}

/// The rows of a block for the table at a place, if there is one.
pub(crate) fn edit_placed(
    alloc: Global,
    catalog: &Catalog,
    table: u8,
    header: bool,
    block: &[u8],
) -> Result<Edit, Refusal>
    requires { length block.now ≤ 8388608 }
    ensures { Edits (placed_outcome catalog.now.catalog table header block.now) (Some catalog.now.catalog) result }
{
    if table as usize >= catalog.schema().tables.len() {
        return Err(Refusal::NoTable);
    }
    edit_load(alloc, catalog, table, header, block)
}

/// The rows of a block that are to be inserted into a table, all or none.
fn edit_load(
    alloc: Global,
    catalog: &Catalog,
    table: u8,
    header: bool,
    block: &[u8],
) -> Result<Edit, Refusal>
    requires there { table < length catalog.now.catalog.schema.tables }
    requires few { length block.now ≤ 8388608 }
    ensures { Edits (block_outcome catalog.now.catalog table header block.now) (Some catalog.now.catalog) result }
{
    let rows = block_rows(alloc, declared(catalog, table), header, block)?;
    check_rows(alloc, catalog, table, rows.as_slice())?;
    Ok(Edit::Load {
        table,
        rows: Items::from_vec(rows),
    })
}

/// Tests that all rows may be inserted into a table, one after the other.
fn check_rows(alloc: Global, catalog: &Catalog, table: u8, rows: &[Row]) -> Result<(), Refusal>
    requires { length rows.now ≤ 8388608 }
    ensures ok { OnOk result (load_refusal catalog.now.catalog.tables table rows.now ≡ None) }
    ensures refused { IfErr result (λ why. (load : Record) → MayRefuse (rows_outcome catalog.now.catalog table load rows.now) why) }
{
    catalog
        .tables()
        .check_all(alloc, table, rows)
        .map_err(refused_load)?;
    Ok(())
}

/// The rows of a block, under the columns of a table.
fn block_rows(alloc: Global, table: &Table, header: bool, block: &[u8]) -> Result<Vec<Row>, Refusal>
    requires lawful { IsTable table.now }
    requires few { length block.now ≤ 8388608 }
    ensures rows { IfOk result (λ rows.
        AreRows (kinds_of table.now) (rows_in_block (kinds_of table.now) header block.now) rows.items) }
    ensures refused { IfErr result (IsBadRecord (rows_in_block (kinds_of table.now) header block.now)) }
{
    let rows = read_block(alloc, table, block, header).map_err(refused_block)?;
    Ok(rows)
}
