//! The tables of a catalog, by their names and places.
ghost use Rattle.std.specs.Prelude.{◌≡◌, ◌<◌, length, None, Some, IfOk, IfErr};
ghost use Rattle.svr_rows.specs.Rows.{kinds_in, kinds_of};
ghost use Rattle.svr_schema.specs.Lawful.{IsTable};
ghost use Rattle.svr_schema.specs.Lookups.{table_at};

use svr_catalog::Catalog;
use svr_request::Refusal;
use svr_schema::Table;

/// The place of a table.
pub(crate) fn table_named(catalog: &Catalog, name: &str) -> Result<u8, Refusal>
    ensures ok { IfOk result (λ table. table_at catalog.now.catalog.schema.tables name.now ≡ Some table) }
    ensures there { IfOk result (λ table. table < length catalog.now.catalog.schema.tables) }
    ensures refused { IfErr result (λ why. (table_at catalog.now.catalog.schema.tables name.now ≡ None) × (why ≡ Refusal.NoTable)) }
{
    catalog.schema().table(name).ok_or(Refusal::NoTable)
}

/// A table as the schema declares it.
pub(crate) fn declared(catalog: &Catalog, table: u8) -> &Table
    requires { table < length catalog.now.catalog.schema.tables }
    ensures kinds { kinds_of result.now ≡ kinds_in catalog.now.catalog.tables table }
    ensures lawful { IsTable result.now }
{
    &catalog.schema().tables.as_slice()[table as usize]
}
