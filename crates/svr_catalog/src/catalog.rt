ghost use Rattle.std.specs.Prelude.{◌≡◌, [], None, IfOk};
ghost use Rattle.svr_listing.specs.Served.{Served, nothing_listed};
ghost use Rattle.svr_lists.specs.Lists.{last_in};
ghost use Rattle.svr_merge.specs.Rules.{rules_for};
ghost use Rattle.svr_rows.specs.Changes.{load_refusal, refusal_of};
ghost use Rattle.svr_schema.specs.Lawful.{IsSchema};
ghost use Rattle.svr_view.specs.View.{AreTablesOf};
ghost use Rattle.svr_catalog.specs.Catalog.{catalog_with, catalog_with_rows, new_catalog};
ghost use Rattle.svr_catalog.specs.Listed.{listed_after, listed_with_rows};
ghost use Rattle.svr_catalog.specs.Stands.{Stands};

use crate::contents::Contents;
use std::alloc::Global;
use std::marker::Model;
use std::sync::ledger::Ledger;
use svr_edge::Memory;
use svr_rows::{Change, Row, Tables};
use svr_schema::Schema;
use svr_steps::Steps;

/// A schema, the rows of its tables, and what is kept beside them for searches. Contracts see the schema with its rows, and the lists.
#[derive(Drop)]
pub struct Catalog {
    pub(crate) schema: Schema,
    pub(crate) contents: Contents,
}

impl Model for Catalog {
    ghost use Rattle.svr_catalog.specs.Stands.{CatalogValue};

    ghost Value = { CatalogValue };

    ghost view = { λ c. record {
      catalog = record { schema = c.schema; tables = c.contents.tables };
      lists = c.contents.lists;
    } };

    ghost use Rattle.svr_catalog.specs.Layout.{IsCatalog};

    ghost invariant = { λ c. IsCatalog c.schema c.contents };
}

impl Catalog {
    /// A schema's tables, without rows.
    pub fn new(alloc: Global, schema: Schema) -> Result<Catalog, Memory>
        requires { IsSchema schema }
        ensures catalog { IfOk result (λ catalog. catalog.catalog ≡ new_catalog schema) }
        ensures stands { IfOk result (λ catalog. Stands catalog (nothing_listed (rules_for schema.method []))) }
        ensures last { IfOk result (λ catalog. last_in catalog.lists ≡ None) }
    {
        let contents = Contents::new(alloc, &schema)?;
        Ok(Catalog { schema, contents })
    }

    /// The catalog after a change that no row refuses. Where it stood for a listing, it stands for that of the documents after it.
    pub fn with_change<L: Ledger>(
        self,
        alloc: Global,
        change: Change,
        steps: &mut Steps<L>,
    ) -> Result<Catalog, Memory>
        requires { refusal_of self.catalog.tables change ≡ None }
        ensures catalog { IfOk result (λ after. after.catalog ≡ catalog_with self.catalog change) }
        ensures stands { IfOk result (λ after. (s : Served) → Stands self s → Stands after (listed_after after.catalog s)) }
        ensures last { IfOk result (λ after. last_in after.lists ≡ last_in self.lists) }
    {
        let Catalog {
            schema,
            mut contents,
        } = self;
        contents.change(alloc, &schema, change, steps)?;
        Ok(Catalog { schema, contents })
    }

    /// The catalog with rows more in a table, none of which is refused.
    pub fn with_rows<L: Ledger>(
        self,
        alloc: Global,
        table: u8,
        rows: Vec<Row>,
        steps: &mut Steps<L>,
    ) -> Result<Catalog, Memory>
        requires { load_refusal self.catalog.tables table rows.items ≡ None }
        ensures catalog { IfOk result (λ after. after.catalog ≡ catalog_with_rows self.catalog table rows.items) }
        ensures stands { IfOk result (λ after. (s : Served) → Stands self s → Stands after (listed_with_rows self.catalog s table rows.items)) }
        ensures last { IfOk result (λ after. last_in after.lists ≡ last_in self.lists) }
    {
        let Catalog {
            schema,
            mut contents,
        } = self;
        contents.insert_all(alloc, &schema, table, rows, steps)?;
        Ok(Catalog { schema, contents })
    }

    /// The schema.
    pub fn schema(&self) -> &Schema
        ensures schema { result.now ≡ self.now.catalog.schema }
        ensures of_tables { AreTablesOf result.now self.now.catalog.tables }
    {
        &self.schema
    }

    /// The rows of all tables.
    pub fn tables(&self) -> &Tables
        ensures tables { result.now ≡ self.now.catalog.tables }
        ensures of_schema { AreTablesOf self.now.catalog.schema result.now }
    {
        &self.contents.tables
    }
}
