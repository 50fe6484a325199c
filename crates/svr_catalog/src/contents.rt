ghost use Rattle.std.specs.Prelude.{◌≡◌, [], map, None, Some, IfOk, OnOk};
ghost use Rattle.svr_listing.specs.Served.{nothing_listed};
ghost use Rattle.svr_lists.specs.Lists.{StandsForServed, last_in};
ghost use Rattle.svr_merge.specs.Rules.{rules_for};
ghost use Rattle.svr_rows.specs.Changes.{changed, inserted, load_refusal, refusal_of};
ghost use Rattle.svr_rows.specs.Rows.{no_rows};
ghost use Rattle.svr_schema.specs.Lawful.{IsSchema};
ghost use Rattle.svr_catalog.specs.Layout.{Carries, CarriesRows, IsCatalog, documents_from, value_of};
ghost use Rattle.svr_catalog.specs.Merging.{Begins, Publishes};

use crate::documents::{documents, hits};
use crate::follow::follow;
use std::alloc::Global;
use std::sync::ledger::Ledger;
use svr_edge::Memory;
use svr_lists::Lists;
use svr_rows::{Change, Row, Tables};
use svr_schema::Schema;
use svr_steps::Steps;
use svr_view::ScoreView;

/// What is kept of a catalog beside its schema: the rows of all tables, the scores of the documents that they make, and the lists of
/// these. No document keeps its terms: a text is cut again when it changes or moves.
#[derive(Drop)]
pub struct Contents {
    pub tables: Tables,
    pub scores: ScoreView,
    pub lists: Lists,
}

impl Contents {
    /// Of a schema's tables without rows.
    pub fn new(alloc: Global, schema: &Schema) -> Result<Contents, Memory>
        requires { IsSchema schema.now }
        ensures tables { IfOk result (λ contents. contents.tables ≡ map no_rows schema.now.tables) }
        ensures kept { IfOk result (IsCatalog schema.now) }
        ensures stands { IfOk result (λ contents. StandsForServed contents.lists (nothing_listed (rules_for schema.now.method []))) }
        ensures last { IfOk result (λ contents. last_in contents.lists ≡ None) }
    {
        Ok(Contents {
            tables: Tables::new(alloc, schema)?,
            scores: ScoreView::new(alloc, schema)?,
            lists: Lists::new(alloc, &schema.method),
        })
    }

    /// Makes a change that no row refuses. After `Memory` the contents are spent: nothing is said of them.
    pub fn change<L: Ledger>(
        &mut self,
        alloc: Global,
        schema: &Schema,
        change: Change,
        steps: &mut Steps<L>,
    ) -> Result<(), Memory>
        requires kept { IsCatalog schema.now self.old }
        requires accepted { refusal_of self.old.tables change ≡ None }
        ensures changed { OnOk result (self.new.tables ≡ changed self.old.tables change) }
        ensures kept { OnOk result (IsCatalog schema.now self.new) }
        ensures carries { OnOk result (Carries (documents_from schema.now self.old.tables) (documents_from schema.now self.new.tables)
            self.old.lists self.new.lists) }
        ensures last { OnOk result (last_in self.new.lists ≡ last_in self.old.lists) }
    {
        let moves = self.scores.note(alloc, schema, &self.tables, &change)?;
        follow(
            alloc,
            &mut self.lists,
            schema,
            &self.tables,
            &change,
            moves.as_slice(),
            steps,
        )?;
        self.tables.apply(change)?;
        Ok(())
    }

    /// Adds rows to a table, one after the other. After `Memory` the contents are spent.
    pub fn insert_all<L: Ledger>(
        &mut self,
        alloc: Global,
        schema: &Schema,
        table: u8,
        rows: Vec<Row>,
        steps: &mut Steps<L>,
    ) -> Result<(), Memory>
        requires kept { IsCatalog schema.now self.old }
        requires accepted { load_refusal self.old.tables table rows.items ≡ None }
        ensures changed { OnOk result (self.new.tables ≡ inserted self.old.tables table rows.items) }
        ensures kept { OnOk result (IsCatalog schema.now self.new) }
        ensures carries { OnOk result (CarriesRows schema.now self.old self.new table rows.items) }
        ensures last { OnOk result (last_in self.new.lists ≡ last_in self.old.lists) }
    {
        let mut rest = rows;
        rest.reverse();
        while let Some(row) = rest.pop() {
            self.change(alloc, schema, Change::Insert { table, row }, steps)?;
        }
        Ok(())
    }

    /// Begins a merge beside the documents, in place of one that was begun.
    pub fn begin_merge(&mut self, alloc: Global, schema: &Schema) -> Result<(), Memory>
        requires kept { IsCatalog schema.now self.old }
        ensures tables { OnOk result (self.new.tables ≡ self.old.tables) }
        ensures kept { OnOk result (IsCatalog schema.now self.new) }
        ensures begins { OnOk result (Begins (value_of schema.now self.old) (value_of schema.now self.new)) }
        ensures last { OnOk result (last_in self.new.lists ≡ Some None) }
    {
        let documents = hits(alloc, schema, &self.tables, &self.scores)?;
        self.lists.begin(alloc, &documents, &schema.method)?;
        Ok(())
    }

    /// Publishes the merge, if one is begun. After `Memory` the contents are spent.
    pub fn publish<L: Ledger>(
        &mut self,
        alloc: Global,
        schema: &Schema,
        steps: &mut Steps<L>,
    ) -> Result<(), Memory>
        requires kept { IsCatalog schema.now self.old }
        ensures tables { OnOk result (self.new.tables ≡ self.old.tables) }
        ensures kept { OnOk result (IsCatalog schema.now self.new) }
        ensures publishes { OnOk result (Publishes (value_of schema.now self.old) (value_of schema.now self.new)) }
        ensures last { OnOk result (last_in self.new.lists ≡ None) }
    {
        let documents = documents(alloc, schema, &self.tables, &self.scores)?;
        self.lists.publish(alloc, &documents, steps)?;
        Ok(())
    }
}
