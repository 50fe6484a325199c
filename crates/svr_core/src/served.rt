ghost use Rattle.std.specs.Prelude.{◌≡◌, ◌+◌, ◌<◌, ◌≤◌, ◌^◌, length, true, Some, Err, IfOk, OnOk, OnErr, option_map};
ghost use Rattle.std.specs.Option.{ForSome, IsSome};
ghost use Rattle.serde_json.specs.View.{view};
ghost use Rattle.serde_json.specs.Written.{compact_text};
ghost use Rattle.svr_iter.specs.Reader.{KeepsReader};
ghost use Rattle.svr_listing.specs.Kept.{HoldsPosted};
ghost use Rattle.svr_postpage.specs.Wanted.{pairs_told};
ghost use Rattle.svr_record.specs.Bodies.{body_of};
ghost use Rattle.svr_record.specs.Limits.{IsRecord};
ghost use Rattle.svr_request.specs.Requests.{seen, seen_or_refused, value_in, with_block};
ghost use Rattle.svr_schema.specs.Rules.{IsWritable};
ghost use Rattle.svr_core.specs.Answers.{answer_in};
ghost use Rattle.svr_core.specs.Asked.{AsksNeeded};
ghost use Rattle.svr_core.specs.Edits.{Accepts, counted, served_with};
ghost use Rattle.svr_core.specs.Kept.{ServesAs, catalog_of};
ghost use Rattle.svr_core.specs.Merges.{IsReadyFor, IsUntaken, MayCome};
ghost use Rattle.svr_core.specs.Outcomes.{entry_outcome, outcome_over, schema_outcome, text_outcome, wanted_outcome};
ghost use Rattle.svr_core.specs.Plans.{MayAsk, Plans};
ghost use Rattle.svr_core.specs.State.{Served, empty};
ghost use Rattle.svr_core.specs.Steps.{Edits, FollowsEdit, core_of};

use crate::loads::{edit_placed, plan_load};
use crate::plan::{Edit, Entry, Plan, Step};
use crate::plans::{edit_change, plan_delete, plan_insert, plan_update};
use crate::queries::{Query, query_of};
use crate::refusals::refused_schema;
use serde_json::Value;
use std::alloc::Global;
use std::marker::{Brand, Model};
use std::sync::ledger::{Blank, Ledger};
use svr_catalog::Catalog;
use svr_edge::{Items, Memory};
use svr_iter::ScanFault;
use svr_lists::SliceFault;
use svr_postpage::PageReader;
use svr_record::{Record, write_schema};
use svr_request::{Answer, Refusal, Request, SchemaValue};
use svr_schema::read_schema;
use svr_steps::Steps;

/// What is served.
#[derive(Drop)]
pub struct Core {
    pub(crate) catalog: Option<Catalog>,
    changes: u64,
}

impl Model for Core {
    ghost use Rattle.svr_core.specs.Kept.{CoreValue};

    ghost Value = { CoreValue };

    ghost view = { λ c. record { kept = c.catalog; changes = c.changes } };
}

impl Core {
    /// No schema is set, and no change was accepted.
    pub fn empty() -> Core
        ensures { ServesAs result empty }
    {
        Core {
            catalog: None,
            changes: 0,
        }
    }

    /// How many changes were accepted.
    pub fn changes(&self) -> u64
        ensures { result ≡ self.now.changes }
    {
        self.changes
    }

    /// What a request comes to, with the block that comes with it, or why it is refused. Nothing is changed: a change is made by
    /// `make`, once its record is kept.
    #[tactic(auto, unfolding(crate::specs::Outcomes::outcome_over))]
    pub fn plan(
        &self,
        alloc: Global,
        request: Result<Request, Refusal>,
        block: &[u8],
    ) -> Result<Plan, Refusal>
        requires { length block.now ≤ 8388608 }
        ensures { Plans (outcome_over (catalog_of self.now) (with_block (seen_or_refused request) block.now)) (catalog_of self.now) result }
    {
        self.plan_request(alloc, request?, block)
    }

    fn plan_request(&self, alloc: Global, request: Request, block: &[u8]) -> Result<Plan, Refusal>
        requires { length block.now ≤ 8388608 }
        ensures { Plans (wanted_outcome (catalog_of self.now) (seen request) block.now) (catalog_of self.now) result }
    {
        match (request, &self.catalog) {
            (Request::Schema(schema), _) => self.plan_schema(alloc, &schema),
            (_, None) => Err(Refusal::NoSchema),
            (Request::Merge, Some(_)) => Ok(Plan::WholeMerge),
            (Request::MergeBegin, Some(_)) => Ok(Plan::Merge(Step::Begin)),
            (Request::MergeSlice { terms }, Some(_)) => Ok(Plan::Merge(Step::Slice(terms))),
            (Request::MergePublish, Some(_)) => Ok(Plan::Merge(Step::Publish)),
            (Request::Insert { table, row }, Some(catalog)) => {
                plan_insert(alloc, catalog, table.as_str(), row)
            }
            (Request::Update { table, row }, Some(catalog)) => {
                plan_update(alloc, catalog, table.as_str(), row)
            }
            (Request::Delete { table, id }, Some(catalog)) => {
                plan_delete(alloc, catalog, table.as_str(), id)
            }
            (Request::Load { table, header }, Some(catalog)) => {
                plan_load(alloc, catalog, table.as_str(), header, block)
            }
            (Request::Search { query, mode, k }, Some(_)) => {
                let query = query_of(alloc, query.as_str(), mode, k)?;
                Ok(Plan::Search(query))
            }
        }
    }

    /// To take a value as the schema.
    fn plan_schema(&self, alloc: Global, schema: &SchemaValue) -> Result<Plan, Refusal>
        ensures { Plans (schema_outcome (catalog_of self.now) (view schema.now.value)) (catalog_of self.now) result }
    {
        let edit = self.edit_schema(alloc, &schema.value)?;
        let body = schema_body(alloc, schema)?;
        Ok(Plan::Change(Entry {
            edit,
            body: Items::from_vec(body),
        }))
    }

    /// The schema that a value says, where none is set.
    fn edit_schema(&self, alloc: Global, value: &Value) -> Result<Edit, Refusal>
        ensures edit { Edits (schema_outcome (catalog_of self.now) (view value.now)) (catalog_of self.now) result }
        ensures text { OnOk result (IsWritable (view value.now)) }
    {
        if self.catalog.is_some() {
            return Err(Refusal::SchemaSet);
        }
        let schema = read_schema(alloc, value).map_err(refused_schema)?;
        Ok(Edit::Schema(schema))
    }

    /// What a record comes to that is read again, or why it isn't accepted. Nothing is changed.
    #[tactic(auto, unfolding(crate::specs::Outcomes::entry_outcome))]
    pub(crate) fn edit_of(&self, alloc: Global, entry: Record) -> Result<Edit, Refusal>
        requires { IsRecord entry }
        ensures { Edits (entry_outcome (catalog_of self.now) entry) (catalog_of self.now) result }
    {
        match (entry, &self.catalog) {
            (Record::Schema(text), _) => self.edit_text(alloc, text.as_slice()),
            (Record::Begin | Record::Slice { .. } | Record::Publish, _) => Err(Refusal::UnknownOp),
            (_, None) => Err(Refusal::NoSchema),
            (Record::Change(change), Some(catalog)) => edit_change(catalog, change),
            (
                Record::Load {
                    table,
                    header,
                    block,
                },
                Some(catalog),
            ) => edit_placed(alloc, catalog, table, header, block.as_slice()),
        }
    }

    /// The schema that a text says.
    fn edit_text(&self, alloc: Global, text: &[u8]) -> Result<Edit, Refusal>
        ensures { Edits (text_outcome (catalog_of self.now) (value_in text.now)) (catalog_of self.now) result }
    {
        match Value::from_slice(alloc, text) {
            Ok(value) => self.edit_schema(alloc, &value),
            Err(error) => {
                if error.is_memory() {
                    return Err(Refusal::Memory);
                }
                Err(Refusal::NotJson)
            }
        }
    }

    /// Makes an edit, and counts it where it is a change. After `Err` the core is spent: of the catalog nothing is said.
    pub fn make(&mut self, alloc: Global, edit: Edit) -> Result<(), Memory>
        requires accepted { Accepts (catalog_of self.old) edit }
        requires may_come { MayCome self.old edit }
        requires changes { self.old.changes + 1 < 2 ^ 64 }
        ensures made { (s : Served) → ServesAs self.old s → IsReadyFor s edit → OnOk result (ServesAs self.new (served_with s edit)) }
        ensures set { OnOk result (IsSome (catalog_of self.new)) }
        ensures changes { OnOk result (self.new.changes ≡ self.old.changes + counted edit) }
        ensures spent { OnErr result (self.new.changes ≡ self.old.changes) }
    {
        match self.take_edit(alloc, edit) {
            Ok(()) => Ok(()),
            Err(SliceFault::BadSlice) => unreachable!(),
            Err(SliceFault::Memory) => Err(Memory),
        }
    }

    /// Makes an edit, unless it is a slice that may not come next. After `Err` the core is spent.
    pub(crate) fn take_edit(&mut self, alloc: Global, edit: Edit) -> Result<(), SliceFault>
        requires accepted { Accepts (catalog_of self.old) edit }
        requires changes { self.old.changes + 1 < 2 ^ 64 }
        ensures made { (s : Served) → ServesAs self.old s → IsReadyFor s edit → OnOk result (ServesAs self.new (served_with s edit)) }
        ensures came { OnOk result (MayCome self.old edit) }
        ensures bad { result ≡ Err SliceFault.BadSlice → IsUntaken self.old edit }
        ensures set { OnOk result (IsSome (catalog_of self.new)) }
        ensures changes { OnOk result (self.new.changes ≡ self.old.changes + counted edit) }
        ensures spent { OnErr result (self.new.changes ≡ self.old.changes) }
    {
        let count = edit.counted();
        let catalog = edited::<Brand>(alloc, self.catalog.take(), edit, Blank::new(1))?;
        self.catalog = Some(catalog);
        self.changes += count;
        Ok(())
    }

    /// The best `k` documents that match a query.
    ///
    /// Errors: `Page`, where a page could not be read, or stands there no more; `Memory`.
    pub fn search<R: PageReader>(
        &self,
        alloc: Global,
        query: &Query,
        reader: &mut R,
    ) -> Result<Answer, ScanFault>
        requires set { IsSome (catalog_of self.now) }
        requires query { MayAsk query.now }
        requires ready { R.ready reader.old }
        ensures answer { IfOk result (λ answer. ForSome (R.told reader.old) (λ bytes. (s : Served) → ServesAs self.now s
            → s.lawful ≡ true → HoldsPosted (pairs_told bytes) s.listed.listing → answer ≡ answer_in s query.now.terms query.now.mode query.now.k)) }
        ensures short { IfOk result (λ answer. length answer.hits ≤ 1000) }
        ensures asks { AsksNeeded (R.told reader.old) R.gives R.fails self.now query.now reader.old reader.new result }
        ensures reader { KeepsReader R.told R.ready R.faults reader.old reader.new result }
    {
        match &self.catalog {
            Some(catalog) => catalog.search(alloc, &query.terms, query.mode, query.k, reader),
            None => unreachable!(),
        }
    }
}

/// The body of a schema's record.
fn schema_body(alloc: Global, schema: &SchemaValue) -> Result<Vec<u8>, Memory>
    requires { IsWritable (view schema.now.value) }
    ensures body { IfOk result (λ out. out.items ≡ body_of (Record.Schema (compact_text (view schema.now.value)))) }
    ensures is_record { OnOk result (IsRecord (Record.Schema (compact_text (view schema.now.value)))) }
    ensures read_again { OnOk result (value_in (compact_text (view schema.now.value)) ≡ Some (view schema.now.value)) }
{
    let text = schema.value.to_vec(alloc)?;
    write_schema(alloc, text.as_slice())
}

/// The catalog after an edit. Its steps are counted in a ledger of their own.
fn edited<L: Ledger>(
    alloc: Global,
    catalog: Option<Catalog>,
    edit: Edit,
    blank: Blank,
) -> Result<Catalog, SliceFault>
    requires accepted { Accepts (option_map (λ v. v.catalog) catalog) edit }
    requires name { blank.name ≡ L.name }
    requires parts { blank.parts ≡ L.parts }
    requires some { 0 < blank.parts }
    ensures follows { FollowsEdit catalog edit result }
    ensures came { OnOk result (MayCome (core_of catalog) edit) }
    ensures bad { result ≡ Err SliceFault.BadSlice → IsUntaken (core_of catalog) edit }
{
    let mut steps = Steps::<L>::new(blank);
    match (edit, catalog) {
        (Edit::Schema(schema), _) => Ok(Catalog::new(alloc, schema)?),
        (Edit::Change(change), Some(catalog)) => Ok(catalog.with_change(
            alloc, change, &mut steps,
        )?),
        (Edit::Load { table, rows }, Some(catalog)) => {
            Ok(catalog.with_rows(alloc, table, rows.into_vec(), &mut steps)?)
        }
        (Edit::Begin, Some(catalog)) => Ok(catalog.with_merge(alloc)?),
        (Edit::Slice { terms, pages, at }, Some(catalog)) => {
            catalog.with_slice(alloc, terms.as_slice(), pages.as_slice(), at)
        }
        (Edit::Publish, Some(catalog)) => Ok(catalog.published(alloc, &mut steps)?),
        (_, None) => unreachable!(),
    }
}
