//! The steps of a merge: as a journal's records say them, and as requests ask for them.
ghost use Rattle.std.specs.Prelude.{◌≡◌, ◌≢◌, ◌+◌, ◌*◌, ◌<◌, ◌≤◌, ◌^◌, ℕ, List, true, length, Err, IfErr, IfOk, OnOk};
ghost use Rattle.std.specs.List.{AllByRecursion};
ghost use Rattle.std.specs.Option.{ForSome, IsSome, is_some};
ghost use Rattle.svr_iter.specs.Reader.{KeepsReader};
ghost use Rattle.svr_journal.specs.File.{end_of};
ghost use Rattle.svr_record.specs.Bodies.{body_of};
ghost use Rattle.svr_record.specs.Limits.{IsRecord, TermFits, page_count};
ghost use Rattle.svr_core.specs.Kept.{ServesAs, catalog_of, last_of};
ghost use Rattle.svr_core.specs.Merges.{AsksSliced, IsEditOf, IsSliceEntry, IsSliceRecord, SliceEnds, IsStepEntry, MayCommit, PlansSlice, RefusesStep};
ghost use Rattle.svr_core.specs.Run.{left_in};
ghost use Rattle.svr_core.specs.State.{Served, State, settled};
ghost use Rattle.svr_core.specs.Steps.{IsNext, RefusesRecord, TakesRecord, is_step};
ghost use Rattle.svr_core.specs.declared.plan.Step.TheVariants as step;

use crate::plan::{Edit, Entry};
use crate::replay::ReplayFault;
use crate::served::Core;
use std::alloc::Global;
use svr_edge::{Items, Memory};
use svr_iter::ScanFault;
use svr_lists::Slice;
use svr_postpage::PageReader;
use svr_record::{Record, TermPages, write_record};
use svr_request::Refusal;

impl Core {
    /// Whether a merge is begun.
    pub fn is_merging(&self) -> bool
        ensures { result ≡ is_some (last_of self.now) }
    {
        match &self.catalog {
            Some(catalog) => catalog.is_merging(),
            None => false,
        }
    }

    /// How many terms the merge has left, of which a count tells 2^64 - 1 at most; 0 where none is begun.
    pub fn left(&self) -> u64
        ensures { (s : Served) → ServesAs self.now s → s.lawful ≡ true → result ≡ left_in s.listed.listing s.listed.merge }
    {
        match &self.catalog {
            Some(catalog) => catalog.left().unwrap_or(0),
            None => 0,
        }
    }

    /// Forgets the merge, if one is begun. It takes no memory.
    pub fn forget_merge(&mut self)
        ensures forgets { (s : Served) → ServesAs self.old s → ServesAs self.new (settled s) }
        ensures changes { self.new.changes ≡ self.old.changes }
    {
        let Some(catalog) = &mut self.catalog else {
            return;
        };
        catalog.forget_merge();
    }

    /// Takes a step of a merge as its record says it, which ends at this place. After `Err` the core is spent.
    pub(crate) fn take_step(
        &mut self,
        alloc: Global,
        entry: Record,
        end: u64,
    ) -> Result<(), ReplayFault>
        requires step { is_step entry ≡ true }
        requires is_record { IsRecord entry }
        requires changes { self.old.changes + 1 < 2 ^ 64 }
        ensures taken { (before : List (List ℕ)) (s : Served) → IsNext before (body_of entry) end → ServesAs self.old s
            → OnOk result (TakesRecord before s self.new entry) }
        ensures refused { (before : List (List ℕ)) (s : Served) → IsNext before (body_of entry) end → ServesAs self.old s
            → result ≡ Err ReplayFault.Refused → RefusesRecord before s entry }
        ensures changes { OnOk result (self.new.changes ≤ self.old.changes + 1) }
    {
        if self.catalog.is_none() {
            return Err(ReplayFault::Refused);
        }
        match entry {
            Record::Slice { terms, pages } => self.take_slice(alloc, terms, pages, end),
            Record::Publish => self.take_publish(alloc),
            Record::Begin => self.take_begin(alloc),
            Record::Schema(_) | Record::Change(_) | Record::Load { .. } => unreachable!(),
        }
    }

    /// Takes the begin of a merge as its record says it, in place of one that was begun.
    fn take_begin(&mut self, alloc: Global) -> Result<(), ReplayFault>
        requires set { IsSome (catalog_of self.old) }
        requires changes { self.old.changes + 1 < 2 ^ 64 }
        ensures taken { (before : List (List ℕ)) (s : Served) → ServesAs self.old s → OnOk result (TakesRecord before s self.new Record.Begin) }
        ensures refused { result ≢ Err ReplayFault.Refused }
        ensures changes { OnOk result (self.new.changes ≤ self.old.changes + 1) }
    {
        self.take_edit(alloc, Edit::Begin)?;
        Ok(())
    }

    /// Takes a slice as its record has it.
    fn take_slice(
        &mut self,
        alloc: Global,
        terms: Items<TermPages>,
        pages: Items<u8>,
        end: u64,
    ) -> Result<(), ReplayFault>
        requires set { IsSome (catalog_of self.old) }
        requires is_record { IsRecord (Record.Slice terms pages) }
        requires changes { self.old.changes + 1 < 2 ^ 64 }
        ensures taken { (before : List (List ℕ)) (s : Served) → IsNext before (body_of (Record.Slice terms pages)) end → ServesAs self.old s
            → OnOk result (TakesRecord before s self.new (Record.Slice terms pages)) }
        ensures refused { (before : List (List ℕ)) (s : Served) → IsNext before (body_of (Record.Slice terms pages)) end → ServesAs self.old s
            → result ≡ Err ReplayFault.Refused → RefusesRecord before s (Record.Slice terms pages) }
        ensures changes { OnOk result (self.new.changes ≤ self.old.changes + 1) }
    {
        let count = pages.as_slice().len() as u64;
        if end < count {
            return Err(ReplayFault::Refused);
        }
        self.take_edit(
            alloc,
            Edit::Slice {
                terms,
                pages,
                at: end - count,
            },
        )?;
        Ok(())
    }

    /// Takes a publish as its record says it.
    fn take_publish(&mut self, alloc: Global) -> Result<(), ReplayFault>
        requires set { IsSome (catalog_of self.old) }
        requires changes { self.old.changes + 1 < 2 ^ 64 }
        ensures taken { (before : List (List ℕ)) (s : Served) → ServesAs self.old s → OnOk result (TakesRecord before s self.new Record.Publish) }
        ensures refused { (before : List (List ℕ)) (s : Served) → ServesAs self.old s
            → result ≡ Err ReplayFault.Refused → RefusesRecord before s Record.Publish }
        ensures changes { OnOk result (self.new.changes ≤ self.old.changes + 1) }
    {
        if !self.is_merging() || self.left() > 0 {
            return Err(ReplayFault::Refused);
        }
        self.take_edit(alloc, Edit::Publish)?;
        Ok(())
    }

    /// The begin of a merge, and its record, unless one is begun.
    pub fn begin_entry(&self, alloc: Global) -> Result<Entry, Refusal>
        requires set { IsSome (catalog_of self.now) }
        ensures may { IfOk result (MayCommit self.now) }
        ensures entry { IfOk result (λ entry. (s : State) → ServesAs self.now s.served → IsStepEntry (s.served.lawful ≡ true) self.now s step.Begin entry) }
        ensures refused { IfErr result (λ why. (s : State) → ServesAs self.now s.served → RefusesStep s step.Begin why) }
    {
        if self.is_merging() {
            return Err(Refusal::Merging);
        }
        let body = write_record(alloc, &Record::Begin)?;
        Ok(Entry {
            edit: Edit::Begin,
            body: Items::from_vec(body),
        })
    }

    /// The publish of the merge, and its record, unless none is begun or a term is left.
    pub fn publish_entry(&self, alloc: Global) -> Result<Entry, Refusal>
        requires set { IsSome (catalog_of self.now) }
        ensures may { IfOk result (MayCommit self.now) }
        ensures entry { IfOk result (λ entry. (s : State) → ServesAs self.now s.served → IsStepEntry (s.served.lawful ≡ true) self.now s step.Publish entry) }
        ensures refused { IfErr result (λ why. (s : State) → ServesAs self.now s.served → RefusesStep s step.Publish why) }
    {
        if !self.is_merging() {
            return Err(Refusal::NoMerge);
        }
        if self.left() > 0 {
            return Err(Refusal::MergeUnbuilt);
        }
        let body = write_record(alloc, &Record::Publish)?;
        Ok(Entry {
            edit: Edit::Publish,
            body: Items::from_vec(body),
        })
    }

    /// The next slice of the merge that is begun, of so many terms at most, and its record, which is to come behind a journal that ends at
    /// this place. `None` where it has no term.
    ///
    /// Errors: `Page`, where a page could not be read, or stands there no more; `Memory`.
    pub fn slice_entry<R: PageReader>(
        &self,
        alloc: Global,
        most: u32,
        end: u64,
        reader: &mut R,
    ) -> Result<Option<Entry>, ScanFault>
        requires begun { IsSome (last_of self.now) }
        requires ready { R.ready reader.old }
        ensures may { IfOk result (λ entry. ForSome entry (MayCommit self.now)) }
        ensures entry { IfOk result (λ entry. (s : State) → ServesAs self.now s.served → end ≡ end_of s.bodies
            → PlansSlice (R.told reader.old) self.now s most entry) }
        ensures asks { AsksSliced (R.told reader.old) R.gives R.fails self.now most reader.old reader.new result }
        ensures reader { KeepsReader R.told R.ready R.faults reader.old reader.new result }
    {
        let Some(catalog) = &self.catalog else {
            return Ok(None);
        };
        let slice = catalog.slice(alloc, most.min(SLICE_TERMS), reader)?;
        if slice.terms.as_slice().is_empty() {
            return Ok(None);
        }
        let entry = entry_of(alloc, slice, end)?;
        Ok(Some(entry))
    }
}

/// A record has so many terms at most.
pub(crate) const SLICE_TERMS: u32 = 1000;

/// A record has so many bytes at most.
const BODY_BYTES: usize = 1 << 24;

/// A slice as an edit, with its record behind a journal that ends at this place. A slice that no record has room for is refused as
/// want of memory: there is none, by the number of documents.
fn entry_of(alloc: Global, slice: Slice, end: u64) -> Result<Entry, Memory>
    requires some { 1 ≤ length slice.terms }
    requires few { length slice.terms ≤ 1000 }
    requires fit { AllByRecursion TermFits slice.terms }
    requires whole { length slice.pages ≡ 4096 * page_count slice.terms }
    ensures { IfOk result (IsSliceEntry slice end) }
{
    let entry = record_by(slice);
    let body = write_record(alloc, &entry)?;
    if body.len() > BODY_BYTES {
        return Err(Memory);
    }
    let Some(after) = end.checked_add(5 + body.len() as u64) else {
        return Err(Memory);
    };
    Ok(Entry {
        edit: slice_edit(entry, after),
        body: Items::from_vec(body),
    })
}

/// The record of a slice.
fn record_by(slice: Slice) -> Record
    ensures { result ≡ Record.Slice slice.terms slice.pages }
{
    let Slice { terms, pages } = slice;
    Record::Slice { terms, pages }
}

/// The edit of a slice's record that ends at this place.
fn slice_edit(entry: Record, end: u64) -> Edit
    requires slice { IsSliceRecord entry }
    requires end { SliceEnds entry end }
    ensures { IsEditOf entry end result }
{
    match entry {
        Record::Slice { terms, pages } => {
            let at = end - pages.as_slice().len() as u64;
            Edit::Slice { terms, pages, at }
        }
        _ => unreachable!(),
    }
}
