ghost use Rattle.std.specs.Prelude.{◌≡◌, ◌<◌, ◌≤◌, ◌^◌, ℕ, List, IsSome, None, OnErr, OnOk, Some, true};
ghost use Rattle.svr_chunks.specs.Chosen.{chosen_rules};
ghost use Rattle.svr_idmap.specs.Ids.{SetsValue, value_at};
ghost use Rattle.svr_listing.specs.Changes.{entry_now, moved_to};
ghost use Rattle.svr_index.specs.Index.{Comes, Follows, Goes, Installs, IsEdited, IsScored, KeepsEntries, Places, SetsEntry, Takes};
ghost use Rattle.svr_index.specs.Index.{is_moved, stays_listed};
ghost use Rattle.svr_long.specs.Lists.{pages_at};
ghost use Rattle.svr_short.specs.Short.{HasMarks, KeepsOthers, adds_at, mark_in};
ghost use Rattle.svr_tokens.specs.Tokens.{has_term};

use std::alloc::Global;
use std::marker::Model;
use std::sync::ledger::Ledger;
use svr_chunks::Chosen;
use svr_edge::Memory;
use svr_listkey::ListKeys;
use svr_long::LongLists;
use svr_method::Method;
use svr_num::{DocId, ListKey, SCORE_MAX, Score};
use svr_short::ShortLists;
use svr_steps::Steps;
use svr_tokens::Tokens;

/// Documents by terms: the method by which they are listed, their entries and marks, and the posted pages.
///
/// After `Memory` of a call that changes it, an index is spent: nothing is said of what it stands for.
#[derive(Drop)]
pub struct Index {
    pub(crate) method: Chosen,
    pub(crate) keys: ListKeys,
    pub(crate) short: ShortLists,
    pub(crate) long: LongLists,
}

impl Model for Index {
    ghost use Rattle.svr_index.specs.Index.{AreAtEntries, Indexed};

    ghost Value = { Indexed };

    ghost view = { λ i. record { method = i.method; entries = i.keys; marks = i.short; pages = i.long } };

    ghost invariant = { λ i. AreAtEntries i.keys i.short };
}

/// Empties the lists after a call on them that failed, since nothing is said then of what they hold.
fn empty_after(
    alloc: Global,
    short: &mut ShortLists,
    done: Result<(), Memory>,
) -> Result<(), Memory>
    ensures same { result ≡ done }
    ensures ok { OnOk result (short.new ≡ short.old) }
    ensures err { OnErr result ((term : List ℕ) (key id : ℕ) → mark_in short.new term key id ≡ None) }
{
    if done.is_err() {
        *short = ShortLists::new(alloc);
    }
    done
}

impl Index {
    /// No documents and no pages.
    pub fn new(alloc: Global, method: Chosen) -> Index
        ensures method { result.method ≡ method }
        ensures entries { (id : ℕ) → value_at result.entries id ≡ None }
        ensures unmarked { (term : List ℕ) (key id : ℕ) → mark_in result.marks term key id ≡ None }
        ensures pages { (term : List ℕ) → pages_at result.pages term ≡ None }
    {
        Index {
            method,
            keys: ListKeys::new(alloc),
            short: ShortLists::new(alloc),
            long: LongLists::new(alloc),
        }
    }

    /// Lists a document as moved at a key, under these terms alone.
    fn move_to<L: Ledger>(
        &mut self,
        alloc: Global,
        id: DocId,
        key: u64,
        terms: &Tokens,
        steps: &mut Steps<L>,
    ) -> Result<(), Memory>
        requires id { id < 2 ^ 63 }
        requires key { key < 2 ^ 48 }
        ensures method { self.new.method ≡ self.old.method }
        ensures pages { self.new.pages ≡ self.old.pages }
        ensures entry { OnOk result (SetsValue self.old.entries self.new.entries id (Some (record { key = key; moved = true }))) }
        ensures others { OnOk result (KeepsOthers self.old.marks self.new.marks id) }
        ensures marks { OnOk result (HasMarks self.new.marks id (adds_at key (has_term terms.now))) }
    {
        self.keys.set(id, ListKey { key, moved: true })?;
        let done = self.short.place(alloc, id, key, terms, steps);
        empty_after(alloc, &mut self.short, done)?;
        Ok(())
    }

    /// A document comes.
    pub fn doc_in<L: Ledger>(
        &mut self,
        alloc: Global,
        id: DocId,
        score: Score,
        terms: &Tokens,
        steps: &mut Steps<L>,
    ) -> Result<(), Memory>
        requires id { id < 2 ^ 63 }
        requires score { score ≤ SCORE_MAX }
        requires new { value_at self.old.entries id ≡ None }
        ensures follows { OnOk result (Follows self.old self.new id (Comes score terms.now)) }
        ensures entries { OnOk result (SetsEntry self.old self.new id (Some (moved_to (chosen_rules self.old.method) score))) }
    {
        let key = self.method.key(score);
        self.move_to(alloc, id, key, terms, steps)?;
        Ok(())
    }

    /// A document goes. It takes no memory.
    pub fn doc_out<L: Ledger>(&mut self, id: DocId, steps: &mut Steps<L>)
        ensures follows { Follows self.old self.new id Goes }
        ensures entries { SetsEntry self.old self.new id None }
    {
        self.short.drop_doc(id, steps);
        self.keys.forget(id);
    }

    /// Whether a listed document with this score stays at its key, so that a change to it touches nothing; false for one that isn't
    /// listed.
    pub fn stays(&self, id: DocId, score: Score) -> bool
        requires score { score ≤ SCORE_MAX }
        ensures value { result ≡ stays_listed (chosen_rules self.now.method) score (value_at self.now.entries id) }
        ensures kept { result ≡ true → (terms : List (List ℕ)) → Follows self.now self.now id (IsScored score terms) }
    {
        match self.keys.get(id) {
            Some(entry) => self.method.stays(score, entry.key),
            None => false,
        }
    }

    /// A document with these terms has another score. Where it stays at its key, no list is touched.
    pub fn score_change<L: Ledger>(
        &mut self,
        alloc: Global,
        id: DocId,
        score: Score,
        terms: &Tokens,
        steps: &mut Steps<L>,
    ) -> Result<(), Memory>
        requires id { id < 2 ^ 63 }
        requires score { score ≤ SCORE_MAX }
        requires listed { IsSome (value_at self.old.entries id) }
        ensures follows { OnOk result (Follows self.old self.new id (IsScored score terms.now)) }
        ensures entries { OnOk result (SetsEntry self.old self.new id
            (Some (entry_now (chosen_rules self.old.method) score (value_at self.old.entries id)))) }
    {
        if self.stays(id, score) {
            return Ok(());
        }
        let key = self.method.key(score);
        self.move_to(alloc, id, key, terms, steps)?;
        Ok(())
    }

    /// A document has other terms at the same score. It stays at its key, and only the lists of terms that differ are touched.
    pub fn content_change<L: Ledger>(
        &mut self,
        alloc: Global,
        id: DocId,
        old: &Tokens,
        new: &Tokens,
        steps: &mut Steps<L>,
    ) -> Result<(), Memory>
        requires id { id < 2 ^ 63 }
        requires listed { IsSome (value_at self.old.entries id) }
        ensures follows { OnOk result (Follows self.old self.new id (IsEdited old.now new.now)) }
        ensures entries { OnOk result (KeepsEntries self.old self.new) }
    {
        let Some(entry) = self.keys.get(id) else {
            return Ok(());
        };
        let done = self.short.edit(alloc, id, entry.key, old, new, steps);
        empty_after(alloc, &mut self.short, done)?;
        Ok(())
    }

    /// Takes the method, entries and pages of a merge. All marks go, and each moved document is still to be placed. It takes no memory.
    pub fn install<L: Ledger>(
        &mut self,
        alloc: Global,
        lists: LongLists,
        method: Chosen,
        keys: ListKeys,
        _steps: &mut Steps<L>,
    )
        ensures installs { Installs self.new method keys lists }
        ensures entries { Takes self.new method keys lists }
    {
        self.method = method;
        self.keys = keys;
        self.short = ShortLists::new(alloc);
        self.long = lists;
    }

    /// Places a moved document under its terms.
    pub fn place_moved<L: Ledger>(
        &mut self,
        alloc: Global,
        id: DocId,
        terms: &Tokens,
        steps: &mut Steps<L>,
    ) -> Result<(), Memory>
        requires id { id < 2 ^ 63 }
        requires moved { is_moved (value_at self.old.entries id) ≡ true }
        ensures places { OnOk result (Places self.old self.new id terms.now) }
        ensures entries { OnOk result (KeepsEntries self.old self.new) }
    {
        let Some(entry) = self.keys.get(id) else {
            return Ok(());
        };
        let done = self.short.place(alloc, id, entry.key, terms, steps);
        empty_after(alloc, &mut self.short, done)?;
        Ok(())
    }

    /// The posted pages of all terms.
    pub fn page_refs(&self) -> &LongLists
        ensures { result.now ≡ self.now.pages }
    {
        &self.long
    }
}
