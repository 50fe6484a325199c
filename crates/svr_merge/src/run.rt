ghost use Rattle.std.specs.Prelude.{◌≡◌, ◌≤◌, ◌<◌, ◌^◌, All, IfOk, IfSome, List, None, OnErr, OnOk, Option, Some, [], map, option_copied, true};
ghost use Rattle.std.specs.List.Sorted.{IsStrictlyIncreasing};
ghost use Rattle.svr_chunks.specs.Chosen.{chosen_rules};
ghost use Rattle.svr_idmap.specs.Ids.{SetsValue, value_at};
ghost use Rattle.svr_listing.specs.Listing.{hit_of};
ghost use Rattle.svr_listing.specs.declared.document.Document.{Document};
ghost use Rattle.svr_listing.specs.Merges.{Merge, begin, is_after, pairs_of};
ghost use Rattle.svr_long.specs.Heads.{are_heads};
ghost use Rattle.svr_long.specs.Lists.{pages_at};
ghost use Rattle.svr_schema.specs.Lawful.{IsMethod};
ghost use Rattle.svr_merge.specs.Images.{MayFillPages, pages_bytes, pairs_by};
ghost use Rattle.svr_merge.specs.Rules.{rules_now};
ghost use Rattle.svr_merge.specs.Layout.{HasKeysOf};
ghost use Rattle.svr_merge.specs.Runs.{HaveKeys, PutsPages, StandsForMerge};

use crate::method::method_for;
use crate::pages::{pairs_by, write_pages};
use crate::scores::scores_of;
use std::alloc::Global;
use std::marker::Model;
use svr_chunks::Chosen;
use svr_edge::{Memory, Text};
use svr_idmap::IdMap;
use svr_long::LongLists;
use svr_method::Method;
use svr_num::{DocId, Hit, SCORE_MAX};
use svr_postpage::PageRef;
use svr_schema::MethodSpec;

/// A merge that was begun: its method, the new key of each document that stood at the begin and was not touched since, the last
/// sliced term, and the pages of the sliced terms. Contracts see these four.
#[derive(Drop)]
pub struct MergeRun {
    method: Chosen,
    keys: IdMap<u64>,
    last: Option<Text>,
    lists: LongLists,
}

impl Model for MergeRun {
    ghost use Rattle.svr_merge.specs.Layout.{NoLater};
    ghost use Rattle.svr_merge.specs.Runs.{HaveKeys, Run};

    ghost Value = { Run };

    ghost view = { λ r. record { method = r.method; keys = r.keys; last = r.last; lists = r.lists } };

    ghost invariant = { λ r. HaveKeys r.keys × NoLater r.last r.lists };
}

/// The key of a score under a method.
fn key_of(method: &Chosen, score: u64) -> u64
    requires { score ≤ SCORE_MAX }
    ensures value { result ≡ (chosen_rules method.now).key score }
    ensures within { result < 2 ^ 48 }
{
    method.key(score)
}

/// The key of the score of each document, by its id.
fn keys_by(alloc: Global, method: &Chosen, documents: &[Hit]) -> Result<IdMap<u64>, Memory>
    requires ids { All (λ d. d.id < 2 ^ 63) documents.now }
    requires scores { All (λ d. d.score ≤ SCORE_MAX) documents.now }
    ensures keys { IfOk result (HasKeysOf (chosen_rules method.now) documents.now) }
    ensures within { IfOk result HaveKeys }
{
    let mut keys = IdMap::new(alloc);
    let mut at = documents.len();
    while at > 0 {
        at -= 1;
        let document = documents[at];
        keys.insert(document.id, key_of(method, document.score))?;
    }
    Ok(keys)
}

/// Gives a term its pages, if there is one.
fn put_pages(lists: &mut LongLists, term: Text, pages: Vec<PageRef>) -> Result<(), Memory>
    requires absent { pages_at lists.old term ≡ None }
    requires heads { are_heads pages.items ≡ true }
    ensures puts { OnOk result (PutsPages lists.old lists.new term pages.items) }
    ensures err { OnErr result (lists.new ≡ lists.old) }
{
    if !pages.is_empty() {
        lists.put(term, pages)?;
    }
    Ok(())
}

impl MergeRun {
    /// Begins a merge beside these documents: the method of the schema for their scores, and for each the key of its score.
    pub fn begin(alloc: Global, documents: &[Hit], spec: &MethodSpec) -> Result<MergeRun, Memory>
        requires ids { All (λ d. d.id < 2 ^ 63) documents.now }
        requires scores { All (λ d. d.score ≤ SCORE_MAX) documents.now }
        requires lawful { IsMethod spec.now }
        ensures stands { IfOk result (λ run. (ds : List Document) → map hit_of ds ≡ documents.now
            → StandsForMerge run (begin (rules_now spec.now documents.now) ds)) }
        ensures unsliced { IfOk result (λ run. run.last ≡ None) }
    {
        let scores = scores_of(alloc, documents)?;
        let method = method_for(spec, scores.as_slice());
        let keys = keys_by(alloc, &method, documents)?;
        Ok(MergeRun {
            method,
            keys,
            last: None,
            lists: LongLists::new(alloc),
        })
    }

    /// A document changed: it has no new key from then on. It takes no memory.
    pub fn touch(&mut self, id: DocId)
        ensures keys { SetsValue self.old.keys self.new.keys id None }
        ensures kept { self.new ≡ record self.old { keys = self.new.keys } }
    {
        self.keys.remove(id);
    }

    /// The new key of a document. `None` exactly where it was touched, or didn't stand at the begin.
    pub fn new_key(&self, id: DocId) -> Option<u64>
        ensures value { result ≡ value_at self.now.keys id }
        ensures within { IfSome result (λ key. key < 2 ^ 48) }
    {
        self.keys.get(id).copied()
    }

    /// The method from the publish on.
    pub fn method(&self) -> &Chosen
        ensures { result.now ≡ self.now.method }
    {
        &self.method
    }

    /// Gives the next term its pages; none where all of its documents were touched. After an error all stays.
    pub fn sliced(&mut self, alloc: Global, term: Text, pages: Vec<PageRef>) -> Result<(), Memory>
        requires after { is_after self.old.last term ≡ true }
        requires heads { are_heads pages.items ≡ true }
        ensures absent { OnOk result (pages_at self.old.lists term ≡ None) }
        ensures last { OnOk result (self.new.last ≡ Some term) }
        ensures pages { OnOk result (PutsPages self.old.lists self.new.lists term pages.items) }
        ensures kept { OnOk result (self.new ≡ record self.old { last = self.new.last; lists = self.new.lists }) }
        ensures err { OnErr result (self.new ≡ self.old) }
    {
        let last = term.copy(alloc)?;
        put_pages(&mut self.lists, term, pages)?;
        self.last = Some(last);
        Ok(())
    }

    /// The last sliced term.
    pub fn last(&self) -> Option<&Text>
        ensures value { option_copied result ≡ self.now.last }
        ensures within { HaveKeys self.now.keys }
    {
        self.last.as_ref()
    }

    /// The whole pages of those of these documents that have a new key: in page order, 255 in each page but the last.
    pub fn images(&self, alloc: Global, ids: &[DocId]) -> Result<Vec<u8>, Memory>
        requires { IsStrictlyIncreasing ids.now }
        ensures ordered { IfOk result (λ _. MayFillPages (pairs_by self.now.keys ids.now)) }
        ensures bytes { IfOk result (λ bytes. bytes.items ≡ pages_bytes (pairs_by self.now.keys ids.now)) }
        ensures stands { IfOk result (λ bytes. (m : Merge) → StandsForMerge self.now m → bytes.items ≡ pages_bytes (pairs_of m ids.now)) }
    {
        let pairs = pairs_by(alloc, &self.keys, ids)?;
        write_pages(alloc, pairs.as_slice())
    }

    /// The pages of the sliced terms, and the method.
    pub fn finish(self) -> (LongLists, Chosen)
        ensures lists { result.0 ≡ self.lists }
        ensures method { result.1 ≡ self.method }
    {
        (self.lists, self.method)
    }
}
