ghost use Rattle.std.specs.Prelude.{◌≡◌, ◌<◌, ◌≤◌, ◌^◌, ℕ, All, IfOk, None, OnOk, Option};
ghost use Rattle.svr_chunks.specs.Chosen.{chosen_rules};
ghost use Rattle.svr_idmap.specs.Ids.{value_at};
ghost use Rattle.svr_index.specs.Index.{KeepsEntries, Takes};
ghost use Rattle.svr_listing.specs.Merges.{entry_by};
ghost use Rattle.svr_lists.specs.Layout.{AreEntriesBy, InstallsRun, PlacesAll, PlacesOne};
ghost use Rattle.svr_lists.specs.Lists.{IsAtScores, last_in};
ghost use Rattle.svr_lists.specs.Publish.{AreScoresIn, Publishes};

use crate::lists::Lists;
use std::alloc::Global;
use std::sync::ledger::Ledger;
use svr_edge::Memory;
use svr_index::Index;
use svr_listkey::ListKeys;
use svr_merge::MergeRun;
use svr_method::Method;
use svr_num::{DocId, ListKey, SCORE_MAX, Score};
use svr_steps::Steps;
use svr_tokens::tokens;

/// A document, as a publish has to know it.
#[derive(Clone, Copy)]
pub struct DocumentText<'a> {
    pub id: DocId,
    pub score: Score,
    pub text: &'a str,
}

/// Where a document with this score is listed after a publish: unmoved at its new key, or moved at the key of its score.
fn entry_after(run: &MergeRun, id: DocId, score: Score) -> ListKey
    requires score { score ≤ SCORE_MAX }
    ensures value { result ≡ entry_by (chosen_rules run.now.method) score (value_at run.now.keys id) }
    ensures within { result.key < 2 ^ 48 }
{
    match run.new_key(id) {
        Some(key) => ListKey { key, moved: false },
        None => ListKey {
            key: run.method().key(score),
            moved: true,
        },
    }
}

/// Where all documents are listed after a publish.
fn entries_after(
    alloc: Global,
    run: &MergeRun,
    documents: &[DocumentText],
) -> Result<ListKeys, Memory>
    requires scores { All (λ d. d.score ≤ SCORE_MAX) documents.now }
    ensures { IfOk result (AreEntriesBy run.now documents.now) }
{
    let mut keys = ListKeys::new(alloc);
    let mut at = documents.len();
    while at > 0 {
        at -= 1;
        let document = documents[at];
        keys.set(document.id, entry_after(run, document.id, document.score))?;
    }
    Ok(keys)
}

/// Installs the pages of a merge, with the entries of documents after it.
fn install<L: Ledger>(
    index: &mut Index,
    alloc: Global,
    run: MergeRun,
    documents: &[DocumentText],
    steps: &mut Steps<L>,
) -> Result<(), Memory>
    requires scores { All (λ d. d.score ≤ SCORE_MAX) documents.now }
    ensures { OnOk result (InstallsRun index.new run documents.now) }
{
    let keys = entries_after(alloc, &run, documents)?;
    let (lists, method) = run.finish();
    index.install(alloc, lists, method, keys, steps);
    Ok(())
}

/// Places a document under the terms of its text, if it is moved.
fn place<L: Ledger>(
    index: &mut Index,
    alloc: Global,
    document: &DocumentText,
    steps: &mut Steps<L>,
) -> Result<(), Memory>
    requires id { document.now.id < 2 ^ 63 }
    ensures places { OnOk result (PlacesOne index.old index.new document.now) }
    ensures entries { OnOk result (KeepsEntries index.old index.new) }
{
    match index.entry(document.id) {
        Some(ListKey { moved: true, .. }) => {
            let terms = tokens(alloc, document.text)?;
            index.place_moved(alloc, document.id, &terms, steps)?;
            Ok(())
        }
        _ => Ok(()),
    }
}

/// Places all documents that are moved.
fn place_all<L: Ledger>(
    index: &mut Index,
    alloc: Global,
    documents: &[DocumentText],
    steps: &mut Steps<L>,
) -> Result<(), Memory>
    requires ids { All (λ d. d.id < 2 ^ 63) documents.now }
    ensures places { OnOk result (PlacesAll index.old index.new documents.now) }
    ensures entries { OnOk result (KeepsEntries index.old index.new) }
{
    let mut at = documents.len();
    while at > 0 {
        at -= 1;
        place(index, alloc, &documents[at], steps)?;
    }
    Ok(())
}

impl Lists {
    /// Ends the merge, if one is begun: its pages are posted in place of those before, and each of these documents is listed unmoved at
    /// its new key, or moved at the key of its score by the new method.
    pub fn publish<L: Ledger>(
        &mut self,
        alloc: Global,
        documents: &[DocumentText],
        steps: &mut Steps<L>,
    ) -> Result<(), Memory>
        requires ids { All (λ d. d.id < 2 ^ 63) documents.now }
        requires scores { All (λ d. d.score ≤ SCORE_MAX) documents.now }
        ensures publishes { OnOk result (Publishes self.old self.new documents.now) }
        ensures at_scores { (score : ℕ → Option ℕ) → IsAtScores score self.old → AreScoresIn documents.now score
            → OnOk result (IsAtScores score self.new) }
        ensures last { OnOk result (last_in self.new ≡ None) }
    {
        let Some(run) = self.merge.take() else {
            return Ok(());
        };
        install(&mut self.index, alloc, run, documents, steps)?;
        place_all(&mut self.index, alloc, documents, steps)?;
        Ok(())
    }
}
