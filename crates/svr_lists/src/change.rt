ghost use Rattle.std.specs.Prelude.{◌≡◌, ◌<◌, ◌≤◌, ◌^◌, ℕ, IsSome, None, OnOk, Option, Some};
ghost use Rattle.svr_chunks.specs.Chosen.{chosen_rules};
ghost use Rattle.svr_idmap.specs.Ids.{value_at};
ghost use Rattle.svr_listing.specs.Changes.{entry_now, moved_to};
ghost use Rattle.svr_tokens.specs.Tokens.{tokens_of};
ghost use Rattle.svr_index.specs.Index.{Comes, Follows, IsEdited, IsScored, KeepsEntries, SetsEntry};
ghost use Rattle.svr_lists.specs.Layout.{IsTouched};
ghost use Rattle.svr_lists.specs.Lists.{ComesWithText, FollowsDocument, GoesAway, IsAtScores, IsRescored, IsRewritten, SetsScore, last_in};

use crate::lists::Lists;
use std::alloc::Global;
use std::sync::ledger::Ledger;
use svr_edge::Memory;
use svr_index::Index;
use svr_merge::MergeRun;
use svr_num::{DocId, SCORE_MAX, Score};
use svr_steps::Steps;
use svr_tokens::tokens;

/// Touches a document in a merge, if one is begun. It takes no memory.
fn touch(merge: &mut Option<MergeRun>, id: DocId)
    ensures { IsTouched merge.old merge.new id }
{
    if let Some(run) = merge {
        run.touch(id);
    }
}

/// Lists a document that comes under the terms of its text.
fn text_in<L: Ledger>(
    index: &mut Index,
    alloc: Global,
    id: DocId,
    score: Score,
    text: &str,
    steps: &mut Steps<L>,
) -> Result<(), Memory>
    requires id { id < 2 ^ 63 }
    requires score { score ≤ SCORE_MAX }
    requires new { value_at index.old.entries id ≡ None }
    ensures follows { OnOk result (Follows index.old index.new id (Comes score (tokens_of text.now))) }
    ensures entries { OnOk result (SetsEntry index.old index.new id (Some (moved_to (chosen_rules index.old.method) score))) }
{
    let terms = tokens(alloc, text)?;
    index.doc_in(alloc, id, score, &terms, steps)?;
    Ok(())
}

/// Gives a document with a text another score. The text is cut only where the document moves.
fn text_scored<L: Ledger>(
    index: &mut Index,
    alloc: Global,
    id: DocId,
    score: Score,
    text: &str,
    steps: &mut Steps<L>,
) -> Result<(), Memory>
    requires id { id < 2 ^ 63 }
    requires score { score ≤ SCORE_MAX }
    requires listed { IsSome (value_at index.old.entries id) }
    ensures follows { OnOk result (Follows index.old index.new id (IsScored score (tokens_of text.now))) }
    ensures entries { OnOk result (SetsEntry index.old index.new id
        (Some (entry_now (chosen_rules index.old.method) score (value_at index.old.entries id)))) }
{
    if index.stays(id, score) {
        return Ok(());
    }
    let terms = tokens(alloc, text)?;
    index.score_change(alloc, id, score, &terms, steps)?;
    Ok(())
}

/// Gives a document the terms of another text.
fn text_edited<L: Ledger>(
    index: &mut Index,
    alloc: Global,
    id: DocId,
    old: &str,
    new: &str,
    steps: &mut Steps<L>,
) -> Result<(), Memory>
    requires id { id < 2 ^ 63 }
    requires listed { IsSome (value_at index.old.entries id) }
    ensures follows { OnOk result (Follows index.old index.new id (IsEdited (tokens_of old.now) (tokens_of new.now))) }
    ensures entries { OnOk result (KeepsEntries index.old index.new) }
{
    let before = tokens(alloc, old)?;
    let now = tokens(alloc, new)?;
    index.content_change(alloc, id, &before, &now, steps)?;
    Ok(())
}

impl Lists {
    /// A document comes.
    pub fn comes<L: Ledger>(
        &mut self,
        alloc: Global,
        id: DocId,
        score: Score,
        text: &str,
        steps: &mut Steps<L>,
    ) -> Result<(), Memory>
        requires id { id < 2 ^ 63 }
        requires score { score ≤ SCORE_MAX }
        requires new { value_at self.old.index.entries id ≡ None }
        ensures follows { OnOk result (FollowsDocument self.old self.new id (ComesWithText score text.now)) }
        ensures at_scores { (old new : ℕ → Option ℕ) → IsAtScores old self.old → SetsScore old new id (Some score)
            → OnOk result (IsAtScores new self.new) }
        ensures last { OnOk result (last_in self.new ≡ last_in self.old) }
    {
        text_in(&mut self.index, alloc, id, score, text, steps)?;
        touch(&mut self.merge, id);
        Ok(())
    }

    /// A document goes. It takes no memory.
    pub fn goes<L: Ledger>(&mut self, id: DocId, steps: &mut Steps<L>)
        ensures follows { FollowsDocument self.old self.new id GoesAway }
        ensures at_scores { (old new : ℕ → Option ℕ) → IsAtScores old self.old → SetsScore old new id None → IsAtScores new self.new }
        ensures last { last_in self.new ≡ last_in self.old }
    {
        self.index.doc_out(id, steps);
        touch(&mut self.merge, id);
    }

    /// A document with this text has another score. The text is cut into terms only where the document moves.
    pub fn scored<L: Ledger>(
        &mut self,
        alloc: Global,
        id: DocId,
        score: Score,
        text: &str,
        steps: &mut Steps<L>,
    ) -> Result<(), Memory>
        requires id { id < 2 ^ 63 }
        requires score { score ≤ SCORE_MAX }
        requires listed { IsSome (value_at self.old.index.entries id) }
        ensures follows { OnOk result (FollowsDocument self.old self.new id (IsRescored score text.now)) }
        ensures at_scores { (old new : ℕ → Option ℕ) → IsAtScores old self.old → SetsScore old new id (Some score)
            → OnOk result (IsAtScores new self.new) }
        ensures last { OnOk result (last_in self.new ≡ last_in self.old) }
    {
        text_scored(&mut self.index, alloc, id, score, text, steps)?;
        touch(&mut self.merge, id);
        Ok(())
    }

    /// A document has another text at the same score. Where both texts are the same nothing is done.
    pub fn edited<L: Ledger>(
        &mut self,
        alloc: Global,
        id: DocId,
        old: &str,
        new: &str,
        steps: &mut Steps<L>,
    ) -> Result<(), Memory>
        requires id { id < 2 ^ 63 }
        requires listed { IsSome (value_at self.old.index.entries id) }
        ensures follows { OnOk result (FollowsDocument self.old self.new id (IsRewritten old.now new.now)) }
        ensures at_scores { (score : ℕ → Option ℕ) → IsAtScores score self.old → OnOk result (IsAtScores score self.new) }
        ensures last { OnOk result (last_in self.new ≡ last_in self.old) }
    {
        if old == new {
            return Ok(());
        }
        text_edited(&mut self.index, alloc, id, old, new, steps)?;
        touch(&mut self.merge, id);
        Ok(())
    }
}
