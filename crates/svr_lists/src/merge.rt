ghost use Rattle.std.specs.Prelude.{◌≡◌, ◌<◌, ◌≤◌, ◌^◌, ℕ, All, None, OnErr, OnOk, Option, Some, option_map};
ghost use Rattle.std.specs.Option.{is_some};
ghost use Rattle.svr_merge.specs.Rules.{rules_now};
ghost use Rattle.svr_schema.specs.Lawful.{IsMethod};
ghost use Rattle.svr_lists.specs.Layout.{CountsBehind};
ghost use Rattle.svr_lists.specs.Lists.{IsAtScores, last_in};
ghost use Rattle.svr_lists.specs.Merges.{AreScoresOf, BeginsMerge, CountsLeft, ForgetsMerge};

use crate::lists::Lists;
use std::alloc::Global;
use svr_edge::{Memory, Text};
use svr_index::Index;
use svr_merge::MergeRun;
use svr_num::{Hit, SCORE_MAX};
use svr_schema::MethodSpec;

/// How many live terms are behind one, or there are at all. It ends at the greatest number that it can tell.
fn terms_behind(index: &Index, first: Option<&Text>) -> u64
    ensures { CountsBehind index.now (option_map (λ t. t.now) first.entry) result }
{
    let mut after = first;
    for count in 0..u64::MAX {
        let Some(term) = index.next_term(after) else {
            return count;
        };
        after = Some(term);
    }
    u64::MAX
}

impl Lists {
    /// Begins a merge beside these documents, in place of one that was begun: by the method of the schema for their scores. After an
    /// error all stays.
    pub fn begin(
        &mut self,
        alloc: Global,
        documents: &[Hit],
        spec: &MethodSpec,
    ) -> Result<(), Memory>
        requires ids { All (λ d. d.id < 2 ^ 63) documents.now }
        requires scores { All (λ d. d.score ≤ SCORE_MAX) documents.now }
        requires lawful { IsMethod spec.now }
        ensures begins { OnOk result (BeginsMerge self.old self.new documents.now (rules_now spec.now documents.now)) }
        ensures at_scores { (score : ℕ → Option ℕ) → IsAtScores score self.old → AreScoresOf documents.now score
            → OnOk result (IsAtScores score self.new) }
        ensures last { OnOk result (last_in self.new ≡ Some None) }
        ensures kept { self.new.index ≡ self.old.index }
        ensures err { OnErr result (self.new ≡ self.old) }
    {
        let run = MergeRun::begin(alloc, documents, spec)?;
        self.merge = Some(run);
        Ok(())
    }

    /// Forgets the merge, if one is begun. It takes no memory.
    pub fn forget(&mut self)
        ensures forgets { ForgetsMerge self.old self.new }
        ensures at_scores { (score : ℕ → Option ℕ) → IsAtScores score self.old → IsAtScores score self.new }
        ensures value { self.new ≡ record self.old { merge = None } }
    {
        self.merge = None;
    }

    /// Whether a merge is begun.
    pub fn is_begun(&self) -> bool
        ensures { result ≡ is_some (last_in self.now) }
    {
        self.merge.is_some()
    }

    /// How many terms the merge has left, if one is begun. It takes no memory.
    pub fn left(&self) -> Option<u64>
        ensures count { CountsLeft self.now result }
        ensures begun { is_some result ≡ is_some (last_in self.now) }
    {
        let Some(run) = &self.merge else {
            return None;
        };
        Some(terms_behind(&self.index, run.last()))
    }
}
