ghost use Rattle.std.specs.Prelude.{◌≡◌, ◌≤◌, ◌<◌, ◌^◌, ℕ, true, length, slice_index};
ghost use Rattle.std.specs.List.{AllByRecursion};
ghost use Rattle.std.specs.Option.{ForSome};
ghost use Rattle.svr_listing.specs.Groups.{IsOrdered};
ghost use Rattle.svr_iter.specs.Mem.{AreOrdered, holds};
ghost use Rattle.svr_tests_search.specs.Bounded.{ScoresWithin, score_in};

use std::alloc::{AllocError, Global};
use svr_iter::{MemPostings, Postings, ScanFault};
use svr_listing::Group;
use svr_method::Method;
use svr_num::{DocId, Hit, Score, Scores};
use svr_postpage::NoPages;
use svr_topk::{Answer, scan};

/// Scores by id, of which the first counts.
#[derive(Drop)]
pub struct Table {
    pub rows: Vec<Hit>,
}

impl Scores for Table {
    ghost score_of = { λ t id. score_in t.rows.items id };

    fn score(&self, id: DocId) -> Option<Score> {
        let hit = self.rows.iter().find(|hit| hit.id == id)?;
        Some(hit.score.min((1 << 48) - 1))
    }
}

/// A group as a text: its key and its ids.
fn push_group(alloc: Global, text: &mut String, key: u64, ids: &[DocId]) -> Result<(), AllocError> {
    text.push_str(&format!(in alloc; "{key}")?)?;
    for id in ids {
        text.push_str(&format!(in alloc; " {id}")?)?;
    }
    text.push_str("; ")
}

/// All groups that are still to come, as a text.
pub fn text_of_groups<P: Postings>(alloc: Global, list: &mut P) -> Result<String, ScanFault> {
    let mut reader = NoPages::new();
    let mut ids = Vec::new(alloc);
    let mut text = String::new(alloc);
    'groups: while let Some(key) = list.next_key() {
        list.take_group(alloc, &mut reader, &mut ids)?;
        if push_group(alloc, &mut text, key, &ids).is_err() {
            return Err(ScanFault::Memory);
        }
    }
    Ok(text)
}

/// Whether no id has a score above the bound.
fn ids_within<S: Scores>(ids: &[DocId], bound: Score, scores: &S) -> bool
    requires { (k : ℕ) → k < length ids.now → slice_index ids.now k < 2 ^ 63 }
    ensures { result ≡ true → ScoresWithin (S.score_of scores.now) bound ids.now }
{
    for id in ids {
        if let Some(score) = scores.score(*id)
            && score > bound
        {
            return false;
        }
    }
    true
}

/// Whether no id has a score above the bound of its key.
pub fn are_bounded<M: Method, S: Scores>(groups: &[Group], scores: &S, method: &M) -> bool
    requires { AllByRecursion IsOrdered groups.now }
    ensures { result ≡ true → (key id : ℕ) → holds groups.now key id ≡ true
        → ForSome (S.score_of scores.now id) (λ score. score ≤ (M.rules method.now).bound key) }
{
    for group in groups {
        if !ids_within(group.ids.as_slice(), method.bound(group.key), scores) {
            return false;
        }
    }
    true
}

/// Searches among groups in memory, where they are in order and no score is above its bound.
pub fn search<M: Method, S: Scores>(
    alloc: Global,
    k: u32,
    groups: Vec<Group>,
    scores: &S,
    method: &M,
) -> Result<Option<Answer>, ScanFault>
    requires some { 0 < k }
    requires few { k ≤ 1000 }
{
    if !MemPostings::are_ordered(&groups) || !are_bounded(&groups, scores, method) {
        return Ok(None);
    }
    let mut matches = MemPostings::new(groups);
    let mut reader = NoPages::new();
    Ok(Some(scan(alloc, k, &mut matches, &mut reader, scores, method)?))
}
