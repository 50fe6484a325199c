ghost use Rattle.std.specs.Prelude.{◌≡◌, ◌≤◌, ◌<◌, ◌^◌, [], ◌∷◌, ◌++◌, ℕ, length, true, All, IfOk};
ghost use Rattle.std.specs.Option.{ForSome};
ghost use Rattle.svr_num.specs.Hits.{best_hits, kth_score};
ghost use Rattle.svr_listing.specs.Groups.{hits_of};
ghost use Rattle.svr_listing.specs.Methods.{Rules};
ghost use Rattle.svr_listing.specs.Visits.{IsAnswer, is_above, pages_visited};
ghost use Rattle.svr_iter.specs.Asked.{AsksByBytes};
ghost use Rattle.svr_iter.specs.Reader.{KeepsReader};
ghost use Rattle.svr_topk.specs.Scan.{goes_on};
ghost use Rattle.svr_topk.specs.Top.{IsTop};

use crate::top::TopK;
use std::alloc::Global;
use svr_edge::{Items, Memory};
use svr_iter::{Postings, ScanFault};
use svr_method::Method;
use svr_num::{DocId, Hit, Score, Scores};
use svr_postpage::PageReader;

/// The answer to a search.
#[derive(Drop)]
pub struct Answer {
    /// The hits, best first.
    pub hits: Items<Hit>,
    /// How many groups of the listing were visited.
    pub groups: u64,
}

/// Whether no document below the bound can come among the best any more.
fn is_settled(worst: Option<Score>, bound: Score) -> bool
    ensures { result ≡ is_above worst bound }
{
    match worst {
        Some(score) => bound < score,
        None => false,
    }
}

/// Whether a further group has to be visited.
fn has_to_go_on<M: Method, P: Postings>(matches: &P, top: &TopK, method: &M) -> bool
    ensures { result ≡ goes_on (P.next matches.now) (M.rules method.now).bound (kth_score top.now.k top.now.hits) }
{
    match matches.next_key() {
        Some(key) => !is_settled(top.worst(), method.bound(key)),
        None => false,
    }
}

/// Takes the hit of an id, if it has a score.
fn rank_id<S: Scores>(top: &mut TopK, id: DocId, scores: &S)
    requires fits { id < 2 ^ 63 }
    requires top { IsTop top.old.k top.old.hits }
    ensures { top.new ≡ record top.old { hits = best_hits top.old.k (hits_of (S.score_of scores.now) (id ∷ []) ++ top.old.hits) } }
{
    match scores.score(id) {
        Some(score) => top.push(Hit { id, score }),
        None => {}
    }
}

/// Takes the hits of a group.
fn rank_group<S: Scores>(top: &mut TopK, ids: &[DocId], scores: &S)
    requires fit { All (λ id. id < 2 ^ 63) ids.now }
    requires top { IsTop top.old.k top.old.hits }
    ensures { top.new ≡ record top.old { hits = best_hits top.old.k (hits_of (S.score_of scores.now) ids.now ++ top.old.hits) } }
{
    for id in ids {
        rank_id(top, *id, scores);
    }
}

/// Finds the best `k` of all documents that match, in as few groups as suffice.
pub fn scan<M: Method, P: Postings, S: Scores, R: PageReader>(
    alloc: Global,
    k: u32,
    matches: &mut P,
    reader: &mut R,
    scores: &S,
    method: &M,
) -> Result<Answer, ScanFault>
    requires some { 0 < k }
    requires few { k ≤ 1000 }
    requires ready { R.ready reader.old }

    // No document that may come at a key has a score above the key's bound.
    requires bounded { (key id : ℕ) → P.may matches.old key id ≡ true
        → ForSome (S.score_of scores.now id) (λ score. score ≤ (M.rules method.now).bound key) }

    ensures found { IfOk result (λ answer. ForSome (R.told reader.old) (λ bytes.
        IsAnswer k (M.rules method.now).bound (S.score_of scores.now) (P.groups matches.old bytes) answer.hits answer.groups)) }
    ensures short { IfOk result (λ answer. length answer.hits ≤ k) }

    // It asks for the pages of the groups that it visits, each once and for no others; after Ok all were given, and after a page's
    // fault those before that page.
    ensures asks { AsksByBytes (R.told reader.old) R.gives R.fails
        (λ bytes. pages_visited k (M.rules method.now).bound (S.score_of scores.now) (P.pages matches.old) (P.groups matches.old bytes))
        reader.old reader.new result }
    ensures reader { KeepsReader R.told R.ready R.faults reader.old reader.new result }
{
    let mut top = match TopK::new(alloc, k) {
        Ok(top) => top,
        Err(Memory) => return Err(ScanFault::Memory),
    };
    let mut ids = Vec::new(alloc);
    let mut groups = 0;
    'groups: while has_to_go_on(matches, &top, method) {
        matches.take_group(alloc, reader, &mut ids)?;
        rank_group(&mut top, &ids, scores);
        groups += 1;
    }
    Ok(Answer {
        hits: Items::from_vec(top.into_hits()),
        groups,
    })
}
