ghost use Rattle.std.specs.Prelude.{◌≡◌, ◌<◌, ◌^◌, ◌++◌, [], ◌∷◌, IfOk, OnOk, take};
ghost use Rattle.std.specs.List.{All, AllByRecursion};
ghost use Rattle.svr_num.specs.Hits.{best_hits};
ghost use Rattle.svr_listing.specs.Groups.{IsOrdered, found, hits_of, ids_in};

use crate::group::Group;
use std::alloc::Global;
use svr_edge::Memory;
use svr_num::{DocId, Hit, Scores, keep_best};

/// Adds the hit of an id, if it has a score.
fn push_hit<S: Scores>(hits: &mut Vec<Hit>, scores: &S, id: DocId) -> Result<(), Memory>
    requires { id < 2 ^ 63 }
    ensures { OnOk result (hits.new.items ≡ hits.old.items ++ hits_of (S.score_of scores.now) (id ∷ [])) }
{
    if let Some(score) = scores.score(id) {
        hits.push(Hit { id, score })?;
    }
    Ok(())
}

/// The hits of ids, in their order. An id without a score is none.
pub fn hits_of<S: Scores>(alloc: Global, scores: &S, ids: &[DocId]) -> Result<Vec<Hit>, Memory>
    requires { All (λ id. id < 2 ^ 63) ids.now }
    ensures { IfOk result (λ hits. hits.items ≡ hits_of (S.score_of scores.now) ids.now) }
{
    let mut hits = Vec::new(alloc);
    for id in ids {
        push_hit(&mut hits, scores, *id)?;
    }
    Ok(hits)
}

/// The ids of groups, one group after the other.
pub fn ids_in(alloc: Global, groups: &[Group]) -> Result<Vec<DocId>, Memory>
    ensures { IfOk result (λ ids. ids.items ≡ ids_in groups.now) }
{
    let mut ids = Vec::new(alloc);
    for group in groups {
        ids.extend_from_slice(group.ids.as_slice())?;
    }
    Ok(ids)
}

/// The first `n` groups, or all where there are fewer.
fn first_groups(groups: &[Group], n: usize) -> &[Group]
    ensures { result.now ≡ take n groups.now }
{
    &groups[..n.min(groups.len())]
}

/// The hits in the first `n` groups, or in all where there are fewer.
pub fn found<S: Scores>(
    alloc: Global,
    scores: &S,
    groups: &[Group],
    n: usize,
) -> Result<Vec<Hit>, Memory>
    requires { AllByRecursion IsOrdered groups.now }
    ensures { IfOk result (λ hits. hits.items ≡ found (S.score_of scores.now) groups.now n) }
{
    hits_of(alloc, scores, &ids_in(alloc, first_groups(groups, n))?)
}

/// The best `k` hits of all groups, best first; all hits where there are fewer.
pub fn best_of_groups<S: Scores>(
    alloc: Global,
    k: u32,
    scores: &S,
    groups: &[Group],
) -> Result<Vec<Hit>, Memory>
    requires { AllByRecursion IsOrdered groups.now }
    ensures { IfOk result (λ hits. hits.items ≡ best_hits k (hits_of (S.score_of scores.now) (ids_in groups.now))) }
{
    let mut hits = hits_of(alloc, scores, &ids_in(alloc, groups)?)?;
    keep_best(&mut hits, k as usize);
    Ok(hits)
}
