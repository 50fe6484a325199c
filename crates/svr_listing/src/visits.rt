ghost use Rattle.std.specs.Prelude.{◌≡◌, ◌<◌, IfOk};
ghost use Rattle.std.specs.List.{AllByRecursion};
ghost use Rattle.svr_num.specs.Hits.{kth_score};
ghost use Rattle.svr_listing.specs.Groups.{IsOrdered};
ghost use Rattle.svr_listing.specs.Plain.{HasDivisor, rules_of};
ghost use Rattle.svr_listing.specs.Visits.{is_above, stops, visited};

use crate::group::Group;
use crate::hits::found;
use crate::method::ListingMethod;
use std::alloc::Global;
use svr_edge::Memory;
use svr_num::{Hit, Score, Scores, keep_best};

/// The k-th best score of these hits, `None` where there are fewer. It leaves of them the best k.
fn kth_score(hits: &mut Vec<Hit>, k: u32) -> Option<Score>
    requires { 0 < k }
    ensures { result ≡ kth_score k hits.old.items }
{
    keep_best(hits, k as usize);
    hits.get(k as usize - 1).map(|hit| hit.score)
}

/// Whether there is a score, and it is above the bound.
fn is_above(score: Option<Score>, bound: Score) -> bool
    ensures { result ≡ is_above score bound }
{
    match score {
        Some(score) => bound < score,
        None => false,
    }
}

/// Whether a search for the best `k` stops after the first `n` groups: no group is left, or the k-th best score that was found is
/// above the bound of the next key.
pub fn stops<S: Scores>(
    alloc: Global,
    k: u32,
    method: &ListingMethod,
    scores: &S,
    groups: &[Group],
    n: usize,
) -> Result<bool, Memory>
    requires some { 0 < k }
    requires method { HasDivisor method.now }
    requires groups { AllByRecursion IsOrdered groups.now }
    ensures { IfOk result (λ stopped. stopped ≡ stops k (rules_of method.now).bound (S.score_of scores.now) groups.now n) }
{
    match groups.get(n) {
        Some(next) => {
            let mut hits = found(alloc, scores, groups, n)?;
            Ok(is_above(kth_score(&mut hits, k), method.bound(next.key)))
        }
        None => Ok(true),
    }
}

/// The least number of groups after which a search for the best `k` stops.
pub fn visited<S: Scores>(
    alloc: Global,
    k: u32,
    method: &ListingMethod,
    scores: &S,
    groups: &[Group],
) -> Result<usize, Memory>
    requires some { 0 < k }
    requires method { HasDivisor method.now }
    requires groups { AllByRecursion IsOrdered groups.now }
    ensures { IfOk result (λ n. n ≡ visited k (rules_of method.now).bound (S.score_of scores.now) groups.now) }
{
    for n in 0..groups.len() {
        if stops(alloc, k, method, scores, groups, n)? {
            return Ok(n);
        }
    }
    Ok(groups.len())
}
