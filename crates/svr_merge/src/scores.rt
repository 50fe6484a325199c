ghost use Rattle.std.specs.Prelude.{◌≡◌, ◌≤◌, All, IfOk, map};
ghost use Rattle.std.specs.List.Sorted.{IsNonDecreasing};
ghost use Rattle.svr_merge.specs.Rules.{ascending_scores, scores_of};

use std::alloc::Global;
use svr_edge::Memory;
use svr_num::{Hit, SCORE_MAX, Score};

/// Puts scores in ascending order.
fn sort_scores(scores: &mut [Score])
    requires { All (λ score. score ≤ SCORE_MAX) scores.old }
    ensures value { scores.new ≡ ascending_scores scores.old }
    ensures ascending { IsNonDecreasing scores.new }
    ensures within { All (λ score. score ≤ SCORE_MAX) scores.new }
{
    scores.sort_unstable();
}

/// The scores of documents.
fn scores_in(alloc: Global, documents: &[Hit]) -> Result<Vec<Score>, Memory>
    ensures { IfOk result (λ scores. scores.items ≡ map (λ d. d.score) documents.now) }
{
    let mut scores = Vec::new(alloc);
    for document in documents {
        scores.push(document.score)?;
    }
    Ok(scores)
}

/// The scores of documents, ascending.
pub fn scores_of(alloc: Global, documents: &[Hit]) -> Result<Vec<Score>, Memory>
    requires { All (λ d. d.score ≤ SCORE_MAX) documents.now }
    ensures value { IfOk result (λ scores. scores.items ≡ scores_of documents.now) }
    ensures ascending { IfOk result (λ scores. IsNonDecreasing scores.items) }
    ensures within { IfOk result (λ scores. All (λ score. score ≤ SCORE_MAX) scores.items) }
{
    let mut scores = scores_in(alloc, documents)?;
    sort_scores(scores.as_mut_slice());
    Ok(scores)
}
