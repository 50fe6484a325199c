ghost use Rattle.std.specs.Prelude.{◌≡◌, ◌≤◌, ◌<◌, [], ◌∷◌, All, length};
ghost use Rattle.std.specs.List.Sorted.{IsNonDecreasing};
ghost use Rattle.svr_listing.specs.Bounds.{AreBounds, bounds_of};
ghost use Rattle.svr_listing.specs.Methods.{chunk_of};

use crate::passing::may_follow;
use std::marker::Model;
use svr_num::{SCORE_MAX, Score};

/// How many bounds there are at most.
const MOST_BOUNDS: usize = 64;

/// The bounds of chunks, at most 64: the least score of each. They begin with 0 and rise. Contracts see their list.
#[derive(Drop)]
pub struct Bounds {
    values: [Score; MOST_BOUNDS],
    len: usize,
}

impl Model for Bounds {
    ghost use Rattle.std.specs.Prelude.{◌≤◌, List, ℕ, take};
    ghost use Rattle.svr_listing.specs.Bounds.{AreBounds};

    ghost Value = { List ℕ };

    ghost view = { λ b. take b.len b.values };

    ghost invariant = { λ b. (b.len ≤ 64) × AreBounds (take b.len b.values) };
}

impl Bounds {
    /// One chunk of all scores.
    pub fn one() -> Bounds
        ensures value { result ≡ 0 ∷ [] }
        ensures are { AreBounds result }
    {
        Bounds {
            values: [0; MOST_BOUNDS],
            len: 1,
        }
    }

    /// The bounds, ascending.
    pub fn as_slice(&self) -> &[Score]
        ensures value { result.now ≡ self.now }
        ensures few { length self.now ≤ 64 }
        ensures are { AreBounds self.now }
    {
        &self.values[..self.len]
    }
}

/// The bounds of ascending scores: after each, the next is the least score that is above it by the ratio, which is in percent, and
/// leaves `min_docs` documents between. Each score is looked at once.
pub fn bounds_of(scores: &[Score], ratio: u64, min_docs: u64) -> Bounds
    requires ascending { IsNonDecreasing scores.now }
    requires within { All (λ score. score ≤ SCORE_MAX) scores.now }
    ensures value { result ≡ bounds_of scores.now ratio min_docs }
    ensures are { AreBounds result }
{
    let mut values = [0; MOST_BOUNDS];
    let mut len = 1;
    let mut bound = 0;
    let mut from = 0;
    let mut at = 0;
    while at < scores.len() && len < MOST_BOUNDS {
        if may_follow(scores, ratio, min_docs, bound, from, at) {
            bound = scores[at];
            values[len] = bound;
            len += 1;
            from = at;
        }
        at += 1;
    }
    Bounds { values, len }
}

/// The last chunk whose bound a score reaches.
pub fn chunk_of(bounds: &Bounds, score: Score) -> u64
    ensures value { result ≡ chunk_of bounds.now score }
    ensures few { result < 64 }
{
    let reached = bounds.as_slice().partition_point(|bound| *bound <= score);
    reached.saturating_sub(1) as u64
}
