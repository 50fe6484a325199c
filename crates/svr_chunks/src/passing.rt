//! Tests on the way through ascending scores.
ghost use Rattle.std.specs.Prelude.{◌≡◌, ◌≤◌, ◌<◌, ◌*◌, ◌&&◌, length, max, nat_le, nat_lt, slice_index};
ghost use Rattle.std.specs.List.Sorted.{IsNonDecreasing};
ghost use Rattle.svr_listing.specs.Bounds.{may_follow};
ghost use Rattle.svr_chunks.specs.Layout.{NoneFollows, Splits, is_new};

use svr_num::Score;

/// Whether a score is above a bound by the ratio, which is in percent.
fn is_higher(score: Score, bound: Score, ratio: u64) -> bool
    ensures { result ≡ (nat_lt bound score && nat_le (max bound 1 * ratio) (score * 100)) }
{
    bound < score && u128::from(bound.max(1)) * u128::from(ratio) <= u128::from(score) * 100
}

/// Whether the score at a place is above the one before it.
fn is_new(scores: &[Score], at: usize) -> bool
    requires { at < length scores.now }
    ensures { result ≡ is_new scores.now at }
{
    at == 0 || scores[at - 1] < scores[at]
}

/// Whether the score at the place `at` may come after a bound, where none before it may, and the scores that reach the bound
/// begin at the place `from`.
pub fn may_follow(
    scores: &[Score],
    ratio: u64,
    min_docs: u64,
    bound: Score,
    from: usize,
    at: usize,
) -> bool
    requires ascending { IsNonDecreasing scores.now }
    requires place { at < length scores.now }
    requires before { from ≤ at }
    requires splits { Splits bound scores.now from }
    requires none { NoneFollows scores.now ratio min_docs bound at }
    ensures { result ≡ may_follow scores.now ratio min_docs bound (slice_index scores.now at) }
{
    if !is_new(scores, at) {
        return false;
    }
    is_higher(scores[at], bound, ratio) && min_docs <= (at - from) as u64
}
