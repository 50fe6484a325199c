ghost use Rattle.std.specs.Prelude.{◌≡◌, Some, refl};
ghost use Rattle.std.specs.Ordering.{eq_by_cmp};
ghost use Rattle.std.specs.Cmp.{partial_equiv_from_equiv, eq_by_cmp_equiv, partial_order_from_total};
ghost use Rattle.std.specs.List.Sorted.{IsPermutation, IsSorted};
ghost use Rattle.svr_num.specs.Hits.{best_hits, rank, rank_total, ranked};

use crate::score::Score;
use std::cmp::Ordering;

/// The number of a document, below 2^63.
pub type DocId = u64;

/// A document that an answer names, with its score. The order of hits is that of an answer: the score descends, and
/// of equal scores the id ascends.
#[derive(Clone, Copy, Debug)]
pub struct Hit {
    pub id: DocId,
    pub score: Score,
}

impl PartialEq for Hit {
    ghost eq = { eq_by_cmp rank };

    ghost laws = { partial_equiv_from_equiv (eq_by_cmp_equiv rank_total) };

    fn eq(&self, other: &Self) -> bool {
        self.score == other.score && self.id == other.id
    }
}

impl Eq for Hit {
    ghost laws = { eq_by_cmp_equiv rank_total };
}

impl PartialOrd for Hit {
    ghost partial_cmp = { λ x y. Some (rank x y) };

    ghost laws = { partial_order_from_total rank_total };

    fn partial_cmp(&self, other: &Self) -> Option<Ordering> {
        Some(self.cmp(other))
    }
}

impl Ord for Hit {
    ghost cmp = { rank };

    ghost total = { rank_total };

    ghost matches_partial_cmp = { λ x y. refl };

    ghost matches_eq = { λ x y. refl };

    fn cmp(&self, other: &Self) -> Ordering {
        other.score.cmp(&self.score).then(self.id.cmp(&other.id))
    }
}

/// Puts the hits in the order of an answer, best first.
pub fn rank_hits(hits: &mut [Hit])
    ensures ranked { hits.new ≡ ranked hits.old }
    ensures permutation { IsPermutation hits.old hits.new }
    ensures sorted { IsSorted rank hits.new }
{
    hits.sort_unstable();
}

/// Keeps the best `k` hits, best first; all of them where there are fewer.
pub fn keep_best(hits: &mut Vec<Hit>, k: usize)
    ensures { hits.new.items ≡ best_hits k hits.old.items }
{
    rank_hits(hits);
    hits.truncate(k);
}
