ghost use Rattle.std.specs.Prelude.{◌≡◌, ◌<◌, ◌≤◌, ℕ, ◌^◌, Option, IfSome};
ghost use Rattle.svr_num.specs.Scores.{clamped};

use crate::hit::DocId;

/// A document's score, from 0 to `SCORE_MAX`.
pub type Score = u64;

/// The greatest score.
pub const SCORE_MAX: Score = (1 << 48) - 1;

/// The nearest number that is a score.
pub fn clamp_score(n: i128) -> Score
    ensures { result ≡ clamped n }
{
    if n < 0 {
        0
    } else if n > SCORE_MAX as i128 {
        SCORE_MAX
    } else {
        n as u64
    }
}

/// What knows the scores of documents.
pub trait Scores {
    /// The score of the document with this id, if there is one.
    ghost score_of: { Self → ℕ → Option ℕ };

    /// The score of a document, `None` where there is no such document.
    fn score(&self, id: DocId) -> Option<Score>
        requires { id < 2 ^ 63 }
        ensures value { result ≡ score_of self.now id }
        ensures within { IfSome result (λ score. score ≤ SCORE_MAX) };
}
