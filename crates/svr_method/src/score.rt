ghost use Rattle.svr_listing.specs.Methods.{score_rules};
ghost use Rattle.svr_method.specs.Laws.{score_lawful};

use crate::method::Method;
use svr_num::Score;

/// Each document is listed at its score.
#[derive(Clone, Copy, Debug)]
pub struct ScoreMethod;

impl Method for ScoreMethod {
    ghost rules = { λ _. score_rules };

    ghost lawful = { λ _. score_lawful };

    fn key(&self, score: Score) -> u64 {
        score
    }

    fn stays(&self, score: Score, key: u64) -> bool {
        score == key
    }

    fn bound(&self, key: u64) -> Score {
        key
    }
}
