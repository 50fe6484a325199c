ghost use Rattle.svr_listing.specs.Methods.{id_rules};
ghost use Rattle.svr_method.specs.Laws.{id_lawful};

use crate::method::Method;
use svr_num::{SCORE_MAX, Score};

/// Each document is listed at the key 0.
#[derive(Clone, Copy, Debug)]
pub struct IdMethod;

impl Method for IdMethod {
    ghost rules = { λ _. id_rules };

    ghost lawful = { λ _. id_lawful };

    fn key(&self, _score: Score) -> u64 {
        0
    }

    fn stays(&self, _score: Score, _key: u64) -> bool {
        true
    }

    fn bound(&self, _key: u64) -> Score {
        SCORE_MAX
    }
}
