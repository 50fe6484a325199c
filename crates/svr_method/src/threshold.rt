ghost use Rattle.std.specs.Prelude.{◌≡◌, ◌≤◌, ◌*◌, ◌/◌};
ghost use Rattle.svr_listing.specs.Methods.{threshold_rules};
ghost use Rattle.svr_method.specs.Laws.{threshold_lawful};

use crate::method::Method;
use svr_num::{SCORE_MAX, Score};

/// A document keeps its key until its score is above that key times `num` over `den`, rounded down.
#[derive(Clone, Copy, Debug)]
pub struct ThresholdMethod {
    pub num: u64,
    pub den: u64,
    ghost positive: { 1 ≤ den },
    ghost rising: { den ≤ num },
    ghost small: { num ≤ 1000000 },
}

impl ThresholdMethod {
    /// The key times `num` over `den`, rounded down. It may be above the greatest score.
    fn limit(&self, key: u64) -> u128
        requires { key ≤ SCORE_MAX }
        ensures { result ≡ key * self.now.num / self.now.den }
    {
        u128::from(key) * u128::from(self.num) / u128::from(self.den)
    }
}

impl Method for ThresholdMethod {
    ghost rules = { λ m. threshold_rules m.num m.den };

    ghost lawful = { λ m. threshold_lawful m.num m.den m.positive m.rising };

    fn key(&self, score: Score) -> u64 {
        score
    }

    fn stays(&self, score: Score, key: u64) -> bool {
        u128::from(score) <= self.limit(key)
    }

    fn bound(&self, key: u64) -> Score {
        self.limit(key).min(u128::from(SCORE_MAX)) as u64
    }
}
