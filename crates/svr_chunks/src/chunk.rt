ghost use Rattle.std.specs.Prelude.{◌≡◌, ◌≤◌};
ghost use Rattle.svr_listing.specs.Bounds.{AreBounds};
ghost use Rattle.svr_listing.specs.Methods.{chunk_rules};
ghost use Rattle.svr_chunks.specs.Laws.{chunks_lawful};

use crate::bounds::{Bounds, chunk_of};
use svr_method::Method;
use svr_num::{SCORE_MAX, Score};

/// Each document is listed at the chunk of its score, and stays there until its score is two chunks above.
#[derive(Drop)]
pub struct ChunkMethod {
    pub bounds: Bounds,
    ghost are: { ∥ AreBounds bounds ∥₁ },
}

impl Method for ChunkMethod {
    ghost rules = { λ m. chunk_rules m.bounds };

    ghost lawful = { λ m. chunks_lawful m.bounds m.are };

    fn key(&self, score: Score) -> u64 {
        chunk_of(&self.bounds, score)
    }

    fn stays(&self, score: Score, key: u64) -> bool {
        chunk_of(&self.bounds, score) <= key + 1
    }

    fn bound(&self, key: u64) -> Score {
        match self.bounds.as_slice().get(key as usize + 2) {
            Some(bound) => bound.saturating_sub(1),
            None => SCORE_MAX,
        }
    }
}
