use crate::chunk::ChunkMethod;
use svr_method::{IdMethod, Method, ScoreMethod, ThresholdMethod};
use svr_num::Score;

/// One of the methods.
#[derive(Drop)]
pub enum Chosen {
    Id(IdMethod),
    Score(ScoreMethod),
    Threshold(ThresholdMethod),
    Chunk(ChunkMethod),
}

impl Method for Chosen {
    ghost use Rattle.svr_chunks.specs.Chosen.{chosen_lawful, chosen_rules};

    ghost rules = { chosen_rules };

    ghost lawful = { chosen_lawful };

    fn key(&self, score: Score) -> u64 {
        match self {
            Chosen::Id(method) => method.key(score),
            Chosen::Score(method) => method.key(score),
            Chosen::Threshold(method) => method.key(score),
            Chosen::Chunk(method) => method.key(score),
        }
    }

    fn stays(&self, score: Score, key: u64) -> bool {
        match self {
            Chosen::Id(method) => method.stays(score, key),
            Chosen::Score(method) => method.stays(score, key),
            Chosen::Threshold(method) => method.stays(score, key),
            Chosen::Chunk(method) => method.stays(score, key),
        }
    }

    fn bound(&self, key: u64) -> Score {
        match self {
            Chosen::Id(method) => method.bound(key),
            Chosen::Score(method) => method.bound(key),
            Chosen::Threshold(method) => method.bound(key),
            Chosen::Chunk(method) => method.bound(key),
        }
    }
}
