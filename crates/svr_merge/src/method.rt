ghost use Rattle.std.specs.Prelude.{◌≡◌, ◌≤◌, All};
ghost use Rattle.std.specs.List.Sorted.{IsNonDecreasing};
ghost use Rattle.svr_chunks.specs.Chosen.{chosen_rules};
ghost use Rattle.svr_schema.specs.Lawful.{IsMethod};
ghost use Rattle.svr_merge.specs.Rules.{rules_for};

use svr_chunks::{Chosen, ChunkMethod, bounds_of};
use svr_method::{IdMethod, ScoreMethod, ThresholdMethod};
use svr_num::{SCORE_MAX, Score};
use svr_schema::MethodSpec;

/// The method of a schema, for documents with these scores, which ascend. Only the bounds of chunks depend on them.
pub fn method_for(spec: &MethodSpec, scores: &[Score]) -> Chosen
    requires lawful { IsMethod spec.now }
    requires ascending { IsNonDecreasing scores.now }
    requires within { All (λ score. score ≤ SCORE_MAX) scores.now }
    ensures { chosen_rules result ≡ rules_for spec.now scores.now }
{
    match *spec {
        MethodSpec::Id => Chosen::Id(IdMethod),
        MethodSpec::Score => Chosen::Score(ScoreMethod),
        MethodSpec::Threshold { num, den } => Chosen::Threshold(ThresholdMethod { num, den }),
        MethodSpec::Chunk { ratio, min_docs } => Chosen::Chunk(ChunkMethod {
            bounds: bounds_of(scores, ratio, min_docs),
        }),
    }
}
