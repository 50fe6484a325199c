//! What calls ask for, tested before they are made.
ghost use Rattle.std.specs.Prelude.{◌≡◌, ◌≤◌, ◌<◌, ◌^◌, All, true, option_map};
ghost use Rattle.svr_index.specs.Search.{AreWithinBounds};
ghost use Rattle.svr_listing.specs.Merges.{is_after};
ghost use Rattle.svr_listing.specs.Plain.{HasDivisor};
ghost use Rattle.svr_schema.specs.Lawful.{IsMethod};
ghost use Rattle.svr_tests_search.specs.Bounded.{score_in};

use crate::search::Table;
use svr_edge::Text;
use svr_index::Index;
use svr_listing::ListingMethod;
use svr_method::Method;
use svr_num::{Hit, SCORE_MAX};
use svr_schema::MethodSpec;

/// Whether the numbers of a method are in their ranges.
pub fn is_method(spec: &MethodSpec) -> bool
    ensures { result ≡ true → IsMethod spec.now }
{
    match *spec {
        MethodSpec::Id | MethodSpec::Score => true,
        MethodSpec::Threshold { num, den } => 1 <= den && den <= num && num <= 1_000_000,
        MethodSpec::Chunk { ratio, min_docs } => {
            (100..=100_000).contains(&ratio) && (1..=1_000_000).contains(&min_docs)
        }
    }
}

/// Whether the ratio of a threshold has a divisor.
pub fn has_divisor(method: &ListingMethod) -> bool
    ensures { result ≡ true → HasDivisor method.now }
{
    match method {
        ListingMethod::Threshold { den, .. } => *den >= 1,
        _ => true,
    }
}

/// Whether all ids are ids.
pub fn have_ids(hits: &[Hit]) -> bool
    ensures { result ≡ true → All (λ d. d.id < 2 ^ 63) hits.now }
{
    hits.iter().all(|hit| hit.id < 1 << 63)
}

/// Whether all scores are scores.
pub fn have_scores(hits: &[Hit]) -> bool
    ensures { result ≡ true → All (λ d. d.score ≤ SCORE_MAX) hits.now }
{
    hits.iter().all(|hit| hit.score <= SCORE_MAX)
}

/// Whether a term stands behind another, if there is one.
pub fn comes_after(last: Option<&Text>, term: &Text) -> bool
    ensures { result ≡ is_after (option_map (λ t. t.now) last.entry) term.now }
{
    match last {
        Some(last) => *last < *term,
        None => true,
    }
}

/// Whether no score is above the bound of the key at which the index lists its document.
pub fn are_within(index: &Index, scores: &Table) -> bool
    ensures { result ≡ true → AreWithinBounds index.now (score_in scores.now.rows.items) }
{
    for hit in &scores.rows {
        if let Some(entry) = index.entry(hit.id)
            && hit.score > index.method().bound(entry.key)
        {
            return false;
        }
    }
    true
}
