//! Searches that are to be made.
ghost use Rattle.std.specs.Prelude.{◌≡◌, IfOk, IfErr};
ghost use Rattle.svr_tokens.specs.Tokens.{tokens_of};
ghost use Rattle.svr_core.specs.Outcomes.{k_of, search_outcome};
ghost use Rattle.svr_core.specs.Plans.{IsQuery, MayRefuse};

use crate::refusals::refused_query;
use std::alloc::Global;
use svr_num::Mode;
use svr_request::Refusal;
use svr_tokens::{Tokens, query_terms};

/// The greatest `k` of a search.
const GREATEST_K: i128 = 1000;

/// A search: which documents match, and how many of the best are wanted.
#[derive(Drop)]
pub struct Query {
    /// 1 to 16 terms.
    pub terms: Tokens,
    /// Whether a document matches that has all of the terms, or any.
    pub mode: Mode,
    /// From 1 to 1,000.
    pub k: u32,
}

/// The search of a text.
pub(crate) fn query_of(alloc: Global, text: &str, mode: Mode, k: i128) -> Result<Query, Refusal>
    ensures query { IfOk result (IsQuery (search_outcome (tokens_of text.now) mode k)) }
    ensures refused { IfErr result (MayRefuse (search_outcome (tokens_of text.now) mode k)) }
{
    let terms = query_terms(alloc, text).map_err(refused_query)?;
    let k = k_in(k).ok_or(Refusal::BadK)?;
    Ok(Query { terms, mode, k })
}

/// A number of hits, if it is from 1 to `GREATEST_K`.
fn k_in(k: i128) -> Option<u32>
    ensures { result ≡ k_of k }
{
    if k < 1 || k > GREATEST_K {
        return None;
    }
    Some(k as u32)
}
