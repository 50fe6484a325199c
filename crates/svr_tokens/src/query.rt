ghost use Rattle.std.specs.Prelude.{◌≡◌, ◌<◌, ◌≤◌, [], IfOk, Err, length};
ghost use Rattle.svr_tokens.specs.Tokens.{tokens_of};

use crate::terms::Tokens;
use crate::words::tokens;
use std::alloc::Global;
use svr_edge::Memory;

/// The most terms that a query has.
pub const QUERY_TERMS: usize = 16;

/// Why a query has no use.
#[derive(Clone, Copy, Debug, PartialEq, Eq)]
pub enum QueryRefusal {
    /// The query has no term.
    NoTerms,
    /// The query has more different terms than `QUERY_TERMS`.
    TooManyTerms,
    /// Memory was wanting.
    Memory,
}

impl From<Memory> for QueryRefusal {
    ghost use Rattle.std.specs.Prelude.{◌≡◌};
    ghost use Rattle.svr_tokens.specs.declared.query.QueryRefusal.TheVariants as refusal;

    ghost from_gives = { λ _ r. r ≡ refusal.Memory };

    fn from(_memory: Memory) -> QueryRefusal {
        QueryRefusal::Memory
    }
}

/// The terms of a query, from one to `QUERY_TERMS` of them.
pub fn query_terms(alloc: Global, query: &str) -> Result<Tokens, QueryRefusal>
    ensures value { IfOk result (λ terms. terms ≡ tokens_of query.now) }
    ensures few { IfOk result (λ terms. (0 < length terms) × (length terms ≤ 16)) }
    ensures none { result ≡ Err QueryRefusal.NoTerms → tokens_of query.now ≡ [] }
    ensures many { result ≡ Err QueryRefusal.TooManyTerms → 16 < length (tokens_of query.now) }
{
    let terms = tokens(alloc, query)?;
    match terms.len() {
        0 => Err(QueryRefusal::NoTerms),
        1..=QUERY_TERMS => Ok(terms),
        _ => Err(QueryRefusal::TooManyTerms),
    }
}
