ghost use Rattle.std.specs.Prelude.{◌≡◌, ◌<◌, ◌↔◌, ℕ, List, IfOk, IsTrue, Some, length, nat_eq};
ghost use Rattle.std.specs.Cmp.{partial_equiv_from_equiv};
ghost use Rattle.std.specs.Cmp.Lexicographic.{pointwise, lists_equiv, nat_list_eq_equiv, slice_cmp};
ghost use Rattle.std.specs.List.{slice_get, Contains};
ghost use Rattle.std.specs.List.Sorted.{IsStrictlySortedBy};
ghost use Rattle.std.specs.Ordering.{nat_cmp};
ghost use Rattle.svr_tokens.specs.Tokens.{has_term, has_all_terms, has_any_terms};

use std::alloc::Global;
use std::collections::BTreeSet;
use std::marker::Model;
use svr_edge::{Memory, Text};

/// Different terms, ascending by their bytes.
#[derive(Debug, Drop)]
pub struct Tokens {
    terms: Vec<Text>,
}

impl Model for Tokens {
    ghost use Rattle.std.specs.Prelude.{List, ℕ};
    ghost use Rattle.std.specs.Ordering.{nat_cmp};
    ghost use Rattle.std.specs.Cmp.Lexicographic.{slice_cmp};
    ghost use Rattle.std.specs.List.Sorted.{IsStrictlySortedBy};

    ghost Value = { List (List ℕ) };

    ghost view = { λ t. t.terms.items };

    ghost invariant = { λ t. IsStrictlySortedBy (slice_cmp nat_cmp) t.terms.items };
}

impl Tokens {
    pub(crate) fn from_set(alloc: Global, set: BTreeSet<Text>) -> Result<Tokens, Memory>
        ensures { IfOk result (λ terms. terms ≡ set.keys) }
    {
        Ok(Tokens {
            terms: set.into_iter().collect(alloc)?,
        })
    }

    /// The number of terms.
    pub fn len(&self) -> usize
        ensures count { result ≡ length self.now }
        ensures ascending { IsStrictlySortedBy (slice_cmp nat_cmp) self.now }
    {
        self.terms.len()
    }

    /// The term at place `i` of the ascending order.
    pub fn get(&self, i: usize) -> &Text
        requires { i < length self.now }
        ensures { slice_get self.now i ≡ Some result.now }
    {
        &self.terms[i]
    }

    /// Whether `term` is one of these.
    pub fn has(&self, term: &Text) -> bool
        ensures value { result ≡ has_term self.now term.now }
        ensures member { IsTrue result ↔ Contains self.now term.now }
    {
        self.terms.as_slice().binary_search(term).is_ok()
    }

    /// Whether each of `terms` is one of these.
    pub fn has_all(&self, terms: &Tokens) -> bool
        ensures { result ≡ has_all_terms self.now terms.now }
    {
        terms.terms.iter().all(|term| self.has(term))
    }

    /// Whether at least one of `terms` is one of these.
    pub fn has_any(&self, terms: &Tokens) -> bool
        ensures { result ≡ has_any_terms self.now terms.now }
    {
        terms.terms.iter().any(|term| self.has(term))
    }
}

impl PartialEq for Tokens {
    ghost eq = { λ x y. pointwise (pointwise nat_eq) x y };

    ghost laws = { partial_equiv_from_equiv (lists_equiv nat_list_eq_equiv) };

    fn eq(&self, other: &Self) -> bool {
        self.terms == other.terms
    }
}
