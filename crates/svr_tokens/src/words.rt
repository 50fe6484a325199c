ghost use Rattle.std.specs.Prelude.{◌≡◌, ◌↔◌, ℕ, List, IfOk};
ghost use Rattle.std.specs.Ordering.{nat_cmp};
ghost use Rattle.std.specs.Cmp.Lexicographic.{slice_cmp};
ghost use Rattle.std.specs.List.{Contains};
ghost use Rattle.std.specs.List.Sorted.{IsStrictlySortedBy};
ghost use Rattle.svr_tokens.specs.Tokens.{folded, is_short, terms_in, tokens_of};

use crate::terms::Tokens;
use caseless::default_case_fold_str;
use std::alloc::Global;
use std::collections::BTreeSet;
use svr_edge::{Memory, Text};
use unicode_segmentation::UnicodeSegmentation;

/// The most bytes that a term has. A folded word of more bytes is no term.
pub const TERM_BYTES: usize = 255;

fn fold(alloc: Global, word: &str) -> Result<Text, Memory>
    ensures { IfOk result (λ term. term ≡ folded word.now) }
{
    Ok(Text::from_string(default_case_fold_str(alloc, word)?))
}

fn is_short(term: &Text) -> bool
    ensures { result ≡ is_short term.now }
{
    term.len() <= TERM_BYTES
}

fn gather(alloc: Global, text: &str) -> Result<BTreeSet<Text>, Memory>
    ensures { IfOk result (λ set. set.keys ≡ tokens_of text.now) }
{
    let mut set = BTreeSet::new(alloc);
    for word in text.unicode_words() {
        let term = fold(alloc, word)?;
        if is_short(&term) {
            set.insert(term)?;
        }
    }
    Ok(set)
}

/// The terms of a text.
pub fn tokens(alloc: Global, text: &str) -> Result<Tokens, Memory>
    ensures value { IfOk result (λ terms. terms ≡ tokens_of text.now) }
    ensures ascending { IfOk result (λ terms. IsStrictlySortedBy (slice_cmp nat_cmp) terms) }
    ensures members { IfOk result (λ terms. (t : List ℕ) → Contains terms t ↔ Contains (terms_in text.now) t) }
{
    Tokens::from_set(alloc, gather(alloc, text)?)
}
