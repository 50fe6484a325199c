ghost use Rattle.std.specs.Prelude.{◌≡◌, ◌==◌, ◌++◌, ◌*◌, ◌≤◌, OnOk, length};
ghost use Rattle.std.specs.Int.{to_be_bytes, w16};
ghost use Rattle.std.specs.List.{AllByRecursion, flat_map};
ghost use Rattle.svr_record.specs.Bodies.{body_of, term_body};
ghost use Rattle.svr_record.specs.Grammar.{slice_in};
ghost use Rattle.svr_record.specs.Limits.{IsSlice, IsTerm, SliceFits, TermFits, page_count};
ghost use Rattle.svr_record.specs.Reading.{Gives, many_at, term_at};

use crate::fault::RecordFault;
use crate::number::{number, short_number};
use crate::record::{Record, TermPages};
use crate::text::text;
use std::alloc::Global;
use svr_edge::{Items, Memory};

/// A term with its number of pages, and the bytes behind it.
#[tactic(auto, unfolding(crate::specs::Reading::term_at))]
fn term(alloc: Global, bytes: &[u8]) -> Result<(TermPages, &[u8]), RecordFault>
    ensures { Gives (λ x. (x.0, x.1.now)) result (term_at bytes.now) }
{
    let [count, rest @ ..] = bytes else {
        return Err(RecordFault::NotARecord);
    };
    if *count == 0 {
        return Err(RecordFault::NotARecord);
    }
    let (term, rest) = text(alloc, rest, *count as usize)?;
    let (pages, rest) = number(rest)?;
    Ok((TermPages { term, pages }, rest))
}

/// So many terms, and the bytes behind them.
fn terms(alloc: Global, count: u16, bytes: &[u8]) -> Result<(Vec<TermPages>, &[u8]), RecordFault>
    ensures { Gives (λ x. (x.0.items, x.1.now)) result (many_at term_at count bytes.now) }
{
    let mut terms = Vec::new(alloc);
    let mut rest = bytes;
    for _ in 0..count {
        let (term, after) = term(alloc, rest)?;
        terms.push(term)?;
        rest = after;
    }
    Ok((terms, rest))
}

/// Whether there are as many bytes as the pages of the terms have.
fn are_pages(terms: &[TermPages], pages: &[u8]) -> bool
    ensures { result ≡ (length pages.now == 4096 * page_count terms.now) }
{
    let count: u128 = terms.iter().map(|term| term.pages as u128).sum();
    if count > pages.len() as u128 {
        return false;
    }
    pages.len() as u128 == 4096 * count
}

/// The slice that all of these bytes are.
#[tactic(auto, unfolding(crate::specs::Grammar::slice_in))]
pub(crate) fn slice(alloc: Global, bytes: &[u8]) -> Result<Record, RecordFault>
    ensures { Gives (λ entry. entry) result (slice_in bytes.now) }
{
    let (count, rest) = short_number(bytes)?;
    if count == 0 || count > 1_000 {
        return Err(RecordFault::NotARecord);
    }
    let (terms, pages) = terms(alloc, count, rest)?;
    if !are_pages(terms.as_slice(), pages) {
        return Err(RecordFault::NotARecord);
    }
    Ok(Record::Slice {
        terms: Items::from_vec(terms),
        pages: Items::from_vec(Vec::from_slice(alloc, pages)?),
    })
}

/// Appends a term.
fn put_term(out: &mut Vec<u8>, term: &TermPages) -> Result<(), Memory>
    requires { TermFits term.now }
    ensures is_term { OnOk result (IsTerm term.now) }
    ensures body { OnOk result (out.new.items ≡ out.old.items ++ term_body term.now) }
{
    out.push(term.term.len() as u8)?;
    out.extend_from_slice(term.term.as_str().as_bytes())?;
    out.extend_from_slice(&term.pages.to_be_bytes())?;
    Ok(())
}

/// Appends the number of terms, and the terms.
fn put_terms(out: &mut Vec<u8>, terms: &[TermPages]) -> Result<(), Memory>
    requires few { length terms.now ≤ 1000 }
    requires terms { AllByRecursion TermFits terms.now }
    ensures are_terms { OnOk result (AllByRecursion IsTerm terms.now) }
    ensures body { OnOk result (out.new.items ≡ out.old.items ++ to_be_bytes w16 (length terms.now) ++ flat_map term_body terms.now) }
{
    out.extend_from_slice(&(terms.len() as u16).to_be_bytes())?;
    for term in terms {
        put_term(out, term)?;
    }
    Ok(())
}

/// Appends the body of a slice.
pub(crate) fn put_slice(out: &mut Vec<u8>, terms: &[TermPages], pages: &[u8]) -> Result<(), Memory>
    requires { SliceFits terms.now pages.now }
    ensures is_slice { OnOk result (IsSlice terms.now pages.now) }
    ensures body { OnOk result (out.new.items ≡ out.old.items ++ body_of (Record.Slice terms.now pages.now)) }
{
    out.reserve(pages.len().saturating_add(260 * terms.len() + 3))?;
    out.push(5)?;
    put_terms(out, terms)?;
    out.extend_from_slice(pages)?;
    Ok(())
}
