ghost use Rattle.std.specs.Prelude.{◌≡◌, ◌+◌, ◌*◌, ◌<◌, ◌^◌, ℕ, None, Option, OnOk, Err, length, option_map, true};
ghost use Rattle.svr_listing.specs.Merges.{is_after};
ghost use Rattle.svr_lists.specs.Layout.{TakesInto, TakesTerm, TakesTerms, taken_into};
ghost use Rattle.svr_lists.specs.Lists.{IsAtScores};
ghost use Rattle.svr_lists.specs.Taken.{TakesSlice, ascend_behind, pages_in, taken_by, taken_of, terms_in};
ghost use Rattle.svr_record.specs.Limits.{page_count};

use crate::lists::Lists;
use crate::pages::read_pages;
use std::alloc::{AllocFailed, Global};
use svr_edge::{Memory, Text};
use svr_merge::MergeRun;
use svr_postpage::PAGE_BYTES;
use svr_record::TermPages;

/// Why a slice isn't taken.
#[derive(Clone, Copy, Debug, PartialEq, Eq)]
pub enum SliceFault {
    /// It may not come next: no merge is begun, its terms don't ascend behind the last one, or the pages of a term aren't pages in order.
    BadSlice,
    Memory,
}

impl<T: Drop> From<AllocFailed<T>> for SliceFault {
    ghost use Rattle.std.specs.Prelude.{◌≡◌};
    ghost use Rattle.svr_lists.specs.declared.taken.SliceFault.TheVariants as fault;

    ghost from_gives = { λ _ why. why ≡ fault.Memory };

    fn from(_error: AllocFailed<T>) -> SliceFault {
        SliceFault::Memory
    }
}

impl From<Memory> for SliceFault {
    ghost use Rattle.std.specs.Prelude.{◌≡◌};
    ghost use Rattle.svr_lists.specs.declared.taken.SliceFault.TheVariants as fault;

    ghost from_gives = { λ _ why. why ≡ fault.Memory };

    fn from(_memory: Memory) -> SliceFault {
        SliceFault::Memory
    }
}

/// Whether a term comes after the last one, if there is one.
pub(crate) fn is_after(last: Option<&Text>, term: &Text) -> bool
    ensures { result ≡ is_after (option_map (λ t. t.now) last.entry) term.now }
{
    match last {
        Some(last) => last < term,
        None => true,
    }
}

/// Whether terms ascend behind the last one.
fn ascend_behind(last: Option<&Text>, terms: &[TermPages]) -> bool
    ensures { result ≡ ascend_behind (option_map (λ t. t.now) last.entry) terms.now }
{
    let mut behind = last;
    for term in terms {
        if !is_after(behind, &term.term) {
            return false;
        }
        behind = Some(&term.term);
    }
    true
}

/// Takes the next term into a merge, with the pages that stand in the bytes, the first of them at this address.
fn take_term(
    run: &mut MergeRun,
    alloc: Global,
    term: &TermPages,
    bytes: &[u8],
    at: u64,
) -> Result<(), SliceFault>
    requires after { is_after run.old.last term.now.term ≡ true }
    requires whole { length bytes.now ≡ 4096 * term.now.pages }
    requires room { at + length bytes.now < 2 ^ 64 }
    ensures takes { OnOk result (TakesTerm run.old run.new term.now bytes.now at) }
    ensures bad { result ≡ Err SliceFault.BadSlice → pages_in at term.now.pages bytes.now ≡ None }
{
    let pages = read_pages(alloc, bytes, at)?;
    let term = term.term.copy(alloc)?;
    run.sliced(alloc, term, pages)?;
    Ok(())
}

/// Takes terms into a merge, which ascend behind its last one.
fn take_all(
    run: &mut MergeRun,
    alloc: Global,
    terms: &[TermPages],
    pages: &[u8],
    at: u64,
) -> Result<(), SliceFault>
    requires ascend { ascend_behind run.old.last terms.now ≡ true }
    requires whole { length pages.now ≡ 4096 * page_count terms.now }
    requires room { at + length pages.now < 2 ^ 64 }
    ensures takes { OnOk result (TakesTerms run.old run.new terms.now pages.now at) }
    ensures bad { result ≡ Err SliceFault.BadSlice → terms_in at terms.now pages.now ≡ None }
{
    let mut rest = pages;
    let mut here = at;
    for term in terms {
        let (front, behind) = rest.split_at(term.pages as usize * PAGE_BYTES);
        take_term(run, alloc, term, front, here)?;
        here += front.len() as u64;
        rest = behind;
    }
    Ok(())
}

/// Takes a slice into the merge, if one is begun.
fn take_into(
    merge: &mut Option<MergeRun>,
    alloc: Global,
    terms: &[TermPages],
    pages: &[u8],
    at: u64,
) -> Result<(), SliceFault>
    requires whole { length pages.now ≡ 4096 * page_count terms.now }
    requires room { at + length pages.now < 2 ^ 64 }
    ensures takes { OnOk result (TakesInto merge.old merge.new (record { terms = terms.now; pages = pages.now }) at) }
    ensures bad { result ≡ Err SliceFault.BadSlice → taken_into merge.old (record { terms = terms.now; pages = pages.now }) at ≡ None }
{
    let Some(run) = merge else {
        return Err(SliceFault::BadSlice);
    };
    if !ascend_behind(run.last(), terms) {
        return Err(SliceFault::BadSlice);
    }
    take_all(run, alloc, terms, pages, at)
}

impl Lists {
    /// Takes a slice into the merge that is begun: these terms, with the pages that stand one behind the other in the bytes, the first of
    /// them at this address. After an error lists are spent.
    pub fn take_slice(
        &mut self,
        alloc: Global,
        terms: &[TermPages],
        pages: &[u8],
        at: u64,
    ) -> Result<(), SliceFault>
        requires whole { length pages.now ≡ 4096 * page_count terms.now }
        requires room { at + length pages.now < 2 ^ 64 }
        ensures takes { OnOk result (TakesSlice self.old self.new (record { terms = terms.now; pages = pages.now }) at) }
        ensures bad { result ≡ Err SliceFault.BadSlice → taken_by self.old (record { terms = terms.now; pages = pages.now }) at ≡ None }
        ensures at_scores { (score : ℕ → Option ℕ) → IsAtScores score self.old → OnOk result (IsAtScores score self.new) }
        ensures kept { OnOk result (self.new.index ≡ self.old.index) }
    {
        take_into(&mut self.merge, alloc, terms, pages, at)
    }
}
