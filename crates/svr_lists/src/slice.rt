ghost use Rattle.std.specs.Prelude.{◌≡◌, ◌≤◌, ◌*◌, ◌++◌, ◌∷◌, ◌/◌, ℕ, [], IfOk, IsSome, OnOk, length, option_map, true};
ghost use Rattle.std.specs.List.{AllByRecursion};
ghost use Rattle.std.specs.Option.{ForSome};
ghost use Rattle.svr_index.specs.Docs.{refs_at};
ghost use Rattle.svr_iter.specs.Asked.{Asks};
ghost use Rattle.svr_iter.specs.Reader.{KeepsReader};
ghost use Rattle.svr_listing.specs.Merges.{is_after};
ghost use Rattle.svr_lists.specs.Layout.{AddsTerm, AsksOn, IsMade, PutsTerm, Slices, has_term_length};
ghost use Rattle.svr_lists.specs.Slices.{AsksSlice, IsSliceBy};
ghost use Rattle.svr_lists.specs.Taken.{taken_by};
ghost use Rattle.svr_record.specs.Limits.{TermFits, page_count};

use crate::lists::Lists;
use crate::taken::is_after;
use std::alloc::Global;
use svr_edge::{Items, Memory, Text};
use svr_index::Index;
use svr_iter::ScanFault;
use svr_merge::MergeRun;
use svr_postpage::{PAGE_BYTES, PageReader};
use svr_record::TermPages;

/// A slice that has as many bytes takes no more terms.
const FULL_BYTES: usize = 1024 * PAGE_BYTES;

/// The next terms of a merge, and their pages in the order of the terms.
#[derive(Drop)]
pub struct Slice {
    pub terms: Items<TermPages>,
    pub pages: Items<u8>,
}

/// How many pages are in bytes. More than a number of 32 bits can tell have no room anywhere.
fn page_count(bytes: &[u8]) -> Result<u32, Memory>
    ensures { IfOk result (λ count. count ≡ length bytes.now / 4096) }
{
    match u32::try_from(bytes.len() / PAGE_BYTES) {
        Ok(count) => Ok(count),
        Err(_) => Err(Memory),
    }
}

/// Whether a term has 1 to 255 bytes.
fn has_term_length(term: &Text) -> bool
    ensures { result ≡ has_term_length term.now }
{
    let length = term.len();
    1 <= length && length <= 255
}

/// Puts a term and its pages behind others. Each term comes after the last one and has 1 to 255 bytes; but no invariant of an index says
/// so, and so it is tested here, and `Memory` is the answer for another.
fn push_pages(
    alloc: Global,
    after: Option<&Text>,
    term: &Text,
    made: &[u8],
    terms: &mut Vec<TermPages>,
    pages: &mut Vec<u8>,
) -> Result<(), Memory>
    ensures comes { OnOk result (is_after (option_map (λ t. t.now) after.entry) term.now ≡ true) }
    ensures fits { OnOk result (has_term_length term.now ≡ true) }
    ensures terms { OnOk result (terms.new.items ≡ terms.old.items
        ++ (record { term = term.now; pages = length made.now / 4096 } ∷ [])) }
    ensures pages { OnOk result (pages.new.items ≡ pages.old.items ++ made.now) }
{
    if !is_after(after, term) || !has_term_length(term) {
        return Err(Memory);
    }
    let count = page_count(made)?;
    let term = term.copy(alloc)?;
    pages.extend_from_slice(made)?;
    terms.push(TermPages { term, pages: count })?;
    Ok(())
}

/// Puts a term behind others, with the pages of those of its documents that have a new key.
fn push_term<R: PageReader>(
    index: &Index,
    run: &MergeRun,
    alloc: Global,
    after: Option<&Text>,
    term: &Text,
    reader: &mut R,
    terms: &mut Vec<TermPages>,
    pages: &mut Vec<u8>,
) -> Result<(), ScanFault>
    requires ready { R.ready reader.old }
    ensures puts { OnOk result (ForSome (R.told reader.old) (λ bytes.
        PutsTerm index.now run.now term.now bytes terms.old.items terms.new.items pages.old.items pages.new.items)) }
    ensures adds { OnOk result (AddsTerm (option_map (λ t. t.now) after.entry) term.now terms.old.items terms.new.items
        pages.old.items pages.new.items) }
    ensures asks { Asks R.gives R.fails (refs_at index.now term.now) reader.old reader.new result }
    ensures reader { KeepsReader R.told R.ready R.faults reader.old reader.new result }
{
    let ids = index.term_docs(alloc, term, reader)?;
    let made = run.images(alloc, &ids)?;
    push_pages(alloc, after, term, &made, terms, pages)?;
    Ok(())
}

/// A slice of these terms and pages.
fn slice_made(terms: Vec<TermPages>, pages: Vec<u8>) -> Slice
    ensures terms { result.terms ≡ terms.items }
    ensures pages { result.pages ≡ pages.items }
{
    Slice {
        terms: Items::from_vec(terms),
        pages: Items::from_vec(pages),
    }
}

/// The slice of a merge: so many terms at most, one after the other, until none is left or there are 1,024 pages.
fn slice_terms<R: PageReader>(
    index: &Index,
    run: &MergeRun,
    alloc: Global,
    most: u32,
    reader: &mut R,
) -> Result<Slice, ScanFault>
    requires ready { R.ready reader.old }
    ensures slice { IfOk result (λ slice. ForSome (R.told reader.old) (λ bytes. Slices index.now run.now most bytes slice)) }
    ensures made { IfOk result (IsMade run.now.last most) }
    ensures asks { AsksOn (R.told reader.old) R.gives R.fails index.now run.now most reader.old reader.new result }
    ensures reader { KeepsReader R.told R.ready R.faults reader.old reader.new result }
{
    let mut terms = Vec::new(alloc);
    let mut pages = Vec::new(alloc);
    let mut after = run.last();
    for taken in 0..most {
        if pages.len() >= FULL_BYTES {
            return Ok(slice_made(terms, pages));
        }
        let Some(term) = index.next_term(after) else {
            return Ok(slice_made(terms, pages));
        };
        push_term(
            index, run, alloc, after, term, reader, &mut terms, &mut pages,
        )?;
        after = Some(term);
    }
    Ok(slice_made(terms, pages))
}

impl Lists {
    /// The next slice of the merge: so many terms at most, one after the other, until none is left or there are 1,024 pages. It changes
    /// nothing. Where no merge is begun it is empty.
    ///
    /// Errors: `Page`, where a page could not be read, or stands there no more; `Memory`.
    pub fn slice<R: PageReader>(
        &self,
        alloc: Global,
        most: u32,
        reader: &mut R,
    ) -> Result<Slice, ScanFault>
        requires ready { R.ready reader.old }
        ensures slice { IfOk result (λ slice. ForSome (R.told reader.old) (λ bytes. IsSliceBy self.now most bytes slice)) }
        ensures few { IfOk result (λ slice. length slice.terms ≤ most) }
        ensures fit { IfOk result (λ slice. AllByRecursion TermFits slice.terms) }
        ensures whole { IfOk result (λ slice. length slice.pages ≡ 4096 * page_count slice.terms) }
        ensures may_come { IfOk result (λ slice. IsSome self.now.merge → (at : ℕ) → IsSome (taken_by self.now slice at)) }
        ensures asks { AsksSlice (R.told reader.old) R.gives R.fails self.now most reader.old reader.new result }
        ensures reader { KeepsReader R.told R.ready R.faults reader.old reader.new result }
    {
        let Some(run) = &self.merge else {
            return Ok(slice_made(Vec::new(alloc), Vec::new(alloc)));
        };
        slice_terms(&self.index, run, alloc, most, reader)
    }
}
