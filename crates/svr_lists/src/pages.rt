ghost use Rattle.std.specs.Prelude.{◌≡◌, ◌+◌, ◌*◌, ◌<◌, ◌^◌, ℕ, IfOk, None, Err, Some, length, map, option_map};
ghost use Rattle.svr_lists.specs.Layout.{all_before, heads_of, ref_before};
ghost use Rattle.svr_lists.specs.Taken.{pages_in};
ghost use Rattle.svr_postpage.specs.Pages.{page_in, pairs_of};

use crate::taken::SliceFault;
use std::alloc::Global;
use svr_postpage::{PAGE_BYTES, PageRef, Pair, pair_at, read_page};

/// Whether the last one of the pairs of a page, of which there are so many, stands before the next pair, if there is one.
fn stands_before(bytes: &[u8; 4096], count: u16, next: Option<Pair>) -> bool
    requires some { 0 < count }
    requires all { count ≡ length (pairs_of bytes.now) }
    ensures { result ≡ all_before (pairs_of bytes.now) next }
{
    match next {
        Some(next) => pair_at(bytes, count - 1).is_before(&next),
        None => true,
    }
}

/// Reads a page whose pairs all stand before the next pair, if there is one.
fn page_before(bytes: &[u8; 4096], at: u64, next: Option<Pair>) -> Result<PageRef, SliceFault>
    ensures page { IfOk result (λ page. ref_before at next (page_in bytes.now) ≡ Some page) }
    ensures bad { result ≡ Err SliceFault.BadSlice → ref_before at next (page_in bytes.now) ≡ None }
{
    let Ok(page) = read_page(bytes, at) else {
        return Err(SliceFault::BadSlice);
    };
    if !stands_before(bytes, page.count, next) {
        return Err(SliceFault::BadSlice);
    }
    Ok(page)
}

/// Reads the pages that stand one behind the other in bytes, the first of them at this address. It begins with the last one.
pub(crate) fn read_pages(alloc: Global, bytes: &[u8], at: u64) -> Result<Vec<PageRef>, SliceFault>
    requires room { at + length bytes.now < 2 ^ 64 }
    ensures pages { (count : ℕ) → length bytes.now ≡ 4096 * count
        → IfOk result (λ pages. option_map heads_of (pages_in at count bytes.now) ≡ Some pages.items) }
    ensures bad { (count : ℕ) → length bytes.now ≡ 4096 * count → result ≡ Err SliceFault.BadSlice → pages_in at count bytes.now ≡ None }
{
    let mut pages = Vec::new(alloc);
    let mut rest = bytes;
    let mut next = None;
    while let Some((front, page)) = rest.split_last_chunk::<PAGE_BYTES>() {
        let page = page_before(page, at + front.len() as u64, next)?;
        next = Some(Pair {
            key: page.key,
            id: page.id,
        });
        pages.push(page)?;
        rest = front;
    }
    pages.reverse();
    Ok(pages)
}
