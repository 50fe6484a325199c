ghost use Rattle.std.specs.Prelude.{◌≡◌, ◌++◌, [], ◌∷◌, IfOk, OnOk, drop, filter_map, take, true};
ghost use Rattle.svr_listing.specs.Merges.{in_page_order};
ghost use Rattle.svr_postpage.specs.Pages.{page_bytes};
ghost use Rattle.svr_postpage.specs.Pairs.{fill_a_page};
ghost use Rattle.svr_merge.specs.Images.{MayFillPages, pages_bytes, pair_by, pairs_by};

use std::alloc::Global;
use svr_edge::Memory;
use svr_idmap::IdMap;
use svr_num::DocId;
use svr_postpage::{PAGE_BYTES, Pair, write_page};

/// How many pairs a page has, unless it is the last one.
const PAGE_PAIRS: usize = 255;

/// Adds an id with its new key, if it has one.
fn push_pair(pairs: &mut Vec<Pair>, keys: &IdMap<u64>, id: DocId) -> Result<(), Memory>
    ensures { OnOk result (pairs.new.items ≡ pairs.old.items ++ filter_map (pair_by keys.now) (id ∷ [])) }
{
    if let Some(key) = keys.get(id) {
        pairs.push(Pair { key: *key, id })?;
    }
    Ok(())
}

/// The ids that have a new key, with it, in their order.
fn pairs_in(alloc: Global, keys: &IdMap<u64>, ids: &[DocId]) -> Result<Vec<Pair>, Memory>
    ensures { IfOk result (λ pairs. pairs.items ≡ filter_map (pair_by keys.now) ids.now) }
{
    let mut pairs = Vec::new(alloc);
    for id in ids {
        push_pair(&mut pairs, keys, *id)?;
    }
    Ok(pairs)
}

/// Puts pairs in page order.
fn sort_pairs(pairs: &mut [Pair])
    ensures { pairs.new ≡ in_page_order pairs.old }
{
    pairs.sort_unstable_by(|a, b| b.key.cmp(&a.key).then(a.id.cmp(&b.id)));
}

/// The ids that have a new key, with it, in page order.
pub fn pairs_by(alloc: Global, keys: &IdMap<u64>, ids: &[DocId]) -> Result<Vec<Pair>, Memory>
    ensures { IfOk result (λ pairs. pairs.items ≡ pairs_by keys.now ids.now) }
{
    let mut pairs = pairs_in(alloc, keys, ids)?;
    sort_pairs(pairs.as_mut_slice());
    Ok(pairs)
}

/// Writes a page behind bytes.
fn push_page(bytes: &mut Vec<u8>, pairs: &[Pair]) -> Result<(), Memory>
    requires { fill_a_page pairs.now ≡ true }
    ensures { OnOk result (bytes.new.items ≡ bytes.old.items ++ page_bytes pairs.now) }
{
    let mut page = [0; PAGE_BYTES];
    write_page(pairs, &mut page);
    bytes.extend_from_slice(&page)?;
    Ok(())
}

/// The pairs of the first page, and the others.
fn first_page(pairs: &[Pair]) -> (&[Pair], &[Pair])
    ensures page { result.0.now ≡ take 255 pairs.now }
    ensures rest { result.1.now ≡ drop 255 pairs.now }
{
    pairs.split_at(pairs.len().min(PAGE_PAIRS))
}

/// The pages of pairs, full ones first.
pub fn write_pages(alloc: Global, pairs: &[Pair]) -> Result<Vec<u8>, Memory>
    requires { MayFillPages pairs.now }
    ensures { IfOk result (λ bytes. bytes.items ≡ pages_bytes pairs.now) }
{
    let mut bytes = Vec::new(alloc);
    let mut rest = pairs;
    while !rest.is_empty() {
        let (page, after) = first_page(rest);
        push_page(&mut bytes, page)?;
        rest = after;
    }
    Ok(bytes)
}
