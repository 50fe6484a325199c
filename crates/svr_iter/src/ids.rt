ghost use Rattle.std.specs.Prelude.{◌≡◌, ◌≤◌, ◌<◌, ◌+◌, ◌++◌, ◌∷◌, [], ℕ, Bool, true, false, List, OnOk, filter, drop, length, set, slice_index, if◌then◌else◌};
ghost use Rattle.std.specs.List.Sorted.{IsStrictlyIncreasing};
ghost use Rattle.svr_listing.specs.Joined.{either, is_in};
ghost use Rattle.svr_iter.specs.Layout.{IsPlaceOf};

use svr_edge::Memory;
use svr_num::DocId;

/// The place of an id between two places, found by halving.
fn place_between(ids: &[DocId], low: usize, high: usize, id: DocId) -> usize
    requires ordered { low ≤ high }
    requires within { high ≤ length ids.now }
    requires ascending { IsStrictlyIncreasing ids.now }
    requires below { (j : ℕ) → j < low → slice_index ids.now j < id }
    requires at { high < length ids.now → id ≤ slice_index ids.now high }
    ensures { IsPlaceOf id ids.now result }
{
    let mut low = low;
    let mut high = high;
    while low < high {
        let middle = low + (high - low) / 2;
        if ids[middle] < id {
            low = middle + 1;
        } else {
            high = middle;
        }
    }
    low
}

/// Whether the id that is so many places ahead, the next one being one ahead, is there and below `id`.
fn is_below_ahead(ids: &[DocId], from: usize, ahead: usize, id: DocId) -> bool
    requires from { from ≤ length ids.now }
    requires ahead { 1 ≤ ahead }
    ensures below { result ≡ true → (from + ahead ≤ length ids.now) × ((k : ℕ) → k + 1 ≡ from + ahead → slice_index ids.now k < id) }
    ensures not_below { result ≡ false → (k : ℕ) → k + 1 ≡ from + ahead → k < length ids.now → id ≤ slice_index ids.now k }
{
    ahead <= ids.len() - from && ids[from + (ahead - 1)] < id
}

/// The place of an id, of which all before `from` are below it. It steps ahead by doubling, and then halves.
pub(crate) fn place_of(ids: &[DocId], from: usize, id: DocId) -> usize
    requires from { from ≤ length ids.now }
    requires ascending { IsStrictlyIncreasing ids.now }
    requires below { (j : ℕ) → j < from → slice_index ids.now j < id }
    ensures { IsPlaceOf id ids.now result }
{
    let mut low = from;
    let mut ahead = 1;
    while is_below_ahead(ids, low, ahead, id) {
        low += ahead;
        ahead = ahead.saturating_mul(2);
    }
    let high = low + (ahead - 1).min(ids.len() - low);
    place_between(ids, low, high, id)
}

/// Whether an id stands at its place.
pub(crate) fn stands_at(ids: &[DocId], place: usize, id: DocId) -> bool
    requires ascending { IsStrictlyIncreasing ids.now }
    requires place { IsPlaceOf id ids.now place }
    ensures { result ≡ is_in id ids.now }
{
    place < ids.len() && ids[place] == id
}

/// Moves the id at a place to the end of those that are kept, if it passed; how many are kept then.
pub(crate) fn keep_id(ids: &mut Vec<DocId>, kept: usize, at: usize, passed: bool) -> usize
    requires kept { kept ≤ at }
    requires at { at < length ids.old.items }
    ensures count { result ≡ (if passed then kept + 1 else kept) }
    ensures ids { ids.new.items ≡ (if passed then set ids.old.items kept (slice_index ids.old.items at) else ids.old.items) }
{
    if passed {
        ids[kept] = ids[at];
        kept + 1
    } else {
        kept
    }
}

/// Leaves those ids that are among the others too. It takes no memory, and steps over the others by doubling.
pub fn keep_common(ids: &mut Vec<DocId>, others: &[DocId])
    requires ids { IsStrictlyIncreasing ids.old.items }
    requires others { IsStrictlyIncreasing others.now }
    ensures { ids.new.items ≡ filter (λ id. is_in id others.now) ids.old.items }
{
    let mut kept = 0;
    let mut place = 0;
    for at in 0..ids.len() {
        let id = ids[at];
        place = place_of(others, place, id);
        kept = keep_id(ids, kept, at, stands_at(others, place, id));
    }
    ids.truncate(kept);
}

/// Adds the ids of a list from a place on.
fn push_rest(ids: &[DocId], from: usize, into: &mut Vec<DocId>) -> Result<(), Memory>
    requires { from ≤ length ids.now }
    ensures { OnOk result (into.new.items ≡ into.old.items ++ drop from ids.now) }
{
    into.extend_from_slice(&ids[from..])?;
    Ok(())
}

/// Leaves in `into` the ids of both lists, each once.
pub fn merge_ids(ids: &[DocId], others: &[DocId], into: &mut Vec<DocId>) -> Result<(), Memory>
    requires ids { IsStrictlyIncreasing ids.now }
    requires others { IsStrictlyIncreasing others.now }
    ensures { OnOk result (into.new.items ≡ either ids.now others.now) }
{
    into.clear();
    let mut i = 0;
    let mut j = 0;
    'both: while i < ids.len() && j < others.len() {
        if ids[i] < others[j] {
            into.push(ids[i])?;
            i += 1;
        } else if others[j] < ids[i] {
            into.push(others[j])?;
            j += 1;
        } else {
            into.push(ids[i])?;
            i += 1;
            j += 1;
        }
    }
    push_rest(ids, i, into)?;
    push_rest(others, j, into)?;
    Ok(())
}
