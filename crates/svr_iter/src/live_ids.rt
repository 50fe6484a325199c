ghost use Rattle.std.specs.Prelude.{◌≡◌, ◌≤◌, ◌<◌, ◌++◌, ◌∷◌, [], ◌&&◌, ◌||◌, ℕ, Some, None, OnOk, drop, filter, length, slice_index, if◌then◌else◌};
ghost use Rattle.std.specs.List.Sorted.{IsStrictlyIncreasing};
ghost use Rattle.svr_listing.specs.Joined.{is_in};
ghost use Rattle.svr_iter.specs.Layout.{IsPlaceOf};
ghost use Rattle.svr_iter.specs.Marks.{has_mark, ids_of, live_ids, mark_of, stands};
ghost use Rattle.svr_iter.specs.Merging.{Up};

use crate::ids::{keep_id, place_of, stands_at};
use crate::marks::{Mark, Marked};
use crate::sources::KeySource;
use svr_edge::Memory;
use svr_num::{DocId, ListKey};

/// Whether a document stands at a key, by its entry and its mark.
fn stands_by(entry: Option<ListKey>, key: u64, mark: Option<Mark>) -> bool
    ensures { result ≡ stands entry key mark }
{
    match entry {
        Some(entry) => {
            if entry.key == key {
                match mark {
                    Some(Mark::Add) => true,
                    Some(Mark::Rem) => false,
                    None => !entry.moved,
                }
            } else {
                false
            }
        }
        None => false,
    }
}

/// Adds an id to the others, if it stands at the key.
fn push_id<K: KeySource>(
    keys: &K,
    key: u64,
    id: DocId,
    mark: Option<Mark>,
    into: &mut Vec<DocId>,
) -> Result<(), Memory>
    ensures { OnOk result (into.new.items ≡ into.old.items ++ (if stands (K.entry keys.now id) key mark then id ∷ [] else [])) }
{
    if stands_by(keys.listed(id), key, mark) {
        into.push(id)?;
    }
    Ok(())
}

/// The same for posted ids without marks, from a place on.
fn push_posted<K: KeySource>(
    keys: &K,
    key: u64,
    posted: &[DocId],
    from: usize,
    into: &mut Vec<DocId>,
) -> Result<(), Memory>
    requires { from ≤ length posted.now }
    ensures { OnOk result (into.new.items ≡ into.old.items ++ live_ids (K.entry keys.now) key [] (drop from posted.now)) }
{
    for at in from..posted.len() {
        push_id(keys, key, posted[at], None, into)?;
    }
    Ok(())
}

/// The same for marks alone.
fn push_marked<K: KeySource>(
    keys: &K,
    key: u64,
    marks: &[Marked],
    from: usize,
    into: &mut Vec<DocId>,
) -> Result<(), Memory>
    requires from { from ≤ length marks.now }
    requires marks { Up (ids_of marks.now) }
    ensures { OnOk result (into.new.items ≡ into.old.items ++ live_ids (K.entry keys.now) key (drop from marks.now) []) }
{
    for at in from..marks.len() {
        push_id(keys, key, marks[at].id, Some(marks[at].mark), into)?;
    }
    Ok(())
}

/// Leaves in `into` those of the posted and marked ids that stand at the key. It looks up the entry of each once.
pub(crate) fn take_live<K: KeySource>(
    keys: &K,
    key: u64,
    posted: &[DocId],
    marks: &[Marked],
    into: &mut Vec<DocId>,
) -> Result<(), Memory>
    requires posted { IsStrictlyIncreasing posted.now }
    requires marks { Up (ids_of marks.now) }
    ensures { OnOk result (into.new.items ≡ live_ids (K.entry keys.now) key marks.now posted.now) }
{
    into.clear();
    let mut i = 0;
    let mut j = 0;
    'both: while i < posted.len() && j < marks.len() {
        if posted[i] < marks[j].id {
            push_id(keys, key, posted[i], None, into)?;
            i += 1;
        } else if marks[j].id < posted[i] {
            push_id(keys, key, marks[j].id, Some(marks[j].mark), into)?;
            j += 1;
        } else {
            push_id(keys, key, marks[j].id, Some(marks[j].mark), into)?;
            i += 1;
            j += 1;
        }
    }
    if i < posted.len() {
        push_posted(keys, key, posted, i, into)
    } else {
        push_marked(keys, key, marks, j, into)
    }
}

/// The place of an id among the marks, of which all before `from` are below it.
fn mark_place(marks: &[Marked], from: usize, id: DocId) -> usize
    requires from { from ≤ length (ids_of marks.now) }
    requires below { (j : ℕ) → j < from → slice_index (ids_of marks.now) j < id }
    ensures { IsPlaceOf id (ids_of marks.now) result }
{
    let mut at = from;
    while at < marks.len() && marks[at].id < id {
        at += 1;
    }
    at
}

/// The mark of an id, at its place.
fn mark_at(marks: &[Marked], place: usize, id: DocId) -> Option<Mark>
    requires marks { Up (ids_of marks.now) }
    requires place { IsPlaceOf id (ids_of marks.now) place }
    ensures { result ≡ mark_of id marks.now }
{
    if place < marks.len() && marks[place].id == id {
        Some(marks[place].mark)
    } else {
        None
    }
}

/// Whether an id stands at the key that is posted there or has a mark. It looks up the entry of no other.
fn is_live<K: KeySource>(keys: &K, key: u64, id: DocId, is_posted: bool, mark: Option<Mark>) -> bool
    ensures { result ≡ (stands (K.entry keys.now id) key mark && (has_mark mark || is_posted)) }
{
    if is_posted || mark.is_some() {
        stands_by(keys.listed(id), key, mark)
    } else {
        false
    }
}

/// Leaves those ids that are posted or marked and stand at the key. It takes no memory.
pub(crate) fn keep_live<K: KeySource>(
    keys: &K,
    key: u64,
    posted: &[DocId],
    marks: &[Marked],
    ids: &mut Vec<DocId>,
)
    requires posted { IsStrictlyIncreasing posted.now }
    requires marks { Up (ids_of marks.now) }
    requires ids { IsStrictlyIncreasing ids.old.items }
    ensures { ids.new.items ≡ filter (λ id. is_in id (live_ids (K.entry keys.now) key marks.now posted.now)) ids.old.items }
{
    let mut kept = 0;
    let mut i = 0;
    let mut j = 0;
    for at in 0..ids.len() {
        let id = ids[at];
        i = place_of(posted, i, id);
        j = mark_place(marks, j, id);
        let is_posted = stands_at(posted, i, id);
        let passed = is_live(keys, key, id, is_posted, mark_at(marks, j, id));
        kept = keep_id(ids, kept, at, passed);
    }
    ids.truncate(kept);
}
