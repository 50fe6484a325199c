ghost use Rattle.std.specs.Prelude.{◌≡◌, ◌≤◌, IfNone, IfOk, IfSome, OnOk, filter, length, nat_lt};
ghost use Rattle.std.specs.List.{insert, prefix_len};
ghost use Rattle.svr_listing.specs.Joined.{any_at, common_at, either, groups_in_all, groups_in_any, ids_at, is_in, keys_in, with_id};
ghost use Rattle.svr_listing.specs.Layout.{with_keys};

use crate::group::Group;
use crate::keys::insert_key;
use std::alloc::Global;
use svr_edge::{Items, Memory};
use svr_num::DocId;

/// Whether an id is among others.
fn is_in(id: DocId, ids: &[DocId]) -> bool
    ensures { result ≡ is_in id ids.now }
{
    ids.iter().any(|other| *other == id)
}

/// The ids that a list of groups has at a key.
fn ids_at(key: u64, groups: &[Group]) -> &[DocId]
    ensures { result.now ≡ ids_at key groups.now }
{
    match groups.split_first() {
        Some((group, rest)) => {
            if group.key == key {
                group.ids.as_slice()
            } else {
                ids_at(key, rest)
            }
        }
        None => &[],
    }
}

/// How many ids stand in front of the first that isn't below `id`.
fn place_of_id(ids: &[DocId], id: DocId) -> usize
    ensures value { result ≡ prefix_len (λ other. nat_lt other id) ids.now }
    ensures within { result ≤ length ids.now }
{
    ids.iter().take_while(|other| **other < id).count()
}

/// Where an id comes among ids in their order, `None` where it is there.
fn new_place_of_id(ids: &[DocId], id: DocId) -> Option<usize>
    ensures within { IfSome result (λ at. at ≤ length ids.now) }
    ensures new { IfSome result (λ at. insert ids.now at id ≡ with_id id ids.now) }
    ensures there { IfNone result (ids.now ≡ with_id id ids.now) }
{
    let at = place_of_id(ids, id);
    if at < ids.len() && ids[at] == id {
        None
    } else {
        Some(at)
    }
}

/// Adds an id at its place among ids in their order, if it is not there.
fn insert_id(ids: &mut Vec<DocId>, id: DocId) -> Result<(), Memory>
    ensures { OnOk result (ids.new.items ≡ with_id id ids.old.items) }
{
    if let Some(at) = new_place_of_id(ids, id) {
        ids.insert(at, id)?;
    }
    Ok(())
}

/// Adds the ids of a list to others.
fn insert_ids(ids: &mut Vec<DocId>, more: &[DocId]) -> Result<(), Memory>
    ensures { OnOk result (ids.new.items ≡ either more.now ids.old.items) }
{
    if let Some((id, rest)) = more.split_first() {
        insert_ids(ids, rest)?;
        insert_id(ids, *id)?;
    }
    Ok(())
}

/// The ids of the first list that the second has too.
fn common(alloc: Global, ids: &[DocId], others: &[DocId]) -> Result<Vec<DocId>, Memory>
    ensures { IfOk result (λ both. both.items ≡ filter (λ id. is_in id others.now) ids.now) }
{
    let both = ids
        .iter()
        .copied()
        .filter(|id| is_in(*id, others))
        .collect(alloc)?;
    Ok(both)
}

/// The ids that all lists have at a key.
fn common_at(alloc: Global, key: u64, lists: &[Items<Group>]) -> Result<Vec<DocId>, Memory>
    ensures { IfOk result (λ ids. ids.items ≡ common_at key lists.now) }
{
    let Some((list, rest)) = lists.split_first() else {
        return Ok(Vec::new(alloc));
    };
    let ids = ids_at(key, list.as_slice());
    if rest.is_empty() {
        return Ok(ids.to_vec(alloc)?);
    }
    common(alloc, ids, &common_at(alloc, key, rest)?)
}

/// The ids that some list has at a key.
fn any_at(alloc: Global, key: u64, lists: &[Items<Group>]) -> Result<Vec<DocId>, Memory>
    ensures { IfOk result (λ ids. ids.items ≡ any_at key lists.now) }
{
    let Some((list, rest)) = lists.split_first() else {
        return Ok(Vec::new(alloc));
    };
    let mut ids = any_at(alloc, key, rest)?;
    insert_ids(&mut ids, ids_at(key, list.as_slice()))?;
    Ok(ids)
}

/// Adds the keys of groups.
fn insert_keys(keys: &mut Vec<u64>, groups: &[Group]) -> Result<(), Memory>
    ensures { OnOk result (keys.new.items ≡ with_keys groups.now keys.old.items) }
{
    if let Some((group, rest)) = groups.split_first() {
        insert_keys(keys, rest)?;
        insert_key(keys, group.key)?;
    }
    Ok(())
}

/// The keys of all lists, descending.
fn keys_in(alloc: Global, lists: &[Items<Group>]) -> Result<Vec<u64>, Memory>
    ensures { IfOk result (λ keys. keys.items ≡ keys_in lists.now) }
{
    let Some((list, rest)) = lists.split_first() else {
        return Ok(Vec::new(alloc));
    };
    let mut keys = keys_in(alloc, rest)?;
    insert_keys(&mut keys, list.as_slice())?;
    Ok(keys)
}

/// The groups of several lists put together: at each of their keys the ids that all of them have there.
pub fn groups_in_all(alloc: Global, lists: &[Items<Group>]) -> Result<Vec<Group>, Memory>
    ensures { IfOk result (λ groups. groups.items ≡ groups_in_all lists.now) }
{
    let keys = keys_in(alloc, lists)?;
    let mut groups = Vec::new(alloc);
    for key in &keys {
        let ids = common_at(alloc, *key, lists)?;
        groups.push(Group {
            key: *key,
            ids: Items::from_vec(ids),
        })?;
    }
    Ok(groups)
}

/// The groups of several lists put together: at each of their keys the ids that one of them has there, or more.
pub fn groups_in_any(alloc: Global, lists: &[Items<Group>]) -> Result<Vec<Group>, Memory>
    ensures { IfOk result (λ groups. groups.items ≡ groups_in_any lists.now) }
{
    let keys = keys_in(alloc, lists)?;
    let mut groups = Vec::new(alloc);
    for key in &keys {
        let ids = any_at(alloc, *key, lists)?;
        groups.push(Group {
            key: *key,
            ids: Items::from_vec(ids),
        })?;
    }
    Ok(groups)
}
