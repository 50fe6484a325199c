ghost use Rattle.std.specs.Prelude.{◌≡◌, ◌<◌, ◌^◌, OnOk, filter};
ghost use Rattle.std.specs.List.{AllByRecursion, flat_map};
ghost use Rattle.std.specs.List.Sorted.{IsStrictlyIncreasing};
ghost use Rattle.svr_listing.specs.Joined.{either, is_in};
ghost use Rattle.svr_iter.specs.Asked.{Asks};
ghost use Rattle.svr_iter.specs.Layout.{IsUpTo};
ghost use Rattle.svr_iter.specs.Reader.{KeepsReader};
ghost use Rattle.svr_match.specs.Joined.{any_of, common_with};
ghost use Rattle.svr_match.specs.Layout.{AreTaken};

use crate::taking::{keep_at, take_at};
use std::alloc::Global;
use svr_edge::Memory;
use svr_iter::{Postings, ScanFault, merge_ids};
use svr_num::DocId;
use svr_postpage::PageReader;

/// Has each list keep those ids that it has at the key.
pub(crate) fn keep_each<P: Postings, R: PageReader>(
    lists: &mut Vec<P>,
    key: u64,
    alloc: Global,
    reader: &mut R,
    ids: &mut Vec<DocId>,
) -> Result<(), ScanFault>
    requires up_to { AllByRecursion (λ list. IsUpTo key (P.next list)) lists.old.items }
    requires fits { key < 2 ^ 48 }
    requires ready { R.ready reader.old }
    requires ascending { IsStrictlyIncreasing ids.old.items }
    ensures takes { OnOk result (AreTaken P.groups P.next P.may P.pages (R.told reader.old) key lists.old.items lists.new.items
        (λ all. ids.new.items ≡ common_with ids.old.items all)) }
    ensures asks { Asks R.gives R.fails (flat_map (λ list. P.pages list key) lists.old.items) reader.old reader.new result }
    ensures reader { KeepsReader R.told R.ready R.faults reader.old reader.new result }
{
    for list in lists.iter_mut() {
        keep_at(list, key, alloc, reader, ids)?;
    }
    Ok(())
}

/// Adds the ids of another list. Its own are any ids afterwards.
fn add_ids(
    ids: &mut Vec<DocId>,
    others: &mut Vec<DocId>,
    room: &mut Vec<DocId>,
) -> Result<(), Memory>
    requires ids { IsStrictlyIncreasing ids.old.items }
    requires others { IsStrictlyIncreasing others.old.items }
    ensures { OnOk result (ids.new.items ≡ either others.old.items ids.old.items) }
{
    if ids.is_empty() {
        std::mem::swap(ids, others);
    } else if !others.is_empty() {
        merge_ids(others, ids, room)?;
        std::mem::swap(ids, room);
    }
    Ok(())
}

/// Takes the group of a key from each list that has it, and puts their ids together.
pub(crate) fn take_each<P: Postings, R: PageReader>(
    lists: &mut Vec<P>,
    key: u64,
    alloc: Global,
    reader: &mut R,
    ids: &mut Vec<DocId>,
    others: &mut Vec<DocId>,
    room: &mut Vec<DocId>,
) -> Result<(), ScanFault>
    requires up_to { AllByRecursion (λ list. IsUpTo key (P.next list)) lists.old.items }
    requires fits { key < 2 ^ 48 }
    requires ready { R.ready reader.old }
    ensures takes { OnOk result (AreTaken P.groups P.next P.may P.pages (R.told reader.old) key lists.old.items lists.new.items
        (λ all. ids.new.items ≡ any_of all)) }
    ensures asks { Asks R.gives R.fails (flat_map (λ list. P.pages list key) lists.old.items) reader.old reader.new result }
    ensures reader { KeepsReader R.told R.ready R.faults reader.old reader.new result }
{
    ids.clear();
    for list in lists.iter_mut() {
        take_at(list, key, alloc, reader, others)?;
        add_ids(ids, others, room)?;
    }
    Ok(())
}

/// Leaves in `into` the same ids.
fn copy_ids(ids: &[DocId], into: &mut Vec<DocId>) -> Result<(), Memory>
    ensures { OnOk result (into.new.items ≡ ids.now) }
{
    into.clear();
    into.extend_from_slice(ids)?;
    Ok(())
}

/// Leaves in `kept` those of the ids that some list has at the key.
pub(crate) fn keep_some<P: Postings, R: PageReader>(
    lists: &mut Vec<P>,
    key: u64,
    alloc: Global,
    reader: &mut R,
    ids: &[DocId],
    kept: &mut Vec<DocId>,
    others: &mut Vec<DocId>,
    room: &mut Vec<DocId>,
) -> Result<(), ScanFault>
    requires up_to { AllByRecursion (λ list. IsUpTo key (P.next list)) lists.old.items }
    requires fits { key < 2 ^ 48 }
    requires ready { R.ready reader.old }
    requires ascending { IsStrictlyIncreasing ids.now }
    ensures takes { OnOk result (AreTaken P.groups P.next P.may P.pages (R.told reader.old) key lists.old.items lists.new.items
        (λ all. kept.new.items ≡ filter (λ id. is_in id (any_of all)) ids.now)) }
    ensures asks { Asks R.gives R.fails (flat_map (λ list. P.pages list key) lists.old.items) reader.old reader.new result }
    ensures reader { KeepsReader R.told R.ready R.faults reader.old reader.new result }
{
    kept.clear();
    for list in lists.iter_mut() {
        copy_ids(ids, others)?;
        keep_at(list, key, alloc, reader, others)?;
        add_ids(kept, others, room)?;
    }
    Ok(())
}
