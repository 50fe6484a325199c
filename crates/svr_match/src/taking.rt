ghost use Rattle.std.specs.Prelude.{◌≡◌, ◌<◌, ◌^◌, OnOk, map};
ghost use Rattle.std.specs.List.Sorted.{IsStrictlyIncreasing};
ghost use Rattle.svr_iter.specs.Asked.{Asks};
ghost use Rattle.svr_iter.specs.Keys.{greatest};
ghost use Rattle.svr_iter.specs.Layout.{IsUpTo, KeepsAt, TakesAt};
ghost use Rattle.svr_iter.specs.Reader.{KeepsReader};

use std::alloc::Global;
use svr_iter::{Postings, ScanFault, greater_key};
use svr_num::DocId;
use svr_postpage::PageReader;

/// The greatest of the lists' next keys.
pub(crate) fn next_of<P: Postings>(lists: &[P]) -> Option<u64>
    ensures { result ≡ greatest (map P.next lists.now) }
{
    let mut best = None;
    for list in lists {
        best = greater_key(best, list.next_key());
    }
    best
}

/// Takes the group of a key from a list, if that is its next one; its ids, or none.
pub(crate) fn take_at<P: Postings, R: PageReader>(
    list: &mut P,
    key: u64,
    alloc: Global,
    reader: &mut R,
    ids: &mut Vec<DocId>,
) -> Result<(), ScanFault>
    requires up_to { IsUpTo key (P.next list.old) }
    requires fits { key < 2 ^ 48 }
    requires ready { R.ready reader.old }
    ensures takes { OnOk result (TakesAt P.groups P.next P.may P.pages (R.told reader.old) key list.old list.new ids.new.items) }
    ensures asks { Asks R.gives R.fails (P.pages list.old key) reader.old reader.new result }
    ensures reader { KeepsReader R.told R.ready R.faults reader.old reader.new result }
{
    if list.next_key() == Some(key) {
        list.take_group(alloc, reader, ids)
    } else {
        ids.clear();
        Ok(())
    }
}

/// Takes the group of a key from a list, if that is its next one, and leaves those ids that it has, or none.
pub(crate) fn keep_at<P: Postings, R: PageReader>(
    list: &mut P,
    key: u64,
    alloc: Global,
    reader: &mut R,
    ids: &mut Vec<DocId>,
) -> Result<(), ScanFault>
    requires up_to { IsUpTo key (P.next list.old) }
    requires fits { key < 2 ^ 48 }
    requires ready { R.ready reader.old }
    requires ascending { IsStrictlyIncreasing ids.old.items }
    ensures keeps { OnOk result (KeepsAt P.groups P.next P.may P.pages (R.told reader.old) key list.old list.new
        ids.old.items ids.new.items) }
    ensures asks { Asks R.gives R.fails (P.pages list.old key) reader.old reader.new result }
    ensures reader { KeepsReader R.told R.ready R.faults reader.old reader.new result }
{
    if list.next_key() == Some(key) {
        list.keep_group(alloc, reader, ids)
    } else {
        ids.truncate(0);
        Ok(())
    }
}
