ghost use Rattle.std.specs.Prelude.{◌≡◌, ◌<◌, ◌^◌, ◌++◌, ◌==◌, ℕ, true, All, IfOk, OnOk};
ghost use Rattle.std.specs.List.{IsDistinct};
ghost use Rattle.std.specs.List.Sorted.{IsStrictlyIncreasing};
ghost use Rattle.std.specs.Option.{ForSome};
ghost use Rattle.svr_iter.specs.Asked.{Asks};
ghost use Rattle.svr_iter.specs.Reader.{KeepsReader};
ghost use Rattle.svr_listing.specs.Groups.{ids_in};
ghost use Rattle.svr_listing.specs.Joined.{is_in};
ghost use Rattle.svr_index.specs.Docs.{StandUnder, refs_at};
ghost use Rattle.svr_index.specs.Layout.{pages_below};

use crate::index::Index;
use std::alloc::Global;
use svr_edge::{Memory, Text};
use svr_iter::{Postings, ScanFault};
use svr_num::DocId;
use svr_postpage::PageReader;

/// Puts ids behind others.
fn push_ids(ids: &[DocId], into: &mut Vec<DocId>) -> Result<(), Memory>
    ensures { OnOk result (into.new.items ≡ into.old.items ++ ids.now) }
{
    into.extend_from_slice(ids)?;
    Ok(())
}

/// The ids of all groups of a list, group by group.
fn gather<P: Postings, R: PageReader>(
    alloc: Global,
    list: &mut P,
    reader: &mut R,
) -> Result<Vec<DocId>, ScanFault>
    requires ready { R.ready reader.old }
    requires one_key { (key other id : ℕ) → P.may list.old key id ≡ true → P.may list.old other id ≡ true → key ≡ other }
    ensures all { IfOk result (λ ids. ForSome (R.told reader.old) (λ bytes. ids.items ≡ ids_in (P.groups list.old bytes))) }
    ensures differ { IfOk result (λ ids. IsDistinct (λ a b. a == b) ids.items) }
    ensures fit { IfOk result (λ ids. All (λ id. id < 2 ^ 63) ids.items) }
    ensures asks { Asks R.gives R.fails (pages_below (P.pages list.old) (2 ^ 48)) reader.old reader.new result }
    ensures reader { KeepsReader R.told R.ready R.faults reader.old reader.new result }
{
    let mut all = Vec::new(alloc);
    let mut ids = Vec::new(alloc);
    'groups: while list.next_key().is_some() {
        list.take_group(alloc, reader, &mut ids)?;
        push_ids(&ids, &mut all)?;
    }
    Ok(all)
}

/// Puts ids in ascending order.
fn sort_ids(ids: &mut [DocId])
    requires differ { IsDistinct (λ a b. a == b) ids.old }
    requires fit { All (λ id. id < 2 ^ 63) ids.old }
    ensures same { (id : ℕ) → is_in id ids.new ≡ is_in id ids.old }
    ensures ascending { IsStrictlyIncreasing ids.new }
    ensures fit { All (λ id. id < 2 ^ 63) ids.new }
{
    ids.sort_unstable();
}

impl Index {
    /// The ids of the documents that stand under a term by the bytes of its pages, ascending. It asks for each page of the term once.
    ///
    /// Errors: `Page`, where a page could not be read, or stands there no more; `Memory`.
    pub fn term_docs<R: PageReader>(
        &self,
        alloc: Global,
        term: &Text,
        reader: &mut R,
    ) -> Result<Vec<DocId>, ScanFault>
        requires ready { R.ready reader.old }
        ensures ids { IfOk result (λ ids. ForSome (R.told reader.old) (λ bytes. StandUnder self.now term.now bytes ids.items)) }
        ensures ascending { IfOk result (λ ids. IsStrictlyIncreasing ids.items) }
        ensures fit { IfOk result (λ ids. All (λ id. id < 2 ^ 63) ids.items) }
        ensures asks { Asks R.gives R.fails (refs_at self.now term.now) reader.old reader.new result }
        ensures reader { KeepsReader R.told R.ready R.faults reader.old reader.new result }
    {
        let mut list = self.list_of(alloc, term);
        let mut ids = gather(alloc, &mut list, reader)?;
        sort_ids(ids.as_mut_slice());
        Ok(ids)
    }
}
