ghost use Rattle.std.specs.Prelude.{◌≡◌, ◌<◌, ◌^◌, ℕ, List, Option, Some, [], OnOk, IsSome, IfSome, unwrap_or};
ghost use Rattle.svr_num.specs.declared.list_key.ListKey.{ListKey};
ghost use Rattle.svr_postpage.specs.declared.page_ref.PageRef.{PageRef};
ghost use Rattle.svr_iter.specs.Asked.{Asks};
ghost use Rattle.svr_listing.specs.Groups.{AreGroups};
ghost use Rattle.svr_listing.specs.declared.group.Group.{Group};
ghost use Rattle.svr_iter.specs.Marks.{AreMarks, MarksAt, every, marks_at, next_add};
ghost use Rattle.svr_iter.specs.Reader.{KeepsReader};
ghost use Rattle.svr_iter.specs.Taking.{IsLess, TakesGroup};

use crate::fault::ScanFault;
use crate::marks::Marked;
use std::alloc::Global;
use svr_edge::{Memory, Text};
use svr_num::{DocId, ListKey};
use svr_postpage::PageReader;

/// Posted pairs, by groups of one key.
pub trait LongSource {
    /// The groups still to come, where the reader tells these bytes.
    ghost groups: { Self → List ℕ → List Group };

    /// The key of the first of them.
    ghost next: { Self → Option ℕ };

    /// The pages that belong to the group of a key, where it is still to come.
    ghost pages: { Self → ℕ → List PageRef };

    /// The key of the first group, which asks for no page.
    fn next_key(&self) -> Option<u64>
        ensures key { result ≡ next self.now }
        ensures within { IfSome result (λ key. key < 2 ^ 48) };

    /// Takes the first group away and leaves its ids in `ids`. It asks for the pages of this group alone, each once.
    fn take_group<R: PageReader>(
        &mut self,
        alloc: Global,
        reader: &mut R,
        ids: &mut Vec<DocId>,
    ) -> Result<(), ScanFault>
        requires ready { R.ready reader.old }
        requires some { IsSome (next self.old) }
        ensures takes { OnOk result (TakesGroup groups next (λ _. every) pages (R.told reader.old) self.old self.new ids.new.items) }
        ensures asks { Asks R.gives R.fails (pages self.old (unwrap_or (next self.old) 0)) reader.old reader.new result }
        ensures reader { KeepsReader R.told R.ready R.faults reader.old reader.new result };

    ghost lawful: { (self : Self) (bytes : List ℕ) → AreGroups every (next self) (groups self bytes) };

    /// A key above the next one has no pages any more.
    ghost gone: { (self : Self) (key : ℕ) → IsLess (next self) (Some key) → pages self key ≡ [] };
}

/// Marks of documents under terms, each at a key.
pub trait ShortSource {
    /// The marks of a term, by descending keys.
    ghost marks: { Self → List ℕ → List MarksAt };

    /// The greatest key, below the given one if any, at which the term has an Add. It looks the key up, and passes over no marks.
    fn next_key(&self, term: &Text, below: Option<u64>) -> Option<u64>
        ensures { result ≡ next_add below (marks self.now term.now) };

    /// Leaves the marks of the term at the key in `into`, by id ascending.
    fn at_key(&self, term: &Text, key: u64, into: &mut Vec<Marked>) -> Result<(), Memory>
        ensures { OnOk result (into.new.items ≡ marks_at key (marks self.now term.now)) };

    ghost lawful: { (self : Self) (term : List ℕ) → AreMarks (marks self term) };
}

/// Where documents are listed.
pub trait KeySource {
    /// The entry of an id, if it is listed.
    ghost entry: { Self → ℕ → Option ListKey };

    /// The entry of an id, if it is listed.
    fn listed(&self, id: DocId) -> Option<ListKey>
        ensures { result ≡ entry self.now id };
}
