ghost use Rattle.std.specs.Prelude.{◌≡◌, ◌<◌, ◌^◌, ℕ, List, Option, Bool, Some, [], OnOk, IsSome, IfSome, unwrap_or};
ghost use Rattle.std.specs.List.Sorted.{IsStrictlyIncreasing};
ghost use Rattle.svr_postpage.specs.declared.page_ref.PageRef.{PageRef};
ghost use Rattle.svr_iter.specs.Asked.{Asks};
ghost use Rattle.svr_listing.specs.Groups.{AreGroups};
ghost use Rattle.svr_listing.specs.declared.group.Group.{Group};
ghost use Rattle.svr_iter.specs.Reader.{KeepsReader};
ghost use Rattle.svr_iter.specs.Taking.{IsLess, KeepsGroup, TakesGroup};

use crate::fault::ScanFault;
use std::alloc::Global;
use svr_num::DocId;
use svr_postpage::PageReader;

/// Groups of ids, of which each has a key. Keys descend, and the ids of a group ascend.
pub trait Postings {
    /// The groups still to come, where the reader tells these bytes.
    ghost groups: { Self → List ℕ → List Group };

    /// The key of the first of them.
    ghost next: { Self → Option ℕ };

    /// Whether an id may come at a key, whatever the reader gives.
    ghost may: { Self → ℕ → ℕ → Bool };

    /// The pages that belong to the group of a key, where it is still to come.
    ghost pages: { Self → ℕ → List PageRef };

    /// The key of the first group, which asks for no page.
    fn next_key(&self) -> Option<u64>
        ensures key { result ≡ next self.now }
        ensures within { IfSome result (λ key. key < 2 ^ 48) };

    /// Takes the first group away and leaves its ids in `ids`. It asks for the pages of this group alone, each once.
    fn take_group<R: PageReader>(
        &mut self,
        alloc: Global,
        reader: &mut R,
        ids: &mut Vec<DocId>,
    ) -> Result<(), ScanFault>
        requires ready { R.ready reader.old }
        requires some { IsSome (next self.old) }
        ensures takes { OnOk result (TakesGroup groups next may pages (R.told reader.old) self.old self.new ids.new.items) }
        ensures asks { Asks R.gives R.fails (pages self.old (unwrap_or (next self.old) 0)) reader.old reader.new result }
        ensures reader { KeepsReader R.told R.ready R.faults reader.old reader.new result };

    /// Takes the first group away and leaves in `ids` those of them that it has. It asks for the same pages.
    fn keep_group<R: PageReader>(
        &mut self,
        alloc: Global,
        reader: &mut R,
        ids: &mut Vec<DocId>,
    ) -> Result<(), ScanFault>
        requires ready { R.ready reader.old }
        requires some { IsSome (next self.old) }
        requires ascending { IsStrictlyIncreasing ids.old.items }
        ensures keeps { OnOk result (KeepsGroup groups next may pages (R.told reader.old) self.old self.new ids.old.items ids.new.items) }
        ensures asks { Asks R.gives R.fails (pages self.old (unwrap_or (next self.old) 0)) reader.old reader.new result }
        ensures reader { KeepsReader R.told R.ready R.faults reader.old reader.new result };

    ghost lawful: { (self : Self) (bytes : List ℕ) → AreGroups (may self) (next self) (groups self bytes) };

    /// A key above the next one has no pages any more.
    ghost gone: { (self : Self) (key : ℕ) → IsLess (next self) (Some key) → pages self key ≡ [] };
}
