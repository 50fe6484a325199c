ghost use Rattle.std.specs.Prelude.{◌≡◌, ◌↔◌, ℕ, List, IsTrue, drop, [], length, refl};
ghost use Rattle.svr_listing.specs.Groups.{AreGroups, Descends, first_key};
ghost use Rattle.svr_iter.specs.Mem.{AreOrdered, holds};
ghost use Rattle.svr_iter.specs.MemLaws.{AreGroups-drop, AreOrdered-prop};

use crate::fault::ScanFault;
use crate::ids::keep_common;
use crate::postings::Postings;
use std::alloc::Global;
use svr_listing::{Group, are_ordered};
use svr_num::DocId;
use svr_postpage::PageReader;

/// Whether the keys of groups descend. Each is compared with all later ones.
fn keys_descend(groups: &[Group]) -> bool
    ensures { IsTrue result ↔ Descends groups.now }
{
    match groups.split_first() {
        Some((group, rest)) => {
            rest.iter().all(|later| later.key < group.key) && keys_descend(rest)
        }
        None => true,
    }
}

/// Groups in memory. It asks for no page.
#[derive(Drop)]
pub struct MemPostings {
    given: Vec<Group>,
    at: usize,
    ghost ordered: { AreOrdered given.items } by { AreOrdered-prop given.items },
}

impl MemPostings {
    /// Whether the groups' keys descend and are within their range, and so their ids ascend.
    pub fn are_ordered(groups: &[Group]) -> bool
        ensures { IsTrue result ↔ AreOrdered groups.now }
    {
        keys_descend(groups) && are_ordered(groups)
    }

    pub fn new(groups: Vec<Group>) -> MemPostings
        requires { AreOrdered groups.items }
        ensures groups { (bytes : List ℕ) → ⟦<MemPostings as Postings>⟧.groups result bytes ≡ groups.items }
        ensures next { ⟦<MemPostings as Postings>⟧.next result ≡ first_key groups.items }
        ensures may { ⟦<MemPostings as Postings>⟧.may result ≡ holds groups.items }
        ensures pages { (key : ℕ) → ⟦<MemPostings as Postings>⟧.pages result key ≡ [] }
    {
        MemPostings {
            given: groups,
            at: 0,
        }
    }
}

impl Postings for MemPostings {
    ghost groups = { λ m _. drop m.at m.given.items };

    ghost next = { λ m. first_key (drop m.at m.given.items) };

    ghost may = { λ m. holds m.given.items };

    ghost pages = { λ _ _. [] };

    ghost lawful = { λ m _. AreGroups-drop m.at m.given.items m.ordered };

    ghost gone = { λ _ _ _. refl };

    fn next_key(&self) -> Option<u64> {
        if self.at < self.given.len() {
            Some(self.given[self.at].key)
        } else {
            None
        }
    }

    fn take_group<R: PageReader>(
        &mut self,
        alloc: Global,
        _reader: &mut R,
        ids: &mut Vec<DocId>,
    ) -> Result<(), ScanFault> {
        ids.clear();
        match ids.extend_from_slice(self.given[self.at].ids.as_slice()) {
            Ok(()) => {
                self.at += 1;
                Ok(())
            }
            Err(_) => Err(ScanFault::Memory),
        }
    }

    fn keep_group<R: PageReader>(
        &mut self,
        alloc: Global,
        _reader: &mut R,
        ids: &mut Vec<DocId>,
    ) -> Result<(), ScanFault> {
        keep_common(ids, self.given[self.at].ids.as_slice());
        self.at += 1;
        Ok(())
    }
}
