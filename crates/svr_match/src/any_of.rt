ghost use Rattle.std.specs.Prelude.{◌≡◌, ℕ, List, map};
ghost use Rattle.std.specs.List.{flat_map};
ghost use Rattle.svr_num.specs.declared.mode.Mode.TheVariants as mode;
ghost use Rattle.svr_listing.specs.Joined.{groups_in_any};
ghost use Rattle.svr_iter.specs.Keys.{greatest};
ghost use Rattle.svr_match.specs.Joined.{may_in};
ghost use Rattle.svr_match.specs.JoinedLaws.{any-lawful, joined-gone};

use crate::joined::{keep_some, take_each};
use crate::taking::next_of;
use std::alloc::Global;
use svr_iter::{Postings, ScanFault};
use svr_num::DocId;
use svr_postpage::PageReader;

/// The ids that stand in any of several lists, key by key.
#[derive(Drop)]
pub struct AnyOf<P> {
    lists: Vec<P>,
    kept: Vec<DocId>,
    others: Vec<DocId>,
    room: Vec<DocId>,
}

impl<P: Postings + Drop> AnyOf<P> {
    pub fn new(alloc: Global, lists: Vec<P>) -> AnyOf<P>
        ensures groups { (bytes : List ℕ) → ⟦<AnyOf<P> as Postings>⟧.groups result bytes
            ≡ groups_in_any (map (λ p. P.groups p bytes) lists.items) }
        ensures next { ⟦<AnyOf<P> as Postings>⟧.next result ≡ greatest (map P.next lists.items) }
        ensures may { ⟦<AnyOf<P> as Postings>⟧.may result ≡ may_in mode.Any (map P.may lists.items) }
        ensures pages { (key : ℕ) → ⟦<AnyOf<P> as Postings>⟧.pages result key ≡ flat_map (λ p. P.pages p key) lists.items }
    {
        AnyOf {
            lists,
            kept: Vec::new(alloc),
            others: Vec::new(alloc),
            room: Vec::new(alloc),
        }
    }
}

impl<P: Postings + Drop> Postings for AnyOf<P> {
    ghost groups = { λ s bytes. groups_in_any (map (λ p. P.groups p bytes) s.lists.items) };

    ghost next = { λ s. greatest (map P.next s.lists.items) };

    ghost may = { λ s. may_in mode.Any (map P.may s.lists.items) };

    ghost pages = { λ s key. flat_map (λ p. P.pages p key) s.lists.items };

    ghost lawful = { λ s bytes. any-lawful P.may P.next (λ p. P.groups p bytes) (λ p. P.lawful p bytes) s.lists.items };

    ghost gone = { λ s. joined-gone P.next P.pages P.gone s.lists.items };

    fn next_key(&self) -> Option<u64> {
        next_of(&self.lists)
    }

    fn take_group<R: PageReader>(
        &mut self,
        alloc: Global,
        reader: &mut R,
        ids: &mut Vec<DocId>,
    ) -> Result<(), ScanFault> {
        match self.next_key() {
            Some(key) => take_each(
                &mut self.lists,
                key,
                alloc,
                reader,
                ids,
                &mut self.others,
                &mut self.room,
            ),
            None => Ok(()),
        }
    }

    fn keep_group<R: PageReader>(
        &mut self,
        alloc: Global,
        reader: &mut R,
        ids: &mut Vec<DocId>,
    ) -> Result<(), ScanFault> {
        match self.next_key() {
            Some(key) => {
                keep_some(
                    &mut self.lists,
                    key,
                    alloc,
                    reader,
                    ids,
                    &mut self.kept,
                    &mut self.others,
                    &mut self.room,
                )?;
                std::mem::swap(ids, &mut self.kept);
                Ok(())
            }
            None => Ok(()),
        }
    }
}
