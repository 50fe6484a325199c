ghost use Rattle.std.specs.Prelude.{◌≡◌, ◌∷◌, ℕ, List, map};
ghost use Rattle.std.specs.List.{flat_map};
ghost use Rattle.svr_num.specs.declared.mode.Mode.TheVariants as mode;
ghost use Rattle.svr_listing.specs.Joined.{groups_in_all};
ghost use Rattle.svr_iter.specs.Keys.{greatest};
ghost use Rattle.svr_match.specs.Joined.{may_in};
ghost use Rattle.svr_match.specs.JoinedLaws.{all-lawful, joined-gone};

use crate::joined::keep_each;
use crate::taking::{keep_at, next_of, take_at};
use std::alloc::Global;
use svr_iter::{Postings, ScanFault, greater_key};
use svr_num::DocId;
use svr_postpage::PageReader;

/// The ids that stand in all of several lists, key by key. At each key the first list gives its ids and the others keep
/// those that they have, so the rarest is best the first.
#[derive(Drop)]
pub struct AllOf<P> {
    first: P,
    others: Vec<P>,
}

impl<P: Postings + Drop> AllOf<P> {
    pub fn new(first: P, others: Vec<P>) -> AllOf<P>
        ensures groups { (bytes : List ℕ) → ⟦<AllOf<P> as Postings>⟧.groups result bytes
            ≡ groups_in_all (map (λ p. P.groups p bytes) (first ∷ others.items)) }
        ensures next { ⟦<AllOf<P> as Postings>⟧.next result ≡ greatest (map P.next (first ∷ others.items)) }
        ensures may { ⟦<AllOf<P> as Postings>⟧.may result ≡ may_in mode.All (map P.may (first ∷ others.items)) }
        ensures pages { (key : ℕ) → ⟦<AllOf<P> as Postings>⟧.pages result key ≡ flat_map (λ p. P.pages p key) (first ∷ others.items) }
    {
        AllOf { first, others }
    }
}

impl<P: Postings + Drop> Postings for AllOf<P> {
    ghost groups = { λ s bytes. groups_in_all (map (λ p. P.groups p bytes) (s.first ∷ s.others.items)) };

    ghost next = { λ s. greatest (map P.next (s.first ∷ s.others.items)) };

    ghost may = { λ s. may_in mode.All (map P.may (s.first ∷ s.others.items)) };

    ghost pages = { λ s key. flat_map (λ p. P.pages p key) (s.first ∷ s.others.items) };

    ghost lawful = { λ s bytes. all-lawful P.may P.next (λ p. P.groups p bytes) (λ p. P.lawful p bytes) (s.first ∷ s.others.items) };

    ghost gone = { λ s. joined-gone P.next P.pages P.gone (s.first ∷ s.others.items) };

    fn next_key(&self) -> Option<u64> {
        greater_key(self.first.next_key(), next_of(&self.others))
    }

    fn take_group<R: PageReader>(
        &mut self,
        alloc: Global,
        reader: &mut R,
        ids: &mut Vec<DocId>,
    ) -> Result<(), ScanFault> {
        match self.next_key() {
            Some(key) => {
                take_at(&mut self.first, key, alloc, reader, ids)?;
                keep_each(&mut self.others, key, alloc, reader, ids)
            }
            None => Ok(()),
        }
    }

    fn keep_group<R: PageReader>(
        &mut self,
        alloc: Global,
        reader: &mut R,
        ids: &mut Vec<DocId>,
    ) -> Result<(), ScanFault> {
        match self.next_key() {
            Some(key) => {
                keep_at(&mut self.first, key, alloc, reader, ids)?;
                keep_each(&mut self.others, key, alloc, reader, ids)
            }
            None => Ok(()),
        }
    }
}
