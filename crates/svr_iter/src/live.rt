ghost use Rattle.std.specs.Prelude.{◌≡◌, ◌<◌, ◌^◌, ◌∷◌, [], ℕ, List, OnOk, None, Some, if◌then◌else◌};
ghost use Rattle.svr_postpage.specs.declared.page_ref.PageRef.{PageRef};
ghost use Rattle.svr_iter.specs.Asked.{Asks};
ghost use Rattle.svr_listing.specs.Joined.{term_groups};
ghost use Rattle.svr_listing.specs.Listing.{Listing};
ghost use Rattle.svr_postpage.specs.declared.pair.Pair.{Pair};
ghost use Rattle.svr_iter.specs.Effective.{Tells};
ghost use Rattle.svr_iter.specs.Keys.{greatest};
ghost use Rattle.svr_iter.specs.Layout.{IsUpTo, TakesAt, is_next};
ghost use Rattle.svr_iter.specs.LiveLaws.{live-gone, live-lawful};
ghost use Rattle.svr_iter.specs.Marks.{every, is_listed, live_groups, next_add};
ghost use Rattle.svr_iter.specs.Reader.{KeepsReader};

use crate::fault::ScanFault;
use crate::keys::greater_key;
use crate::live_ids::{keep_live, take_live};
use crate::marks::Marked;
use crate::postings::Postings;
use crate::sources::{KeySource, LongSource, ShortSource};
use std::alloc::Global;
use svr_edge::Text;
use svr_num::DocId;
use svr_postpage::PageReader;

/// The key that was taken last from the short lists, after a key was taken.
fn last_short(before: Option<u64>, short: Option<u64>, key: u64) -> Option<u64>
    ensures { result ≡ (if is_next key short then Some key else before) }
{
    if short == Some(key) { short } else { before }
}

/// Takes the posted group of a key, if that is the next one; its ids, or none.
fn take_posted<L: LongSource, R: PageReader>(
    long: &mut L,
    key: u64,
    alloc: Global,
    reader: &mut R,
    ids: &mut Vec<DocId>,
) -> Result<(), ScanFault>
    requires up_to { IsUpTo key (L.next long.old) }
    requires fits { key < 2 ^ 48 }
    requires ready { R.ready reader.old }
    ensures takes { OnOk result (TakesAt L.groups L.next (λ _. every) L.pages (R.told reader.old) key long.old long.new ids.new.items) }
    ensures asks { Asks R.gives R.fails (L.pages long.old key) reader.old reader.new result }
    ensures reader { KeepsReader R.told R.ready R.faults reader.old reader.new result }
{
    if long.next_key() == Some(key) {
        long.take_group(alloc, reader, ids)
    } else {
        ids.clear();
        Ok(())
    }
}

/// The ids that stand under one term, key by key.
#[derive(Drop)]
pub struct Live<'a, L, S, K> {
    term: &'a Text,
    long: L,
    short: &'a S,
    keys: &'a K,
    /// The key that was taken last from the short lists.
    below: Option<u64>,
    posted: Vec<DocId>,
    marks: Vec<Marked>,
}

impl<'a, L: LongSource + Drop, S: ShortSource, K: KeySource> Live<'a, L, S, K> {
    /// The groups of a term, from its posted pairs and its marks, with the entries of documents. Where these tell of a
    /// listing, they are the groups of the term there.
    pub fn new(
        alloc: Global,
        term: &'a Text,
        long: L,
        short: &'a S,
        keys: &'a K,
    ) -> Live<'a, L, S, K>
        ensures groups { (bytes : List ℕ) → ⟦<Live<'a, L, S, K> as Postings>⟧.groups result bytes
            ≡ live_groups (K.entry keys.now) (S.marks short.now term.now) None (L.groups long bytes) }
        ensures next { ⟦<Live<'a, L, S, K> as Postings>⟧.next result
            ≡ greatest (L.next long ∷ next_add None (S.marks short.now term.now) ∷ []) }
        ensures may { ⟦<Live<'a, L, S, K> as Postings>⟧.may result ≡ is_listed (K.entry keys.now) }
        ensures pages { ⟦<Live<'a, L, S, K> as Postings>⟧.pages result ≡ L.pages long }
        ensures listing { (l : Listing) (read : PageRef → List Pair) (bytes : List ℕ)
            → Tells l term.now read (K.entry keys.now) (S.marks short.now term.now) (L.groups long bytes)
            → ⟦<Live<'a, L, S, K> as Postings>⟧.groups result bytes ≡ term_groups read l term.now }
    {
        Live {
            term,
            long,
            short,
            keys,
            below: None,
            posted: Vec::new(alloc),
            marks: Vec::new(alloc),
        }
    }
}

impl<'a, L: LongSource + Drop, S: ShortSource, K: KeySource> Postings for Live<'a, L, S, K> {
    ghost groups = { λ s bytes. live_groups (K.entry s.keys.now) (S.marks s.short.now s.term.now) s.below (L.groups s.long bytes) };

    ghost next = { λ s. greatest (L.next s.long ∷ next_add s.below (S.marks s.short.now s.term.now) ∷ []) };

    ghost may = { λ s. is_listed (K.entry s.keys.now) };

    ghost pages = { λ s. L.pages s.long };

    ghost lawful = { λ s bytes. live-lawful (K.entry s.keys.now) (S.marks s.short.now s.term.now) s.below (L.next s.long)
        (L.groups s.long bytes) (S.lawful s.short.now s.term.now) (L.lawful s.long bytes) };

    ghost gone = { λ s. live-gone (L.next s.long) (L.pages s.long) (next_add s.below (S.marks s.short.now s.term.now)) (L.gone s.long) };

    fn next_key(&self) -> Option<u64> {
        greater_key(
            self.long.next_key(),
            self.short.next_key(self.term, self.below),
        )
    }

    fn take_group<R: PageReader>(
        &mut self,
        alloc: Global,
        reader: &mut R,
        ids: &mut Vec<DocId>,
    ) -> Result<(), ScanFault> {
        let short = self.short.next_key(self.term, self.below);
        let key = match greater_key(self.long.next_key(), short) {
            Some(key) => key,
            None => return Ok(()),
        };
        take_posted(&mut self.long, key, alloc, reader, &mut self.posted)?;
        self.short.at_key(self.term, key, &mut self.marks)?;
        take_live(self.keys, key, &self.posted, &self.marks, ids)?;
        self.below = last_short(self.below, short, key);
        Ok(())
    }

    fn keep_group<R: PageReader>(
        &mut self,
        alloc: Global,
        reader: &mut R,
        ids: &mut Vec<DocId>,
    ) -> Result<(), ScanFault> {
        let short = self.short.next_key(self.term, self.below);
        let key = match greater_key(self.long.next_key(), short) {
            Some(key) => key,
            None => return Ok(()),
        };
        take_posted(&mut self.long, key, alloc, reader, &mut self.posted)?;
        self.short.at_key(self.term, key, &mut self.marks)?;
        keep_live(self.keys, key, &self.posted, &self.marks, ids);
        self.below = last_short(self.below, short, key);
        Ok(())
    }
}
