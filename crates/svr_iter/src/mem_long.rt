ghost use Rattle.std.specs.Prelude.{◌≡◌, ◌≤◌, ◌<◌, ◌∷◌, ℕ, List, IfOk, Some, [], drop, length, refl, true};
ghost use Rattle.svr_listing.specs.Groups.{first_key};
ghost use Rattle.std.specs.List.{list_all};
ghost use Rattle.svr_postpage.specs.Pairs.{are_in_order, is_in_range};
ghost use Rattle.svr_iter.specs.MemPairs.{grouped, grouped-lawful};

use crate::fault::ScanFault;
use crate::sources::LongSource;
use std::alloc::Global;
use svr_edge::Memory;
use svr_num::DocId;
use svr_postpage::{PageReader, Pair};

/// Leaves in `ids` the ids of the pairs from a place on that have the same key; the place behind them.
fn take_run(pairs: &[Pair], from: usize, key: u64, ids: &mut Vec<DocId>) -> Result<usize, Memory>
    requires from { from < length pairs.now }
    requires key { first_key (grouped (drop from pairs.now)) ≡ Some key }
    ensures within { IfOk result (λ end. end ≤ length pairs.now) }
    ensures run { IfOk result (λ end. grouped (drop from pairs.now) ≡ record { key = key; ids = ids.new.items } ∷ grouped (drop end pairs.now)) }
{
    ids.clear();
    let mut at = from;
    while at < pairs.len() && pairs[at].key == key {
        ids.push(pairs[at].id)?;
        at += 1;
    }
    Ok(at)
}

/// Posted pairs in memory. It asks for no page.
#[derive(Drop)]
pub struct MemLong<'a> {
    pairs: &'a [Pair],
    at: usize,
    ghost in_range: { list_all is_in_range pairs.now ≡ true },
    ghost in_order: { are_in_order pairs.now ≡ true },
}

impl<'a> MemLong<'a> {
    pub fn new(pairs: &'a [Pair]) -> MemLong<'a>
        requires in_range { list_all is_in_range pairs.now ≡ true }
        requires in_order { are_in_order pairs.now ≡ true }
        ensures groups { (bytes : List ℕ) → ⟦<MemLong<'a> as LongSource>⟧.groups result bytes ≡ grouped pairs.now }
        ensures pages { (key : ℕ) → ⟦<MemLong<'a> as LongSource>⟧.pages result key ≡ [] }
    {
        MemLong { pairs, at: 0 }
    }
}

impl<'a> LongSource for MemLong<'a> {
    ghost groups = { λ m _. grouped (drop m.at m.pairs.now) };

    ghost next = { λ m. first_key (grouped (drop m.at m.pairs.now)) };

    ghost pages = { λ _ _. [] };

    ghost lawful = { λ m _. grouped-lawful m.at m.pairs.now m.in_range m.in_order };

    ghost gone = { λ _ _ _. refl };

    fn next_key(&self) -> Option<u64> {
        if self.at < self.pairs.len() {
            Some(self.pairs[self.at].key)
        } else {
            None
        }
    }

    fn take_group<R: PageReader>(
        &mut self,
        alloc: Global,
        _reader: &mut R,
        ids: &mut Vec<DocId>,
    ) -> Result<(), ScanFault> {
        let key = self.pairs[self.at].key;
        match take_run(self.pairs, self.at, key, ids) {
            Ok(end) => {
                self.at = end;
                Ok(())
            }
            Err(_) => Err(ScanFault::Memory),
        }
    }
}
