ghost use Rattle.std.specs.Prelude.{◌≡◌, [], IfOk, OnOk, OnErr, IsSome, Some, None, length, option_copied, option_map};
ghost use Rattle.std.specs.BTreeMap.{insert_entry, is_at};
ghost use Rattle.std.specs.Map.{remove_entry, set_value};
ghost use Rattle.std.specs.Ordering.{nat_cmp};
ghost use Rattle.svr_idmap.specs.Ids.{Ascends, SetsValue, entry_after, value_at};
ghost use Rattle.svr_idmap.specs.Layout.{behind};

use crate::dense::Dense;
use std::alloc::Global;
use std::collections::BTreeMap;
use std::marker::Model;
use std::mem;
use std::ops::Bound;
use svr_edge::Memory;
use svr_num::DocId;

/// Ids below this one are found by their place.
pub const DENSE_IDS: u64 = 262_144;

/// Values by id. Those of ids below `DENSE_IDS` stand in one vector, at the place of their id, and are found at once; the vector
/// ends with the greatest such id that ever had a value. All others stand in a map in their order. So whatever ids are
/// chosen, a look-up costs a search in such a map at most. Contracts see the ids with their values, in ascending order of id.
#[derive(Drop)]
pub struct IdMap<V> {
    dense: Dense<V>,
    sparse: BTreeMap<DocId, V>,
}

impl<V> Model for IdMap<V> {
    ghost use Rattle.std.specs.Prelude.{List, ℕ, ◌++◌};
    ghost use Rattle.std.specs.Coded.{coded_list, coded×, coded_ℕ};
    ghost use Rattle.svr_idmap.specs.Layout.{AreParted};

    ghost Value = { List (ℕ × V) };

    ghost coded = { coded_list (coded× coded_ℕ V.code) };

    ghost view = { λ m. m.dense ++ m.sparse.entries };

    ghost invariant = { λ m. AreParted m.dense m.sparse.entries };
}

/// Puts a value in the place of the one at an id, and answers that.
fn replace_in<V: Drop>(values: &mut BTreeMap<DocId, V>, id: DocId, value: V) -> V
    requires { IsSome (value_at values.old.entries id) }
    ensures changed { values.new.entries ≡ set_value (is_at (nat_cmp id)) values.old.entries value }
    ensures before { Some result ≡ value_at values.old.entries id }
{
    match values.get_mut(&id) {
        Some(slot) => mem::replace(slot, value),
        None => value,
    }
}

/// Where the ids above one begin, or all.
fn behind(after: Option<DocId>) -> Bound<DocId>
    ensures { result ≡ behind after }
{
    match after {
        Some(id) => Bound::Excluded(id),
        None => Bound::Unbounded,
    }
}

/// The first value of a map above an id, or of all, with its id.
fn next_in<V>(values: &BTreeMap<DocId, V>, after: Option<DocId>) -> Option<(DocId, &V)>
    ensures { option_map (λ e. (e.0, e.1.now)) result ≡ entry_after values.now.entries after }
{
    match values.range((behind(after), Bound::Unbounded)).next() {
        Some((id, value)) => Some((*id, value)),
        None => None,
    }
}

impl<V: Drop> IdMap<V> {
    /// No values.
    pub fn new(alloc: Global) -> IdMap<V>
        ensures { result ≡ [] }
    {
        IdMap {
            dense: Dense::new(alloc),
            sparse: BTreeMap::new(alloc),
        }
    }

    /// How many ids have a value.
    pub fn len(&self) -> usize
        ensures { result ≡ length self.now }
    {
        self.dense.len() + self.sparse.len()
    }

    /// The value of an id, if it has one.
    pub fn get(&self, id: DocId) -> Option<&V>
        ensures { option_copied result ≡ value_at self.now id }
    {
        if id < DENSE_IDS {
            self.dense.get(id as usize)
        } else {
            self.sparse.get(&id)
        }
    }

    /// The value of the least id above the given one, or of all, with its id. To go from `None` on by each id that was
    /// answered meets every value once, in ascending order. A call costs a search in the map of the higher ids at most, or
    /// walks over the places of lower ids without a value that lie in between: such a walk over all visits each place once.
    pub fn next(&self, after: Option<DocId>) -> Option<(DocId, &V)>
        ensures value { option_map (λ e. (e.0, e.1.now)) result ≡ entry_after self.now after }
        ensures ordered { Ascends self.now }
    {
        if let Some(found) = self.dense.next(after) {
            return Some(found);
        }
        next_in(&self.sparse, after)
    }

    /// Gives an id a value, and answers the one that it had.
    pub fn insert(&mut self, id: DocId, value: V) -> Result<Option<V>, Memory>
        ensures changed { OnOk result (self.new ≡ insert_entry nat_cmp self.old id value) }
        ensures sets { OnOk result (SetsValue self.old self.new id (Some value)) }
        ensures before { IfOk result (λ before. before ≡ value_at self.old id) }
        ensures err { OnErr result (self.new ≡ self.old) }
    {
        if id < DENSE_IDS {
            let before = self.dense.insert(id as usize, value)?;
            return Ok(before);
        }
        let before = self.sparse.insert(id, value)?;
        Ok(before)
    }

    /// Puts a value in the place of the one that an id has, and answers that. It takes no memory.
    pub fn replace(&mut self, id: DocId, value: V) -> V
        requires { IsSome (value_at self.old id) }
        ensures changed { self.new ≡ set_value (is_at (nat_cmp id)) self.old value }
        ensures sets { SetsValue self.old self.new id (Some value) }
        ensures before { Some result ≡ value_at self.old id }
    {
        if id < DENSE_IDS {
            return self.dense.replace(id as usize, value);
        }
        replace_in(&mut self.sparse, id, value)
    }

    /// Takes the value of an id out, and answers it, if it had one.
    pub fn remove(&mut self, id: DocId) -> Option<V>
        ensures changed { self.new ≡ remove_entry (is_at (nat_cmp id)) self.old }
        ensures sets { SetsValue self.old self.new id None }
        ensures before { result ≡ value_at self.old id }
    {
        if id < DENSE_IDS {
            self.dense.remove(id as usize)
        } else {
            self.sparse.remove(&id)
        }
    }
}
