//! Values at the places of their ids.
ghost use Rattle.std.specs.Prelude.{◌≡◌, ◌<◌, ◌≤◌, ◌^◌, [], IfOk, OnOk, OnErr, IsSome, None, Some, find, length, nat_le, option_copied, option_map, vec_len};
ghost use Rattle.std.specs.BTreeMap.{insert_entry, is_at};
ghost use Rattle.std.specs.Map.{remove_entry, set_value};
ghost use Rattle.std.specs.Ordering.{nat_cmp};
ghost use Rattle.svr_idmap.specs.Ids.{Ascends, SetsValue, entry_after, value_at};
ghost use Rattle.svr_idmap.specs.Layout.{KeepsEntries, count_of, entries_from, place_behind};

use std::alloc::Global;
use std::marker::Model;
use std::mem;
use svr_edge::Memory;
use svr_num::DocId;

/// Values of ids below 2^18. The vector ends with the greatest id that ever had a value.
#[derive(Drop)]
pub struct Dense<V> {
    values: Vec<Option<V>>,
    /// How many ids have a value.
    count: usize,
}

impl<V> Model for Dense<V> {
    ghost use Rattle.std.specs.Prelude.{List, ℕ};
    ghost use Rattle.std.specs.Coded.{coded_list, coded×, coded_ℕ};
    ghost use Rattle.svr_idmap.specs.Layout.{IsDense, entries_from};

    ghost Value = { List (ℕ × V) };

    ghost coded = { coded_list (coded× coded_ℕ V.code) };

    ghost view = { λ d. entries_from 0 d.values.items };

    ghost invariant = { λ d. IsDense d.values.items d.count };
}

/// Makes a vector so long that an id has a place in it.
fn make_place<V: Drop>(values: &mut Vec<Option<V>>, id: usize) -> Result<(), Memory>
    requires few { vec_len values.old ≤ 2 ^ 18 }
    requires id { id < 2 ^ 18 }
    ensures place { OnOk result (id < vec_len values.new) }
    ensures few { vec_len values.new ≤ 2 ^ 18 }
    ensures kept { KeepsEntries values.old.items values.new.items }
{
    while values.len() <= id {
        values.push(None)?;
    }
    Ok(())
}

/// 1 where there is a value, else 0.
fn count_of<V>(value: &Option<V>) -> usize
    ensures { result ≡ count_of value.now }
{
    match value {
        Some(_) => 1,
        None => 0,
    }
}

/// The first place above an id, or of all.
fn place_behind(after: Option<DocId>) -> usize
    ensures { result ≡ place_behind after }
{
    match after {
        Some(id) => id.saturating_add(1) as usize,
        None => 0,
    }
}

/// The first value at a place or above it, with its id.
fn first_from<V>(values: &[Option<V>], from: usize) -> Option<(DocId, &V)>
    ensures { option_map (λ e. (e.0, e.1.now)) result ≡ find (λ e. nat_le from e.0) (entries_from 0 values.now) }
{
    for id in from..values.len() {
        if let Some(value) = &values[id] {
            return Some((id as DocId, value));
        }
    }
    None
}

impl<V: Drop> Dense<V> {
    /// No values.
    pub fn new(alloc: Global) -> Dense<V>
        ensures { result ≡ [] }
    {
        Dense {
            values: Vec::new(alloc),
            count: 0,
        }
    }

    /// How many ids have a value.
    pub fn len(&self) -> usize
        ensures value { result ≡ length self.now }
        ensures few { result ≤ 2 ^ 18 }
    {
        self.count
    }

    /// The value of an id, if it has one.
    pub fn get(&self, id: usize) -> Option<&V>
        ensures { option_copied result ≡ value_at self.now id }
    {
        if id < self.values.len() {
            self.values[id].as_ref()
        } else {
            None
        }
    }

    /// The first value above an id, or of all, with its id. It walks over the places without a value.
    pub fn next(&self, after: Option<DocId>) -> Option<(DocId, &V)>
        ensures value { option_map (λ e. (e.0, e.1.now)) result ≡ entry_after self.now after }
        ensures ordered { Ascends self.now }
    {
        first_from(self.values.as_slice(), place_behind(after))
    }

    /// Gives an id a value, and answers the one that it had.
    pub fn insert(&mut self, id: usize, value: V) -> Result<Option<V>, Memory>
        requires { id < 2 ^ 18 }
        ensures changed { OnOk result (self.new ≡ insert_entry nat_cmp self.old id value) }
        ensures before { IfOk result (λ before. before ≡ value_at self.old id) }
        ensures err { OnErr result (self.new ≡ self.old) }
    {
        make_place(&mut self.values, id)?;
        let before = mem::replace(&mut self.values[id], Some(value));
        self.count = self.count + 1 - count_of(&before);
        Ok(before)
    }

    /// Puts a value in the place of the one that an id has, and answers that. It takes no memory.
    pub fn replace(&mut self, id: usize, value: V) -> V
        requires { IsSome (value_at self.old id) }
        ensures changed { self.new ≡ set_value (is_at (nat_cmp id)) self.old value }
        ensures before { Some result ≡ value_at self.old id }
    {
        mem::replace(&mut self.values[id], Some(value)).unwrap()
    }

    /// Takes the value of an id out, and answers it, if it had one.
    pub fn remove(&mut self, id: usize) -> Option<V>
        ensures changed { self.new ≡ remove_entry (is_at (nat_cmp id)) self.old }
        ensures sets { SetsValue self.old self.new id None }
        ensures before { result ≡ value_at self.old id }
    {
        if id >= self.values.len() {
            return None;
        }
        let before = self.values[id].take();
        self.count -= count_of(&before);
        before
    }
}
