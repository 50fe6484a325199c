ghost use Rattle.std.specs.Prelude.{◌≡◌, ◌<◌, ◌^◌, ◌+◌, ℕ, List, IfOk, IsSome, None, OnErr, OnOk, Some, IfSome, IsTrue, false, length};
ghost use Rattle.std.specs.Prelude.{find, option_map};
ghost use Rattle.std.specs.BTreeMap.{get, is_at};
ghost use Rattle.std.specs.BTreeSet.{contains};
ghost use Rattle.svr_short.specs.declared.place.Place.{Place};
ghost use Rattle.svr_short.specs.Layout as spec;
ghost use Rattle.svr_short.specs.Layout.{IsAlone, IsTurned, SetsAdd, SetsHolding, SetsMark, any_add, holding_cmp, turned_at};
ghost use Rattle.svr_short.specs.Short.{HasMarks, IsNextTerm, KeepsOthers, StandsAt, adds_at, edited_at, lacks};
ghost use Rattle.svr_short.specs.Short.{mark_at, mark_in, marks_of, number_of, place_cmp, under_number};
ghost use Rattle.svr_iter.specs.Marks.{next_add};
ghost use Rattle.svr_tokens.specs.Tokens.{has_term};

use crate::place::{Holding, Place};
use std::alloc::Global;
use std::collections::btree_map::Range;
use std::collections::{BTreeMap, BTreeSet};
use std::marker::Model;
use std::ops::Bound;
use std::sync::ledger::Ledger;
use svr_edge::{Memory, Text};
use svr_iter::{Mark, Marked, ShortSource};
use svr_num::DocId;
use svr_steps::Steps;
use svr_tokens::Tokens;

/// The marks of documents under terms.
#[derive(Drop)]
pub struct ShortLists {
    numbers: BTreeMap<Text, u64>,
    marks: BTreeMap<Place, Mark>,
    adds: BTreeSet<Place>,
    held: BTreeMap<Holding, u64>,
}

impl Model for ShortLists {
    ghost use Rattle.svr_short.specs.Short.{Lists};

    ghost Value = { Lists };

    ghost use Rattle.std.specs.Prelude.{length};
    ghost use Rattle.std.specs.BTreeMap.{get};
    ghost use Rattle.std.specs.BTreeSet.{contains};
    ghost use Rattle.std.specs.Cmp.Lexicographic.{slice_cmp};
    ghost use Rattle.std.specs.Ordering.{nat_cmp};
    ghost use Rattle.svr_short.specs.Layout.{AreMarked, AreNumbers, holding_cmp};
    ghost use Rattle.svr_short.specs.Short.{place_cmp};

    ghost view = { λ s. record { numbers = s.numbers.entries; marks = s.marks.entries } };

    ghost invariant = { λ s. AreNumbers (length s.numbers.entries) (get (slice_cmp nat_cmp) s.numbers)
        × AreMarked (length s.numbers.entries) (get place_cmp s.marks) (contains place_cmp s.adds) (get holding_cmp s.held) };
}

/// That the document of a place has a mark under its term.
fn holding_of(place: Place) -> Holding
    ensures { result ≡ spec.holding_of place }
{
    Holding {
        id: place.id,
        term: place.term,
    }
}

/// Puts a mark's place beside the marks.
fn put_beside(
    adds: &mut BTreeSet<Place>,
    held: &mut BTreeMap<Holding, u64>,
    place: Place,
    mark: Mark,
) -> Result<(), Memory>
    ensures adds { OnOk result (SetsAdd (contains place_cmp adds.old) (contains place_cmp adds.new) place (Some mark)) }
    ensures held { OnOk result (SetsHolding (get holding_cmp held.old) (get holding_cmp held.new) place (Some mark)) }
    ensures other_adds { (q : Place) → is_at (place_cmp place) q ≡ false → contains place_cmp adds.new q ≡ contains place_cmp adds.old q }
    ensures others_held { OnErr result (held.new.entries ≡ held.old.entries) }
{
    put_add(adds, place, mark)?;
    held.insert(holding_of(place), place.key)?;
    Ok(())
}

/// Puts the place of an Add among others, or takes that of a Rem away.
fn put_add(adds: &mut BTreeSet<Place>, place: Place, mark: Mark) -> Result<(), Memory>
    ensures adds { OnOk result (SetsAdd (contains place_cmp adds.old) (contains place_cmp adds.new) place (Some mark)) }
    ensures others { (q : Place) → is_at (place_cmp place) q ≡ false → contains place_cmp adds.new q ≡ contains place_cmp adds.old q }
{
    match mark {
        Mark::Rem => {
            adds.remove(&place);
        }
        Mark::Add => {
            adds.insert(place)?;
        }
    }
    Ok(())
}

impl ShortLists {
    /// No marks.
    pub fn new(alloc: Global) -> ShortLists
        ensures { (term : List ℕ) (key id : ℕ) → mark_in result term key id ≡ None }
    {
        ShortLists {
            numbers: BTreeMap::new(alloc),
            marks: BTreeMap::new(alloc),
            adds: BTreeSet::new(alloc),
            held: BTreeMap::new(alloc),
        }
    }

    /// The number of a term, which is given one where it has none.
    fn number(&mut self, alloc: Global, term: &Text) -> Result<u64, Memory>
        ensures given { IfOk result (λ n. number_of self.new.numbers term.now ≡ Some n) }
        ensures below { IfOk result (λ n. n < length self.new.numbers) }
        ensures marks { self.new.marks ≡ self.old.marks }
        ensures stays { (t : List ℕ) (key id : ℕ) → mark_in self.new t key id ≡ mark_in self.old t key id }
    {
        if let Some(number) = self.numbers.get(term) {
            return Ok(*number);
        }
        let number = self.numbers.len() as u64;
        self.numbers.insert(term.copy(alloc)?, number)?;
        Ok(number)
    }

    /// Gives a document a mark, in place of the one that it had there.
    fn set(&mut self, place: Place, mark: Mark) -> Result<(), Memory>
        requires term { place.term < length self.old.numbers }
        requires key { place.key < 2 ^ 48 }
        requires id { place.id < 2 ^ 63 }
        requires alone { IsAlone (mark_at self.old.marks) place }
        ensures numbers { self.new.numbers ≡ self.old.numbers }
        ensures marks { OnOk result (SetsMark (mark_at self.old.marks) (mark_at self.new.marks) place (Some mark)) }
    {
        self.marks.insert(place, mark)?;
        match put_beside(&mut self.adds, &mut self.held, place, mark) {
            Ok(()) => Ok(()),
            Err(memory) => {
                self.marks.remove(&place);
                self.adds.remove(&place);
                self.held.remove(&holding_of(place));
                Err(memory)
            }
        }
    }

    /// Takes a mark away.
    fn take(&mut self, place: Place)
        ensures numbers { self.new.numbers ≡ self.old.numbers }
        ensures marks { SetsMark (mark_at self.old.marks) (mark_at self.new.marks) place None }
        ensures fewer { IsSome (mark_at self.old.marks place) → length self.new.marks + 1 ≡ length self.old.marks }
    {
        if self.marks.remove(&place).is_some() {
            self.adds.remove(&place);
            self.held.remove(&holding_of(place));
        }
    }

    /// The place of one of a document's marks.
    fn first_of(&self, id: DocId) -> Option<Place>
        ensures found { IfSome result (λ p. (p.id ≡ id) × IsSome (mark_at self.now.marks p)) }
        ensures none { result ≡ None → (p : Place) → p.id ≡ id → mark_at self.now.marks p ≡ None }
    {
        let start = Holding { id, term: 0 };
        let end = Holding {
            id,
            term: self.numbers.len() as u64,
        };
        match self.held.range(start..=end).next() {
            Some((holding, key)) => Some(Place {
                term: holding.term,
                key: *key,
                id: holding.id,
            }),
            None => None,
        }
    }

    /// Whether there is an Add under the term with this number.
    fn has_add(&self, term: u64) -> bool
        ensures { result ≡ any_add self.now.marks term }
    {
        let start = Place {
            term,
            key: 0,
            id: 0,
        };
        let end = Place {
            term,
            key: u64::MAX,
            id: u64::MAX,
        };
        self.adds.range(start..=end).next().is_some()
    }

    /// The first of these terms under whose number there is an Add.
    fn first_added<'a>(&'a self, terms: Range<'a, Text, u64>) -> Option<&'a Text>
        ensures { option_map (λ t. t.now) result ≡ option_map (λ e. e.0) (find (λ e. any_add self.now.marks e.1) terms.entry) }
    {
        for (term, number) in terms {
            if self.has_add(*number) {
                return Some(term);
            }
        }
        None
    }

    /// The first term after the given one, or of all, that has an Add.
    pub fn next_term(&self, after: Option<&Text>) -> Option<&Text>
        ensures { IsNextTerm self.now (option_map (λ t. t.now) after.entry) (option_map (λ t. t.now) result) }
    {
        match after {
            Some(term) => self.first_added(
                self.numbers
                    .range((Bound::Excluded(term), Bound::Unbounded)),
            ),
            None => self.first_added(self.numbers.range(..)),
        }
    }

    /// The greatest key, below the given one if any, at which there is an Add under the term with this number.
    fn last_key(&self, term: u64, below: Option<u64>) -> Option<u64>
        ensures { result ≡ next_add below (under_number self.now.marks (Some term)) }
    {
        let start = Place {
            term,
            key: 0,
            id: 0,
        };
        match below {
            Some(key) => {
                let end = Place { term, key, id: 0 };
                self.adds
                    .range(start..end)
                    .next_back()
                    .map(|place| place.key)
            }
            None => {
                let end = Place {
                    term,
                    key: u64::MAX,
                    id: u64::MAX,
                };
                self.adds
                    .range(start..=end)
                    .next_back()
                    .map(|place| place.key)
            }
        }
    }

    /// Takes all marks of a document away. It takes no memory.
    pub fn drop_doc<L: Ledger>(&mut self, id: DocId, _steps: &mut Steps<L>)
        ensures others { KeepsOthers self.old self.new id }
        ensures gone { HasMarks self.new id (λ _ _. None) }
    {
        while let Some(place) = self.first_of(id) {
            self.take(place);
        }
    }

    /// Gives a document a mark under a term, or takes the other one away, if it has that.
    fn turn(
        &mut self,
        alloc: Global,
        term: &Text,
        key: u64,
        id: DocId,
        mark: Mark,
    ) -> Result<(), Memory>
        requires key { key < 2 ^ 48 }
        requires id { id < 2 ^ 63 }
        requires at_key { StandsAt self.old id key }
        ensures others { OnOk result (KeepsOthers self.old self.new id) }
        ensures marks { OnOk result (HasMarks self.new id (turned_at key term.now mark (λ t at. mark_in self.old t at id))) }
    {
        let term = self.number(alloc, term)?;
        let place = Place { term, key, id };
        match self.marks.get(&place) {
            Some(before) if *before != mark => {
                self.take(place);
                Ok(())
            }
            _ => self.set(place, mark),
        }
    }

    /// Gives a document an Add under each of the terms, in place of all marks that it had. After `Memory` the lists are spent.
    pub fn place<L: Ledger>(
        &mut self,
        alloc: Global,
        id: DocId,
        key: u64,
        terms: &Tokens,
        steps: &mut Steps<L>,
    ) -> Result<(), Memory>
        requires id { id < 2 ^ 63 }
        requires key { key < 2 ^ 48 }
        ensures others { OnOk result (KeepsOthers self.old self.new id) }
        ensures marks { OnOk result (HasMarks self.new id (adds_at key (has_term terms.now))) }
    {
        self.drop_doc(id, steps);
        for i in 0..terms.len() {
            self.turn(alloc, terms.get(i), key, id, Mark::Add)?;
        }
        Ok(())
    }

    /// Marks the change of a document's terms at its key: where one comes a Rem goes away, or else an Add comes; where one goes an
    /// Add goes away, or else a Rem comes. Lists of other terms are not touched. After `Memory` the lists are spent.
    pub fn edit<L: Ledger>(
        &mut self,
        alloc: Global,
        id: DocId,
        key: u64,
        old: &Tokens,
        new: &Tokens,
        _steps: &mut Steps<L>,
    ) -> Result<(), Memory>
        requires id { id < 2 ^ 63 }
        requires key { key < 2 ^ 48 }
        requires at_key { StandsAt self.old id key }
        ensures others { OnOk result (KeepsOthers self.old self.new id) }
        ensures marks { OnOk result (HasMarks self.new id
            (edited_at key (lacks old.now new.now) (lacks new.now old.now) (λ term at. mark_in self.old term at id))) }
    {
        self.turn_new(alloc, id, key, new, old, Mark::Add)?;
        self.turn_new(alloc, id, key, old, new, Mark::Rem)?;
        Ok(())
    }

    /// Gives a document a mark under each of the terms that others lack, or takes the other one there away.
    fn turn_new(
        &mut self,
        alloc: Global,
        id: DocId,
        key: u64,
        terms: &Tokens,
        others: &Tokens,
        mark: Mark,
    ) -> Result<(), Memory>
        requires id { id < 2 ^ 63 }
        requires key { key < 2 ^ 48 }
        requires at_key { StandsAt self.old id key }
        ensures turned { OnOk result (IsTurned self.old self.new id key mark (lacks others.now terms.now)) }
        ensures stands { OnOk result (StandsAt self.new id key) }
    {
        for i in 0..terms.len() {
            let term = terms.get(i);
            if !others.has(term) {
                self.turn(alloc, term, key, id, mark)?;
            }
        }
        Ok(())
    }
}

impl ShortSource for ShortLists {
    ghost use Rattle.svr_short.specs.Laws.{marks_of-lawful};

    ghost marks = { λ lists term. marks_of lists term };

    ghost lawful = { λ lists term. marks_of-lawful lists term };

    fn next_key(&self, term: &Text, below: Option<u64>) -> Option<u64> {
        let number = *self.numbers.get(term)?;
        self.last_key(number, below)
    }

    fn at_key(&self, term: &Text, key: u64, into: &mut Vec<Marked>) -> Result<(), Memory> {
        into.clear();
        let Some(number) = self.numbers.get(term) else {
            return Ok(());
        };
        let start = Place {
            term: *number,
            key,
            id: 0,
        };
        let end = Place {
            term: *number,
            key,
            id: u64::MAX,
        };
        for (place, mark) in self.marks.range(start..=end) {
            into.push(Marked {
                id: place.id,
                mark: *mark,
            })?;
        }
        Ok(())
    }
}
