//! The values of one component.
ghost use Rattle.std.specs.Prelude.{◌≡◌, ◌≤◌, ◌^◌, [], Contains, OnOk, OnErr, length};
ghost use Rattle.svr_num.specs.Aggregates.{IsValue, aggregate_of};
ghost use Rattle.svr_groups.specs.Groups.{values_of_id};
ghost use Rattle.svr_groups.specs.Values.{with_value, without_value};
ghost use Rattle.svr_groups.specs.Layout.{SetsValuesOf};

use crate::group::Group;
use std::alloc::Global;
use std::marker::Model;
use svr_edge::Memory;
use svr_idmap::IdMap;
use svr_num::{Aggregate, DocId};

/// For each id that has a value its values. Contracts see the ids with their values, in ascending order of id.
#[derive(Drop)]
pub struct ById {
    alloc: Global,
    groups: IdMap<Group>,
}

impl Model for ById {
    ghost use Rattle.std.specs.Prelude.{List, ℕ, ℤ};
    ghost use Rattle.svr_groups.specs.Layout.{HasValues};

    ghost Value = { List (ℕ × List ℤ) };

    ghost view = { λ b. b.groups };

    ghost invariant = { λ b. HasValues b.groups };
}

impl ById {
    /// No values.
    pub fn new(alloc: Global) -> ById
        ensures { result ≡ [] }
    {
        ById {
            alloc,
            groups: IdMap::new(alloc),
        }
    }

    /// Adds a value to those of an id.
    pub fn add(&mut self, id: DocId, value: i64) -> Result<(), Memory>
        requires { length (values_of_id self.old id) ≤ 2 ^ 18 }
        ensures ok { OnOk result (SetsValuesOf self.old self.new id (with_value value (values_of_id self.old id))) }
        ensures err { OnErr result (self.new ≡ self.old) }
    {
        if self.groups.get(id).is_none() {
            return self.begin(id, value);
        }
        let mut group = self.groups.replace(id, Group::empty(self.alloc));
        let added = group.add(value);
        self.groups.replace(id, group);
        added
    }

    /// Adds the first value of an id.
    fn begin(&mut self, id: DocId, value: i64) -> Result<(), Memory>
        requires { values_of_id self.old id ≡ [] }
        ensures ok { OnOk result (SetsValuesOf self.old self.new id (with_value value [])) }
        ensures err { OnErr result (self.new ≡ self.old) }
    {
        let group = Group::of(self.alloc, value)?;
        self.groups.insert(id, group)?;
        Ok(())
    }

    /// Takes one of the equal values of an id out.
    pub fn remove(&mut self, id: DocId, value: i64)
        requires { Contains (values_of_id self.old id) value }
        ensures { SetsValuesOf self.old self.new id (without_value value (values_of_id self.old id)) }
    {
        let mut group = self.groups.replace(id, Group::empty(self.alloc));
        group.remove(value);
        if group.is_empty() {
            self.groups.remove(id);
        } else {
            self.groups.replace(id, group);
        }
    }

    /// The one number that is made of the values of an id.
    pub fn value(&self, id: DocId, how: Aggregate, empty: i64) -> i128
        ensures value { result ≡ aggregate_of how empty (values_of_id self.now id) }
        ensures within { IsValue result }
    {
        match self.groups.get(id) {
            Some(group) => group.value(how, empty),
            None => none_value(how, empty),
        }
    }
}

/// What is made of no values.
#[tactic(auto, unfolding(svr_num::specs::Aggregates::aggregate_of, svr_num::specs::Aggregates::sum_of))]
fn none_value(how: Aggregate, empty: i64) -> i128
    ensures value { result ≡ aggregate_of how empty [] }
    ensures within { IsValue result }
{
    match how {
        Aggregate::Sum | Aggregate::Count => 0,
        Aggregate::Min | Aggregate::Max | Aggregate::Avg => i128::from(empty),
    }
}
