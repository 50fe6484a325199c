ghost use Rattle.std.specs.Prelude.{◌≡◌, ◌<◌, ◌≤◌, ◌^◌, ℕ, [], Contains, IfOk, OnOk, OnErr, length};
ghost use Rattle.svr_num.specs.Aggregates.{IsValue, aggregate_of};
ghost use Rattle.svr_groups.specs.Groups.{SetsValues, values_at};
ghost use Rattle.svr_groups.specs.Values.{with_value, without_value};

use crate::by_id::ById;
use std::alloc::Global;
use std::marker::Model;
use svr_edge::Memory;
use svr_num::{Aggregate, DocId};

/// For each component, by its place, and each id that has a counted row, the values of its counted rows. No list is kept of
/// an id of which no row is left.
#[derive(Drop)]
pub struct Groups {
    components: Vec<ById>,
}

impl Model for Groups {
    ghost use Rattle.svr_groups.specs.Groups.{Grouped};

    ghost Value = { Grouped };

    ghost view = { λ g. g.components.items };
}

impl Groups {
    /// Groups of so many components, without values.
    pub fn new(alloc: Global, components: u8) -> Result<Groups, Memory>
        ensures as_many { IfOk result (λ groups. length groups ≡ components) }
        ensures none { IfOk result (λ groups. (c id : ℕ) → values_at groups c id ≡ []) }
    {
        let mut groups = Vec::new(alloc);
        for _ in 0..components {
            groups.push(ById::new(alloc))?;
        }
        Ok(Groups { components: groups })
    }

    /// Adds a value to those of a component for an id.
    pub fn add(&mut self, c: u8, id: DocId, value: i64) -> Result<(), Memory>
        requires component { c < length self.old }
        requires few { length (values_at self.old c id) ≤ 2 ^ 18 }
        ensures ok { OnOk result (SetsValues self.old self.new c id (with_value value (values_at self.old c id))) }
        ensures err { OnErr result (self.new ≡ self.old) }
    {
        self.components[c as usize].add(id, value)
    }

    /// Takes one of the equal values of a component for an id out.
    pub fn remove(&mut self, c: u8, id: DocId, value: i64)
        requires component { c < length self.old }
        requires there { Contains (values_at self.old c id) value }
        ensures { SetsValues self.old self.new c id (without_value value (values_at self.old c id)) }
    {
        self.components[c as usize].remove(id, value);
    }

    /// The one number that is made of the values of a component for an id.
    pub fn value(&self, c: u8, id: DocId, how: Aggregate, empty: i64) -> i128
        requires { c < length self.now }
        ensures value { result ≡ aggregate_of how empty (values_at self.now c id) }
        ensures within { IsValue result }
    {
        self.components[c as usize].value(id, how, empty)
    }
}
