//! The values of one component for one id.
ghost use Rattle.std.specs.Prelude.{◌≡◌, ◌≤◌, ◌^◌, ◌↔◌, [], ◌∷◌, Contains, IfOk, IsTrue, OnOk, OnErr, length};
ghost use Rattle.svr_num.specs.Aggregates.{IsValue, aggregate_of};
ghost use Rattle.svr_groups.specs.Values.{with_value, without_value};
ghost use Rattle.svr_groups.specs.Layout.{IsPlaceOf};

use std::alloc::Global;
use std::marker::Model;
use svr_edge::Memory;
use svr_num::{Aggregate, floor_div};

/// Values in ascending order, with their sum. Contracts see the list of the values.
#[derive(Drop)]
pub struct Group {
    values: Vec<i64>,
    sum: i128,
}

impl Model for Group {
    ghost use Rattle.std.specs.Prelude.{List, ℤ};
    ghost use Rattle.svr_groups.specs.Layout.{IsGroup};

    ghost Value = { List ℤ };

    ghost view = { λ g. g.values.items };

    ghost invariant = { λ g. IsGroup g.sum g.values.items };
}

impl Group {
    /// A group of one value.
    pub fn of(alloc: Global, value: i64) -> Result<Group, Memory>
        ensures { IfOk result (λ group. group ≡ value ∷ []) }
    {
        let mut values = Vec::new(alloc);
        values.push(value)?;
        Ok(Group {
            values,
            sum: i128::from(value),
        })
    }

    /// A group of no values. It takes no memory.
    pub fn empty(alloc: Global) -> Group
        ensures { result ≡ [] }
    {
        Group {
            values: Vec::new(alloc),
            sum: 0,
        }
    }

    /// Whether no value is left.
    pub fn is_empty(&self) -> bool
        ensures { IsTrue result ↔ (self.now ≡ []) }
    {
        self.values.is_empty()
    }

    /// The place of the first value that isn't less.
    fn place(&self, value: i64) -> usize
        ensures { IsPlaceOf value self.now result }
    {
        self.values.partition_point(|other| *other < value)
    }

    /// Adds a value at its place.
    pub fn add(&mut self, value: i64) -> Result<(), Memory>
        requires { length self.old ≤ 2 ^ 18 }
        ensures ok { OnOk result (self.new ≡ with_value value self.old) }
        ensures err { OnErr result (self.new ≡ self.old) }
    {
        let place = self.place(value);
        self.values.insert(place, value)?;
        self.sum += i128::from(value);
        Ok(())
    }

    /// Takes out one of the values that are equal to this one.
    pub fn remove(&mut self, value: i64)
        requires { Contains self.old value }
        ensures { self.new ≡ without_value value self.old }
    {
        let place = self.place(value);
        self.values.remove(place);
        self.sum -= i128::from(value);
    }

    /// The one number that is made of the values.
    pub fn value(&self, how: Aggregate, empty: i64) -> i128
        ensures value { result ≡ aggregate_of how empty self.now }
        ensures within { IsValue result }
    {
        match how {
            Aggregate::Sum => self.sum,
            Aggregate::Count => self.values.len() as i128,
            Aggregate::Min => i128::from(self.least(empty)),
            Aggregate::Max => i128::from(self.greatest(empty)),
            Aggregate::Avg => self.average(empty),
        }
    }

    fn least(&self, empty: i64) -> i64
        ensures { result ≡ aggregate_of Aggregate.Min empty self.now }
    {
        self.values.first().copied().unwrap_or(empty)
    }

    fn greatest(&self, empty: i64) -> i64
        ensures { result ≡ aggregate_of Aggregate.Max empty self.now }
    {
        self.values.last().copied().unwrap_or(empty)
    }

    /// The sum over the number of values, rounded down.
    fn average(&self, empty: i64) -> i128
        ensures { result ≡ aggregate_of Aggregate.Avg empty self.now }
    {
        if self.values.is_empty() {
            return i128::from(empty);
        }
        floor_div(self.sum, self.values.len() as i128)
    }
}
