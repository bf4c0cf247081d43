// SPDX-License-Identifier: Apache-2.0 OR MIT
//! What is kept of one paper.
ghost use Rattle.std.specs.Prelude.{◌≡◌, ◌≤◌, ◌<◌, ◌+◌, ◌++◌, ◌∷◌, [], OnOk, length, set, insert, remove, slice_get};
ghost use Rattle.std.specs.Option.{option_copied, IfSome};
ghost use Rattle.cr_base.specs.Steps.{Takes, TakesAtMost};

use cr_base::Steps;
use std::alloc::{AllocError, Global};
use std::marker::Model;
use std::sync::ledger::Ledger;

/// The values of one paper, in their order.
///
/// # Model
///
/// Them, and for how many more there is room.
#[derive(Drop)]
pub struct Drawer<V> {
    values: Vec<V>,
}

impl<V> Model for Drawer<V> {
    ghost use Rattle.std.specs.Prelude.{◌-◌, vec_len, vec_capacity};
    ghost use Rattle.cr_kept.specs.Seen.{SeenDrawer};

    ghost Value = { SeenDrawer V };

    ghost view = { λ d. record { values = d.values.items; room = vec_capacity d.values - vec_len d.values } };
}

impl<V: Drop> Drawer<V> {
    /// Creates one without values.
    ///
    /// # Cost
    ///
    /// Takes no memory.
    pub fn new(alloc: Global) -> Drawer<V>
        ensures { result.values ≡ [] }
    {
        Drawer {
            values: Vec::new(alloc),
        }
    }

    /// Returns how many there are.
    ///
    /// # Cost
    ///
    /// Reads none.
    pub fn count(&self) -> usize
        ensures { result ≡ length self.now.values }
    {
        self.values.len()
    }

    /// Returns the values, to be read: a step for each.
    ///
    /// # Cost
    ///
    /// Takes no memory.
    pub fn values<L: Ledger>(&self, steps: &mut Steps<L>) -> &[V]
        ensures values { result.now ≡ self.now.values }
        ensures steps { Takes (length self.now.values) steps.old steps.new }
    {
        steps.ticks(self.values.len() as u64);
        &self.values
    }

    /// Returns the value at an index, and none past the last.
    ///
    /// # Cost
    ///
    /// A step where there is one.
    pub fn get<L: Ledger>(&self, index: usize, steps: &mut Steps<L>) -> Option<&V>
        ensures value { option_copied result ≡ slice_get self.now.values index }
        ensures steps { TakesAtMost 1 steps.old steps.new }
        ensures told { IfSome result (λ value. Takes 1 steps.old steps.new) }
    {
        let value = self.values.get(index)?;
        steps.ticks(1);
        Some(value)
    }

    /// Takes the memory for so many more values, if it is taken for at least as many more as there are. The values
    /// don't change.
    ///
    /// # Errors
    ///
    /// If memory runs out.
    pub fn room(&mut self, count: usize) -> Result<(), AllocError>
        ensures ok { OnOk result (count ≤ self.new.room) }
        ensures same { self.new.values ≡ self.old.values }
        ensures keeps { self.old.room ≤ self.new.room }
    {
        self.values.reserve(count)
    }

    /// Adds a value, for which there is room, after the others.
    ///
    /// # Cost
    ///
    /// Takes no memory.
    pub fn push(&mut self, value: V)
        requires { 0 < self.old.room }
        ensures values { self.new.values ≡ self.old.values ++ value ∷ [] }
        ensures room { self.old.room ≤ self.new.room + 1 }
    {
        self.values.push_reserved(value);
    }

    /// Replaces the value at an index.
    pub fn set(&mut self, index: usize, value: V)
        requires { index < length self.old.values }
        ensures values { self.new.values ≡ set self.old.values index value }
        ensures room { self.old.room ≤ self.new.room }
    {
        self.values[index] = value;
    }

    /// Inserts a value, for which there is room, at an index: those from there on move.
    ///
    /// # Cost
    ///
    /// Takes no memory.
    pub fn insert(&mut self, index: usize, value: V)
        requires index { index ≤ length self.old.values }
        requires room { 0 < self.old.room }
        ensures values { self.new.values ≡ insert self.old.values index value }
        ensures room { self.old.room ≤ self.new.room + 1 }
    {
        match self.values.insert(index, value) {
            Ok(()) => {}
            Err(_) => unreachable!(),
        }
    }

    /// Removes the value at an index: those after it move up.
    pub fn remove(&mut self, index: usize)
        requires { index < length self.old.values }
        ensures values { self.new.values ≡ remove self.old.values index }
        ensures room { self.old.room ≤ self.new.room }
    {
        self.values.remove(index);
    }
}
