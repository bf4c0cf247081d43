// SPDX-License-Identifier: Apache-2.0 OR MIT
//! Ties of papers and users, those of each number together.
ghost use Rattle.std.specs.Prelude.{◌≡◌, ◌≤◌, ◌<◌, [], OnOk, length, slice_index, map};
ghost use Rattle.cr_base.specs.Pairs.{IsAscending, major, has_pair, tie_value, with_tie, without_pair, ties_of};
ghost use Rattle.cr_base.specs.Steps.{Takes, Halves};
ghost use Rattle.cr_rooms.specs.Rooms.{times, HasRoom, IsNoLess, IsOneLess};
ghost use Rattle.cr_pairs.specs.Rows.{ties_in, rooms_of, AreRows};

use crate::pair_map::PairMap;
use cr_base::{Order, Pair, Steps, Tie};
use std::alloc::{AllocError, Global};
use std::marker::Model;
use std::sync::ledger::Ledger;

/// A map from pairs of a paper and a user to a small value, in ascending order: by paper, then user, or by user, then
/// paper. With the value `()` it is a set of pairs. The ties of each paper, or of each user, are a row of their own,
/// found by its number; a number without ties costs the place of a row, of 32 bytes, up to the last one that has some.
///
/// # Model
///
/// The order, the ties of all rows in it, and by the number for how many more ties with it there is room.
#[derive(Drop)]
pub struct PairRows<V> {
    alloc: Global,
    order: Order,
    // By the number of the paper, or of the user; that at 0 is empty.
    rows: Vec<PairMap<V>>,
}

impl<V> Model for PairRows<V> {
    ghost use Rattle.cr_pairs.specs.Rows.{ties_in, rooms_of, AreRows};
    ghost use Rattle.cr_pairs.specs.Seen.{SeenRows};

    ghost Value = { SeenRows V };

    ghost view = { λ s. record { order = s.order; ties = ties_in s.rows.items; rooms = rooms_of s.rows.items } };

    ghost invariant = { λ s. AreRows s.order 0 s.rows.items };
}

impl<V: Copy + Drop> PairRows<V> {
    /// Creates one without ties.
    ///
    /// # Cost
    ///
    /// Takes no memory.
    pub fn new(alloc: Global, order: Order) -> PairRows<V>
        ensures order { result.order ≡ order }
        ensures ties { result.ties ≡ [] }
    {
        PairRows {
            alloc,
            order,
            rows: Vec::new(alloc),
        }
    }

    /// Returns the order.
    pub fn order(&self) -> Order
        ensures { result ≡ self.now.order }
    {
        self.order
    }

    /// Returns whether the pair is there.
    ///
    /// # Cost
    ///
    /// Its row is found by number; a step for each tie of it at which the binary search looks.
    pub fn contains<L: Ledger>(&self, pair: &Pair, steps: &mut Steps<L>) -> bool
        ensures value { result ≡ has_pair pair.now self.now.ties }
        ensures steps { Halves (length (ties_of self.now.order (major self.now.order pair.now) self.now.ties))
            steps.old steps.new }
    {
        match self.rows.get(pair.major(self.order) as usize) {
            Some(row) => row.contains(pair, steps),
            None => false,
        }
    }

    /// Returns what is kept of the pair, or `None` if it isn't there.
    ///
    /// # Cost
    ///
    /// Its row is found by number; a step for each tie of it at which the binary search looks.
    pub fn value<L: Ledger>(&self, pair: &Pair, steps: &mut Steps<L>) -> Option<V>
        ensures value { result ≡ tie_value pair.now self.now.ties }
        ensures steps { Halves (length (ties_of self.now.order (major self.now.order pair.now) self.now.ties))
            steps.old steps.new }
    {
        match self.rows.get(pair.major(self.order) as usize) {
            Some(row) => row.value(pair, steps),
            None => None,
        }
    }

    /// Returns the ties with this number, in order, to be read: a paper's in the order of their users' numbers, or a
    /// user's in that of their papers'. They are found by number; a step for each.
    ///
    /// # Cost
    ///
    /// Takes no memory.
    pub fn of<L: Ledger>(&self, number: u64, steps: &mut Steps<L>) -> &[Tie<V>]
        ensures ties { result.now ≡ ties_of self.now.order number self.now.ties }
        ensures order { IsAscending self.now.order self.now.ties }
        ensures steps { Takes (length (ties_of self.now.order number self.now.ties)) steps.old steps.new }
    {
        match self.rows.get(number as usize) {
            Some(row) => row.ties(steps),
            None => &[],
        }
    }

    /// Takes the memory for so many more ties with this number. The ties don't change. If it takes memory at all, it
    /// takes it for at least as many more as the number has, so ties that come singly cost the same each on average.
    ///
    /// # Errors
    ///
    /// If memory runs out.
    pub fn room_of(&mut self, number: u64, count: usize) -> Result<(), AllocError>
        ensures ok { OnOk result (count ≤ slice_index self.new.rooms number) }
        ensures order { self.new.order ≡ self.old.order }
        ensures same { self.new.ties ≡ self.old.ties }
        ensures keeps { IsNoLess self.old.rooms self.new.rooms }
    {
        let index = number as usize;
        fill(&mut self.rows, index, self.alloc, self.order)?;
        let row = &mut self.rows[index];
        row.room(count)
    }

    /// Takes the memory for one more tie of each of these pairs, as often as its number is there. The ties don't
    /// change.
    ///
    /// # Errors
    ///
    /// If memory runs out.
    ///
    /// # Cost
    ///
    /// Each pair is compared with those before it.
    pub fn room(&mut self, pairs: &[Pair]) -> Result<(), AllocError>
        ensures ok { OnOk result (HasRoom (map (major self.old.order) pairs.now) self.new.rooms) }
        ensures order { self.new.order ≡ self.old.order }
        ensures same { self.new.ties ≡ self.old.ties }
        ensures keeps { IsNoLess self.old.rooms self.new.rooms }
    {
        let order = self.order();
        for (i, pair) in pairs.iter().enumerate() {
            let number = pair.major(order);
            let count = times(&pairs[..=i], order, number);
            self.room_of(number, count)?;
        }
        Ok(())
    }

    /// Puts the tie in, for which there is room, in the place of the one of its pair if that is there.
    ///
    /// # Cost
    ///
    /// One read by number, a binary search in the row, and a move of the row's ties after a new one. Takes no memory.
    pub fn insert(&mut self, tie: Tie<V>)
        requires { 0 < slice_index self.old.rooms (major self.old.order tie.pair) }
        ensures order { self.new.order ≡ self.old.order }
        ensures ties { self.new.ties ≡ with_tie self.old.order tie self.old.ties }
        ensures rooms { IsOneLess (major self.old.order tie.pair) self.old.rooms self.new.rooms }
    {
        let row = &mut self.rows[tie.pair.major(self.order) as usize];
        row.insert(tie);
    }

    /// Takes the pair out; nothing changes if it wasn't there.
    ///
    /// # Cost
    ///
    /// One read by number, a binary search in the row, and a move of the row's ties after it; its room is kept.
    pub fn remove(&mut self, pair: &Pair)
        ensures order { self.new.order ≡ self.old.order }
        ensures ties { self.new.ties ≡ without_pair pair.now self.old.ties }
        ensures rooms { IsNoLess self.old.rooms self.new.rooms }
    {
        let index = pair.major(self.order) as usize;
        if index < self.rows.len() {
            let row = &mut self.rows[index];
            row.remove(pair);
        }
    }
}

/// Returns how many of these pairs have this number.
///
/// # Cost
///
/// A walk over them.
fn times(pairs: &[Pair], order: Order, number: u64) -> usize
    ensures { result ≡ times number (map (major order) pairs.now) }
{
    pairs
        .iter()
        .map(|pair| pair.major(order))
        .filter(|other| number == *other)
        .count()
}

/// Fills the rows up with empty ones, so that one is at this index.
///
/// # Errors
///
/// If memory runs out.
fn fill<V: Copy + Drop>(
    rows: &mut Vec<PairMap<V>>,
    index: usize,
    alloc: Global,
    order: Order,
) -> Result<(), AllocError>
    requires { AreRows order 0 rows.old.items }
    ensures ok { OnOk result (index < length rows.new.items) }
    ensures rows { AreRows order 0 rows.new.items }
    ensures same { ties_in rows.new.items ≡ ties_in rows.old.items }
    ensures keeps { IsNoLess (rooms_of rows.old.items) (rooms_of rows.new.items) }
{
    while rows.len() <= index {
        rows.push(PairMap::new(alloc, order))?;
    }
    Ok(())
}
