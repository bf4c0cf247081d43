// SPDX-License-Identifier: Apache-2.0 OR MIT
//! Ties of papers and users, each pair at most once, in ascending order.
ghost use Rattle.std.specs.Prelude.{◌≡◌, ◌≤◌, ◌<◌, ◌+◌, [], OnOk, MatchResult, length, slice_index_or};
ghost use Rattle.cr_base.specs.declared.pairs.Tie.{Tie};
ghost use Rattle.cr_base.specs.Pairs.{has_pair, tie_value, with_tie, without_pair};
ghost use Rattle.cr_base.specs.Steps.{Takes, Halves};
ghost use Rattle.cr_pairs.specs.BinarySearch.{IsAt, IsGapFor, pair_order};

use cr_base::{Order, Pair, Steps, Tie};
use std::alloc::{AllocError, Global};
use std::cmp::Ordering;
use std::marker::Model;
use std::sync::ledger::Ledger;

/// A map from pairs of a paper and a user to a small value, in ascending order: by paper, then user, or by user, then
/// paper. With the value `()` it is a set of pairs.
///
/// # Model
///
/// The order, the ties in it, and for how many more there is room.
#[derive(Drop)]
pub(crate) struct PairMap<V> {
    order: Order,
    ties: Vec<Tie<V>>,
}

impl<V> Model for PairMap<V> {
    ghost use Rattle.std.specs.Prelude.{◌-◌, vec_len, vec_capacity};
    ghost use Rattle.cr_base.specs.Pairs.{IsAscending};
    ghost use Rattle.cr_pairs.specs.Seen.{SeenPairs};

    ghost Value = { SeenPairs V };

    ghost view = { λ s. record { order = s.order; ties = s.ties.items; room = vec_capacity s.ties - vec_len s.ties } };

    ghost invariant = { λ s. IsAscending s.order s.ties.items };
}

/// Compares two pairs in this order.
fn compare(order: Order, first: &Pair, second: &Pair) -> Ordering
    ensures { result ≡ pair_order order first.now second.now }
{
    let major = first.major(order).cmp(&second.major(order));
    major.then(first.minor(order).cmp(&second.minor(order)))
}

impl<V: Copy + Drop> PairMap<V> {
    /// Creates one without ties.
    ///
    /// # Cost
    ///
    /// Takes no memory.
    pub(crate) fn new(alloc: Global, order: Order) -> PairMap<V>
        ensures order { result.order ≡ order }
        ensures ties { result.ties ≡ [] }
    {
        PairMap {
            order,
            ties: Vec::new(alloc),
        }
    }

    /// Returns whether the pair is there.
    ///
    /// # Cost
    ///
    /// A step for each tie at which the binary search looks.
    pub(crate) fn contains<L: Ledger>(&self, pair: &Pair, steps: &mut Steps<L>) -> bool
        ensures value { result ≡ has_pair pair.now self.now.ties }
        ensures steps { Halves (length self.now.ties) steps.old steps.new }
    {
        self.index_of(pair, steps).is_ok()
    }

    /// Returns what is kept of the pair, or `None` if it isn't there.
    ///
    /// # Cost
    ///
    /// A step for each tie at which the binary search looks, the one that it finds among them.
    pub(crate) fn value<L: Ledger>(&self, pair: &Pair, steps: &mut Steps<L>) -> Option<V>
        ensures value { result ≡ tie_value pair.now self.now.ties }
        ensures steps { Halves (length self.now.ties) steps.old steps.new }
    {
        match self.index_of(pair, steps) {
            Ok(index) => Some(self.ties[index].value),
            Err(_) => None,
        }
    }

    /// Returns the ties, in order, to be read: a step for each.
    ///
    /// # Cost
    ///
    /// Takes no memory.
    pub(crate) fn ties<L: Ledger>(&self, steps: &mut Steps<L>) -> &[Tie<V>]
        ensures ties { result.now ≡ self.now.ties }
        ensures steps { Takes (length self.now.ties) steps.old steps.new }
    {
        steps.ticks(self.ties.len() as u64);
        &self.ties
    }

    /// Takes the memory for so many more ties. The ties don't change.
    ///
    /// # Errors
    ///
    /// If memory runs out.
    pub(crate) fn room(&mut self, count: usize) -> Result<(), AllocError>
        ensures ok { OnOk result (count ≤ self.new.room) }
        ensures order { self.new.order ≡ self.old.order }
        ensures same { self.new.ties ≡ self.old.ties }
        ensures keeps { self.old.room ≤ self.new.room }
    {
        self.ties.reserve(count)
    }

    /// Puts the tie in, for which there is room, in the place of the one of its pair if that is there.
    ///
    /// # Cost
    ///
    /// One binary search, and a move of the ties after a new one. Takes no memory.
    pub(crate) fn insert(&mut self, tie: Tie<V>)
        requires { 0 < self.old.room }
        ensures order { self.new.order ≡ self.old.order }
        ensures ties { self.new.ties ≡ with_tie self.old.order tie self.old.ties }
        ensures room { self.old.room ≤ self.new.room + 1 }
    {
        match self.index_of(&tie.pair, &mut Steps::uncounted()) {
            Ok(index) => self.ties[index] = tie,
            Err(index) => match self.ties.insert(index, tie) {
                Ok(()) => {}
                Err(_) => unreachable!(),
            },
        }
    }

    /// Takes the pair out; nothing changes if it wasn't there.
    ///
    /// # Cost
    ///
    /// One binary search, and a move of the ties after it; its room is kept.
    pub(crate) fn remove(&mut self, pair: &Pair)
        ensures order { self.new.order ≡ self.old.order }
        ensures ties { self.new.ties ≡ without_pair pair.now self.old.ties }
        ensures room { self.old.room ≤ self.new.room }
    {
        let found = self.index_of(pair, &mut Steps::uncounted());
        if let Ok(index) = found {
            self.ties.remove(index);
        }
    }

    /// Returns the pair's place among these, to be compared: one step.
    fn compared_at<L: Ledger>(&self, index: usize, pair: &Pair, steps: &mut Steps<L>) -> Ordering
        requires { index < length self.now.ties }
        ensures order { (d : Tie V) → result
            ≡ pair_order self.now.order (slice_index_or self.now.ties index d).pair pair.now }
        ensures steps { Takes 1 steps.old steps.new }
    {
        steps.ticks(1);
        compare(self.order, &self.ties[index].pair, pair)
    }

    /// Returns the index of the pair, or else where it would be.
    ///
    /// # Cost
    ///
    /// A binary search, with a step for each tie at which it looks.
    fn index_of<L: Ledger>(&self, pair: &Pair, steps: &mut Steps<L>) -> Result<usize, usize>
        ensures index { MatchResult result (IsAt pair.now self.now.ties)
            (IsGapFor self.now.order pair.now self.now.ties) }
        ensures steps { Halves (length self.now.ties) steps.old steps.new }
    {
        let mut low = 0;
        let mut high = self.ties.len();
        while low < high {
            let middle = low + (high - low) / 2;
            match self.compared_at(middle, pair, steps) {
                Ordering::Less => low = middle + 1,
                Ordering::Equal => return Ok(middle),
                Ordering::Greater => high = middle,
            }
        }
        Err(low)
    }
}
