// SPDX-License-Identifier: Apache-2.0 OR MIT
//! Ties of papers and users that are found by paper and by user.
ghost use Rattle.std.specs.Prelude.{◌≡◌, ◌<◌, [], OnOk, length, map, slice_index};
ghost use Rattle.cr_base.specs.Lists.{IsRising};
ghost use Rattle.cr_base.specs.Pairs.{IsAscending, major, has_pair, tie_value};
ghost use Rattle.cr_base.specs.Pairs.{with_tie, without_pair, ties_of, papers_tied_to};
ghost use Rattle.cr_base.specs.declared.pairs.Order.TheVariants.{ByPaper, ByUser};
ghost use Rattle.cr_base.specs.Steps.{Takes, Halves};
ghost use Rattle.cr_rooms.specs.Rooms.{HasRoom, IsNoLess, IsOneLess};

use crate::PairRows;
use cr_base::{Order, Pair, PaperNo, Steps, Tie, UserNo};
use std::alloc::{AllocError, Global};
use std::marker::Model;
use std::sync::ledger::Ledger;

/// A map from pairs of a paper and a user to a small value, in the order of papers, then users, and once more in the
/// order of users, then papers.
///
/// # Model
///
/// The ties in the order of papers, and by the paper's number and by the user's for how many more there is room. Every
/// such map has equal pairs in both orders.
#[derive(Drop)]
pub struct IndexedPairs<V> {
    by_paper: PairRows<V>,
    by_user: PairRows<()>,
}

impl<V> Model for IndexedPairs<V> {
    ghost use Rattle.cr_pairs.specs.Seen.{SeenIndexed};
    ghost use Rattle.cr_pairs.specs.Indexed.{IsIndexed};

    ghost Value = { SeenIndexed V };

    ghost view = { λ s. record {
      ties = s.by_paper.ties;
      by_paper_rooms = s.by_paper.rooms;
      by_user_rooms = s.by_user.rooms;
    } };

    ghost invariant = { λ s. IsIndexed s.by_paper.order s.by_paper.ties s.by_user.order s.by_user.ties };
}

impl<V: Copy + Drop> IndexedPairs<V> {
    /// Creates one without ties.
    ///
    /// # Cost
    ///
    /// Takes no memory.
    pub fn new(alloc: Global) -> IndexedPairs<V>
        ensures { result.ties ≡ [] }
    {
        IndexedPairs {
            by_paper: PairRows::new(alloc, Order::ByPaper),
            by_user: PairRows::new(alloc, Order::ByUser),
        }
    }

    /// Returns whether the pair is there.
    ///
    /// # Cost
    ///
    /// The paper's ties are found by number; a step for each of them at which the binary search looks.
    pub fn contains<L: Ledger>(&self, pair: &Pair, steps: &mut Steps<L>) -> bool
        ensures value { result ≡ has_pair pair.now self.now.ties }
        ensures steps { Halves (length (ties_of ByPaper pair.now.paper self.now.ties)) steps.old steps.new }
    {
        self.by_paper.contains(pair, steps)
    }

    /// Returns what is kept of the pair, or `None` if it isn't there.
    ///
    /// # Cost
    ///
    /// The paper's ties are found by number; a step for each of them at which the binary search looks.
    pub fn value<L: Ledger>(&self, pair: &Pair, steps: &mut Steps<L>) -> Option<V>
        ensures value { result ≡ tie_value pair.now self.now.ties }
        ensures steps { Halves (length (ties_of ByPaper pair.now.paper self.now.ties)) steps.old steps.new }
    {
        self.by_paper.value(pair, steps)
    }

    /// Returns the ties of a paper, in the order of their users' numbers, to be read. They are found by number; a step
    /// for each.
    ///
    /// # Cost
    ///
    /// Takes no memory.
    pub fn of_paper<L: Ledger>(&self, paper: PaperNo, steps: &mut Steps<L>) -> &[Tie<V>]
        ensures ties { result.now ≡ ties_of ByPaper paper self.now.ties }
        ensures order { IsAscending ByPaper self.now.ties }
        ensures steps { Takes (length (ties_of ByPaper paper self.now.ties)) steps.old steps.new }
    {
        self.by_paper.of(paper.number(), steps)
    }

    /// Returns the pairs of a user, in the order of their papers' numbers, to be read. They are found by number; a
    /// step for each.
    ///
    /// # Cost
    ///
    /// Takes no memory.
    pub fn of_user<L: Ledger>(&self, user: UserNo, steps: &mut Steps<L>) -> &[Tie<()>]
        ensures papers { map (λ t. t.pair.paper) result.now ≡ papers_tied_to user self.now.ties }
        ensures rising { IsRising (papers_tied_to user self.now.ties) }
        ensures steps { Takes (length (papers_tied_to user self.now.ties)) steps.old steps.new }
    {
        self.by_user.of(user.number(), steps)
    }

    /// Takes the memory for one more tie of each of these pairs, as often as its paper is there and as often as its
    /// user is. The ties don't change.
    ///
    /// # Errors
    ///
    /// If memory runs out.
    ///
    /// # Cost
    ///
    /// Each pair is compared with those before it, twice.
    pub fn room(&mut self, pairs: &[Pair]) -> Result<(), AllocError>
        ensures papers { OnOk result (HasRoom (map (major ByPaper) pairs.now) self.new.by_paper_rooms) }
        ensures users { OnOk result (HasRoom (map (major ByUser) pairs.now) self.new.by_user_rooms) }
        ensures same { self.new.ties ≡ self.old.ties }
        ensures keeps_papers { IsNoLess self.old.by_paper_rooms self.new.by_paper_rooms }
        ensures keeps_users { IsNoLess self.old.by_user_rooms self.new.by_user_rooms }
    {
        self.by_paper.room(pairs)?;
        self.by_user.room(pairs)
    }

    /// Puts the tie in, for which there is room, in the place of the one of its pair if that is there.
    ///
    /// # Cost
    ///
    /// Two reads by number, two binary searches, and a move of the paper's ties and of the user's after a new one.
    /// Takes no memory.
    pub fn insert(&mut self, tie: Tie<V>)
        requires paper { 0 < slice_index self.old.by_paper_rooms tie.pair.paper }
        requires user { 0 < slice_index self.old.by_user_rooms tie.pair.user }
        ensures ties { self.new.ties ≡ with_tie ByPaper tie self.old.ties }
        ensures papers { IsOneLess tie.pair.paper self.old.by_paper_rooms self.new.by_paper_rooms }
        ensures users { IsOneLess tie.pair.user self.old.by_user_rooms self.new.by_user_rooms }
    {
        self.by_user.insert(Tie {
            pair: tie.pair,
            value: (),
        });
        self.by_paper.insert(tie);
    }

    /// Takes the pair out; nothing changes if it wasn't there.
    ///
    /// # Cost
    ///
    /// Two reads by number, two binary searches, and a move of the paper's ties and of the user's after it; its room
    /// is kept.
    pub fn remove(&mut self, pair: &Pair)
        ensures ties { self.new.ties ≡ without_pair pair.now self.old.ties }
        ensures papers { IsNoLess self.old.by_paper_rooms self.new.by_paper_rooms }
        ensures users { IsNoLess self.old.by_user_rooms self.new.by_user_rooms }
    {
        self.by_user.remove(pair);
        self.by_paper.remove(pair);
    }
}
