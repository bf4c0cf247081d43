// SPDX-License-Identifier: Apache-2.0 OR MIT
//! The ties of users to papers, by paper and by user.
ghost use Rattle.std.specs.Prelude.{◌≡◌, ◌<◌, ◌+◌, ◌∷◌, [], IsTrue, OnOk, Some, length, map, is_some, slice_index};
ghost use Rattle.std.specs.Prelude.{if◌then◌else◌};
ghost use Rattle.cr_base.specs.Checks.{judged, bid_checks, conflict_checks};
ghost use Rattle.cr_base.specs.History.{History};
ghost use Rattle.cr_base.specs.Lists.{IsRising};
ghost use Rattle.cr_base.specs.Pairs.{major, with_tie, users_tied_to, papers_tied_to};
ghost use Rattle.cr_base.specs.Steps.{Takes, TakesAtMost, Halves};
ghost use Rattle.cr_base.specs.Ties.{no_ties, ties_after, ties_from, switched, pair_of, bare_tie};
ghost use Rattle.cr_base.specs.Ties.{authors_in, is_author_in, is_conflicted_in, TiesFit};
ghost use Rattle.cr_base.specs.Ties.{is_conflict_on_in, bid_tie, bid_in, bids_in};
ghost use Rattle.cr_rooms.specs.Rooms.{IsOneLess};
ghost use Rattle.cr_conflicts.specs.Index.{all_before, with_author};
ghost use Rattle.cr_conflicts.specs.Room.{TiesHaveRoom};
ghost use Rattle.cr_conflicts.specs.Targets.{target_of};

use crate::earlier::{declared_behind, give_author};
use crate::judging;
use crate::told::{authored_pairs, bid_pairs, conflict_pairs};
use cr_base::{
    Bid, Entry, Order, Pair, PaperNo, Role, Rule, Stamped, Standing, Steps, Target, Tie, UserNo,
};
use cr_kept::Cabinet;
use cr_pairs::{IndexedPairs, PairRows, papers_of};
use std::alloc::{AllocError, Global};
use std::marker::Model;
use std::sync::ledger::Ledger;

/// Who is an author of which paper, who is declared in conflict with it, whom its authors declared so, and who has bid
/// on it.
///
/// # Model
///
/// These by paper, and for how many more of each paper and of each user there is room. Authors and conflicts are found
/// by user too, and every table has equal ones there.
#[derive(Drop)]
pub struct Ties {
    alloc: Global,
    // Papers and their authors, in the order in which they were told, the submitter first, so the index of an
    // author among them needn't be kept.
    authors: Cabinet<Tie<()>>,
    // The conflicts, by user.
    authored: PairRows<()>,
    // Papers, and the users declared in conflict with them.
    conflicts: IndexedPairs<()>,
    // Papers, and the users whom an author named in a conflict.
    declared: PairRows<()>,
    // Papers, and the users who bid on them, with their last bids.
    bids: PairRows<Bid>,
}

impl Model for Ties {
    ghost use Rattle.cr_kept.specs.Own.{values_in, AreOwn};
    ghost use Rattle.cr_conflicts.specs.Index.{AuthorsIndexed};
    ghost use Rattle.cr_conflicts.specs.Seen.{SeenTies};

    ghost Value = { SeenTies };

    ghost view = { λ t. record {
      ties = record {
        authors = values_in t.authors.files;
        conflicts = t.conflicts.ties;
        declared = t.declared.ties;
        bids = t.bids.ties;
      };
      rooms = record {
        authors = t.authors.rooms;
        authored = t.authored.rooms;
        conflicts = t.conflicts.by_paper_rooms;
        conflicting = t.conflicts.by_user_rooms;
        declared = t.declared.rooms;
        bids = t.bids.rooms;
      };
    } };

    ghost invariant = { λ t. AuthorsIndexed (values_in t.authors.files) t.authored.order t.authored.ties
        t.declared.order t.bids.order × AreOwn (λ tie. tie.pair.paper) t.authors.files };
}

/// Returns a paper and a user who are tied.
fn bare(paper: PaperNo, user: UserNo) -> Tie<()>
    ensures { result ≡ bare_tie paper user }
{
    Tie {
        pair: Pair { paper, user },
        value: (),
    }
}

/// Returns a paper and a user who bids so on it.
fn bid_by(paper: PaperNo, user: UserNo, value: Bid) -> Tie<Bid>
    ensures { result ≡ bid_tie paper user value }
{
    Tie {
        pair: Pair { paper, user },
        value,
    }
}

/// Puts the pair in, or takes it out.
///
/// # Cost
///
/// Takes no memory.
fn switch(ties: &mut IndexedPairs<()>, paper: PaperNo, user: UserNo, on: bool)
    requires paper { 0 < slice_index ties.old.by_paper_rooms paper }
    requires user { 0 < slice_index ties.old.by_user_rooms user }
    ensures ties { ties.new.ties ≡ switched on paper user ties.old.ties }
    ensures papers { IsOneLess paper ties.old.by_paper_rooms ties.new.by_paper_rooms }
    ensures users { IsOneLess user ties.old.by_user_rooms ties.new.by_user_rooms }
{
    let tie = bare(paper, user);
    if on {
        ties.insert(tie);
    } else {
        ties.remove(&tie.pair);
    }
}

/// Puts the tie in, if it is told.
///
/// # Cost
///
/// Takes no memory.
fn insert_where(ties: &mut PairRows<()>, told: bool, tie: Tie<()>)
    requires { 0 < slice_index ties.old.rooms (major ties.old.order tie.pair) }
    ensures order { ties.new.order ≡ ties.old.order }
    ensures ties { ties.new.ties ≡ (if told then with_tie ties.old.order tie ties.old.ties else ties.old.ties) }
    ensures rooms { IsOneLess (major ties.old.order tie.pair) ties.old.rooms ties.new.rooms }
{
    if told {
        ties.insert(tie);
    }
}

/// What is read.
impl Ties {
    /// Creates one without papers.
    ///
    /// # Cost
    ///
    /// Takes no memory.
    pub fn new(alloc: Global) -> Ties
        ensures { result.ties ≡ no_ties }
    {
        Ties {
            alloc,
            authors: Cabinet::new(alloc),
            authored: PairRows::new(alloc, Order::ByUser),
            conflicts: IndexedPairs::new(alloc),
            declared: PairRows::new(alloc, Order::ByPaper),
            bids: PairRows::new(alloc, Order::ByPaper),
        }
    }

    /// Returns the authors of the paper, the submitter first and the others in the order in which they were told; none
    /// if there is no such paper.
    ///
    /// # Cost
    ///
    /// Found by number; a step for each. Takes no memory.
    pub fn authors<L: Ledger>(&self, paper: PaperNo, steps: &mut Steps<L>) -> &[Tie<()>]
        ensures value { map (λ t. t.pair.user) result.now ≡ authors_in self.now.ties paper }
        ensures steps { Takes (length (authors_in self.now.ties paper)) steps.old steps.new }
    {
        self.authors.of_paper(paper, steps)
    }

    /// Returns whether the user is an author of the paper; false if there is no such paper.
    ///
    /// # Cost
    ///
    /// Found by number, and a walk over the paper's authors; a step for each of them.
    pub fn is_author<L: Ledger>(&self, user: UserNo, paper: PaperNo, steps: &mut Steps<L>) -> bool
        ensures value { result ≡ is_author_in self.now.ties (Some user) paper }
        ensures steps { Takes (length (authors_in self.now.ties paper)) steps.old steps.new }
    {
        self.authors(paper, steps)
            .iter()
            .map(|tie| tie.pair.user)
            .any(|author| user.number() == author.number())
    }

    /// Returns whether the user is an author of the paper after earlier entries of the same command.
    ///
    /// # Cost
    ///
    /// Found by number, a step for each of the paper's authors, and a walk over the entries, which only a command of
    /// many parts has.
    fn is_author_behind<L: Ledger>(
        &self,
        user: UserNo,
        paper: PaperNo,
        earlier: &[Stamped],
        steps: &mut Steps<L>,
    ) -> bool
        ensures value { result ≡ is_author_in (ties_from self.now.ties earlier.now) (Some user) paper }
        ensures steps { Takes (length (authors_in self.now.ties paper)) steps.old steps.new }
    {
        self.is_author(user, paper, steps) || give_author(earlier, user, paper)
    }

    /// Returns whether the user is declared in conflict with the paper; false if there is no such paper.
    ///
    /// # Cost
    ///
    /// The paper's conflicts are found by number; a step for each of them at which the binary search looks.
    pub fn is_declared<L: Ledger>(&self, user: UserNo, paper: PaperNo, steps: &mut Steps<L>) -> bool
        ensures value { result ≡ is_conflict_on_in self.now.ties (Some user) paper }
        ensures steps { Halves (length (users_tied_to paper self.now.ties.conflicts)) steps.old steps.new }
    {
        self.conflicts.contains(&Pair { paper, user }, steps)
    }

    /// Returns whether the user is in declared conflict with the paper after earlier entries of the same command.
    ///
    /// # Cost
    ///
    /// The steps of `is_declared`, and a walk over the entries.
    fn is_declared_behind<L: Ledger>(
        &self,
        user: UserNo,
        paper: PaperNo,
        earlier: &[Stamped],
        steps: &mut Steps<L>,
    ) -> bool
        ensures value { result ≡ is_conflict_on_in (ties_from self.now.ties earlier.now) (Some user) paper }
        ensures steps { Halves (length (users_tied_to paper self.now.ties.conflicts)) steps.old steps.new }
    {
        let on = self.is_declared(user, paper, steps);
        declared_behind(on, earlier, user, paper)
    }

    /// Returns whether the user is in conflict with the paper, as an author or declared so, after any earlier entries
    /// of the same command.
    ///
    /// # Cost
    ///
    /// Two reads by number, at most a step for each of the paper's authors and of its conflicts, and a walk over the
    /// entries, which only a command of many parts has.
    pub fn is_conflicted<L: Ledger>(
        &self,
        user: UserNo,
        paper: PaperNo,
        earlier: &[Stamped],
        steps: &mut Steps<L>,
    ) -> bool
        ensures value { result ≡ is_conflicted_in (ties_from self.now.ties earlier.now) (Some user) paper }
        ensures steps { TakesAtMost (length (authors_in self.now.ties paper)
            + length (users_tied_to paper self.now.ties.conflicts)) steps.old steps.new }
    {
        if self.is_author_behind(user, paper, earlier, steps) {
            return true;
        }
        self.is_declared_behind(user, paper, earlier, steps)
    }

    /// Returns who is declared in conflict with the paper, in the order of user numbers.
    ///
    /// # Cost
    ///
    /// Found by number; a step for each. Takes no memory.
    pub fn conflicts<L: Ledger>(&self, paper: PaperNo, steps: &mut Steps<L>) -> &[Tie<()>]
        ensures value { map (λ t. t.pair.user) result.now ≡ users_tied_to paper self.now.ties.conflicts }
        ensures steps { Takes (length (users_tied_to paper self.now.ties.conflicts)) steps.old steps.new }
    {
        self.conflicts.of_paper(paper, steps)
    }

    /// Returns the users that the paper's authors declared in conflict with it, in the order of user numbers.
    ///
    /// # Cost
    ///
    /// Found by number; a step for each. Takes no memory.
    pub fn declared<L: Ledger>(&self, paper: PaperNo, steps: &mut Steps<L>) -> &[Tie<()>]
        ensures value { map (λ t. t.pair.user) result.now ≡ users_tied_to paper self.now.ties.declared }
        ensures steps { Takes (length (users_tied_to paper self.now.ties.declared)) steps.old steps.new }
    {
        self.declared.of(paper.number(), steps)
    }

    /// Returns the papers whose author the user is, in the order of their numbers.
    ///
    /// # Cost
    ///
    /// Found by number; a step for each. Takes no memory.
    pub fn authored<L: Ledger>(&self, user: UserNo, steps: &mut Steps<L>) -> &[Tie<()>]
        ensures papers { map (λ t. t.pair.paper) result.now ≡ papers_tied_to user self.now.ties.authors }
        ensures rising { IsRising (papers_tied_to user self.now.ties.authors) }
        ensures steps { Takes (length (papers_tied_to user self.now.ties.authors)) steps.old steps.new }
    {
        self.authored.of(user.number(), steps)
    }

    /// Returns the papers with which the user is declared in conflict, in the order of their numbers.
    ///
    /// # Cost
    ///
    /// Found by number; a step for each. Takes no memory.
    pub fn conflicting<L: Ledger>(&self, user: UserNo, steps: &mut Steps<L>) -> &[Tie<()>]
        ensures papers { map (λ t. t.pair.paper) result.now ≡ papers_tied_to user self.now.ties.conflicts }
        ensures rising { IsRising (papers_tied_to user self.now.ties.conflicts) }
        ensures steps { Takes (length (papers_tied_to user self.now.ties.conflicts)) steps.old steps.new }
    {
        self.conflicts.of_user(user, steps)
    }

    /// Returns the user's last bid on the paper; `None` if they made none.
    ///
    /// # Cost
    ///
    /// The paper's bids are found by number; a step for each of them at which the binary search looks.
    pub fn bid_of<L: Ledger>(
        &self,
        user: UserNo,
        paper: PaperNo,
        steps: &mut Steps<L>,
    ) -> Option<Bid>
        ensures value { result ≡ bid_in self.now.ties (Some user) paper }
        ensures steps { Halves (length (bids_in self.now.ties paper)) steps.old steps.new }
    {
        self.bids.value(&Pair { paper, user }, steps)
    }

    /// Returns the last bids on the paper, in the order of user numbers.
    ///
    /// # Cost
    ///
    /// Found by number; a step for each. Takes no memory.
    pub fn bids<L: Ledger>(&self, paper: PaperNo, steps: &mut Steps<L>) -> &[Tie<Bid>]
        ensures value { map (λ t. record { user = t.pair.user; value = t.value }) result.now
            ≡ bids_in self.now.ties paper }
        ensures steps { Takes (length (bids_in self.now.ties paper)) steps.old steps.new }
    {
        self.bids.of(paper.number(), steps)
    }

    /// Checks whether the caller may bid on this paper. `by` is the caller's standing at the paper; `paper` is none if
    /// there is no such paper. Whether it is withdrawn is in none of the ties, and no rule asks of their bids. `late`
    /// is what `Stage::is_late` says at the request's moment.
    ///
    /// # Errors
    ///
    /// The first broken rule, in this order: `NoPaper`, `NotMember`, `Conflict`, `WrongPhase` if it isn't the bidding,
    /// `Late` if it is too late, `Withdrawn`.
    ///
    /// # Cost
    ///
    /// Takes no search.
    pub fn judge_bid(
        &self,
        by: &Standing,
        paper: &Option<PaperNo>,
        withdrawn: bool,
        late: bool,
    ) -> Result<(), Rule>
        ensures { result
            ≡ judged (bid_checks by.now (record { there = is_some paper.now; withdrawn = withdrawn }) late) tt }
    {
        if paper.is_none() {
            return Err(Rule::NoPaper);
        }
        judging::bid(by, withdrawn, late)
    }

    /// Checks whether the caller may turn this user's conflict with this paper on or off, after any earlier entries of
    /// the same command. `by` is the caller's standing at the paper, `maker` their number; `paper` is none if there is
    /// no such paper, `target` none if there is no such user. `external` is whether the target is an external of the
    /// paper, and `withdrawn` whether the paper is withdrawn: neither is in the ties. `late` is what `Stage::is_late`
    /// says at the request's moment.
    ///
    /// # Errors
    ///
    /// The first broken rule. First come `NoPaper` and `NoUser`.
    ///
    /// - On, before the bidding: `NotAuthor`, `Late` if it is too late, `Withdrawn`, `NotAMember`.
    /// - On, from the bidding to the discussion, of the caller: `NotMember`, `Withdrawn`; of another: `NotChair`,
    ///   `Conflict` if the caller is in conflict with the paper, `Withdrawn`, `NotAMember`.
    /// - On, later: `WrongPhase`.
    /// - Off: `NotChair`, `Conflict`, `WrongPhase`, `Withdrawn`, `NotAMember`, `AuthorConflict`.
    ///
    /// # Cost
    ///
    /// A walk over the paper's authors, a binary search among its conflicts, and two walks over the earlier entries,
    /// which only a command of many parts has.
    pub fn judge_conflict(
        &self,
        by: &Standing,
        maker: UserNo,
        paper: &Option<PaperNo>,
        target: &Option<(UserNo, Role)>,
        external: bool,
        on: bool,
        withdrawn: bool,
        earlier: &[Stamped],
        late: bool,
    ) -> Result<(), Rule>
        ensures { let ties = ties_from self.now.ties earlier.now in
            result ≡ judged (conflict_checks by.now (record { there = is_some paper.now; withdrawn = withdrawn })
            (target_of ties maker paper.now target.now external) on late) tt }
    {
        let Some(paper) = paper else {
            return Err(Rule::NoPaper);
        };
        let Some((user, role)) = target else {
            return Err(Rule::NoUser);
        };
        let author = self.is_author_behind(*user, *paper, earlier, &mut Steps::uncounted());
        let declared = self.is_declared_behind(*user, *paper, earlier, &mut Steps::uncounted());
        let target = Target {
            role: *role,
            herself: user.number() == maker.number(),
            author,
            conflicted: author || declared,
            reviewer: false,
            external,
        };
        if on {
            judging::on(by, withdrawn, &target, late)
        } else {
            judging::off(by, withdrawn, &target)
        }
    }
}

/// What entries make of it.
impl Ties {
    /// Takes the memory that the entries of one command need. The ties don't change.
    ///
    /// # Errors
    ///
    /// If memory runs out.
    ///
    /// # Cost
    ///
    /// Each entry is compared with those of its kind before it.
    pub fn room(&mut self, group: &[Stamped]) -> Result<(), AllocError>
        ensures ok { OnOk result (TiesHaveRoom group.now self.new.rooms) }
        ensures same { self.new.ties ≡ self.old.ties }
        ensures keeps { (any : History) → TiesHaveRoom any self.old.rooms → TiesHaveRoom any self.new.rooms }
    {
        let authored = authored_pairs(self.alloc, group)?;
        let papers = papers_of(self.alloc, &authored)?;
        let conflicts = conflict_pairs(self.alloc, group)?;
        let bids = bid_pairs(self.alloc, group)?;
        self.authors.room(&papers)?;
        self.authored.room(&authored)?;
        self.conflicts.room(&conflicts)?;
        self.declared.room(&conflicts)?;
        self.bids.room(&bids)
    }

    /// Adds an author, after all that were told before.
    ///
    /// # Cost
    ///
    /// Two reads by number, and a binary search among the user's papers. Takes no memory.
    fn add_author(&mut self, paper: PaperNo, user: UserNo)
        requires room { 0 < slice_index self.old.rooms.authors paper }
        requires room_by_user { 0 < slice_index self.old.rooms.authored user }
        requires behind { IsTrue (all_before (pair_of paper user) self.old.ties.authors) }
        ensures after { self.new.ties ≡ with_author paper user self.old.ties }
        ensures rooms { IsOneLess paper self.old.rooms.authors self.new.rooms.authors }
        ensures rooms_by_user { IsOneLess user self.old.rooms.authored self.new.rooms.authored }
        ensures conflicts { self.new.rooms.conflicts ≡ self.old.rooms.conflicts }
        ensures conflicting { self.new.rooms.conflicting ≡ self.old.rooms.conflicting }
        ensures declared { self.new.rooms.declared ≡ self.old.rooms.declared }
        ensures bids { self.new.rooms.bids ≡ self.old.rooms.bids }
    {
        self.authors.file(paper, bare(paper, user));
        self.authored.insert(bare(paper, user));
    }

    /// Applies one more entry, for which there is room. A paper that it adds comes after all that have authors, and a
    /// co-author's is the last of these, of which the user is no author yet.
    ///
    /// # Cost
    ///
    /// Takes no memory. A submission, a co-author or a bid costs two reads by number and a binary search among the
    /// paper's or the user's ties, a conflict a walk over the paper's authors and three of each at most; each moves
    /// those ties after the index, of 4 to 6 bytes.
    pub fn apply(&mut self, stamped: &Stamped)
        requires room { TiesHaveRoom (stamped.now ∷ []) self.old.rooms }
        requires fits { TiesFit self.old.ties stamped.now.entry }
        ensures after { self.new.ties ≡ ties_after self.old.ties stamped.now.stamp.maker stamped.now.entry }
        ensures room { (rest : History) → TiesHaveRoom (stamped.now ∷ rest) self.old.rooms
            → TiesHaveRoom rest self.new.rooms }
    {
        match &stamped.entry {
            Entry::Submitted { paper, .. } => self.add_author(*paper, stamped.stamp.maker),
            Entry::Coauthor { paper, user } => self.add_author(*paper, *user),
            Entry::Conflict { paper, user, on } => {
                let wrote = self.is_author(stamped.stamp.maker, *paper, &mut Steps::uncounted());
                insert_where(&mut self.declared, wrote, bare(*paper, *user));
                switch(&mut self.conflicts, *paper, *user, *on);
            }
            Entry::Bid { paper, value } => self
                .bids
                .insert(bid_by(*paper, stamped.stamp.maker, *value)),
            _ => {}
        }
    }
}
