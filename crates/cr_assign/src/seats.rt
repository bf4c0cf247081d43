// SPDX-License-Identifier: Apache-2.0 OR MIT
//! The seats of papers, who reviews which, and who is invited to which from outside the committee.
ghost use Rattle.std.specs.Prelude.{false, not, ◌&&◌, ◌≡◌, ◌==◌, ◌≤◌, ◌<◌, ◌+◌, OnOk, Some, ◌∷◌, []};
ghost use Rattle.std.specs.Prelude.{length, map, is_some, slice_index};
ghost use Rattle.std.specs.List.{All, list_any};
ghost use Rattle.cr_base.specs.declared.pairs.Order.TheVariants.{ByPaper};
ghost use Rattle.cr_base.specs.declared.entry.Entry.TheVariants.{Assigned, Unassigned};
ghost use Rattle.cr_base.specs.Checks.{judged, assign_checks, unassign_checks, invite_checks, uninvite_checks};
ghost use Rattle.cr_base.specs.Invites.{no_invites, invites_after, invites_from, is_invited_in};
ghost use Rattle.cr_base.specs.Lists.{IsRising};
ghost use Rattle.cr_base.specs.Pairs.{ties_of, with_tie, without_pair, users_tied_to, papers_tied_to};
ghost use Rattle.cr_base.specs.History.{History};
ghost use Rattle.cr_base.specs.Steps.{Takes, TakesAtMost, Halves};
ghost use Rattle.cr_base.specs.Ties.{bare_tie, pair_of};
ghost use Rattle.cr_base.specs.Words.{is_member};
ghost use Rattle.cr_base.specs.Seats.{no_seats, seat_tie, with_seat, vacated, without_seat, seats_after};
ghost use Rattle.cr_base.specs.Seats.{seats_from, labels_in, ordinal_in, SeatsFit, SeatsFitInTurn};
ghost use Rattle.cr_rooms.specs.Rooms.{IsNoLess, IsOneLess};
ghost use Rattle.cr_assign.specs.Room.{SeatsHaveRoom};
ghost use Rattle.cr_assign.specs.Targets.{target_of, held_at, labels_at, invited_at};

use crate::earlier::{invited_behind, labels_given, seat_behind};
use crate::judging;
use crate::told::{assigned_pairs, invited_pairs};
use cr_base::{
    Entry, Kind, Order, Ordinal, Pair, PaperNo, Role, Rule, Seat, Stamped, Standing, Steps, Target,
    Tie, UserNo,
};
use cr_kept::Cabinet;
use cr_pairs::{IndexedPairs, PairRows, papers_of};
use std::alloc::{AllocError, Global};
use std::marker::Model;
use std::sync::ledger::Ledger;

/// Who is assigned to which paper, under which label, and who has left it; and who is invited to which.
///
/// # Model
///
/// The seats paper by paper, those of a paper by label, the invitations by paper, and for how many more of each paper
/// and of each user there is room. Every table finds who reviews what by user as well, and the labels of a paper are
/// numbered from 1 and are at most 26.
#[derive(Drop)]
pub struct Seats {
    alloc: Global,
    // By paper, in the order in which they were given; also those that somebody left.
    seats: Cabinet<Tie<Seat>>,
    // Papers and users of the seats that nobody has left, with their ordinals, by user.
    reviewing: PairRows<Ordinal>,
    // Papers, and the users who are invited to them, members since or not.
    invites: IndexedPairs<()>,
}

impl Model for Seats {
    ghost use Rattle.cr_kept.specs.Own.{values_in, AreOwn};
    ghost use Rattle.cr_assign.specs.Index.{SeatsIndexed};
    ghost use Rattle.cr_assign.specs.Seen.{SeenSeats};

    ghost Value = { SeenSeats };

    ghost view = { λ t. record {
      seats = values_in t.seats.files;
      invites = t.invites.ties;
      rooms = record {
        seats = t.seats.rooms;
        reviewing = t.reviewing.rooms;
        invites = t.invites.by_paper_rooms;
        inviting = t.invites.by_user_rooms;
      };
    } };

    ghost invariant = { λ t. SeatsIndexed (values_in t.seats.files) t.reviewing.order t.reviewing.ties
        × AreOwn (λ seat. seat.pair.paper) t.seats.files };
}

/// Returns a user who takes a seat at a paper.
fn taken(paper: PaperNo, user: UserNo, kind: Kind, ordinal: Ordinal) -> Tie<Seat>
    ensures { result ≡ seat_tie paper user kind ordinal }
{
    Tie {
        pair: Pair { paper, user },
        value: Seat {
            kind,
            ordinal,
            vacated: false,
        },
    }
}

/// Returns a seat that its user has left.
fn left(seat: &Tie<Seat>) -> Tie<Seat>
    ensures { result ≡ vacated seat.now }
{
    Tie {
        pair: seat.pair,
        value: Seat {
            kind: seat.value.kind,
            ordinal: seat.value.ordinal,
            vacated: true,
        },
    }
}

/// Returns a paper and a user who are tied.
fn bare(paper: PaperNo, user: UserNo) -> Tie<()>
    ensures { result ≡ bare_tie paper user }
{
    Tie {
        pair: Pair { paper, user },
        value: (),
    }
}

/// What is read.
impl Seats {
    /// Creates a table without assignments or invitations.
    ///
    /// # Cost
    ///
    /// Takes no memory.
    pub fn new(alloc: Global) -> Seats
        ensures seats { result.seats ≡ no_seats }
        ensures invites { result.invites ≡ no_invites }
    {
        Seats {
            alloc,
            seats: Cabinet::new(alloc),
            reviewing: PairRows::new(alloc, Order::ByUser),
            invites: IndexedPairs::new(alloc),
        }
    }

    /// Returns the seats of the paper, by label, at most 26; those that somebody has left are marked. `None` if there
    /// is no such paper.
    ///
    /// # Cost
    ///
    /// Found by number; a step for each. Takes no memory.
    pub fn seats<L: Ledger>(&self, paper: PaperNo, steps: &mut Steps<L>) -> &[Tie<Seat>]
        ensures ties { result.now ≡ ties_of ByPaper paper self.now.seats }
        ensures few { length result.now ≤ 26 }
        ensures steps { Takes (length (ties_of ByPaper paper self.now.seats)) steps.old steps.new }
    {
        self.seats.of_paper(paper, steps)
    }

    /// Returns the ordinal of the label under which the user reviews the paper, or `None` if the user doesn't.
    ///
    /// # Cost
    ///
    /// Found by number, and a walk over the paper's seats; a step for each of them.
    pub fn ordinal_of<L: Ledger>(
        &self,
        user: UserNo,
        paper: PaperNo,
        steps: &mut Steps<L>,
    ) -> Option<Ordinal>
        ensures value { result ≡ ordinal_in self.now.seats (Some user) paper }
        ensures steps { Takes (length (ties_of ByPaper paper self.now.seats)) steps.old steps.new }
    {
        self.seats(paper, steps)
            .iter()
            .filter(|seat| !seat.value.vacated)
            .find(|seat| user.number() == seat.pair.user.number())
            .map(|seat| seat.value.ordinal)
    }

    /// Returns whether the user reviews the paper.
    ///
    /// # Cost
    ///
    /// Found by number, and a walk over the paper's seats; a step for each of them.
    pub fn is_reviewer<L: Ledger>(&self, user: UserNo, paper: PaperNo, steps: &mut Steps<L>) -> bool
        ensures value { result ≡ is_some (ordinal_in self.now.seats (Some user) paper) }
        ensures steps { Takes (length (ties_of ByPaper paper self.now.seats)) steps.old steps.new }
    {
        self.ordinal_of(user, paper, steps).is_some()
    }

    /// Returns how many labels the paper's reviewers were given, those who have left among them: 0 to 26.
    ///
    /// # Cost
    ///
    /// One read by number; reads no seat.
    pub fn labels_drawn(&self, paper: PaperNo) -> u64
        ensures value { result ≡ labels_in self.now.seats paper }
        ensures few { result ≤ 26 }
    {
        self.seats.count_of(paper) as u64
    }

    /// Returns the papers that the user reviews, in the order of their numbers, with the ordinals of their labels.
    ///
    /// # Cost
    ///
    /// Found by number; a step for each. Takes no memory.
    pub fn reviewed<L: Ledger>(&self, user: UserNo, steps: &mut Steps<L>) -> &[Tie<Ordinal>]
        ensures papers { (p : _) → list_any (λ m. p == m) (map (λ t. t.pair.paper) result.now)
            ≡ is_some (ordinal_in self.now.seats (Some user) p) }
        ensures rising { IsRising (map (λ t. t.pair.paper) result.now) }
        ensures ordinals { All (λ t. ordinal_in self.now.seats (Some user) t.pair.paper ≡ Some t.value) result.now }
        ensures steps { Takes (length result.now) steps.old steps.new }
    {
        self.reviewing.of(user.number(), steps)
    }

    /// Returns the ordinal under which the user reviews the paper after earlier entries of the same command.
    ///
    /// # Cost
    ///
    /// Found by number, a walk over the paper's seats, and one over the entries, which only a command of many parts
    /// has.
    pub fn ordinal_behind(
        &self,
        user: UserNo,
        paper: PaperNo,
        earlier: &[Stamped],
    ) -> Option<Ordinal>
        requires { SeatsFitInTurn self.now.seats earlier.now }
        ensures { result ≡ ordinal_in (seats_from self.now.seats earlier.now) (Some user) paper }
    {
        // The table's invariant is known where a field is read.
        let _ = &self.alloc;
        let held = self.ordinal_of(user, paper, &mut Steps::uncounted());
        seat_behind(held, earlier, user, paper)
    }

    /// Returns whether the user is invited to the paper, be the user a member since or not.
    ///
    /// # Cost
    ///
    /// The paper's invitations are found by number; a step for each of them at which the binary search looks.
    pub fn is_invited<L: Ledger>(&self, user: UserNo, paper: PaperNo, steps: &mut Steps<L>) -> bool
        ensures value { result ≡ is_invited_in self.now.invites (Some user) paper }
        ensures steps { Halves (length (users_tied_to paper self.now.invites)) steps.old steps.new }
    {
        self.invites.contains(&Pair { paper, user }, steps)
    }

    /// Returns whether the user, who has this role, is an external of the paper: no member, and invited to it.
    ///
    /// # Cost
    ///
    /// At most that of `is_invited`; no step for a member.
    pub fn is_external<L: Ledger>(
        &self,
        user: UserNo,
        paper: PaperNo,
        role: Role,
        steps: &mut Steps<L>,
    ) -> bool
        ensures value { result ≡ (not (is_member role) && is_invited_in self.now.invites (Some user) paper) }
        ensures steps { TakesAtMost (length (users_tied_to paper self.now.invites)) steps.old steps.new }
    {
        if role.is_member() {
            return false;
        }
        self.is_invited(user, paper, steps)
    }

    /// Returns whether the user is invited to it after earlier entries of the same command.
    ///
    /// # Cost
    ///
    /// A binary search, and a walk over them.
    fn is_invited_behind(&self, user: UserNo, paper: PaperNo, earlier: &[Stamped]) -> bool
        ensures { result ≡ is_invited_in (invites_from self.now.invites earlier.now) (Some user) paper }
    {
        let invited = self.is_invited(user, paper, &mut Steps::uncounted());
        invited_behind(invited, earlier, user, paper)
    }

    /// Returns whether the user, who has this role, is an external of the paper, after these entries.
    ///
    /// # Cost
    ///
    /// At most that of `is_external`, and a walk over the entries.
    pub fn is_external_behind(
        &self,
        user: UserNo,
        paper: PaperNo,
        role: Role,
        earlier: &[Stamped],
    ) -> bool
        ensures { result
            ≡ (not (is_member role) && is_invited_in (invites_from self.now.invites earlier.now) (Some user) paper) }
    {
        !role.is_member() && self.is_invited_behind(user, paper, earlier)
    }

    /// Returns the papers to which the user is invited, in the order of their numbers.
    ///
    /// # Cost
    ///
    /// Found by number; a step for each. Takes no memory.
    pub fn inviting<L: Ledger>(&self, user: UserNo, steps: &mut Steps<L>) -> &[Tie<()>]
        ensures papers { map (λ t. t.pair.paper) result.now ≡ papers_tied_to user self.now.invites }
        ensures rising { IsRising (papers_tied_to user self.now.invites) }
        ensures steps { Takes (length (papers_tied_to user self.now.invites)) steps.old steps.new }
    {
        self.invites.of_user(user, steps)
    }

    /// Returns how many labels the paper's reviewers were given, after earlier entries of the same command.
    ///
    /// # Cost
    ///
    /// One read by number, and a walk over the entries.
    fn labels_behind(&self, paper: PaperNo, earlier: &[Stamped]) -> u64
        ensures { result ≡ labels_in (seats_from self.now.seats earlier.now) paper }
    {
        self.labels_drawn(paper) + labels_given(earlier, paper) as u64
    }

    /// Checks whether the caller may assign this user to this paper, and returns the ordinal of the user's label. All
    /// of it after earlier entries of the same command, each of which fits in its turn. `by` is the caller's standing
    /// at the paper; `paper` is none if there is no such paper, `target` none if there is no such user. Whether the
    /// paper is withdrawn, and whether the user is in conflict with it, isn't in the seats.
    ///
    /// # Errors
    ///
    /// The first broken rule, in this order: `NoPaper`, `NoUser`, `NotChair`, `Conflict` if the caller is in conflict
    /// with the paper, `WrongPhase` before the bidding or after the discussion, `Withdrawn`, `NotAMember`,
    /// `TargetConflict`, `AlreadyAssigned`, `LabelsSpent` if 26 labels were given.
    ///
    /// # Cost
    ///
    /// Two reads by number, a walk over the paper's seats, and for a user who is no member a binary search among its
    /// invitations; three walks at most over the earlier entries, which only a command of many parts has.
    pub fn judge_assign(
        &self,
        by: &Standing,
        paper: &Option<PaperNo>,
        target: &Option<(UserNo, Role)>,
        withdrawn: bool,
        target_conflicted: bool,
        earlier: &[Stamped],
    ) -> Result<Ordinal, Rule>
        requires { SeatsFitInTurn self.now.seats earlier.now }
        ensures { let seats = seats_from self.now.seats earlier.now in
            let invites = invites_from self.now.invites earlier.now in
            let labels = labels_at seats paper.now in
            result ≡ judged
            (assign_checks by.now (record { there = is_some paper.now; withdrawn = withdrawn })
            (target_of seats invites target_conflicted paper.now target.now) labels)
            (labels + 1) }
    {
        let Some(paper) = paper else {
            return Err(Rule::NoPaper);
        };
        let Some((user, role)) = target else {
            return Err(Rule::NoUser);
        };
        let target = Target {
            role: *role,
            herself: false,
            author: false,
            conflicted: target_conflicted,
            reviewer: self.ordinal_behind(*user, *paper, earlier).is_some(),
            external: self.is_external_behind(*user, *paper, *role, earlier),
        };
        let labels = self.labels_behind(*paper, earlier);
        judging::assign(by, withdrawn, &target, labels)
    }

    /// Returns whether the caller may take this user off this paper, and then the ordinal under which the user reviews
    /// it. The parameters are those of `judge_assign`, and `has_form`, whether a form is written under the user's
    /// label, which is in none of the seats either.
    ///
    /// # Errors
    ///
    /// The first broken rule, in this order: `NoPaper`, `NoUser`, `NotChair`, `Conflict`, `WrongPhase`, `Withdrawn`,
    /// `NotAssigned`, `HasReview` if a form is written.
    ///
    /// # Cost
    ///
    /// One read by number, a walk over the paper's seats and one over the earlier entries.
    pub fn judge_unassign(
        &self,
        by: &Standing,
        paper: &Option<PaperNo>,
        target: &Option<(UserNo, Role)>,
        withdrawn: bool,
        has_form: bool,
        earlier: &[Stamped],
    ) -> Result<Ordinal, Rule>
        requires { SeatsFitInTurn self.now.seats earlier.now }
        ensures { let seats = seats_from self.now.seats earlier.now in
            result ≡ judged
            (unassign_checks by.now (record { there = is_some paper.now; withdrawn = withdrawn })
            (target_of seats self.now.invites false paper.now target.now) has_form)
            (held_at seats paper.now target.now) }
    {
        let Some(paper) = paper else {
            return Err(Rule::NoPaper);
        };
        let Some((user, _)) = target else {
            return Err(Rule::NoUser);
        };
        let held = self.ordinal_behind(*user, *paper, earlier);
        judging::unassign(by, withdrawn, has_form, held)
    }

    /// Checks whether the caller may invite this user to this paper. The parameters are those of `judge_assign`; a
    /// bulk has no invitations, so there are no earlier entries.
    ///
    /// # Errors
    ///
    /// The first broken rule, in this order: `NoPaper`, `NoUser`, `NotChair`, `Conflict`, `WrongPhase`, `Withdrawn`,
    /// `IsMember`, `TargetConflict`, `AlreadyInvited`.
    ///
    /// # Cost
    ///
    /// Two reads by number at most, and a binary search among the paper's invitations.
    pub fn judge_invite(
        &self,
        by: &Standing,
        paper: &Option<PaperNo>,
        target: &Option<(UserNo, Role)>,
        withdrawn: bool,
        target_conflicted: bool,
    ) -> Result<(), Rule>
        ensures { result ≡ judged
            (invite_checks by.now (record { there = is_some paper.now; withdrawn = withdrawn })
            (target_of self.now.seats self.now.invites target_conflicted paper.now target.now)
            (invited_at self.now.invites paper.now target.now))
            tt }
    {
        let Some(paper) = paper else {
            return Err(Rule::NoPaper);
        };
        let Some((user, role)) = target else {
            return Err(Rule::NoUser);
        };
        let invited = self.is_invited(*user, *paper, &mut Steps::uncounted());
        judging::invite(by, withdrawn, *role, target_conflicted, invited)
    }

    /// Checks whether the caller may take back this user's invitation to this paper. The parameters are those of
    /// `judge_invite`.
    ///
    /// # Errors
    ///
    /// The first broken rule, in this order: `NoPaper`, `NoUser`, `NotChair`, `Conflict`, `WrongPhase`, `Withdrawn`,
    /// `NotInvited`, `StillAssigned` if the user reviews the paper.
    ///
    /// # Cost
    ///
    /// Two reads by number at most, a binary search among the paper's invitations and a walk over its seats.
    pub fn judge_uninvite(
        &self,
        by: &Standing,
        paper: &Option<PaperNo>,
        target: &Option<(UserNo, Role)>,
        withdrawn: bool,
    ) -> Result<(), Rule>
        ensures { result ≡ judged
            (uninvite_checks by.now (record { there = is_some paper.now; withdrawn = withdrawn })
            (target_of self.now.seats self.now.invites false paper.now target.now)
            (invited_at self.now.invites paper.now target.now))
            tt }
    {
        let Some(paper) = paper else {
            return Err(Rule::NoPaper);
        };
        let Some((user, _)) = target else {
            return Err(Rule::NoUser);
        };
        let invited = self.is_invited(*user, *paper, &mut Steps::uncounted());
        let held = self.ordinal_of(*user, *paper, &mut Steps::uncounted());
        judging::uninvite(by, withdrawn, held, invited)
    }
}

/// What entries make of it.
impl Seats {
    /// Takes the memory that the entries of one command need. The seats don't change.
    ///
    /// # Errors
    ///
    /// If memory runs out.
    ///
    /// # Cost
    ///
    /// Each assignment is compared with those before it.
    pub fn room(&mut self, group: &[Stamped]) -> Result<(), AllocError>
        ensures ok { OnOk result (SeatsHaveRoom group.now self.new.rooms) }
        ensures same { self.new.seats ≡ self.old.seats }
        ensures same_invites { self.new.invites ≡ self.old.invites }
        ensures keeps { (any : History) → SeatsHaveRoom any self.old.rooms → SeatsHaveRoom any self.new.rooms }
    {
        let pairs = assigned_pairs(self.alloc, group)?;
        let papers = papers_of(self.alloc, &pairs)?;
        let invited = invited_pairs(self.alloc, group)?;
        self.seats.room(&papers)?;
        self.reviewing.room(&pairs)?;
        self.invites.room(&invited)
    }

    /// Adds a seat, under the paper's next label, for a user who has none there.
    ///
    /// # Cost
    ///
    /// Takes no memory.
    fn add(&mut self, paper: PaperNo, user: UserNo, kind: Kind, ordinal: Ordinal)
        requires room { 0 < slice_index self.old.rooms.seats paper }
        requires room_by_user { 0 < slice_index self.old.rooms.reviewing user }
        requires fits { SeatsFit self.old.seats (Assigned paper user kind ordinal) }
        ensures after { self.new.seats ≡ with_seat (seat_tie paper user kind ordinal) self.old.seats }
        ensures invites { self.new.invites ≡ self.old.invites }
        ensures invites_rooms { self.new.rooms.invites ≡ self.old.rooms.invites }
        ensures inviting_rooms { self.new.rooms.inviting ≡ self.old.rooms.inviting }
        ensures rooms { IsOneLess paper self.old.rooms.seats self.new.rooms.seats }
        ensures rooms_by_user { IsOneLess user self.old.rooms.reviewing self.new.rooms.reviewing }
    {
        self.seats.file(paper, taken(paper, user, kind, ordinal));
        self.reviewing.insert(Tie {
            pair: Pair { paper, user },
            value: ordinal,
        });
    }

    /// Marks the seat of this ordinal as left; its user reviews the paper under it.
    ///
    /// # Cost
    ///
    /// Takes no memory.
    fn vacate(&mut self, paper: PaperNo, user: UserNo, ordinal: Ordinal)
        requires fits { SeatsFit self.old.seats (Unassigned paper user ordinal) }
        ensures after { self.new.seats ≡ without_seat paper ordinal self.old.seats }
        ensures invites { self.new.invites ≡ self.old.invites }
        ensures invites_rooms { self.new.rooms.invites ≡ self.old.rooms.invites }
        ensures inviting_rooms { self.new.rooms.inviting ≡ self.old.rooms.inviting }
        ensures rooms { IsNoLess self.old.rooms.seats self.new.rooms.seats }
        ensures rooms_by_user { IsNoLess self.old.rooms.reviewing self.new.rooms.reviewing }
    {
        let index = ordinal.number() as usize - 1;
        let seat = left(&self.seats.of_paper(paper, &mut Steps::uncounted())[index]);
        self.seats.change(paper, index, seat);
        self.reviewing.remove(&Pair { paper, user });
    }

    /// Invites the user to the paper.
    ///
    /// # Cost
    ///
    /// Takes no memory.
    fn invite(&mut self, paper: PaperNo, user: UserNo)
        requires room { 0 < slice_index self.old.rooms.invites paper }
        requires room_by_user { 0 < slice_index self.old.rooms.inviting user }
        ensures after { self.new.invites ≡ with_tie ByPaper (bare_tie paper user) self.old.invites }
        ensures seats { self.new.seats ≡ self.old.seats }
        ensures seats_rooms { self.new.rooms.seats ≡ self.old.rooms.seats }
        ensures reviewing_rooms { self.new.rooms.reviewing ≡ self.old.rooms.reviewing }
        ensures rooms { IsOneLess paper self.old.rooms.invites self.new.rooms.invites }
        ensures rooms_by_user { IsOneLess user self.old.rooms.inviting self.new.rooms.inviting }
    {
        self.invites.insert(bare(paper, user));
    }

    /// Takes the user's invitation back.
    ///
    /// # Cost
    ///
    /// Takes no memory.
    fn uninvite(&mut self, paper: PaperNo, user: UserNo)
        ensures after { self.new.invites ≡ without_pair (pair_of paper user) self.old.invites }
        ensures seats { self.new.seats ≡ self.old.seats }
        ensures seats_rooms { self.new.rooms.seats ≡ self.old.rooms.seats }
        ensures reviewing_rooms { self.new.rooms.reviewing ≡ self.old.rooms.reviewing }
        ensures rooms { IsNoLess self.old.rooms.invites self.new.rooms.invites }
        ensures rooms_by_user { IsNoLess self.old.rooms.inviting self.new.rooms.inviting }
    {
        self.invites.remove(&Pair { paper, user });
    }

    /// Applies one more entry, for which there is room; takes no memory. An assignment gives the paper's next label to
    /// a user who doesn't review it, and who is taken off a paper reviews it under the label told.
    ///
    /// # Cost
    ///
    /// Either costs two reads by number and a binary search among the papers that the user reviews, and a move of
    /// those after it, of 6 bytes each; an invitation, and the end of one, two reads and two such searches.
    pub fn apply(&mut self, stamped: &Stamped)
        requires room { SeatsHaveRoom (stamped.now ∷ []) self.old.rooms }
        requires fits { SeatsFit self.old.seats stamped.now.entry }
        ensures after { self.new.seats ≡ seats_after self.old.seats stamped.now.entry }
        ensures invites { self.new.invites ≡ invites_after self.old.invites stamped.now.entry }
        ensures room { (rest : History) → SeatsHaveRoom (stamped.now ∷ rest) self.old.rooms
            → SeatsHaveRoom rest self.new.rooms }
    {
        match &stamped.entry {
            Entry::Assigned {
                paper,
                user,
                kind,
                ordinal,
            } => self.add(*paper, *user, *kind, *ordinal),
            Entry::Unassigned {
                paper,
                user,
                ordinal,
            } => self.vacate(*paper, *user, *ordinal),
            Entry::Invited { paper, user } => self.invite(*paper, *user),
            Entry::Uninvited { paper, user } => self.uninvite(*paper, *user),
            _ => {}
        }
    }
}
