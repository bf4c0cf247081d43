// SPDX-License-Identifier: Apache-2.0 OR MIT
//! The lists of which a paper's page tells: each is read where it is told, and only then.
ghost use Rattle.std.specs.Prelude.{◌≡◌, ◌+◌, Some, map, length, unwrap_or, if◌then◌else◌};
ghost use Rattle.std.specs.Option.{option_copied, option_map};
ghost use Rattle.cr_base.specs.Filed.{filed_of};
ghost use Rattle.cr_base.specs.Page.{gets_bid, gets_bids, gets_conflicts, gets_declared, gets_reviewers};
ghost use Rattle.cr_base.specs.Page.{shows_author, where_told};
ghost use Rattle.cr_base.specs.Pairs.{ties_of, users_tied_to};
ghost use Rattle.cr_base.specs.Steps.{TakesAtMost};
ghost use Rattle.cr_base.specs.Ties.{authors_in, bid_in, bids_in};
ghost use Rattle.cr_base.specs.Words.{no_bid};
ghost use Rattle.cr_base.specs.declared.pairs.Order.TheVariants.{ByPaper};
ghost use Rattle.cr_view.specs.PaperSeen.{accepted_seen, bid_reads, list_reads, lists_seen_at};
ghost use Rattle.cr_view.specs.PaperSeen.{reviewers_read, reviewers_told};
ghost use Rattle.cr_view.specs.Replies.{bid_of, seated};

use crate::facts::PaperFacts;
use crate::live::Live;
use crate::page::{gets_bid, gets_bids, gets_conflicts, gets_declared, gets_reviewers};
use cr_anonymity::shows_author;
use cr_base::{Bid, PaperNo, Seat, Steps, Tie, UserNo};
use cr_reviews::Labels;
use std::marker::Model;
use std::sync::ledger::Ledger;

/// The seats of a paper, and the labels under which a form is written.
#[derive(Drop)]
pub(crate) struct SeatsRead<'a> {
    pub(crate) seats: &'a [Tie<Seat>],
    pub(crate) written: Labels,
}

impl<'a> Model for SeatsRead<'a> {
    ghost use Rattle.cr_view.specs.PaperSeen.{SeatsSeen};
    ghost use Rattle.cr_view.specs.Replies.{seated};

    ghost Value = { SeatsSeen };

    ghost view = { λ s. record { seats = seated s.seats.now; flags = s.written } };
}

/// The lists of a paper that are told, lent by the tables.
///
/// # Model
///
/// The users that they name, in their order.
#[derive(Drop)]
pub(crate) struct PageLists<'a> {
    pub(crate) authors: Option<&'a [Tie<()>]>,
    pub(crate) conflicts: Option<&'a [Tie<()>]>,
    pub(crate) declared: Option<&'a [Tie<()>]>,
    pub(crate) bid: Option<Bid>,
    pub(crate) bids: Option<&'a [Tie<Bid>]>,
    pub(crate) reviewers: Option<SeatsRead<'a>>,
}

impl<'a> Model for PageLists<'a> {
    ghost use Rattle.std.specs.Prelude.{map};
    ghost use Rattle.std.specs.Option.{option_copied, option_map};
    ghost use Rattle.cr_view.specs.PaperSeen.{ListsSeen};
    ghost use Rattle.cr_view.specs.Replies.{bid_of};

    ghost Value = { ListsSeen };

    ghost view = { λ l. record {
      authors = option_map (map (λ t. t.pair.user)) (option_copied l.authors);
      conflicts = option_map (map (λ t. t.pair.user)) (option_copied l.conflicts);
      declared = option_map (map (λ t. t.pair.user)) (option_copied l.declared);
      bid = l.bid;
      bids = option_map (map bid_of) (option_copied l.bids);
      reviewers = l.reviewers;
    } };
}

/// How they are read.
impl Live {
    /// Returns the lists of the paper that are told: a step for each record that is read.
    ///
    /// # Cost
    ///
    /// Takes no memory.
    pub(crate) fn page_lists<L: Ledger>(
        &self,
        user: &Option<UserNo>,
        facts: &PaperFacts<'_>,
        steps: &mut Steps<L>,
    ) -> PageLists<'_>
        ensures lists { result ≡ lists_seen_at self.now.tables user.now facts.now result.reviewers }
        ensures reviewers { option_map (reviewers_read self.now.tables facts.now.by) result.reviewers
            ≡ reviewers_told self.now.tables facts.now }
        ensures steps { TakesAtMost (list_reads self.now.tables facts.now.by facts.now.paper) steps.old steps.new }
    {
        let authors = self.authors_read(facts, steps);
        let conflicts = self.conflicts_read(facts, steps);
        let declared = self.declared_read(facts, steps);
        let bid = self.bid_read(user, facts, steps);
        let bids = self.bids_read(facts, steps);
        let reviewers = self.seats_read(facts, steps);
        PageLists {
            authors,
            conflicts,
            declared,
            bid,
            bids,
            reviewers,
        }
    }

    /// Returns the paper's authors, if they are told.
    ///
    /// # Cost
    ///
    /// A step for each.
    fn authors_read<L: Ledger>(
        &self,
        facts: &PaperFacts<'_>,
        steps: &mut Steps<L>,
    ) -> Option<&[Tie<()>]>
        ensures users { option_map (map (λ t. t.pair.user)) (option_copied result)
            ≡ where_told (shows_author facts.now.by (accepted_seen facts.now))
            (Some (authors_in self.now.tables.ties facts.now.paper)) }
        ensures steps { TakesAtMost (length (authors_in self.now.tables.ties facts.now.paper)) steps.old steps.new }
    {
        if !shows_author(facts.by(), facts.is_accepted()) {
            return None;
        }
        Some(self.ties.authors(facts.paper(), steps))
    }

    /// Returns the ties of those who are declared in conflict with the paper, if they are told.
    ///
    /// # Cost
    ///
    /// A step for each.
    fn conflicts_read<L: Ledger>(
        &self,
        facts: &PaperFacts<'_>,
        steps: &mut Steps<L>,
    ) -> Option<&[Tie<()>]>
        ensures users { option_map (map (λ t. t.pair.user)) (option_copied result)
            ≡ where_told (gets_conflicts facts.now.by)
            (Some (users_tied_to facts.now.paper self.now.tables.ties.conflicts)) }
        ensures steps { TakesAtMost (if gets_conflicts facts.now.by
            then length (users_tied_to facts.now.paper self.now.tables.ties.conflicts) else 0) steps.old steps.new }
    {
        if !gets_conflicts(facts.by()) {
            return None;
        }
        Some(self.ties.conflicts(facts.paper(), steps))
    }

    /// Returns the ties of the users that the paper's authors declared, if they are told.
    ///
    /// # Cost
    ///
    /// A step for each.
    fn declared_read<L: Ledger>(
        &self,
        facts: &PaperFacts<'_>,
        steps: &mut Steps<L>,
    ) -> Option<&[Tie<()>]>
        ensures users { option_map (map (λ t. t.pair.user)) (option_copied result)
            ≡ where_told (gets_declared facts.now.by)
            (Some (users_tied_to facts.now.paper self.now.tables.ties.declared)) }
        ensures steps { TakesAtMost (if gets_declared facts.now.by
            then length (users_tied_to facts.now.paper self.now.tables.ties.declared) else 0) steps.old steps.new }
    {
        if !gets_declared(facts.by()) {
            return None;
        }
        Some(self.ties.declared(facts.paper(), steps))
    }

    /// Returns the user's last bid on the paper, and 0 where the user has told none, if the user is told it. The steps
    /// of a search among the paper's bids.
    fn bid_read<L: Ledger>(
        &self,
        user: &Option<UserNo>,
        facts: &PaperFacts<'_>,
        steps: &mut Steps<L>,
    ) -> Option<Bid>
        ensures bid { result ≡ where_told (gets_bid facts.now.by)
            (Some (unwrap_or (bid_in self.now.tables.ties user.now facts.now.paper) no_bid)) }
        ensures steps { TakesAtMost (bid_reads self.now.tables facts.now.paper) steps.old steps.new }
    {
        if !gets_bid(facts.by()) {
            return None;
        }
        match user {
            Some(user) => Some(self.bid_or_zero(*user, facts.paper(), steps)),
            None => Some(Bid::zero()),
        }
    }

    /// Returns a user's last bid on the paper, and 0 where the user has told none.
    pub(crate) fn bid_or_zero<L: Ledger>(
        &self,
        user: UserNo,
        paper: PaperNo,
        steps: &mut Steps<L>,
    ) -> Bid
        ensures bid { result ≡ unwrap_or (bid_in self.now.tables.ties (Some user) paper) no_bid }
        ensures steps { TakesAtMost (bid_reads self.now.tables paper) steps.old steps.new }
    {
        match self.ties.bid_of(user, paper, steps) {
            Some(bid) => bid,
            None => Bid::zero(),
        }
    }

    /// Returns the last bids on the paper, if they are told.
    ///
    /// # Cost
    ///
    /// A step for each.
    fn bids_read<L: Ledger>(
        &self,
        facts: &PaperFacts<'_>,
        steps: &mut Steps<L>,
    ) -> Option<&[Tie<Bid>]>
        ensures bids { option_map (map bid_of) (option_copied result)
            ≡ where_told (gets_bids facts.now.by) (Some (bids_in self.now.tables.ties facts.now.paper)) }
        ensures steps { TakesAtMost (bid_reads self.now.tables facts.now.paper) steps.old steps.new }
    {
        if !gets_bids(facts.by()) {
            return None;
        }
        Some(self.ties.bids(facts.paper(), steps))
    }

    /// Returns the paper's seats, and under which labels there are forms, if its reviewers are told.
    ///
    /// # Cost
    ///
    /// A step for each seat and each form.
    fn seats_read<L: Ledger>(
        &self,
        facts: &PaperFacts<'_>,
        steps: &mut Steps<L>,
    ) -> Option<SeatsRead<'_>>
        ensures reviewers { option_map (reviewers_read self.now.tables facts.now.by) result
            ≡ reviewers_told self.now.tables facts.now }
        ensures steps { TakesAtMost (length (ties_of ByPaper facts.now.paper self.now.tables.seats)
            + length (filed_of facts.now.paper self.now.tables.reviews.forms)) steps.old steps.new }
    {
        if !gets_reviewers(facts.by()) {
            return None;
        }
        let seats = self.seats.seats(facts.paper(), steps);
        let written = self.reviews.labels(facts.paper(), steps);
        Some(SeatsRead { seats, written })
    }
}
