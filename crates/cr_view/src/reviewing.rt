// SPDX-License-Identifier: Apache-2.0 OR MIT
//! What a page tells of bids on a paper and of its reviewers.
ghost use Rattle.std.specs.Prelude.{◌≡◌, IfOk, map};
ghost use Rattle.std.specs.Option.{option_copied, option_map};
ghost use Rattle.cr_base.specs.Accounts.{lines_of};
ghost use Rattle.cr_base.specs.Answering.{bidder_told};
ghost use Rattle.cr_base.specs.Seats.{ordinal_in};
ghost use Rattle.cr_reviews.specs.Labels.{has_label};
ghost use Rattle.cr_view.specs.PaperSeen.{reviewers_read};
ghost use Rattle.cr_view.specs.Replies.{bid_of, bidders_of, reviewer_of, reviewers_of, holder_name, seated};

use crate::lists::push_some;
use crate::live::Live;
use crate::page::{done_told, kind_told};
use crate::page_lists::SeatsRead;
use cr_anonymity::shows_reviewer;
use cr_base::{
    Bid, Bidder, Bids, Ordinal, PaperNo, Reviewer, Reviewers, Seat, Short, Standing, Steps, Tie,
    UserNo,
};
use cr_reviews::Labels;
use std::alloc::{AllocError, Global};

/// The user's own label.
impl Live {
    /// Returns the ordinal of the label under which the user reviews the paper; `None` for an unauthenticated caller.
    ///
    /// # Cost
    ///
    /// A walk over the paper's seats, at most 26.
    pub(crate) fn ordinal_of(&self, user: &Option<UserNo>, paper: PaperNo) -> Option<Ordinal>
        ensures { result ≡ ordinal_in self.now.tables.seats user.now paper }
    {
        match user {
            Some(user) => self.seats.ordinal_of(*user, paper, &mut Steps::uncounted()),
            None => None,
        }
    }
}

/// All bids.
impl Live {
    /// Returns these bids, if they are told.
    pub(crate) fn bids_told(
        &self,
        alloc: Global,
        ties: &Option<&[Tie<Bid>]>,
    ) -> Result<Option<Bids>, AllocError>
        ensures { IfOk result (λ bids. bids
            ≡ option_map (λ ties. bidders_of self.now.tables (map bid_of ties)) (option_copied ties.now)) }
    {
        match ties {
            Some(ties) => Ok(Some(self.bidders(alloc, ties)?)),
            None => Ok(None),
        }
    }

    /// Returns these bids, without those of users that no account has.
    fn bidders(&self, alloc: Global, ties: &[Tie<Bid>]) -> Result<Bids, AllocError>
        ensures { IfOk result (λ bids. bids ≡ bidders_of self.now.tables (map bid_of ties.now)) }
    {
        let mut bids = Vec::with_capacity(alloc, ties.len())?;
        for tie in ties {
            push_some(&mut bids, self.bidder(tie))?;
        }
        Ok(Bids::from_vec(bids))
    }

    /// Returns a bid with the name of whose it is, if the user has one.
    ///
    /// # Cost
    ///
    /// One read by number.
    fn bidder(&self, tie: &Tie<Bid>) -> Option<Bidder>
        ensures { result ≡ bidder_told (lines_of self.now.tables.accounts) (bid_of tie.now) }
    {
        match self.accounts.name_of(tie.pair.user) {
            Some(user) => Some(Bidder {
                bid: tie.value,
                user,
            }),
            None => None,
        }
    }
}

/// The reviewers.
impl Live {
    /// Returns those of these seats that no reviewer has left, if they are told, each as the user is told of with this
    /// standing at the paper.
    pub(crate) fn reviewers_told(
        &self,
        alloc: Global,
        by: &Standing,
        read: &Option<SeatsRead<'_>>,
    ) -> Result<Option<Reviewers>, AllocError>
        ensures { IfOk result (λ reviewers. reviewers
            ≡ option_map (reviewers_read self.now.tables by.now) read.now) }
    {
        match read {
            Some(read) => Ok(Some(self.reviewers(alloc, by, read.seats, &read.written)?)),
            None => Ok(None),
        }
    }

    /// Returns those of these seats that no reviewer has left; a form is written under each of these labels.
    fn reviewers(
        &self,
        alloc: Global,
        by: &Standing,
        seats: &[Tie<Seat>],
        written: &Labels,
    ) -> Result<Reviewers, AllocError>
        ensures { IfOk result (λ reviewers. reviewers
            ≡ reviewers_of self.now.tables by.now (has_label written.now) (seated seats.now)) }
    {
        let mut reviewers = Vec::with_capacity(alloc, seats.len())?;
        for seat in seats {
            let name = self.reviewer_name(by, seat);
            let done = written.has(seat.value.ordinal);
            push_some(&mut reviewers, reviewer(by, seat, done, name))?;
        }
        Ok(Reviewers::from_vec(reviewers))
    }

    /// Returns the name of the user who has this seat, if a caller with this standing at the seat's paper may know
    /// it, unless the reviewer has left it.
    ///
    /// # Cost
    ///
    /// One read by number, if it is returned.
    pub fn reviewer_name(&self, by: &Standing, seat: &Tie<Seat>) -> Option<Short>
        ensures { result ≡ holder_name self.now.tables by.now seat.now }
    {
        if seat.value.vacated || !shows_reviewer(by) {
            return None;
        }
        self.accounts.name_of(seat.pair.user)
    }
}

/// Returns the reviewer in this seat, under this name if it is shown, as far as a caller with this standing at the
/// seat's paper is told of them; `written` says whether they have written a review. `None` if the reviewer has left
/// it.
fn reviewer(by: &Standing, seat: &Tie<Seat>, written: bool, name: Option<Short>) -> Option<Reviewer>
    ensures { result ≡ reviewer_of by.now seat.now written name }
{
    if seat.value.vacated {
        return None;
    }
    Some(Reviewer {
        done: done_told(by, written),
        kind: kind_told(by, seat.value.kind),
        label: seat.value.ordinal,
        user: name,
    })
}
