// SPDX-License-Identifier: Apache-2.0 OR MIT
//! A paper's page: what a caller is told of one paper.

use crate::bid::Bid;
use crate::items::Items;
use crate::numbers::{Ordinal, PaperNo};
use crate::tag::Tag;
use crate::texts::{Short, Text};
use crate::words::{Decision, Kind};

/// Names of users, in an order that their place says.
pub type Names = Items<Short>;

/// Numbers of versions, in ascending order.
pub type Versions = Items<u64>;

/// Bids on a paper, by user number.
pub type Bids = Items<Bidder>;

/// A paper's reviewers, by label.
pub type Reviewers = Items<Reviewer>;

/// Tags on a paper, by their bytes.
pub type TagList = Items<Tag>;

/// A bid on a paper, and whose it is.
#[derive(Clone, Copy)]
pub struct Bidder {
    /// The user's last bid.
    pub bid: Bid,
    /// The user's name.
    pub user: Short,
}

/// A reviewer of a paper: each field except the label is there only if the caller may be told it.
#[derive(Clone, Copy)]
pub struct Reviewer {
    /// True if the reviewer has written a review.
    pub done: Option<bool>,
    /// The kind of assignment.
    pub kind: Option<Kind>,
    /// The ordinal of the reviewer's label.
    pub label: Ordinal,
    /// The reviewer's name.
    pub user: Option<Short>,
}

/// A paper's page: each key is there only where the caller may be told it.
#[derive(Drop)]
pub struct Page {
    /// The paper.
    pub paper: PaperNo,
    /// Its abstract.
    pub abstract_: Option<Text>,
    /// Its authors, the submitter first.
    pub authors: Option<Names>,
    /// The caller's own last bid; 0 if there is none.
    pub bid: Option<Bid>,
    /// The last bids on it, by user number.
    pub bids: Option<Bids>,
    /// True if the caller is in conflict with it.
    pub conflict: Option<bool>,
    /// The users declared in conflict with it, by user number.
    pub conflicts: Option<Names>,
    /// What was decided of it last; None within where nothing was.
    pub decision: Option<Option<Decision>>,
    /// The users that the authors declared in conflict with it, by user number.
    pub declared: Option<Names>,
    /// The ordinal of the label under which the caller reviews it.
    pub label: Option<Ordinal>,
    /// Its reviewers, by label.
    pub reviewers: Option<Reviewers>,
    /// The tags that are on and for the caller, by their bytes.
    pub tags: Option<TagList>,
    /// Its title.
    pub title: Option<Text>,
    /// The numbers of its versions: all for its authors, only the last for others.
    pub versions: Option<Versions>,
    /// True if it was withdrawn.
    pub withdrawn: Option<bool>,
}
