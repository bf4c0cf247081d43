// SPDX-License-Identifier: Apache-2.0 OR MIT
//! Commands that name users by number.

use crate::bid::Bid;
use crate::deadline::Deadline;
use crate::entry::Digest;
use crate::form::Form;
use crate::moment::Moment;
use crate::numbers::{PaperNo, UserNo};
use crate::retry::RetryKey;
use crate::tag::Tag;
use crate::texts::{Blob, Short, Text};
use crate::told::Coauthors;
use crate::words::{Decision, Kind, Mode, Phase, Role};

/// A [`Command`](crate::Command) that names each user by number, `None` if no user has the name that the request gives.
/// Only a registration has a name, the new one.
#[derive(Drop)]
pub enum ResolvedCommand {
    /// A new account.
    Register {
        /// The name told: 1 to 32 of `a-z0-9-`.
        name: Short,
        /// The digest of the secret told.
        digest: Digest,
    },
    /// The conference moves on to a phase.
    SetPhase {
        /// The phase told.
        phase: Phase,
    },
    /// A new paper, whose first author is the caller.
    Submit {
        /// Its title: UTF-8, 1 to 200 bytes, no control characters.
        title: Text,
        /// Its abstract: UTF-8, at most 5,000 bytes.
        abstract_: Text,
        /// The other authors, in the request's order, at most 19; `None` if one of the names is no user's.
        authors: Option<Coauthors>,
    },
    /// A paper has other texts.
    Revise {
        /// The paper; `None` if the request names no valid paper number.
        paper: Option<PaperNo>,
        /// Its title: UTF-8, 1 to 200 bytes, no control characters.
        title: Text,
        /// Its abstract: UTF-8, at most 5,000 bytes.
        abstract_: Text,
    },
    /// A paper has one more version of its content.
    Upload {
        /// The paper; `None` if the request names no valid paper number.
        paper: Option<PaperNo>,
        /// The content: any bytes, at most 4,194,304.
        content: Blob,
    },
    /// A paper is withdrawn.
    Withdraw {
        /// The paper; `None` if the request names no valid paper number.
        paper: Option<PaperNo>,
    },
    /// Somebody becomes a member or a chair.
    Name {
        /// The user; `None` if no user has the name that the request gives.
        user: Option<UserNo>,
        /// Member or chair.
        role: Role,
    },
    /// The conference goes by a mode.
    SetMode {
        /// The mode told.
        mode: Mode,
    },
    /// Somebody is in conflict with a paper, or no longer.
    SetConflict {
        /// The paper; `None` if the request names no valid paper number.
        paper: Option<PaperNo>,
        /// The user; `None` if no user has the name that the request gives.
        user: Option<UserNo>,
        /// True if the user is in conflict.
        on: bool,
    },
    /// The caller's bid on a paper: how much they want to review it.
    Bid {
        /// The paper; `None` if the request names no valid paper number.
        paper: Option<PaperNo>,
        /// The bid told.
        value: Bid,
    },
    /// Somebody reviews a paper.
    Assign {
        /// The paper; `None` if the request names no valid paper number.
        paper: Option<PaperNo>,
        /// The user; `None` if no user has the name that the request gives.
        user: Option<UserNo>,
        /// The kind of assignment.
        kind: Kind,
    },
    /// Somebody no longer reviews a paper.
    Unassign {
        /// The paper; `None` if the request names no valid paper number.
        paper: Option<PaperNo>,
        /// The user; `None` if no user has the name that the request gives.
        user: Option<UserNo>,
    },
    /// The caller reviews a paper, once more or for the first time.
    Review {
        /// The paper; `None` if the request names no valid paper number.
        paper: Option<PaperNo>,
        /// The new version of the review.
        form: Form,
    },
    /// A response of a paper's authors, one of whom is the caller, to its reviews.
    Respond {
        /// The paper; `None` if the request names no valid paper number.
        paper: Option<PaperNo>,
        /// What they write: UTF-8, 1 to 10,000 bytes.
        text: Text,
    },
    /// The caller comments on a paper.
    Comment {
        /// The paper; `None` if the request names no valid paper number.
        paper: Option<PaperNo>,
        /// The comment: UTF-8, 1 to 10,000 bytes.
        text: Text,
    },
    /// A tag is on at a paper, or no longer.
    Tag {
        /// The paper; `None` if the request names no valid paper number.
        paper: Option<PaperNo>,
        /// The tag.
        tag: Tag,
        /// True if it is on.
        on: bool,
    },
    /// The committee decides on a paper.
    Decide {
        /// The paper; `None` if the request names no valid paper number.
        paper: Option<PaperNo>,
        /// What it decides.
        decision: Decision,
    },
    /// A phase has another deadline, or none any more.
    SetDeadline {
        /// The phase told: submission, bidding, reviewing, response or discussion.
        phase: Phase,
        /// Until when what the phase opens may be done; `None` if it is to have no deadline.
        until: Option<Deadline>,
    },
    /// Somebody is a member or a chair no longer.
    Dismiss {
        /// The user; `None` if no user has the name that the request gives.
        user: Option<UserNo>,
    },
    /// Somebody from outside the committee may review a paper.
    Invite {
        /// The paper; `None` if the request names no valid paper number.
        paper: Option<PaperNo>,
        /// The user; `None` if no user has the name that the request gives.
        user: Option<UserNo>,
    },
    /// Somebody's invitation to a paper is taken back.
    Uninvite {
        /// The paper; `None` if the request names no valid paper number.
        paper: Option<PaperNo>,
        /// The user; `None` if no user has the name that the request gives.
        user: Option<UserNo>,
    },
}

/// A resolved command with its caller, its timestamp and its number.
#[derive(Drop)]
pub struct ResolvedCall {
    /// The caller: `None` for a registration, a user for every other command.
    pub caller: Option<UserNo>,
    /// The timestamp of its request.
    pub at: Moment,
    /// The number that its client gave it, with the mark of its request; `None` if it gave none.
    pub key: Option<RetryKey>,
    /// What is to change.
    pub command: ResolvedCommand,
}

/// The command of a bulk's row that names its user by number: one of the four that a row may tell.
#[derive(Drop)]
pub enum ResolvedRow {
    /// A [`ResolvedCommand::SetConflict`].
    Conflict {
        /// The paper; `None` if the request names no valid paper number.
        paper: Option<PaperNo>,
        /// The user; `None` if no user has the name that the request gives.
        user: Option<UserNo>,
        /// True if the user is in conflict from now on.
        on: bool,
    },
    /// A [`ResolvedCommand::Assign`].
    Assign {
        /// The paper; `None` if the request names no valid paper number.
        paper: Option<PaperNo>,
        /// The user; `None` if no user has the name that the request gives.
        user: Option<UserNo>,
        /// The kind of assignment.
        kind: Kind,
    },
    /// A [`ResolvedCommand::Unassign`].
    Unassign {
        /// The paper; `None` if the request names no valid paper number.
        paper: Option<PaperNo>,
        /// The user; `None` if no user has the name that the request gives.
        user: Option<UserNo>,
    },
    /// A [`ResolvedCommand::Tag`].
    Tag {
        /// The paper; `None` if the request names no valid paper number.
        paper: Option<PaperNo>,
        /// The tag.
        tag: Tag,
        /// True if it is on.
        on: bool,
    },
}
