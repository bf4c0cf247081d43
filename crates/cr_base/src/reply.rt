// SPDX-License-Identifier: Apache-2.0 OR MIT
//! Rules, receipts and replies: what a command or a query is answered.

use crate::accepted::AcceptedPapers;
use crate::bid::Bid;
use crate::comment::CommentLines;
use crate::deadline::{Deadline, PhaseDeadlines};
use crate::found::FoundPapers;
use crate::items::Items;
use crate::me::Me;
use crate::numbers::{Ordinal, PaperNo, UserNo};
use crate::page::Page;
use crate::review::ReviewLines;
use crate::texts::{Blob, Short, Text};
use crate::words::{Mode, Phase, Role};

/// A rule of the conference, broken by a command or a query.
#[derive(Clone, Copy, PartialEq, Eq)]
pub enum Rule {
    /// Somebody has registered the name.
    NameTaken,
    /// 9,999 accounts are registered.
    FullAccounts,
    /// There is no such user.
    NoUser,
    /// The caller is no chair.
    NotChair,
    /// The phase is another than the one that is wanted; or the one whose deadline is to be set is over.
    WrongPhase,
    /// The phase has a deadline, and the request's timestamp is later.
    Late,
    /// The user has that role, or a greater one.
    AlreadyNamed,
    /// 9,999 papers were submitted.
    FullPapers,
    /// The caller has submitted 20 papers.
    QuotaPapers,
    /// There is no such paper.
    NoPaper,
    /// The caller is no author of the paper.
    NotAuthor,
    /// The user named is no member of the committee. If they are to review a paper, or a chair changes their conflict
    /// with it, an external of the paper will do as well.
    NotAMember,
    /// The caller is no member of the committee, and bids, declares a conflict of their own, comments, tags, or asks
    /// for comments or a report; or nor an author of the paper, and asks for its response; or nor an external of it,
    /// and reviews it; or none of all these, and asks for its reviews, or for its page or content, unless all may read
    /// it.
    NotMember,
    /// The caller is in conflict with the paper.
    Conflict,
    /// The paper was withdrawn.
    Withdrawn,
    /// The bytes that the caller has uploaded, with those of this upload, are more than 67,108,864.
    QuotaBytes,
    /// The paper has no such version of its content, or none that the caller may read.
    NoContent,
    /// The user named is an author of the paper, and stays in conflict with it.
    AuthorConflict,
    /// The user named is in conflict with the paper, and can't review it.
    TargetConflict,
    /// The user named reviews the paper.
    AlreadyAssigned,
    /// The paper's 26 labels have been given.
    LabelsSpent,
    /// The user named doesn't review the paper.
    NotAssigned,
    /// The user named has written a review under their label, and so can't be unassigned.
    HasReview,
    /// The caller doesn't review the paper.
    NotReviewer,
    /// The caller has written 1,000 comments.
    QuotaComments,
    /// A row of a bulk tells an action that there isn't.
    BadAction,
    /// A row of a bulk tells a tag that is none.
    BadTag,
    /// A row of a bulk turns a conflict of the caller's own on or off.
    BulkSelf,
    /// The caller has given the command's number to another request, which was accepted.
    NumberUsed,
    /// A plan is asked for with more than 512 places, or of papers and members whose product passes 4,096.
    PlanTooLarge,
    /// There is no plan with these numbers.
    NoPlan,
    /// The user named is the only chair, and stays one.
    LastChair,
    /// The user named is a member of the committee, and so isn't invited from outside it.
    IsMember,
    /// The user named is invited to the paper.
    AlreadyInvited,
    /// The user named isn't invited to the paper.
    NotInvited,
    /// The user named reviews the paper, and so stays invited to it.
    StillAssigned,
    /// The paper's authors have responded to its reviews.
    AlreadyResponded,
    /// The paper's authors haven't responded to its reviews.
    NoResponse,
}

/// What an accepted command is answered.
#[derive(Clone, Copy, PartialEq, Eq)]
pub enum Receipt {
    /// The account made.
    User {
        /// The new user's number.
        user: UserNo,
    },
    /// The phase that the conference is in now.
    Phase {
        /// The phase.
        phase: Phase,
    },
    /// The paper submitted, or the one whose authors responded.
    Paper {
        /// Its number.
        paper: PaperNo,
    },
    /// A user has this role now; an account's if they were dismissed.
    Named {
        /// The user's name.
        name: Short,
        /// The role.
        role: Role,
    },
    /// The mode that the conference goes by now.
    Mode {
        /// The mode.
        mode: Mode,
    },
    /// The paper that was revised or withdrawn, with which a conflict was turned on or off, that has lost a reviewer,
    /// to which somebody was invited or is no longer, at which a tag was turned on or off, or on which the committee
    /// decided.
    Changed {
        /// Its number.
        paper: PaperNo,
    },
    /// The version uploaded, or the version of a review.
    Version {
        /// Its number.
        version: u64,
    },
    /// The bid told.
    Bid {
        /// The bid.
        bid: Bid,
    },
    /// The label of a new reviewer.
    Label {
        /// Its ordinal.
        ordinal: Ordinal,
    },
    /// The comment written.
    Comment {
        /// Its number among those on the paper.
        n: u64,
    },
    /// The bulk accepted.
    Rows {
        /// How many rows it has, 0 to 512.
        rows: u64,
    },
    /// The deadline that a phase has now.
    Deadline {
        /// The phase.
        phase: Phase,
        /// Its deadline; `None` if it has none any more.
        until: Option<Deadline>,
    },
}

/// One account, as everyone sees it.
#[derive(Clone, Copy)]
pub struct AccountLine {
    /// The user's number.
    pub user: UserNo,
    /// The user's name.
    pub name: Short,
    /// The user's role.
    pub role: Role,
}

/// Accounts by user number.
pub type AccountLines = Items<AccountLine>;

/// What everyone may know of the conference.
#[derive(Clone, Copy, PartialEq, Eq)]
pub struct Conference {
    /// Its mode.
    pub mode: Mode,
    /// How many papers were submitted, 0 to 9,999.
    pub papers: u64,
    /// Its phase.
    pub phase: Phase,
}

/// What a command or a query is answered.
#[derive(Drop)]
pub enum Reply {
    /// The command was accepted.
    Accepted(Receipt),
    /// A rule is broken.
    Refused(Rule),
    /// A row of a bulk breaks a rule, so that all of it is refused.
    RowRefused {
        /// The first row that does, 1 to 512.
        row: u64,
        /// The rule.
        rule: Rule,
    },
    /// The answer to `Query::Accounts`.
    Accounts(AccountLines),
    /// The answer to `Query::Phase`.
    Conference(Conference),
    /// The answer to `Query::Deadlines`: the phases that have a deadline, in the order of phases.
    Deadlines(PhaseDeadlines),
    /// The answer to `Query::AcceptedPapers`.
    AcceptedPapers(AcceptedPapers),
    /// The answer to `Query::Page`.
    Page(Page),
    /// The answer to `Query::Me`.
    Me(Me),
    /// The answer to `Query::Content` and `Query::Version`.
    Content(Blob),
    /// The answer to `Query::Reviews`.
    Reviews(ReviewLines),
    /// The answer to `Query::Comments`.
    Comments(CommentLines),
    /// The answer to `Query::Response`.
    Response(Text),
    /// The answer to `Query::Search`: the papers that it finds.
    Found(FoundPapers),
    /// The answer to `Query::Search` if only their number was asked for.
    Count(u64),
    /// The answer to `Query::Report` and to `Query::Plan`: its text, in UTF-8.
    Report(Blob),
}
