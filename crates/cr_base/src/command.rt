// SPDX-License-Identifier: Apache-2.0 OR MIT
//! Commands and queries: what a request may ask for.
ghost use Rattle.std.specs.Prelude.{◌≡◌};
ghost use Rattle.cr_base.specs.Logins.{command_ask, command_wants_login, query_ask, query_wants_login, task_of};

use crate::ask::{Ask, Question, Task};
use crate::bid::Bid;
use crate::deadline::Deadline;
use crate::entry::Digest;
use crate::form::Form;
use crate::moment::Moment;
use crate::numbers::{PaperNo, UserNo};
use crate::plan::{PerPaper, PlanLoad};
use crate::report::Report;
use crate::retry::RetryKey;
use crate::search::Search;
use crate::tag::Tag;
use crate::texts::{Blob, Short, Text};
use crate::told::ToldNames;
use crate::words::{Decision, Kind, Mode, Phase, Role};

/// What a request may change.
#[derive(Drop)]
pub enum Command {
    /// A new account.
    Register {
        /// The name told: 1 to 32 of `a-z0-9-`.
        name: Short,
        /// The digest of the secret told.
        digest: Digest,
    },
    /// The conference moves on to a phase.
    SetPhase {
        /// The phase told.
        phase: Phase,
    },
    /// A new paper, whose first author is the caller.
    Submit {
        /// Its title: UTF-8, 1 to 200 bytes, no control characters.
        title: Text,
        /// Its abstract: UTF-8, at most 5,000 bytes.
        abstract_: Text,
        /// The names told of its other authors, at most 19.
        authors: ToldNames,
    },
    /// A paper has other texts.
    Revise {
        /// The paper; `None` if the request names no valid paper number.
        paper: Option<PaperNo>,
        /// Its title: UTF-8, 1 to 200 bytes, no control characters.
        title: Text,
        /// Its abstract: UTF-8, at most 5,000 bytes.
        abstract_: Text,
    },
    /// A paper has one more version of its content.
    Upload {
        /// The paper; `None` if the request names no valid paper number.
        paper: Option<PaperNo>,
        /// The content: any bytes, at most 4,194,304.
        content: Blob,
    },
    /// A paper is withdrawn.
    Withdraw {
        /// The paper; `None` if the request names no valid paper number.
        paper: Option<PaperNo>,
    },
    /// Somebody becomes a member or a chair.
    Name {
        /// The user's name; `None` if the request gives no valid name.
        user: Option<Short>,
        /// Member or chair.
        role: Role,
    },
    /// The conference goes by a mode.
    SetMode {
        /// The mode told.
        mode: Mode,
    },
    /// Somebody is in conflict with a paper, or no longer.
    SetConflict {
        /// The paper; `None` if the request names no valid paper number.
        paper: Option<PaperNo>,
        /// The user's name; `None` if the request gives no valid name.
        user: Option<Short>,
        /// True if the user is in conflict.
        on: bool,
    },
    /// The caller's bid on a paper: how much they want to review it.
    Bid {
        /// The paper; `None` if the request names no valid paper number.
        paper: Option<PaperNo>,
        /// The bid told.
        value: Bid,
    },
    /// Somebody reviews a paper.
    Assign {
        /// The paper; `None` if the request names no valid paper number.
        paper: Option<PaperNo>,
        /// The user's name; `None` if the request gives no valid name.
        user: Option<Short>,
        /// The kind of assignment.
        kind: Kind,
    },
    /// Somebody no longer reviews a paper.
    Unassign {
        /// The paper; `None` if the request names no valid paper number.
        paper: Option<PaperNo>,
        /// The user's name; `None` if the request gives no valid name.
        user: Option<Short>,
    },
    /// The caller reviews a paper, once more or for the first time.
    Review {
        /// The paper; `None` if the request names no valid paper number.
        paper: Option<PaperNo>,
        /// The new version of the review.
        form: Form,
    },
    /// A response of a paper's authors, one of whom is the caller, to its reviews.
    Respond {
        /// The paper; `None` if the request names no valid paper number.
        paper: Option<PaperNo>,
        /// What they write: UTF-8, 1 to 10,000 bytes.
        text: Text,
    },
    /// The caller comments on a paper.
    Comment {
        /// The paper; `None` if the request names no valid paper number.
        paper: Option<PaperNo>,
        /// The comment: UTF-8, 1 to 10,000 bytes.
        text: Text,
    },
    /// A tag is on at a paper, or no longer.
    Tag {
        /// The paper; `None` if the request names no valid paper number.
        paper: Option<PaperNo>,
        /// The tag.
        tag: Tag,
        /// True if it is on.
        on: bool,
    },
    /// The committee decides on a paper.
    Decide {
        /// The paper; `None` if the request names no valid paper number.
        paper: Option<PaperNo>,
        /// What it decides.
        decision: Decision,
    },
    /// A phase has another deadline, or none any more.
    SetDeadline {
        /// The phase told: submission, bidding, reviewing, response or discussion.
        phase: Phase,
        /// Until when what the phase opens may be done; `None` if it is to have no deadline.
        until: Option<Deadline>,
    },
    /// Somebody is a member or a chair no longer.
    Dismiss {
        /// The user's name; `None` if the request gives no valid name.
        user: Option<Short>,
    },
    /// Somebody from outside the committee may review a paper.
    Invite {
        /// The paper; `None` if the request names no valid paper number.
        paper: Option<PaperNo>,
        /// The user's name; `None` if the request gives no valid name.
        user: Option<Short>,
    },
    /// Somebody's invitation to a paper is taken back.
    Uninvite {
        /// The paper; `None` if the request names no valid paper number.
        paper: Option<PaperNo>,
        /// The user's name; `None` if the request gives no valid name.
        user: Option<Short>,
    },
}

/// A command with its caller, its timestamp and its number.
#[derive(Drop)]
pub struct Call {
    /// The caller: `None` for a registration, a user for every other command.
    pub caller: Option<UserNo>,
    /// The timestamp of its request.
    pub at: Moment,
    /// The number that its client gave it, with the mark of its request; `None` if it gave none.
    pub key: Option<RetryKey>,
    /// What is to change.
    pub command: Command,
}

/// What a request may ask.
#[derive(Drop)]
pub enum Query {
    /// What the caller is to the conference.
    Me,
    /// The registered users and their roles.
    Accounts,
    /// The phase, the mode and the number of papers.
    Phase,
    /// The phases that have a deadline.
    Deadlines,
    /// The accepted papers.
    AcceptedPapers,
    /// A paper's page.
    Page {
        /// The paper; `None` if the request names no valid paper number.
        paper: Option<PaperNo>,
    },
    /// The last version of a paper's content.
    Content {
        /// The paper; `None` if the request names no valid paper number.
        paper: Option<PaperNo>,
    },
    /// A version of a paper's content.
    Version {
        /// The paper; `None` if the request names no valid paper number.
        paper: Option<PaperNo>,
        /// The version told; 0, which no version has, where what was told is no number of one.
        version: u64,
    },
    /// The reviews of a paper.
    Reviews {
        /// The paper; `None` if the request names no valid paper number.
        paper: Option<PaperNo>,
    },
    /// The comments on a paper.
    Comments {
        /// The paper; `None` if the request names no valid paper number.
        paper: Option<PaperNo>,
    },
    /// What a paper's authors responded to its reviews.
    Response {
        /// The paper; `None` if the request names no valid paper number.
        paper: Option<PaperNo>,
    },
    /// The papers for which a search holds, among those whose title the caller is told.
    Search {
        /// The search.
        search: Search,
        /// How many they are is asked for, and not which.
        only_count: bool,
    },
    /// A report.
    Report {
        /// Which one.
        report: Report,
    },
    /// A plan of further reviewers, by what members bid.
    Plan {
        /// How many more members each paper is to have.
        per_paper: PerPaper,
        /// How many papers a member is to have at most.
        load: PlanLoad,
    },
}

impl Command {
    /// Returns what it asks to change.
    fn task(&self) -> Task
        ensures { result ≡ task_of self.now }
    {
        match self {
            Command::Register { .. } => Task::Register,
            Command::SetPhase { .. } => Task::SetPhase,
            Command::Submit { .. } => Task::Submit,
            Command::Revise { .. } => Task::Revise,
            Command::Upload { .. } => Task::Upload,
            Command::Withdraw { .. } => Task::Withdraw,
            Command::Name { .. } => Task::Name,
            Command::SetMode { .. } => Task::SetMode,
            Command::SetConflict { .. } => Task::SetConflict,
            Command::Bid { .. } => Task::Bid,
            Command::Assign { .. } => Task::Assign,
            Command::Unassign { .. } => Task::Unassign,
            Command::Review { .. } => Task::Review,
            Command::Comment { .. } => Task::Comment,
            Command::Tag { on: true, .. } => Task::Tag,
            Command::Tag { on: false, .. } => Task::Untag,
            Command::Decide { .. } => Task::Decide,
            Command::SetDeadline { .. } => Task::SetDeadline,
            Command::Dismiss { .. } => Task::Dismiss,
            Command::Invite { .. } => Task::Invite,
            Command::Uninvite { .. } => Task::Uninvite,
            Command::Respond { .. } => Task::Respond,
        }
    }

    /// Returns the request by which it is given.
    pub fn ask(&self) -> Ask
        ensures { result ≡ command_ask self.now }
    {
        Ask::Give(self.task())
    }

    /// Returns whether its request requires authentication: every command except a registration.
    pub fn wants_login(&self) -> bool
        ensures { result ≡ command_wants_login self.now }
    {
        self.ask().wants_login()
    }
}

impl Query {
    /// Returns the request by which it is asked.
    pub fn ask(&self) -> Ask
        ensures { result ≡ query_ask self.now }
    {
        match self {
            Query::Me => Ask::Tell(Question::Me),
            Query::Accounts => Ask::Tell(Question::Accounts),
            Query::Phase => Ask::Tell(Question::Phase),
            Query::Deadlines => Ask::Tell(Question::Deadlines),
            Query::AcceptedPapers => Ask::Tell(Question::AcceptedPapers),
            Query::Page { .. } => Ask::Tell(Question::Page),
            Query::Content { .. } => Ask::Tell(Question::Content),
            Query::Version { .. } => Ask::Tell(Question::Version),
            Query::Reviews { .. } => Ask::Tell(Question::Reviews),
            Query::Comments { .. } => Ask::Tell(Question::Comments),
            Query::Response { .. } => Ask::Tell(Question::Response),
            Query::Search { .. } => Ask::Tell(Question::Search),
            Query::Report { report } => Ask::Report(report.kind()),
            Query::Plan { .. } => Ask::Tell(Question::Plan),
        }
    }

    /// Returns whether its request requires authentication: every query except the list of accounts, the state of the
    /// conference, its deadlines and the accepted papers. Page and content of a published paper require none, which
    /// only the history tells.
    pub fn wants_login(&self) -> bool
        ensures { result ≡ query_wants_login self.now }
    {
        self.ask().wants_login()
    }
}
