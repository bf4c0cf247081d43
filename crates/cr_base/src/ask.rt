// SPDX-License-Identifier: Apache-2.0 OR MIT
//! What a request asks for, by its path and its method only, and the traits of every request for it.
ghost use Rattle.std.specs.Prelude.{◌≡◌};
ghost use Rattle.cr_base.specs.Traits.{ask_reads_number, ask_wants_login, question_traits, task_traits, traits_of};

use crate::report::ReportKind;

/// What a request asks for, by its path and its method only.
#[derive(Clone, Copy, PartialEq, Eq)]
pub enum Ask {
    /// That something changes, by one command.
    Give(Task),
    /// To be told something.
    Tell(Question),
    /// To be told a report.
    Report(ReportKind),
    /// Many changes to who reviews, to conflicts and to tags at once: POST of `/assign`.
    Bulk,
}

/// What a request may ask to change by one command.
#[derive(Clone, Copy, PartialEq, Eq)]
pub enum Task {
    /// A new account: POST of `/register`.
    Register,
    /// Another member or chair: POST of `/members`.
    Name,
    /// One member or chair less: DELETE of `/members/{u}`.
    Dismiss,
    /// Another mode: POST of `/mode`.
    SetMode,
    /// Another phase: POST of `/phase`.
    SetPhase,
    /// Another deadline of a phase, or none: POST of `/deadlines`.
    SetDeadline,
    /// A new paper: POST of `/papers`.
    Submit,
    /// Other texts of a paper: PUT of `/papers/{p}`.
    Revise,
    /// That a paper is withdrawn: DELETE of `/papers/{p}`.
    Withdraw,
    /// One more version of a paper's content: PUT of `/papers/{p}/content`.
    Upload,
    /// A user is in conflict with a paper, or no longer: POST of `/papers/{p}/conflicts`.
    SetConflict,
    /// The caller's bid on a paper: PUT of `/papers/{p}/bid`.
    Bid,
    /// One more reviewer of a paper: POST of `/papers/{p}/reviewers`.
    Assign,
    /// One reviewer less: DELETE of `/papers/{p}/reviewers/{u}`.
    Unassign,
    /// One more who may review a paper from outside the committee: POST of `/papers/{p}/externals`.
    Invite,
    /// One of these less: DELETE of `/papers/{p}/externals/{u}`.
    Uninvite,
    /// A form of the caller's review of a paper: PUT of `/papers/{p}/review`.
    Review,
    /// One more comment on a paper: POST of `/papers/{p}/comments`.
    Comment,
    /// That a paper's authors respond: PUT of `/papers/{p}/response`.
    Respond,
    /// A tag on a paper: PUT of `/papers/{p}/tags/{t}`.
    Tag,
    /// That a tag is on a paper no longer: DELETE of `/papers/{p}/tags/{t}`.
    Untag,
    /// What the committee decides on a paper: PUT of `/papers/{p}/decision`.
    Decide,
}

/// What a request may ask to be told, reports aside.
#[derive(Clone, Copy, PartialEq, Eq)]
pub enum Question {
    /// What the caller is to the conference: GET or HEAD of `/me`.
    Me,
    /// The list of accounts: GET or HEAD of `/accounts`.
    Accounts,
    /// Phase, mode and the count of papers: GET or HEAD of `/phase`.
    Phase,
    /// The deadlines of phases: GET or HEAD of `/deadlines`.
    Deadlines,
    /// The accepted papers: GET or HEAD of `/accepted`.
    AcceptedPapers,
    /// A paper's page: GET or HEAD of `/papers/{p}`.
    Page,
    /// The last version of a paper's content: GET or HEAD of `/papers/{p}/content`.
    Content,
    /// A version of a paper's content: GET or HEAD of `/papers/{p}/content/{v}`.
    Version,
    /// The reviews of a paper: GET or HEAD of `/papers/{p}/reviews`.
    Reviews,
    /// The comments on a paper: GET or HEAD of `/papers/{p}/comments`.
    Comments,
    /// What a paper's authors responded: GET or HEAD of `/papers/{p}/response`.
    Response,
    /// The papers that a search finds: GET or HEAD of `/search`.
    Search,
    /// A plan of assignments: GET or HEAD of `/plan`.
    Plan,
}

/// What carries the rest of a request, beside its path.
#[derive(Clone, Copy, PartialEq, Eq)]
pub enum Carrier {
    /// The path carries all of it: neither body nor query string is looked at.
    Path,
    /// The members of a JSON object in the body.
    Json,
    /// The body, which is a paper's content as it is.
    Content,
    /// The rows of a bulk in the body.
    Rows,
    /// The query string.
    QueryString,
}

/// The traits of every request for one thing.
#[derive(Clone, Copy, PartialEq, Eq)]
pub struct Traits {
    /// It requires authentication, so that an unauthenticated caller is answered `unauthorized`.
    pub wants_login: bool,
    /// Something changes by it.
    pub changes: bool,
    /// What carries the rest of it, beside the path.
    pub carrier: Carrier,
}

impl Traits {
    /// Returns these traits.
    const fn of(wants_login: bool, changes: bool, carrier: Carrier) -> Traits
        ensures { result ≡ record { wants_login = wants_login; changes = changes; carrier = carrier } }
    {
        Traits {
            wants_login,
            changes,
            carrier,
        }
    }
}

impl Task {
    /// Returns the traits of every request for it. Every command except a registration requires authentication.
    pub fn traits(self) -> Traits
        ensures { result ≡ task_traits self }
    {
        match self {
            Task::Register => Traits::of(false, true, Carrier::Json),
            Task::Name => Traits::of(true, true, Carrier::Json),
            Task::Dismiss => Traits::of(true, true, Carrier::Path),
            Task::SetMode => Traits::of(true, true, Carrier::Json),
            Task::SetPhase => Traits::of(true, true, Carrier::Json),
            Task::SetDeadline => Traits::of(true, true, Carrier::Json),
            Task::Submit => Traits::of(true, true, Carrier::Json),
            Task::Revise => Traits::of(true, true, Carrier::Json),
            Task::Withdraw => Traits::of(true, true, Carrier::Path),
            Task::Upload => Traits::of(true, true, Carrier::Content),
            Task::SetConflict => Traits::of(true, true, Carrier::Json),
            Task::Bid => Traits::of(true, true, Carrier::Json),
            Task::Assign => Traits::of(true, true, Carrier::Json),
            Task::Unassign => Traits::of(true, true, Carrier::Path),
            Task::Invite => Traits::of(true, true, Carrier::Json),
            Task::Uninvite => Traits::of(true, true, Carrier::Path),
            Task::Review => Traits::of(true, true, Carrier::Json),
            Task::Comment => Traits::of(true, true, Carrier::Json),
            Task::Respond => Traits::of(true, true, Carrier::Json),
            Task::Tag => Traits::of(true, true, Carrier::Path),
            Task::Untag => Traits::of(true, true, Carrier::Path),
            Task::Decide => Traits::of(true, true, Carrier::Json),
        }
    }
}

impl Question {
    /// Returns the traits of every request for it. The list of accounts, the state of the conference, its deadlines
    /// and the accepted papers require no authentication. Nor do page and content of a published paper, which only the
    /// history tells.
    fn traits(self) -> Traits
        ensures { result ≡ question_traits self }
    {
        match self {
            Question::Me => Traits::of(true, false, Carrier::Path),
            Question::Accounts => Traits::of(false, false, Carrier::Path),
            Question::Phase => Traits::of(false, false, Carrier::Path),
            Question::Deadlines => Traits::of(false, false, Carrier::Path),
            Question::AcceptedPapers => Traits::of(false, false, Carrier::Path),
            Question::Page => Traits::of(true, false, Carrier::Path),
            Question::Content => Traits::of(true, false, Carrier::Path),
            Question::Version => Traits::of(true, false, Carrier::Path),
            Question::Reviews => Traits::of(true, false, Carrier::Path),
            Question::Comments => Traits::of(true, false, Carrier::Path),
            Question::Response => Traits::of(true, false, Carrier::Path),
            Question::Search => Traits::of(true, false, Carrier::QueryString),
            Question::Plan => Traits::of(true, false, Carrier::QueryString),
        }
    }
}

impl Ask {
    /// Returns the traits of every request for it.
    pub fn traits(self) -> Traits
        ensures { result ≡ traits_of self }
    {
        match self {
            Ask::Give(task) => task.traits(),
            Ask::Tell(question) => question.traits(),
            Ask::Report(_) => Traits::of(true, false, Carrier::Path),
            Ask::Bulk => Traits::of(true, true, Carrier::Rows),
        }
    }

    /// Returns whether the request requires authentication: every command except a registration; a bulk; a paper's
    /// page, content, reviews, response and comments; searches, reports and plans; and what the caller is to the
    /// conference. Page and content of a published paper require none, which only the history tells.
    pub fn wants_login(self) -> bool
        ensures { result ≡ ask_wants_login self }
    {
        self.traits().wants_login
    }

    /// Returns whether a request for it reads the field Command-Number: a bulk, and each command but a registration.
    pub fn reads_number(self) -> bool
        ensures { result ≡ ask_reads_number self }
    {
        let traits = self.traits();
        traits.changes && traits.wants_login
    }
}
