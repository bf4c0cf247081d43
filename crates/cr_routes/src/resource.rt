// SPDX-License-Identifier: Apache-2.0 OR MIT
//! The paths by name.
ghost use Rattle.std.specs.Prelude.{◌≡◌, ◌≤◌, length};

use crate::method::Method;
use cr_base::{Ask, Question, ReportKind, Task};

/// A path that the server knows.
#[derive(Clone, Copy, PartialEq, Eq)]
pub enum Resource {
    /// `/register`
    Register,
    /// `/accepted`
    Accepted,
    /// `/accounts`
    Accounts,
    /// `/deadlines`
    Deadlines,
    /// `/members`
    Members,
    /// `/members/{u}`: one part of any bytes, at least one, follows `/members/`.
    Member,
    /// `/mode`
    Mode,
    /// `/phase`
    Phase,
    /// `/papers`
    Papers,
    /// `/papers/{p}`: one part of any bytes, at least one, follows `/papers/`.
    Paper,
    /// `/papers/{p}/content`.
    Content,
    /// `/papers/{p}/content/{v}`.
    Version,
    /// `/papers/{p}/conflicts`.
    Conflicts,
    /// `/papers/{p}/bid`.
    Bid,
    /// `/papers/{p}/reviewers`.
    Reviewers,
    /// `/papers/{p}/reviewers/{u}`.
    Reviewer,
    /// `/papers/{p}/externals`.
    Externals,
    /// `/papers/{p}/externals/{u}`.
    External,
    /// `/papers/{p}/review`.
    Review,
    /// `/papers/{p}/reviews`.
    Reviews,
    /// `/papers/{p}/response`.
    Response,
    /// `/papers/{p}/comments`.
    Comments,
    /// `/papers/{p}/tags/{t}`.
    Tag,
    /// `/papers/{p}/decision`.
    Decision,
    /// `/me`
    Me,
    /// `/search`
    Search,
    /// `/assign`
    Bulk,
    /// `/reports/` and the word of a kind, as `/reports/papers`; for a letter one part of any bytes, at least one,
    /// follows `/reports/letter/`.
    Report(ReportKind),
    /// `/plan`
    Plan,
}

impl Resource {
    ghost use Rattle.cr_routes.specs.Asks.{ask_at, allow_text, route_at};

    /// Returns what a GET asks for at this path, and so a HEAD, or `None` if the path answers neither.
    fn read(self) -> Option<Ask>
        ensures { result ≡ route_at self Method.Get }
    {
        match self {
            Resource::Accepted => Some(Ask::Tell(Question::AcceptedPapers)),
            Resource::Accounts => Some(Ask::Tell(Question::Accounts)),
            Resource::Deadlines => Some(Ask::Tell(Question::Deadlines)),
            Resource::Phase => Some(Ask::Tell(Question::Phase)),
            Resource::Paper => Some(Ask::Tell(Question::Page)),
            Resource::Content => Some(Ask::Tell(Question::Content)),
            Resource::Version => Some(Ask::Tell(Question::Version)),
            Resource::Reviews => Some(Ask::Tell(Question::Reviews)),
            Resource::Response => Some(Ask::Tell(Question::Response)),
            Resource::Comments => Some(Ask::Tell(Question::Comments)),
            Resource::Me => Some(Ask::Tell(Question::Me)),
            Resource::Search => Some(Ask::Tell(Question::Search)),
            Resource::Report(kind) => Some(Ask::Report(kind)),
            Resource::Plan => Some(Ask::Tell(Question::Plan)),
            _ => None,
        }
    }

    /// Returns what a method asks for at this path, or `None` if the path doesn't answer that method.
    pub fn ask(self, method: Method) -> Option<Ask>
        ensures { result ≡ ask_at self method }
    {
        match (self, method) {
            (_, Method::Get | Method::Head) => self.read(),
            (Resource::Register, Method::Post) => Some(Ask::Give(Task::Register)),
            (Resource::Deadlines, Method::Post) => Some(Ask::Give(Task::SetDeadline)),
            (Resource::Members, Method::Post) => Some(Ask::Give(Task::Name)),
            (Resource::Member, Method::Delete) => Some(Ask::Give(Task::Dismiss)),
            (Resource::Mode, Method::Post) => Some(Ask::Give(Task::SetMode)),
            (Resource::Phase, Method::Post) => Some(Ask::Give(Task::SetPhase)),
            (Resource::Papers, Method::Post) => Some(Ask::Give(Task::Submit)),
            (Resource::Paper, Method::Put) => Some(Ask::Give(Task::Revise)),
            (Resource::Paper, Method::Delete) => Some(Ask::Give(Task::Withdraw)),
            (Resource::Content, Method::Put) => Some(Ask::Give(Task::Upload)),
            (Resource::Conflicts, Method::Post) => Some(Ask::Give(Task::SetConflict)),
            (Resource::Bid, Method::Put) => Some(Ask::Give(Task::Bid)),
            (Resource::Reviewers, Method::Post) => Some(Ask::Give(Task::Assign)),
            (Resource::Reviewer, Method::Delete) => Some(Ask::Give(Task::Unassign)),
            (Resource::Externals, Method::Post) => Some(Ask::Give(Task::Invite)),
            (Resource::External, Method::Delete) => Some(Ask::Give(Task::Uninvite)),
            (Resource::Review, Method::Put) => Some(Ask::Give(Task::Review)),
            (Resource::Response, Method::Put) => Some(Ask::Give(Task::Respond)),
            (Resource::Comments, Method::Post) => Some(Ask::Give(Task::Comment)),
            (Resource::Tag, Method::Put) => Some(Ask::Give(Task::Tag)),
            (Resource::Tag, Method::Delete) => Some(Ask::Give(Task::Untag)),
            (Resource::Decision, Method::Put) => Some(Ask::Give(Task::Decide)),
            (Resource::Bulk, Method::Post) => Some(Ask::Bulk),
            _ => None,
        }
    }

    /// Returns the value of the field `Allow` here: the path's methods, sorted as words are, `, ` between each two
    /// (RFC 9110, section 10.2.1).
    ///
    /// # Cost
    ///
    /// At most 32 bytes.
    pub fn allow(self) -> &'static str
        ensures methods { result.now ≡ allow_text self }
        ensures short { length result.now ≤ 32 }
    {
        match self {
            Resource::Register | Resource::Members | Resource::Mode | Resource::Papers => "POST",
            Resource::Conflicts | Resource::Reviewers | Resource::Externals => "POST",
            Resource::Bulk => "POST",
            Resource::Bid | Resource::Review | Resource::Decision => "PUT",
            Resource::Reviewer | Resource::External | Resource::Member => "DELETE",
            Resource::Tag => "DELETE, PUT",
            Resource::Accepted | Resource::Accounts | Resource::Me => "GET, HEAD",
            Resource::Version | Resource::Reviews | Resource::Search => "GET, HEAD",
            Resource::Report(_) | Resource::Plan => "GET, HEAD",
            Resource::Paper => "DELETE, GET, HEAD, PUT",
            Resource::Content | Resource::Response => "GET, HEAD, PUT",
            Resource::Phase | Resource::Deadlines | Resource::Comments => "GET, HEAD, POST",
        }
    }
}
