// SPDX-License-Identifier: Apache-2.0 OR MIT
//! Phases, modes, roles, kinds of assignment and decisions, and the words by which requests and answers name them.
ghost use Rattle.std.specs.Prelude.{◌≡◌, ◌≤◌, length};
ghost use Rattle.cr_base.specs.Words.{phase_name, phase_named, phase_number, phase_numbered};
ghost use Rattle.cr_base.specs.Words.{mode_name, mode_named, mode_number, mode_numbered, is_anonymous, is_overt};
ghost use Rattle.cr_base.specs.Words.{review_kind_name, review_kind_named, review_kind_number, review_kind_numbered};
ghost use Rattle.cr_base.specs.Words.{decision_name, decision_named, decision_number, decision_numbered};
ghost use Rattle.cr_base.specs.Words.{role_name, role_named, role_number, role_numbered, is_member, is_chair};

/// A phase of the conference (CoCon's phases, and the HotCRP manual's response). A conference starts in setup, and
/// moves on to the next phase only; from the reviewing to the response or to the discussion.
#[derive(Clone, Copy, PartialEq, Eq)]
pub enum Phase {
    /// Accounts register; nothing can be submitted yet.
    Setup,
    /// Papers are submitted.
    Submission,
    /// The committee sees the papers.
    Bidding,
    /// Reviews are written.
    Reviewing,
    /// Authors see the reviews that there are, and respond. A conference may skip it.
    Response,
    /// The committee sees the reviews, and decides.
    Discussion,
    /// Authors see what was decided.
    Notification,
    /// The conference is over: no phase follows.
    Closed,
}

/// The conference's mode: who sees the names of authors and reviewers. A conference starts in `Blind`.
#[derive(Clone, Copy, PartialEq, Eq)]
pub enum Mode {
    /// Authors see who reviewed them, and reviewers who wrote. Its word is `open`.
    Overt,
    /// Authors don't see who reviews them; reviewers see who wrote (single-anonymous).
    Blind,
    /// Neither sees the other's names (double-anonymous). A chair who isn't in conflict with a paper
    /// sees both.
    Anonymous,
}

/// What a reviewer is to a paper.
#[derive(Clone, Copy, PartialEq, Eq)]
pub enum Kind {
    /// Answers first for the paper's reviews.
    Primary,
    /// Reviews the paper if the primary reviewer can't.
    Secondary,
    /// Reviews the paper as a member of the programme committee.
    Pc,
}

/// What the committee decides of a paper.
#[derive(Clone, Copy, PartialEq, Eq)]
pub enum Decision {
    /// The conference takes it.
    Accept,
    /// It doesn't.
    Reject,
}

/// What a user is to the committee. A chair is a member.
#[derive(Clone, Copy, PartialEq, Eq)]
pub enum Role {
    /// Registered, and no member of the committee.
    Account,
    /// A member of the programme committee.
    Member,
    /// A chair of the programme committee.
    Chair,
}

impl Phase {
    /// Returns the word for it in requests and answers, at most 12 bytes.
    pub fn name(self) -> &'static str
        ensures value { result.now ≡ phase_name self }
        ensures short { length result.now ≤ 12 }
    {
        match self {
            Phase::Setup => "setup",
            Phase::Submission => "submission",
            Phase::Bidding => "bidding",
            Phase::Reviewing => "reviewing",
            Phase::Response => "response",
            Phase::Discussion => "discussion",
            Phase::Notification => "notification",
            Phase::Closed => "closed",
        }
    }

    /// Returns the phase of a word, or `None` if no phase is called so.
    pub fn from_name(name: &str) -> Option<Phase>
        ensures { result ≡ phase_named name.now }
    {
        match name {
            "setup" => Some(Phase::Setup),
            "submission" => Some(Phase::Submission),
            "bidding" => Some(Phase::Bidding),
            "reviewing" => Some(Phase::Reviewing),
            "response" => Some(Phase::Response),
            "discussion" => Some(Phase::Discussion),
            "notification" => Some(Phase::Notification),
            "closed" => Some(Phase::Closed),
            _ => None,
        }
    }

    /// Returns its number in rows, 0 for setup to 6 for closed, and 7 for the response. It doesn't say which phase
    /// comes first.
    pub fn number(self) -> u64
        ensures { result ≡ phase_number self }
    {
        match self {
            Phase::Setup => 0,
            Phase::Submission => 1,
            Phase::Bidding => 2,
            Phase::Reviewing => 3,
            Phase::Discussion => 4,
            Phase::Notification => 5,
            Phase::Closed => 6,
            Phase::Response => 7,
        }
    }

    /// Returns the phase of a number in rows, or `None` if no phase has it.
    pub(crate) fn from_number(number: u64) -> Option<Phase>
        ensures { result ≡ phase_numbered number }
    {
        match number {
            0 => Some(Phase::Setup),
            1 => Some(Phase::Submission),
            2 => Some(Phase::Bidding),
            3 => Some(Phase::Reviewing),
            4 => Some(Phase::Discussion),
            5 => Some(Phase::Notification),
            6 => Some(Phase::Closed),
            7 => Some(Phase::Response),
            _ => None,
        }
    }
}

impl Mode {
    /// Returns the word for it in requests and answers, at most 9 bytes.
    pub fn name(self) -> &'static str
        ensures value { result.now ≡ mode_name self }
        ensures short { length result.now ≤ 9 }
    {
        match self {
            Mode::Overt => "open",
            Mode::Blind => "blind",
            Mode::Anonymous => "anonymous",
        }
    }

    /// Returns the mode of a word, or `None` if no mode is called so.
    pub fn from_name(name: &str) -> Option<Mode>
        ensures { result ≡ mode_named name.now }
    {
        match name {
            "open" => Some(Mode::Overt),
            "blind" => Some(Mode::Blind),
            "anonymous" => Some(Mode::Anonymous),
            _ => None,
        }
    }

    /// Returns its number in rows: 0 for open, 1 for blind, 2 for anonymous.
    pub fn number(self) -> u64
        ensures { result ≡ mode_number self }
    {
        match self {
            Mode::Overt => 0,
            Mode::Blind => 1,
            Mode::Anonymous => 2,
        }
    }

    /// Returns the mode of a number in rows, or `None` if no mode has it.
    pub(crate) fn from_number(number: u64) -> Option<Mode>
        ensures { result ≡ mode_numbered number }
    {
        match number {
            0 => Some(Mode::Overt),
            1 => Some(Mode::Blind),
            2 => Some(Mode::Anonymous),
            _ => None,
        }
    }

    /// Returns whether externals, and members other than chairs, don't see who wrote.
    pub fn is_anonymous(self) -> bool
        ensures { result ≡ is_anonymous self }
    {
        match self {
            Mode::Overt | Mode::Blind => false,
            Mode::Anonymous => true,
        }
    }

    /// Returns whether authors see who reviewed them.
    pub fn is_overt(self) -> bool
        ensures { result ≡ is_overt self }
    {
        match self {
            Mode::Overt => true,
            Mode::Blind | Mode::Anonymous => false,
        }
    }
}

impl Kind {
    /// Returns the word for it in requests and answers, at most 9 bytes.
    pub fn name(self) -> &'static str
        ensures value { result.now ≡ review_kind_name self }
        ensures short { length result.now ≤ 9 }
    {
        match self {
            Kind::Primary => "primary",
            Kind::Secondary => "secondary",
            Kind::Pc => "pc",
        }
    }

    /// Returns the kind of a word, or `None` if no kind is called so.
    pub fn from_name(name: &str) -> Option<Kind>
        ensures { result ≡ review_kind_named name.now }
    {
        match name {
            "primary" => Some(Kind::Primary),
            "secondary" => Some(Kind::Secondary),
            "pc" => Some(Kind::Pc),
            _ => None,
        }
    }

    /// Returns its number in rows: 1 for primary, 2 for secondary, 3 for pc.
    pub fn number(self) -> u64
        ensures { result ≡ review_kind_number self }
    {
        match self {
            Kind::Primary => 1,
            Kind::Secondary => 2,
            Kind::Pc => 3,
        }
    }

    /// Returns the kind of a number in rows, or `None` if no kind has it.
    pub(crate) fn from_number(number: u64) -> Option<Kind>
        ensures { result ≡ review_kind_numbered number }
    {
        match number {
            1 => Some(Kind::Primary),
            2 => Some(Kind::Secondary),
            3 => Some(Kind::Pc),
            _ => None,
        }
    }
}

impl Decision {
    /// Returns the word for it in requests and answers, 6 bytes.
    pub fn name(self) -> &'static str
        ensures value { result.now ≡ decision_name self }
        ensures short { length result.now ≤ 6 }
    {
        match self {
            Decision::Accept => "accept",
            Decision::Reject => "reject",
        }
    }

    /// Returns the decision of a word, or `None` if no decision is called so.
    pub fn from_name(name: &str) -> Option<Decision>
        ensures { result ≡ decision_named name.now }
    {
        match name {
            "accept" => Some(Decision::Accept),
            "reject" => Some(Decision::Reject),
            _ => None,
        }
    }

    /// Returns its number in rows: 1 for accept, 2 for reject.
    pub fn number(self) -> u64
        ensures { result ≡ decision_number self }
    {
        match self {
            Decision::Accept => 1,
            Decision::Reject => 2,
        }
    }

    /// Returns the decision of a number in rows, or `None` if no decision has it.
    pub(crate) fn from_number(number: u64) -> Option<Decision>
        ensures { result ≡ decision_numbered number }
    {
        match number {
            1 => Some(Decision::Accept),
            2 => Some(Decision::Reject),
            _ => None,
        }
    }
}

impl Role {
    /// Returns the word for it in requests and answers, at most 7 bytes.
    pub fn name(self) -> &'static str
        ensures value { result.now ≡ role_name self }
        ensures short { length result.now ≤ 7 }
    {
        match self {
            Role::Account => "account",
            Role::Member => "member",
            Role::Chair => "chair",
        }
    }

    /// Returns the role to which a word appoints, or `None` if no such role has this word: no user is appointed to an
    /// account.
    pub fn from_name(name: &str) -> Option<Role>
        ensures { result ≡ role_named name.now }
    {
        match name {
            "member" => Some(Role::Member),
            "chair" => Some(Role::Chair),
            _ => None,
        }
    }

    /// Returns whether it is a member's; a chair is a member.
    pub fn is_member(self) -> bool
        ensures { result ≡ is_member self }
    {
        match self {
            Role::Account => false,
            Role::Member | Role::Chair => true,
        }
    }

    /// Returns whether it is a chair's.
    pub fn is_chair(self) -> bool
        ensures { result ≡ is_chair self }
    {
        match self {
            Role::Account | Role::Member => false,
            Role::Chair => true,
        }
    }

    /// Returns its number in rows, which also ranks it: 0 for an account, 1 for a member, 2 for a chair.
    pub fn number(self) -> u64
        ensures { result ≡ role_number self }
    {
        match self {
            Role::Account => 0,
            Role::Member => 1,
            Role::Chair => 2,
        }
    }

    /// Returns the role to which a row's number appoints, or `None` if no such role has it: no user is appointed to an
    /// account.
    pub(crate) fn from_number(number: u64) -> Option<Role>
        ensures { result ≡ role_numbered number }
    {
        match number {
            1 => Some(Role::Member),
            2 => Some(Role::Chair),
            _ => None,
        }
    }
}
