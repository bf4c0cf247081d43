// SPDX-License-Identifier: Apache-2.0 OR MIT
//! The entries of the history: what accepted commands add.
ghost use Rattle.std.specs.Prelude.{◌≡◌, IfOk};
ghost use Rattle.cr_base.specs.Rows.{kind_of};

use crate::bid::Bid;
use crate::deadline::Deadline;
use crate::form::Form;
use crate::moment::Moment;
use crate::numbers::{Ordinal, PaperNo, UserNo};
use crate::retry::RetryKey;
use crate::tag::Tag;
use crate::texts::{Blob, Short, Text, TwoTexts};
use crate::words::{Decision, Kind, Mode, Phase, Role};
use std::alloc::AllocError;

/// The SHA-256 digest of a secret (FIPS 180-4): 32 bytes.
pub type Digest = [u8; 32];

/// What one accepted command adds to the history, or one part of it.
#[derive(Drop)]
pub enum Entry {
    /// A user has an account from here on.
    Registered {
        /// The new user's number: the count of accounts before it plus 1.
        user: UserNo,
        /// The new user's name, 1 to 32 of `a-z0-9-`, new when it was registered.
        name: Short,
        /// The digest of the user's secret.
        digest: Digest,
    },
    /// A user is a member or a chair from here on.
    Named {
        /// The user appointed.
        user: UserNo,
        /// Member or chair.
        role: Role,
    },
    /// The conference is in another phase from here on.
    PhaseSet {
        /// The phase.
        phase: Phase,
    },
    /// The conference is in another mode from here on.
    ModeSet {
        /// The mode.
        mode: Mode,
    },
    /// A paper is there from here on; its maker is its first author.
    Submitted {
        /// The paper's number: the count of papers before it plus 1.
        paper: PaperNo,
        /// Its title: UTF-8, 1 to 200 bytes, no control characters.
        title: Text,
        /// Its abstract: UTF-8, at most 5,000 bytes.
        abstract_: Text,
    },
    /// A paper has one more author. The entry follows the paper's submission, among the entries of that command.
    Coauthor {
        /// The paper.
        paper: PaperNo,
        /// The author: neither who submitted it nor one who was told before.
        user: UserNo,
    },
    /// A paper has other texts from here on.
    Revised {
        /// The paper.
        paper: PaperNo,
        /// Its title: UTF-8, 1 to 200 bytes, no control characters.
        title: Text,
        /// Its abstract: UTF-8, at most 5,000 bytes.
        abstract_: Text,
    },
    /// A paper has one more version of its content from here on.
    Uploaded {
        /// The paper.
        paper: PaperNo,
        /// The version's number: the count of the paper's versions before it plus 1.
        version: u64,
        /// Its content: any bytes, at most 4,194,304.
        content: Blob,
    },
    /// A paper is withdrawn from here on.
    Withdrawn {
        /// The paper.
        paper: PaperNo,
    },
    /// A user's declared conflict with a paper is on or off from here on.
    Conflict {
        /// The paper.
        paper: PaperNo,
        /// The user in conflict with it, or no longer.
        user: UserNo,
        /// True if the user is in conflict.
        on: bool,
    },
    /// A member has bid on a paper. Their last bid on it counts.
    Bid {
        /// The paper.
        paper: PaperNo,
        /// How much.
        value: Bid,
    },
    /// A member, or an external of the paper, reviews it from here on, under a label of their own.
    Assigned {
        /// The paper.
        paper: PaperNo,
        /// The reviewer, who is unconflicted.
        user: UserNo,
        /// The kind of assignment.
        kind: Kind,
        /// The ordinal of the reviewer's label: the count of the paper's assignments before it plus 1.
        ordinal: Ordinal,
    },
    /// A reviewer no longer reviews a paper. Their label isn't used again.
    Unassigned {
        /// The paper.
        paper: PaperNo,
        /// The user who reviewed it.
        user: UserNo,
        /// The ordinal of the reviewer's label.
        ordinal: Ordinal,
    },
    /// A reviewer has written a version of their review of a paper. All versions count, each by when it was written.
    Reviewed {
        /// The paper.
        paper: PaperNo,
        /// The ordinal of the label under which the user reviews it.
        ordinal: Ordinal,
        /// The form's number: the count of the label's forms before it plus 1.
        version: u64,
        /// The version of the review.
        form: Form,
    },
    /// A member has commented on a paper.
    Commented {
        /// The paper.
        paper: PaperNo,
        /// The comment's number: the count of comments on the paper before it plus 1.
        n: u64,
        /// The ordinal of the label under which the user reviews the paper; `None` if they don't.
        ordinal: Option<Ordinal>,
        /// The comment: UTF-8, 1 to 10,000 bytes.
        text: Text,
    },
    /// A tag is on or off at a paper from here on; a private one only for the user who set it.
    Tagged {
        /// The paper.
        paper: PaperNo,
        /// The tag.
        tag: Tag,
        /// True if it is on.
        on: bool,
    },
    /// The committee has decided on a paper. The last decision counts.
    Decided {
        /// The paper.
        paper: PaperNo,
        /// What was decided.
        decision: Decision,
    },
    /// A phase has another deadline from here on, or none. The last such entry on a phase counts.
    DeadlineSet {
        /// The phase: submission, bidding, reviewing, response or discussion.
        phase: Phase,
        /// Until when what the phase opens may be done; `None` if it has no deadline any more.
        until: Option<Deadline>,
    },
    /// A user is no member and no chair from here on, but has an account, as before their appointment.
    Dismissed {
        /// The user dismissed.
        user: UserNo,
    },
    /// A user who is no member may read and review a paper from here on, as an external of it.
    Invited {
        /// The paper.
        paper: PaperNo,
        /// The user invited.
        user: UserNo,
    },
    /// A user's invitation to a paper is taken back from here on.
    Uninvited {
        /// The paper.
        paper: PaperNo,
        /// Whose invitation it was.
        user: UserNo,
    },
    /// A paper's authors have responded to its reviews, which they do once.
    Responded {
        /// The paper.
        paper: PaperNo,
        /// What they wrote: UTF-8, 1 to 10,000 bytes.
        text: Text,
    },
}

/// The kind of an entry.
#[derive(Clone, Copy, PartialEq, Eq)]
pub enum EntryKind {
    /// An [`Entry::Registered`].
    Registered,
    /// An [`Entry::Named`].
    Named,
    /// An [`Entry::PhaseSet`].
    PhaseSet,
    /// An [`Entry::ModeSet`].
    ModeSet,
    /// An [`Entry::Submitted`].
    Submitted,
    /// An [`Entry::Coauthor`].
    Coauthor,
    /// An [`Entry::Revised`].
    Revised,
    /// An [`Entry::Uploaded`].
    Uploaded,
    /// An [`Entry::Withdrawn`].
    Withdrawn,
    /// An [`Entry::Conflict`].
    Conflict,
    /// An [`Entry::Bid`].
    Bid,
    /// An [`Entry::Assigned`].
    Assigned,
    /// An [`Entry::Unassigned`].
    Unassigned,
    /// An [`Entry::Reviewed`].
    Reviewed,
    /// An [`Entry::Commented`].
    Commented,
    /// An [`Entry::Tagged`].
    Tagged,
    /// An [`Entry::Decided`].
    Decided,
    /// An [`Entry::DeadlineSet`].
    DeadlineSet,
    /// An [`Entry::Dismissed`].
    Dismissed,
    /// An [`Entry::Invited`].
    Invited,
    /// An [`Entry::Uninvited`].
    Uninvited,
    /// An [`Entry::Responded`].
    Responded,
}

/// What a command's entries have alike, beside what each says: who gave it, when, and by which number.
#[derive(Clone, Copy, PartialEq, Eq)]
pub struct Stamp {
    /// The user who gave the command; of a registration the new user.
    pub maker: UserNo,
    /// The timestamp of the command's request.
    pub at: Moment,
    /// The number that its client gave the command, with the mark of its request; `None` if it gave none, as of every
    /// registration.
    pub key: Option<RetryKey>,
}

/// An entry with the metadata of its command.
#[derive(Drop)]
pub struct Stamped {
    /// The metadata of its command.
    pub stamp: Stamp,
    /// True if another entry of the same command follows.
    pub more: bool,
    /// The entry.
    pub entry: Entry,
}

/// What is kept of a registered user.
#[derive(Clone, Copy)]
pub struct Account {
    /// The user's name.
    pub name: Short,
    /// The digest of the user's secret.
    pub digest: Digest,
    /// The user's role.
    pub role: Role,
}

impl Entry {
    /// Returns its kind.
    pub fn kind(&self) -> EntryKind
        ensures { result ≡ kind_of self.now }
    {
        match self {
            Entry::Registered { .. } => EntryKind::Registered,
            Entry::Named { .. } => EntryKind::Named,
            Entry::PhaseSet { .. } => EntryKind::PhaseSet,
            Entry::ModeSet { .. } => EntryKind::ModeSet,
            Entry::Submitted { .. } => EntryKind::Submitted,
            Entry::Coauthor { .. } => EntryKind::Coauthor,
            Entry::Revised { .. } => EntryKind::Revised,
            Entry::Uploaded { .. } => EntryKind::Uploaded,
            Entry::Withdrawn { .. } => EntryKind::Withdrawn,
            Entry::Conflict { .. } => EntryKind::Conflict,
            Entry::Bid { .. } => EntryKind::Bid,
            Entry::Assigned { .. } => EntryKind::Assigned,
            Entry::Unassigned { .. } => EntryKind::Unassigned,
            Entry::Reviewed { .. } => EntryKind::Reviewed,
            Entry::Commented { .. } => EntryKind::Commented,
            Entry::Tagged { .. } => EntryKind::Tagged,
            Entry::Decided { .. } => EntryKind::Decided,
            Entry::DeadlineSet { .. } => EntryKind::DeadlineSet,
            Entry::Dismissed { .. } => EntryKind::Dismissed,
            Entry::Invited { .. } => EntryKind::Invited,
            Entry::Uninvited { .. } => EntryKind::Uninvited,
            Entry::Responded { .. } => EntryKind::Responded,
        }
    }

    /// Returns an equal one, which shares its texts.
    ///
    /// # Errors
    ///
    /// If memory runs out.
    pub fn copy(&self) -> Result<Entry, AllocError>
        ensures { IfOk result (λ entry. entry ≡ self.now) }
    {
        match self {
            Entry::Registered { user, name, digest } => Ok(Entry::Registered {
                user: *user,
                name: *name,
                digest: *digest,
            }),
            Entry::Named { user, role } => Ok(Entry::Named {
                user: *user,
                role: *role,
            }),
            Entry::PhaseSet { phase } => Ok(Entry::PhaseSet { phase: *phase }),
            Entry::ModeSet { mode } => Ok(Entry::ModeSet { mode: *mode }),
            Entry::Submitted {
                paper,
                title,
                abstract_,
            } => {
                let texts = TwoTexts::copies(title, abstract_)?;
                Ok(Entry::Submitted {
                    paper: *paper,
                    title: texts.first,
                    abstract_: texts.second,
                })
            }
            Entry::Coauthor { paper, user } => Ok(Entry::Coauthor {
                paper: *paper,
                user: *user,
            }),
            Entry::Revised {
                paper,
                title,
                abstract_,
            } => {
                let texts = TwoTexts::copies(title, abstract_)?;
                Ok(Entry::Revised {
                    paper: *paper,
                    title: texts.first,
                    abstract_: texts.second,
                })
            }
            Entry::Uploaded {
                paper,
                version,
                content,
            } => Ok(Entry::Uploaded {
                paper: *paper,
                version: *version,
                content: content.copy()?,
            }),
            Entry::Withdrawn { paper } => Ok(Entry::Withdrawn { paper: *paper }),
            Entry::Conflict { paper, user, on } => Ok(Entry::Conflict {
                paper: *paper,
                user: *user,
                on: *on,
            }),
            Entry::Bid { paper, value } => Ok(Entry::Bid {
                paper: *paper,
                value: *value,
            }),
            Entry::Assigned {
                paper,
                user,
                kind,
                ordinal,
            } => Ok(Entry::Assigned {
                paper: *paper,
                user: *user,
                kind: *kind,
                ordinal: *ordinal,
            }),
            Entry::Unassigned {
                paper,
                user,
                ordinal,
            } => Ok(Entry::Unassigned {
                paper: *paper,
                user: *user,
                ordinal: *ordinal,
            }),
            Entry::Reviewed {
                paper,
                ordinal,
                version,
                form,
            } => Ok(Entry::Reviewed {
                paper: *paper,
                ordinal: *ordinal,
                version: *version,
                form: form.copy()?,
            }),
            Entry::Commented {
                paper,
                n,
                ordinal,
                text,
            } => Ok(Entry::Commented {
                paper: *paper,
                n: *n,
                ordinal: *ordinal,
                text: text.copy()?,
            }),
            Entry::Tagged { paper, tag, on } => Ok(Entry::Tagged {
                paper: *paper,
                tag: *tag,
                on: *on,
            }),
            Entry::Decided { paper, decision } => Ok(Entry::Decided {
                paper: *paper,
                decision: *decision,
            }),
            Entry::DeadlineSet { phase, until } => Ok(Entry::DeadlineSet {
                phase: *phase,
                until: *until,
            }),
            Entry::Dismissed { user } => Ok(Entry::Dismissed { user: *user }),
            Entry::Invited { paper, user } => Ok(Entry::Invited {
                paper: *paper,
                user: *user,
            }),
            Entry::Uninvited { paper, user } => Ok(Entry::Uninvited {
                paper: *paper,
                user: *user,
            }),
            Entry::Responded { paper, text } => Ok(Entry::Responded {
                paper: *paper,
                text: text.copy()?,
            }),
        }
    }
}

impl Stamped {
    /// Returns an equal one, which shares its texts.
    ///
    /// # Errors
    ///
    /// If memory runs out.
    pub fn copy(&self) -> Result<Stamped, AllocError>
        ensures { IfOk result (λ stamped. stamped ≡ self.now) }
    {
        Ok(Stamped {
            stamp: self.stamp,
            more: self.more,
            entry: self.entry.copy()?,
        })
    }
}
