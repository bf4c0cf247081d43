// SPDX-License-Identifier: Apache-2.0 OR MIT
//! What an accepted command comes to.
ghost use Rattle.std.specs.Prelude.{◌≡◌, ◌≤◌, ◌<◌, [], IfOk, Some, length, slice_get, unwrap_or};
ghost use Rattle.cr_base.specs.Accounts.{lines_of};
ghost use Rattle.cr_base.specs.Drawn.{receipt_of, stamped};
ghost use Rattle.cr_base.specs.Sources.{name_told_by};
ghost use Rattle.cr_judge.specs.Effects.{alone, alone_or_rule, behind, drawn_by, first_of, group_of, stamp_in};

use cr_base::{Coauthors, Entry, PaperNo, Receipt, Role, Rule, Short, Stamp, Stamped, UserNo};
use cr_view::Live;
use std::alloc::{AllocError, Global};

/// What an accepted command comes to: its entries, of which the first has taken its texts. So its receipt and its
/// group come from here, and nothing is judged again.
#[derive(Drop)]
pub struct Effect {
    /// What its entries have alike.
    pub(crate) stamp: Stamp,
    /// The first of them.
    pub(crate) first: Entry,
    /// The others.
    pub(crate) rest: Rest,
}

/// The entries after the first.
#[derive(Drop)]
pub(crate) enum Rest {
    /// None.
    Nothing,
    /// The first user becomes a chair.
    FirstChair {
        /// The user's number.
        user: UserNo,
    },
    /// Each co-author of a new paper.
    Coauthors {
        /// The paper.
        paper: PaperNo,
        /// Its authors beside the submitter, each once, in the order told.
        users: Coauthors,
    },
}

impl Rest {
    /// Returns how many there are.
    fn count(&self) -> usize
        ensures value { result ≡ length (behind self.now) }
        ensures few { result ≤ 19 }
    {
        match self {
            Rest::Nothing => 0,
            Rest::FirstChair { .. } => 1,
            Rest::Coauthors { users, .. } => users.as_slice().len(),
        }
    }

    /// Returns the one at this index.
    fn entry(&self, index: usize) -> Entry
        requires { index < length (behind self.now) }
        ensures { slice_get (behind self.now) index ≡ Some result }
    {
        match self {
            Rest::Nothing => unreachable!(),
            Rest::FirstChair { user } => Entry::Named {
                user: *user,
                role: Role::Chair,
            },
            Rest::Coauthors { paper, users } => Entry::Coauthor {
                paper: *paper,
                user: users.as_slice()[index],
            },
        }
    }
}

impl Effect {
    /// Returns what the command is answered.
    ///
    /// # Cost
    ///
    /// Takes no memory; where it changes a role one read by number.
    pub fn receipt(&self, live: &Live) -> Receipt
        ensures { result ≡ (drawn_by live.now.tables.accounts self.now).receipt }
    {
        receipt_of(live, &self.first)
    }

    /// Returns the entries that the command adds, which have its texts and its content whole.
    ///
    /// # Errors
    ///
    /// If memory runs out.
    pub fn group(self, alloc: Global) -> Result<Vec<Stamped>, AllocError>
        ensures { IfOk result (λ group. group.items ≡ group_of self) }
    {
        let Effect { stamp, first, rest } = self;
        let others = rest.count();
        let mut group = Vec::with_capacity(alloc, others + 1)?;
        group.push_reserved(stamped(&stamp, 0 < others, first));
        for index in 0..others {
            group.push_reserved(stamped(&stamp, index + 1 < others, rest.entry(index)));
        }
        Ok(group)
    }
}

impl Effect {
    /// Gives the metadata of the entries and the first of them, which has the command's texts and its content.
    pub fn into_first(self) -> (Stamp, Entry)
        ensures stamp { result.0 ≡ stamp_in self }
        ensures first { result.1 ≡ first_of self }
    {
        let Effect {
            stamp,
            first,
            rest: _,
        } = self;
        (stamp, first)
    }
}

/// Returns the effect of one entry under this stamp.
pub(crate) fn alone(stamp: &Stamp, entry: Entry) -> Effect
    ensures { result ≡ alone stamp.now entry }
{
    Effect {
        stamp: *stamp,
        first: entry,
        rest: Rest::Nothing,
    }
}

/// Returns the effect of a judgement, which may be a broken rule.
pub(crate) fn alone_or_rule(stamp: &Stamp, judged: Result<Entry, Rule>) -> Result<Effect, Rule>
    ensures { result ≡ alone_or_rule stamp.now judged }
{
    match judged {
        Ok(entry) => Ok(alone(stamp, entry)),
        Err(rule) => Err(rule),
    }
}

/// Returns an entry with its stamp, and whether another follows it.
fn stamped(stamp: &Stamp, more: bool, entry: Entry) -> Stamped
    ensures { result ≡ stamped stamp.now more entry }
{
    Stamped {
        stamp: *stamp,
        more,
        entry,
    }
}

/// Returns what a command is answered whose first entry this is, also where it was added before: what it tells is in
/// the entry, except the name of the user whose role it changes.
///
/// # Cost
///
/// Takes no memory; where it changes one, one read by number.
pub fn receipt_of(live: &Live, first: &Entry) -> Receipt
    ensures { result ≡ receipt_of (name_told_by (lines_of live.now.tables.accounts) first.now) first.now }
{
    receipt_with(first, &name_for(live, first))
}

/// Returns the name of the user whose role the entry changes.
fn name_for(live: &Live, first: &Entry) -> Option<Short>
    ensures { unwrap_or result [] ≡ name_told_by (lines_of live.now.tables.accounts) first.now }
{
    match first {
        Entry::Named { user, .. } => live.name_of(*user),
        Entry::Dismissed { user } => live.name_of(*user),
        _ => None,
    }
}

/// Returns the receipt of this first entry, with that name.
fn receipt_with(first: &Entry, name: &Option<Short>) -> Receipt
    ensures { result ≡ receipt_of (unwrap_or name.now []) first.now }
{
    match first {
        Entry::Registered { user, .. } => Receipt::User { user: *user },
        Entry::Named { role, .. } => Receipt::Named {
            name: given(name),
            role: *role,
        },
        Entry::PhaseSet { phase } => Receipt::Phase { phase: *phase },
        Entry::ModeSet { mode } => Receipt::Mode { mode: *mode },
        Entry::Submitted { paper, .. } => Receipt::Paper { paper: *paper },
        Entry::Coauthor { paper, .. } => Receipt::Changed { paper: *paper },
        Entry::Revised { paper, .. } => Receipt::Changed { paper: *paper },
        Entry::Uploaded { version, .. } => Receipt::Version { version: *version },
        Entry::Withdrawn { paper } => Receipt::Changed { paper: *paper },
        Entry::Conflict { paper, .. } => Receipt::Changed { paper: *paper },
        Entry::Bid { value, .. } => Receipt::Bid { bid: *value },
        Entry::Assigned { ordinal, .. } => Receipt::Label { ordinal: *ordinal },
        Entry::Unassigned { paper, .. } => Receipt::Changed { paper: *paper },
        Entry::Reviewed { version, .. } => Receipt::Version { version: *version },
        Entry::Commented { n, .. } => Receipt::Comment { n: *n },
        Entry::Tagged { paper, .. } => Receipt::Changed { paper: *paper },
        Entry::Decided { paper, .. } => Receipt::Changed { paper: *paper },
        Entry::DeadlineSet { phase, until } => Receipt::Deadline {
            phase: *phase,
            until: *until,
        },
        Entry::Dismissed { .. } => Receipt::Named {
            name: given(name),
            role: Role::Account,
        },
        Entry::Invited { paper, .. } => Receipt::Changed { paper: *paper },
        Entry::Uninvited { paper, .. } => Receipt::Changed { paper: *paper },
        Entry::Responded { paper, .. } => Receipt::Paper { paper: *paper },
    }
}

/// Returns the name; no bytes where there is none.
fn given(name: &Option<Short>) -> Short
    ensures { result ≡ unwrap_or name.now [] }
{
    match name {
        Some(name) => *name,
        None => Short::from_slice(b""),
    }
}
