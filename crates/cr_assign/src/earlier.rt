// SPDX-License-Identifier: Apache-2.0 OR MIT
//! What earlier entries of the same command make of the seats of a paper.
ghost use Rattle.std.specs.Prelude.{◌≡◌, Some, not, fold, count_by};
ghost use Rattle.cr_base.specs.History.{assigned_told, invite_told, ordinal_told};
ghost use Rattle.cr_base.specs.Lists.{is_nothing, last_or};

use cr_base::{Entry, Ordinal, PaperNo, Stamped, UserNo};

/// Returns the ordinal under which the user reviews the paper after the entry, where `held` is the one before.
fn seat_after(
    held: Option<Ordinal>,
    stamped: &Stamped,
    user: UserNo,
    paper: PaperNo,
) -> Option<Ordinal>
    ensures { result ≡ last_or held (ordinal_told (Some user) paper stamped.now.entry) }
{
    match &stamped.entry {
        Entry::Assigned {
            paper: to,
            user: who,
            ordinal,
            ..
        } if to.number() == paper.number() && who.number() == user.number() => Some(*ordinal),
        Entry::Unassigned {
            paper: from,
            user: who,
            ..
        } if from.number() == paper.number() && who.number() == user.number() => None,
        _ => held,
    }
}

/// Returns the ordinal under which the user reviews the paper after all of the entries.
///
/// # Cost
///
/// A walk over them.
pub(crate) fn seat_behind(
    held: Option<Ordinal>,
    earlier: &[Stamped],
    user: UserNo,
    paper: PaperNo,
) -> Option<Ordinal>
    ensures { result ≡ fold (λ o e. last_or o (ordinal_told (Some user) paper e.entry)) held earlier.now }
{
    earlier.iter().fold(held, |last, stamped| {
        seat_after(last, stamped, user, paper)
    })
}

/// Returns whether the entry gives somebody a label of the paper.
fn gives_label(stamped: &Stamped, paper: PaperNo) -> bool
    ensures { result ≡ not (is_nothing (assigned_told paper stamped.now.entry)) }
{
    match &stamped.entry {
        Entry::Assigned { paper: to, .. } => to.number() == paper.number(),
        _ => false,
    }
}

/// Returns how many of the entries do.
///
/// # Cost
///
/// A walk over them.
pub(crate) fn labels_given(earlier: &[Stamped], paper: PaperNo) -> usize
    ensures { result ≡ count_by (λ e. not (is_nothing (assigned_told paper e.entry))) earlier.now }
{
    earlier
        .iter()
        .filter(|stamped| gives_label(stamped, paper))
        .count()
}

/// Returns whether the user is invited to the paper after the entry, where `invited` says it of before.
fn invited_after(invited: bool, stamped: &Stamped, user: UserNo, paper: PaperNo) -> bool
    ensures { result ≡ last_or invited (invite_told (Some user) paper stamped.now.entry) }
{
    match &stamped.entry {
        Entry::Invited {
            paper: to,
            user: who,
        } if to.number() == paper.number() && who.number() == user.number() => true,
        Entry::Uninvited {
            paper: from,
            user: who,
        } if from.number() == paper.number() && who.number() == user.number() => false,
        _ => invited,
    }
}

/// Returns whether the user is invited to the paper after all of the entries.
///
/// # Cost
///
/// A walk over them.
pub(crate) fn invited_behind(
    invited: bool,
    earlier: &[Stamped],
    user: UserNo,
    paper: PaperNo,
) -> bool
    ensures { result ≡ fold (λ b e. last_or b (invite_told (Some user) paper e.entry)) invited earlier.now }
{
    earlier.iter().fold(invited, |last, stamped| {
        invited_after(last, stamped, user, paper)
    })
}
