// SPDX-License-Identifier: Apache-2.0 OR MIT
//! What earlier entries of the same command make of a user's ties to a paper.
ghost use Rattle.std.specs.Prelude.{◌≡◌, Some, fold};
ghost use Rattle.std.specs.List.{list_any};
ghost use Rattle.cr_base.specs.History.{author_told, conflict_told};
ghost use Rattle.cr_base.specs.Lists.{is_number, last_or};

use cr_base::{Entry, PaperNo, Stamped, UserNo};

/// Returns whether the entry makes the user an author of the paper.
fn gives_author(stamped: &Stamped, user: UserNo, paper: PaperNo) -> bool
    ensures { result ≡ list_any (is_number (Some user)) (author_told paper stamped.now.stamp.maker stamped.now.entry) }
{
    match &stamped.entry {
        Entry::Submitted { paper: made, .. } => {
            made.number() == paper.number() && stamped.stamp.maker.number() == user.number()
        }
        Entry::Coauthor {
            paper: of,
            user: author,
        } => of.number() == paper.number() && author.number() == user.number(),
        _ => false,
    }
}

/// Returns whether one of the entries makes the user an author of the paper.
///
/// # Cost
///
/// A walk over them.
pub(crate) fn give_author(earlier: &[Stamped], user: UserNo, paper: PaperNo) -> bool
    ensures { result
        ≡ list_any (λ e. list_any (is_number (Some user)) (author_told paper e.stamp.maker e.entry)) earlier.now }
{
    earlier
        .iter()
        .any(|stamped| gives_author(stamped, user, paper))
}

/// Returns whether the user is declared in conflict with the paper after the entry, where `on` says so of before.
fn declared_after(on: bool, stamped: &Stamped, user: UserNo, paper: PaperNo) -> bool
    ensures { result ≡ last_or on (conflict_told (Some user) paper stamped.now.entry) }
{
    match &stamped.entry {
        Entry::Conflict {
            paper: with,
            user: who,
            on: now,
        } if with.number() == paper.number() && who.number() == user.number() => *now,
        _ => on,
    }
}

/// Returns whether the user is in declared conflict with the paper after all of the entries.
///
/// # Cost
///
/// A walk over them.
pub(crate) fn declared_behind(on: bool, earlier: &[Stamped], user: UserNo, paper: PaperNo) -> bool
    ensures { result ≡ fold (λ b e. last_or b (conflict_told (Some user) paper e.entry)) on earlier.now }
{
    earlier.iter().fold(on, |told, stamped| {
        declared_after(told, stamped, user, paper)
    })
}
