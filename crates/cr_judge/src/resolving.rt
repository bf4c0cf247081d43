// SPDX-License-Identifier: Apache-2.0 OR MIT
//! Whom a command names: each user told by a name is looked up once, and from here on users go by number.
ghost use Rattle.std.specs.Prelude.{◌≡◌, ◌≤◌, length};
ghost use Rattle.cr_base.specs.Accounts.{lines_of};
ghost use Rattle.cr_base.specs.Bulk.{resolve_row};
ghost use Rattle.cr_base.specs.Resolving.{all_found, resolve, resolve_call};
ghost use Rattle.cr_base.specs.Sources.{user_among, users_among};
ghost use Rattle.cr_judge.specs.Callers.{HasFewAuthors, NamesUser};

use cr_base::{
    Call, Coauthors, Command, ResolvedCall, ResolvedCommand, ResolvedRow, RowCommand, Short, UserNo,
};
use cr_view::Live;

/// Looks up the users that a call's command names. A submission names at most 19 co-authors.
///
/// # Cost
///
/// Takes no memory: texts and content are moved. At most one look-up for each name.
pub fn resolve_call(live: &Live, call: Call) -> ResolvedCall
    requires { HasFewAuthors call.command }
    ensures { result ≡ resolve_call (lines_of live.now.tables.accounts) call }
{
    let Call {
        caller,
        at,
        key,
        command,
    } = call;
    ResolvedCall {
        caller,
        at,
        key,
        command: resolve(live, command),
    }
}

/// Looks up the users that a command names.
fn resolve(live: &Live, command: Command) -> ResolvedCommand
    requires { HasFewAuthors command }
    ensures { result ≡ resolve (lines_of live.now.tables.accounts) command }
{
    match command {
        Command::Register { name, digest } => ResolvedCommand::Register { name, digest },
        Command::SetPhase { phase } => ResolvedCommand::SetPhase { phase },
        Command::Submit {
            title,
            abstract_,
            authors,
        } => {
            let authors = all_found(live, authors.as_slice());
            ResolvedCommand::Submit {
                title,
                abstract_,
                authors,
            }
        }
        Command::Revise {
            paper,
            title,
            abstract_,
        } => ResolvedCommand::Revise {
            paper,
            title,
            abstract_,
        },
        Command::Upload { paper, content } => ResolvedCommand::Upload { paper, content },
        Command::Withdraw { paper } => ResolvedCommand::Withdraw { paper },
        Command::SetMode { mode } => ResolvedCommand::SetMode { mode },
        Command::Bid { paper, value } => ResolvedCommand::Bid { paper, value },
        Command::Review { paper, form } => ResolvedCommand::Review { paper, form },
        Command::Respond { paper, text } => ResolvedCommand::Respond { paper, text },
        Command::Comment { paper, text } => ResolvedCommand::Comment { paper, text },
        Command::Tag { paper, tag, on } => ResolvedCommand::Tag { paper, tag, on },
        Command::Decide { paper, decision } => ResolvedCommand::Decide { paper, decision },
        Command::SetDeadline { phase, until } => ResolvedCommand::SetDeadline { phase, until },
        other => resolve_user(live, other),
    }
}

/// Looks up the user that a command names, of one that names one user.
fn resolve_user(live: &Live, command: Command) -> ResolvedCommand
    requires { NamesUser command }
    ensures { result ≡ resolve (lines_of live.now.tables.accounts) command }
{
    match command {
        Command::Name { user, role } => ResolvedCommand::Name {
            user: user_of(live, &user),
            role,
        },
        Command::SetConflict { paper, user, on } => ResolvedCommand::SetConflict {
            paper,
            user: user_of(live, &user),
            on,
        },
        Command::Assign { paper, user, kind } => ResolvedCommand::Assign {
            paper,
            user: user_of(live, &user),
            kind,
        },
        Command::Unassign { paper, user } => ResolvedCommand::Unassign {
            paper,
            user: user_of(live, &user),
        },
        Command::Dismiss { user } => ResolvedCommand::Dismiss {
            user: user_of(live, &user),
        },
        Command::Invite { paper, user } => ResolvedCommand::Invite {
            paper,
            user: user_of(live, &user),
        },
        Command::Uninvite { paper, user } => ResolvedCommand::Uninvite {
            paper,
            user: user_of(live, &user),
        },
        other => {
            drop(other);
            unreachable!()
        }
    }
}

/// Looks up the user that the command of a bulk's row names.
///
/// # Cost
///
/// One look-up if the row names a user.
pub fn resolve_row(live: &Live, command: RowCommand) -> ResolvedRow
    ensures { result ≡ resolve_row (lines_of live.now.tables.accounts) command }
{
    match command {
        RowCommand::Conflict { paper, user, on } => ResolvedRow::Conflict {
            paper,
            user: user_of(live, &user),
            on,
        },
        RowCommand::Assign { paper, user, kind } => ResolvedRow::Assign {
            paper,
            user: user_of(live, &user),
            kind,
        },
        RowCommand::Unassign { paper, user } => ResolvedRow::Unassign {
            paper,
            user: user_of(live, &user),
        },
        RowCommand::Tag { paper, tag, on } => ResolvedRow::Tag { paper, tag, on },
    }
}

/// Returns the user who registered the name; `None` if no user did, or no name is given.
///
/// # Cost
///
/// One look-up by name.
fn user_of(live: &Live, name: &Option<Short>) -> Option<UserNo>
    ensures { result ≡ user_among (lines_of live.now.tables.accounts) name.now }
{
    match name {
        Some(name) => live.number_of(name),
        None => None,
    }
}

/// Returns the users who registered these names, in their order; `None` if one of them isn't there.
///
/// # Cost
///
/// At most one look-up for each name.
fn all_found(live: &Live, names: &[Option<Short>]) -> Option<Coauthors>
    requires { length names.now ≤ 19 }
    ensures { result ≡ all_found (users_among (lines_of live.now.tables.accounts) names.now) }
{
    let mut users = Coauthors::none();
    'names: for name in names {
        let Some(user) = user_of(live, name) else {
            return None;
        };
        users.push(user);
    }
    Some(users)
}
