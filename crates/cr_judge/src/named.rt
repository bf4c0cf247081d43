// SPDX-License-Identifier: Apache-2.0 OR MIT
//! What a command names, as the rules ask of it: a paper, and a user, by the tables behind earlier entries of the same
//! bulk, none of which makes a paper, a user or an author, or changes a role or the phase. Where there is no such
//! paper or no such user, none goes on in its place, and the rules tell that.
ghost use Rattle.std.specs.Prelude.{◌≡◌, ◌&&◌, not, false, IsSome, Some};
ghost use Rattle.std.specs.Option.{option_and_then, option_map_or};
ghost use Rattle.cr_base.specs.Invites.{is_invited_in};
ghost use Rattle.cr_base.specs.Lists.{at_some};
ghost use Rattle.cr_base.specs.Papers.{is_withdrawn_at};
ghost use Rattle.cr_base.specs.Seats.{ordinal_in};
ghost use Rattle.cr_base.specs.Sources.{standing_at};
ghost use Rattle.cr_base.specs.Stage.{is_late_in};
ghost use Rattle.cr_base.specs.Tables.{tables_from};
ghost use Rattle.cr_base.specs.Ties.{is_conflicted_in};
ghost use Rattle.cr_base.specs.Words.{is_member};
ghost use Rattle.cr_judge.specs.Named.{named_at, there_in, target_with};
ghost use Rattle.cr_judge.specs.Rows.{AreEarlier};

use cr_base::{Ordinal, PaperNo, Role, Stamp, Stamped, Standing, Steps, UserNo};
use cr_view::Live;

/// Returns what is there, where something is.
pub(crate) fn held<T: Copy>(option: &Option<T>) -> T
    requires { IsSome option.now }
    ensures { option.now ≡ Some result }
{
    match option {
        Some(value) => *value,
        None => unreachable!(),
    }
}

/// The paper that a command names.
#[derive(Clone, Copy)]
pub(crate) struct Named {
    /// The caller's standing at it.
    pub(crate) by: Standing,
    /// Its number, if it is there.
    pub(crate) paper: Option<PaperNo>,
    /// True if it was withdrawn.
    pub(crate) withdrawn: bool,
}

/// Returns the paper of this number, if it is there.
pub(crate) fn named_paper(
    live: &Live,
    maker: UserNo,
    paper: &Option<PaperNo>,
    earlier: &[Stamped],
) -> Named
    requires { AreEarlier live.now.tables earlier.now }
    ensures { let t = tables_from live.now.tables earlier.now in
        result ≡ named_at t maker (there_in t.papers paper.now) }
{
    let paper = there(live, paper);
    Named {
        by: standing_behind(live, &Some(maker), &paper, earlier),
        withdrawn: is_withdrawn(live, &paper),
        paper,
    }
}

/// Returns the number, where there is a paper of it.
fn there(live: &Live, paper: &Option<PaperNo>) -> Option<PaperNo>
    ensures { result ≡ there_in live.now.tables.papers paper.now }
{
    let Some(number) = paper else {
        return None;
    };
    if !live.paper_table().has(*number) {
        return None;
    }
    Some(*number)
}

/// Returns whether it was withdrawn; false for none.
fn is_withdrawn(live: &Live, paper: &Option<PaperNo>) -> bool
    ensures { result ≡ at_some (is_withdrawn_at live.now.tables.papers) paper.now }
{
    match paper {
        Some(paper) => live
            .paper_table()
            .is_withdrawn(*paper, &mut Steps::uncounted()),
        None => false,
    }
}

/// Returns whether it is too late, at the moment of this stamp, for what the phase opens.
///
/// # Cost
///
/// Takes no memory; two reads.
pub(crate) fn is_late(live: &Live, stamp: &Stamp) -> bool
    ensures { result ≡ is_late_in live.now.tables.stage stamp.now.at }
{
    live.stage_table().is_late(stamp.at)
}

/// Returns what a user is to the conference and to the paper.
///
/// # Cost
///
/// Takes no memory; a few reads by number, two walks over the paper's authors, one over its seats, a binary search
/// among its conflicts and one among its invitations, and four walks over the earlier entries.
fn standing_behind(
    live: &Live,
    user: &Option<UserNo>,
    paper: &Option<PaperNo>,
    earlier: &[Stamped],
) -> Standing
    requires { AreEarlier live.now.tables earlier.now }
    ensures { result ≡ standing_at (tables_from live.now.tables earlier.now) user.now paper.now }
{
    let stage = live.stage_table();
    let phase = stage.phase(&mut Steps::uncounted());
    let mode = stage.mode(&mut Steps::uncounted());
    let role = live.account_table().standing_for(user);
    Standing {
        phase,
        mode,
        role,
        author: live.is_author(user, paper),
        conflicted: is_conflicted(live, user, paper, earlier),
        reviewer: ordinal_of(live, user, paper, earlier).is_some(),
        external: is_external(live, user, role, paper, earlier),
    }
}

/// Returns whether the user is in conflict with the paper; false for an unauthenticated caller, and if there is no
/// paper.
pub(crate) fn is_conflicted(
    live: &Live,
    user: &Option<UserNo>,
    paper: &Option<PaperNo>,
    earlier: &[Stamped],
) -> bool
    requires { AreEarlier live.now.tables earlier.now }
    ensures { result
        ≡ at_some (is_conflicted_in (tables_from live.now.tables earlier.now).ties user.now) paper.now }
{
    let Some(user) = user else {
        return false;
    };
    match paper {
        Some(paper) => {
            live.tie_table()
                .is_conflicted(*user, *paper, earlier, &mut Steps::uncounted())
        }
        None => false,
    }
}

/// Returns whether the user, who has this role, is an external of the paper; false if there is no user or no paper.
fn is_external(
    live: &Live,
    user: &Option<UserNo>,
    role: Role,
    paper: &Option<PaperNo>,
    earlier: &[Stamped],
) -> bool
    ensures { result ≡ at_some (λ p. not (is_member role)
        && is_invited_in (tables_from live.now.tables earlier.now).invites user.now p) paper.now }
{
    let Some(user) = user else {
        return false;
    };
    match paper {
        Some(paper) => live
            .seat_table()
            .is_external_behind(*user, *paper, role, earlier),
        None => false,
    }
}

/// Returns whether a user that a command names, with this role, is an external of the paper.
pub(crate) fn is_external_target(
    live: &Live,
    target: &Option<(UserNo, Role)>,
    paper: &Option<PaperNo>,
    earlier: &[Stamped],
) -> bool
    ensures { result ≡ option_map_or (λ t. at_some (λ p. not (is_member t.1)
        && is_invited_in (tables_from live.now.tables earlier.now).invites (Some t.0) p) paper.now) target.now false }
{
    match target {
        Some((user, role)) => is_external(live, &Some(*user), *role, paper, earlier),
        None => false,
    }
}

/// Returns the ordinal of the label under which the user reviews the paper; `None` for an unauthenticated caller, and
/// if there is no paper.
pub(crate) fn ordinal_of(
    live: &Live,
    user: &Option<UserNo>,
    paper: &Option<PaperNo>,
    earlier: &[Stamped],
) -> Option<Ordinal>
    requires { AreEarlier live.now.tables earlier.now }
    ensures { result
        ≡ option_and_then (ordinal_in (tables_from live.now.tables earlier.now).seats user.now) paper.now }
{
    let Some(user) = user else {
        return None;
    };
    match paper {
        Some(paper) => live.seat_table().ordinal_behind(*user, *paper, earlier),
        None => None,
    }
}

/// Returns the user, if they have registered, with their role.
///
/// # Cost
///
/// One read by number.
pub(crate) fn target_of(live: &Live, user: &Option<UserNo>) -> Option<(UserNo, Role)>
    ensures { result ≡ target_with live.now.tables.accounts user.now }
{
    let Some(user) = user else {
        return None;
    };
    match live.account_table().role_given(*user) {
        Some(role) => Some((*user, role)),
        None => None,
    }
}
