// SPDX-License-Identifier: Apache-2.0 OR MIT
//! What is judged of a paper, and of a user who is named with it: conflicts, bids, assignments and invitations.
ghost use Rattle.std.specs.Prelude.{◌≡◌};
ghost use Rattle.cr_base.specs.Calls.{resolved_by};
ghost use Rattle.cr_base.specs.Judging.{resolved_by_role};
ghost use Rattle.cr_base.specs.Tables.{tables_from};
ghost use Rattle.cr_base.specs.declared.resolved.ResolvedCommand.TheVariants as commands;
ghost use Rattle.cr_judge.specs.Effects.{drawn_or_rule, entry_or_rule};
ghost use Rattle.cr_judge.specs.Named.{written_at};
ghost use Rattle.cr_judge.specs.Rows.{AreEarlier};

use crate::effect::{Effect, alone};
use crate::named::{
    held, is_conflicted, is_external_target, is_late, named_paper, ordinal_of, target_of,
};
use cr_base::{Bid, Entry, Kind, PaperNo, Rule, Stamp, Stamped, Steps, UserNo};
use cr_view::Live;

pub(crate) fn bid(
    live: &Live,
    stamp: &Stamp,
    paper: &Option<PaperNo>,
    value: Bid,
) -> Result<Effect, Rule>
    ensures { drawn_or_rule live.now.tables.accounts result
        ≡ resolved_by_role live.now.tables (resolved_by stamp.now (commands.Bid paper.now value)) }
{
    let named = named_paper(live, stamp.maker, paper, &[]);
    let late = is_late(live, stamp);
    live.tie_table()
        .judge_bid(&named.by, &named.paper, named.withdrawn, late)?;
    let paper = held(&named.paper);
    Ok(alone(stamp, Entry::Bid { paper, value }))
}

/// Returns the entry that turns on or off the conflict of a user, after earlier entries of the same bulk.
pub(crate) fn conflict(
    live: &Live,
    stamp: &Stamp,
    paper: &Option<PaperNo>,
    user: &Option<UserNo>,
    on: bool,
    earlier: &[Stamped],
) -> Result<Entry, Rule>
    requires { AreEarlier live.now.tables earlier.now }
    ensures { entry_or_rule live.now.tables.accounts stamp.now result
        ≡ resolved_by_role (tables_from live.now.tables earlier.now)
        (resolved_by stamp.now (commands.SetConflict paper.now user.now on)) }
{
    let named = named_paper(live, stamp.maker, paper, earlier);
    let target = target_of(live, user);
    let late = is_late(live, stamp);
    live.tie_table().judge_conflict(
        &named.by,
        stamp.maker,
        &named.paper,
        &target,
        is_external_target(live, &target, &named.paper, earlier),
        on,
        named.withdrawn,
        earlier,
        late,
    )?;
    let paper = held(&named.paper);
    let user = held(user);
    Ok(Entry::Conflict { paper, user, on })
}

/// Returns the entry that assigns a user, after earlier entries of the same bulk.
pub(crate) fn assignment(
    live: &Live,
    stamp: &Stamp,
    paper: &Option<PaperNo>,
    user: &Option<UserNo>,
    kind: Kind,
    earlier: &[Stamped],
) -> Result<Entry, Rule>
    requires { AreEarlier live.now.tables earlier.now }
    ensures { entry_or_rule live.now.tables.accounts stamp.now result
        ≡ resolved_by_role (tables_from live.now.tables earlier.now)
        (resolved_by stamp.now (commands.Assign paper.now user.now kind)) }
{
    let named = named_paper(live, stamp.maker, paper, earlier);
    let ordinal = live.seat_table().judge_assign(
        &named.by,
        &named.paper,
        &target_of(live, user),
        named.withdrawn,
        is_conflicted(live, user, &named.paper, earlier),
        earlier,
    )?;
    let paper = held(&named.paper);
    let user = held(user);
    Ok(Entry::Assigned {
        paper,
        user,
        kind,
        ordinal,
    })
}

/// Returns the entry that takes a user off the paper, after earlier entries of the same bulk.
pub(crate) fn unassignment(
    live: &Live,
    stamp: &Stamp,
    paper: &Option<PaperNo>,
    user: &Option<UserNo>,
    earlier: &[Stamped],
) -> Result<Entry, Rule>
    requires { AreEarlier live.now.tables earlier.now }
    ensures { entry_or_rule live.now.tables.accounts stamp.now result
        ≡ resolved_by_role (tables_from live.now.tables earlier.now)
        (resolved_by stamp.now (commands.Unassign paper.now user.now)) }
{
    let named = named_paper(live, stamp.maker, paper, earlier);
    let ordinal = live.seat_table().judge_unassign(
        &named.by,
        &named.paper,
        &target_of(live, user),
        named.withdrawn,
        has_written(live, user, &named.paper, earlier),
        earlier,
    )?;
    let paper = held(&named.paper);
    let user = held(user);
    Ok(Entry::Unassigned {
        paper,
        user,
        ordinal,
    })
}

/// Returns the entry that invites a user to the paper.
pub(crate) fn invitation(
    live: &Live,
    stamp: &Stamp,
    paper: &Option<PaperNo>,
    user: &Option<UserNo>,
) -> Result<Effect, Rule>
    ensures { drawn_or_rule live.now.tables.accounts result
        ≡ resolved_by_role live.now.tables (resolved_by stamp.now (commands.Invite paper.now user.now)) }
{
    let named = named_paper(live, stamp.maker, paper, &[]);
    live.seat_table().judge_invite(
        &named.by,
        &named.paper,
        &target_of(live, user),
        named.withdrawn,
        is_conflicted(live, user, &named.paper, &[]),
    )?;
    let paper = held(&named.paper);
    let user = held(user);
    Ok(alone(stamp, Entry::Invited { paper, user }))
}

/// Returns the entry that takes a user's invitation back.
pub(crate) fn uninvitation(
    live: &Live,
    stamp: &Stamp,
    paper: &Option<PaperNo>,
    user: &Option<UserNo>,
) -> Result<Effect, Rule>
    ensures { drawn_or_rule live.now.tables.accounts result
        ≡ resolved_by_role live.now.tables (resolved_by stamp.now (commands.Uninvite paper.now user.now)) }
{
    let named = named_paper(live, stamp.maker, paper, &[]);
    live.seat_table().judge_uninvite(
        &named.by,
        &named.paper,
        &target_of(live, user),
        named.withdrawn,
    )?;
    let paper = held(&named.paper);
    let user = held(user);
    Ok(alone(stamp, Entry::Uninvited { paper, user }))
}

/// Returns whether a form is written under the label under which the user reviews the paper after the earlier entries;
/// false where the user doesn't.
///
/// # Cost
///
/// A walk over the paper's seats and one over these entries, and where the user does a walk over the paper's forms.
fn has_written(
    live: &Live,
    user: &Option<UserNo>,
    paper: &Option<PaperNo>,
    earlier: &[Stamped],
) -> bool
    requires { AreEarlier live.now.tables earlier.now }
    ensures { result ≡ written_at (tables_from live.now.tables earlier.now) user.now paper.now }
{
    let Some(number) = paper else {
        return false;
    };
    match ordinal_of(live, user, paper, earlier) {
        Some(ordinal) => {
            live.review_table()
                .has_form(*number, ordinal, &mut Steps::uncounted())
        }
        None => false,
    }
}
