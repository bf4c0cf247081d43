// SPDX-License-Identifier: Apache-2.0 OR MIT
//! What assignments and their ends show a reader.
ghost use Rattle.std.specs.Prelude.{◌≡◌, ◌||◌, ◌&&◌, IfSome, Some, is_some, not};
ghost use Rattle.cr_base.specs.declared.entry.EntryKind.TheVariants as kinds;
ghost use Rattle.cr_base.specs.Lists.{listed};
ghost use Rattle.cr_base.specs.Page.{is_clear_chair, is_clear_member};
ghost use Rattle.cr_base.specs.Phases.{members_see_reviewers, authors_see_reviewers};
ghost use Rattle.cr_base.specs.Words.{is_anonymous, is_overt};
ghost use Rattle.cr_base.specs.Rows.{kind_of};
ghost use Rattle.cr_policy.specs.Triggers.{Around, applies_any};
ghost use Rattle.cr_policy.specs.View.{sight as sight_at};
ghost use Rattle.cr_sights.specs.Readers.{reader_in};
ghost use Rattle.cr_sights.specs.SeatRows.{AreShown, rows_with};

use crate::sighting::{Sighting, of_stamp};
use cr_base::{Entry, EntryKind, Kind, Ordinal, PaperNo, Stamped, Standing, UserNo};
use cr_view::Live;

/// Which parts beside the paper the reader is shown who is told of an assignment, or of its end.
#[derive(Clone, Copy)]
struct SeatParts {
    /// The user who has the seat.
    user: bool,
    /// The kind of assignment.
    kind: bool,
    /// The ordinal of their label.
    ordinal: bool,
}

/// Returns whether the reader is a member in no conflict with the paper, and members see who reviews it.
fn knows_reviewers(by: &Standing) -> bool
    ensures { result ≡ (is_clear_member by.now && members_see_reviewers by.now.phase) }
{
    by.is_clear_member() && by.phase.members_see_reviewers()
}

/// Returns whether the reader is an author who is shown their reviewers.
fn sees_reviewers(by: &Standing) -> bool
    ensures { result ≡ (by.now.author && (is_overt by.now.mode && authors_see_reviewers by.now.phase)) }
{
    by.author && by.mode.is_overt() && by.phase.authors_see_reviewers()
}

/// Returns whether the reader is shown who has a seat: a user who is named or made the entry, unconflicted chairs,
/// unconflicted members from the discussion unless the mode is anonymous, and authors who are shown their reviewers.
fn shows_user(by: &Standing, named: bool, made: bool) -> bool
    ensures { result ≡ (named || (is_clear_chair by.now
        || ((is_clear_member by.now && (not (is_anonymous by.now.mode) && members_see_reviewers by.now.phase))
        || ((by.now.author && (is_overt by.now.mode && authors_see_reviewers by.now.phase)) || made)))) }
{
    let knows = by.is_clear_chair() || knows_reviewers(by) && !by.mode.is_anonymous();
    named || knows || sees_reviewers(by) || made
}

/// Returns whether the reader is shown what a seat is: a user who is named or made the entry, unconflicted chairs, and
/// unconflicted members from the discussion.
fn shows_kind(by: &Standing, named: bool, made: bool) -> bool
    ensures { result ≡ (named || (is_clear_chair by.now
        || ((is_clear_member by.now && members_see_reviewers by.now.phase) || made))) }
{
    named || by.is_clear_chair() || knows_reviewers(by) || made
}

/// Returns whether the reader is told of a seat, and shown its ordinal: a user who is shown what it is, and authors
/// who are shown their reviewers.
fn shows_ordinal(by: &Standing, named: bool, made: bool) -> bool
    ensures { result ≡ (named || (is_clear_chair by.now
        || ((is_clear_member by.now && members_see_reviewers by.now.phase)
        || ((by.now.author && (is_overt by.now.mode && authors_see_reviewers by.now.phase)) || made)))) }
{
    shows_kind(by, named, made) || sees_reviewers(by)
}

/// Returns which parts the reader is shown, and `None` if the reader isn't told of it.
fn seat_parts(
    live: &Live,
    reader: UserNo,
    maker: UserNo,
    paper: PaperNo,
    user: UserNo,
) -> Option<SeatParts>
    ensures told { applies_any (rows_with (reader_in live.now.tables (Some reader)) maker paper user)
        ≡ is_some result }
    ensures parts { IfSome result (AreShown (rows_with (reader_in live.now.tables (Some reader)) maker paper user)) }
{
    let by = live.standing(&Some(reader), &Some(paper));
    let named = reader == user;
    let made = reader == maker;
    let ordinal = shows_ordinal(&by, named, made);
    if !ordinal {
        return None;
    }
    Some(SeatParts {
        user: shows_user(&by, named, made),
        kind: shows_kind(&by, named, made),
        ordinal,
    })
}

/// Returns what an assignment shows the reader: what the reader may know of it; `None` if the reader isn't told of it.
pub(crate) fn assignment<'a>(
    live: &Live,
    reader: UserNo,
    stamped: &'a Stamped,
) -> Option<Sighting<'a>>
    requires { kind_of stamped.now.entry ≡ kinds.Assigned }
    ensures { (at : Around) → listed result ≡ sight_at (reader_in live.now.tables (Some reader)) at stamped.now }
{
    let Entry::Assigned {
        paper,
        user,
        kind,
        ordinal,
    } = &stamped.entry
    else {
        return None;
    };
    let parts = seat_parts(live, reader, stamped.stamp.maker, *paper, *user)?;
    let mut sighting = of_stamp(EntryKind::Assigned, reader, &stamped.stamp);
    sighting.paper = Some(*paper);
    sighting.user = parts.user.then_some(*user);
    sighting.review_kind = parts.kind.then_some(*kind);
    sighting.ordinal = parts.ordinal.then_some(ordinal.number());
    Some(sighting)
}

/// Returns what the end of an assignment shows the reader: what the reader may know of it; `None` if the reader isn't
/// told of it.
pub(crate) fn unassignment<'a>(
    live: &Live,
    reader: UserNo,
    stamped: &'a Stamped,
) -> Option<Sighting<'a>>
    requires { kind_of stamped.now.entry ≡ kinds.Unassigned }
    ensures { (at : Around) → listed result ≡ sight_at (reader_in live.now.tables (Some reader)) at stamped.now }
{
    let Entry::Unassigned {
        paper,
        user,
        ordinal,
    } = &stamped.entry
    else {
        return None;
    };
    let parts = seat_parts(live, reader, stamped.stamp.maker, *paper, *user)?;
    let mut sighting = of_stamp(EntryKind::Unassigned, reader, &stamped.stamp);
    sighting.paper = Some(*paper);
    sighting.user = parts.user.then_some(*user);
    sighting.ordinal = parts.ordinal.then_some(ordinal.number());
    Some(sighting)
}
