// SPDX-License-Identifier: Apache-2.0 OR MIT
//! What conflicts and bids show a reader.
ghost use Rattle.std.specs.Prelude.{◌≡◌, ◌||◌, ◌&&◌, Bool, Some};
ghost use Rattle.cr_base.specs.Lists.{listed};
ghost use Rattle.cr_base.specs.Page.{is_clear_chair};
ghost use Rattle.cr_base.specs.Phases.{chairs_see_conflicts, chairs_see_bids};
ghost use Rattle.cr_base.specs.declared.entry.EntryKind.TheVariants as kinds;
ghost use Rattle.cr_base.specs.Rows.{kind_of};
ghost use Rattle.cr_policy.specs.Triggers.{Around, authors, standing_to, user_named};
ghost use Rattle.cr_policy.specs.View.{sight as sight_at};
ghost use Rattle.cr_sights.specs.Readers.{reader_in};

use crate::sighting::{Sighting, of_stamp};
use cr_base::{Bid, Entry, EntryKind, PaperNo, Stamped, Standing, UserNo};
use cr_view::Live;

/// Returns whether the reader is shown all of a paper's conflicts: unconflicted chairs are, once chairs see them.
fn sees_conflicts(by: &Standing) -> bool
    ensures { result ≡ (is_clear_chair by.now && chairs_see_conflicts by.now.phase) }
{
    by.is_clear_chair() && by.phase.chairs_see_conflicts()
}

/// Returns whether the reader is shown all bids for a paper: unconflicted chairs are, once chairs see them.
fn sees_bids(by: &Standing) -> bool
    ensures { result ≡ (is_clear_chair by.now && chairs_see_bids by.now.phase) }
{
    by.is_clear_chair() && by.phase.chairs_see_bids()
}

/// Returns whether the reader is told that a user is in conflict with a paper, or no longer: a user who made the entry
/// is, the user themselves, an author where an author made it, and a user who is shown all of the paper's conflicts.
fn tells_conflict(live: &Live, reader: UserNo, maker: UserNo, user: UserNo, paper: PaperNo) -> bool
    ensures { let r = reader_in live.now.tables (Some reader) in
        result ≡ (user_named r user || ((r.wrote maker paper && authors r paper)
        || ((is_clear_chair (standing_to r paper) && chairs_see_conflicts r.now) || user_named r maker))) }
{
    let by = live.standing(&Some(reader), &Some(paper));
    let wrote = live.standing(&Some(maker), &Some(paper)).author;
    user == reader || wrote && by.author || sees_conflicts(&by) || maker == reader
}

/// Returns whether the reader is told of a bid on a paper: a user who made it is, and a user who is shown all of the
/// paper's bids.
fn tells_bid(live: &Live, reader: UserNo, maker: UserNo, paper: PaperNo) -> bool
    ensures { let r = reader_in live.now.tables (Some reader) in
        result ≡ ((is_clear_chair (standing_to r paper) && chairs_see_bids r.now) || user_named r maker) }
{
    let by = live.standing(&Some(reader), &Some(paper));
    sees_bids(&by) || maker == reader
}

/// Returns what a conflict shows the reader: all of it; `None` if the reader isn't told of it.
pub(crate) fn conflict<'a>(
    live: &Live,
    reader: UserNo,
    stamped: &'a Stamped,
) -> Option<Sighting<'a>>
    requires { kind_of stamped.now.entry ≡ kinds.Conflict }
    ensures { (at : Around) → listed result ≡ sight_at (reader_in live.now.tables (Some reader)) at stamped.now }
{
    let Entry::Conflict { paper, user, on } = &stamped.entry else {
        return None;
    };
    if !tells_conflict(live, reader, stamped.stamp.maker, *user, *paper) {
        return None;
    }
    let mut sighting = of_stamp(EntryKind::Conflict, reader, &stamped.stamp);
    sighting.paper = Some(*paper);
    sighting.user = Some(*user);
    sighting.on = Some(*on);
    Some(sighting)
}

/// Returns what a bid shows the reader: its value, and whose it is if the reader is shown all bids; `None` if the
/// reader isn't told of it.
pub(crate) fn bid<'a>(live: &Live, reader: UserNo, stamped: &'a Stamped) -> Option<Sighting<'a>>
    requires { kind_of stamped.now.entry ≡ kinds.Bid }
    ensures { (at : Around) → listed result ≡ sight_at (reader_in live.now.tables (Some reader)) at stamped.now }
{
    let Entry::Bid { paper, value } = &stamped.entry else {
        return None;
    };
    if !tells_bid(live, reader, stamped.stamp.maker, *paper) {
        return None;
    }
    let by = live.standing(&Some(reader), &Some(*paper));
    let mut sighting = of_stamp(EntryKind::Bid, reader, &stamped.stamp);
    sighting.paper = Some(*paper);
    sighting.by = sees_bids(&by).then_some(stamped.stamp.maker);
    sighting.value = Some(*value);
    Some(sighting)
}
