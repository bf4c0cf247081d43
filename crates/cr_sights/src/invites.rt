// SPDX-License-Identifier: Apache-2.0 OR MIT
//! What invitations to review a paper from outside the committee, and their ends, show a reader.
ghost use Rattle.std.specs.Prelude.{◌≡◌, ◌||◌, Some};
ghost use Rattle.cr_base.specs.declared.entry.EntryKind.TheVariants as kinds;
ghost use Rattle.cr_base.specs.Lists.{listed};
ghost use Rattle.cr_base.specs.Page.{is_clear_chair};
ghost use Rattle.cr_base.specs.Rows.{kind_of};
ghost use Rattle.cr_policy.specs.Triggers.{Around, standing_to, user_named};
ghost use Rattle.cr_policy.specs.View.{sight as sight_at};
ghost use Rattle.cr_sights.specs.Readers.{reader_in};

use crate::sighting::{Sighting, of_stamp};
use cr_base::{Entry, EntryKind, PaperNo, Stamped, UserNo};
use cr_view::Live;

/// Returns whether the reader is told that a user is invited to the paper, or no longer: a user who is named, a user
/// who made the entry, and unconflicted chairs.
fn tells_invite(live: &Live, reader: UserNo, maker: UserNo, paper: PaperNo, user: UserNo) -> bool
    ensures { let r = reader_in live.now.tables (Some reader) in
        result ≡ (user_named r user || (is_clear_chair (standing_to r paper) || user_named r maker)) }
{
    let by = live.standing(&Some(reader), &Some(paper));
    user == reader || by.is_clear_chair() || maker == reader
}

/// Returns what an invitation shows the reader: all of it; `None` if the reader isn't told of it.
pub(crate) fn invitation<'a>(
    live: &Live,
    reader: UserNo,
    stamped: &'a Stamped,
) -> Option<Sighting<'a>>
    requires { kind_of stamped.now.entry ≡ kinds.Invited }
    ensures { (at : Around) → listed result ≡ sight_at (reader_in live.now.tables (Some reader)) at stamped.now }
{
    let Entry::Invited { paper, user } = &stamped.entry else {
        return None;
    };
    if !tells_invite(live, reader, stamped.stamp.maker, *paper, *user) {
        return None;
    }
    let mut sighting = of_stamp(EntryKind::Invited, reader, &stamped.stamp);
    sighting.paper = Some(*paper);
    sighting.user = Some(*user);
    Some(sighting)
}

/// Returns what the end of an invitation shows the reader: all of it; `None` if the reader isn't told of it.
pub(crate) fn uninvitation<'a>(
    live: &Live,
    reader: UserNo,
    stamped: &'a Stamped,
) -> Option<Sighting<'a>>
    requires { kind_of stamped.now.entry ≡ kinds.Uninvited }
    ensures { (at : Around) → listed result ≡ sight_at (reader_in live.now.tables (Some reader)) at stamped.now }
{
    let Entry::Uninvited { paper, user } = &stamped.entry else {
        return None;
    };
    if !tells_invite(live, reader, stamped.stamp.maker, *paper, *user) {
        return None;
    }
    let mut sighting = of_stamp(EntryKind::Uninvited, reader, &stamped.stamp);
    sighting.paper = Some(*paper);
    sighting.user = Some(*user);
    Some(sighting)
}
