// SPDX-License-Identifier: Apache-2.0 OR MIT
//! What tags show a reader.
ghost use Rattle.std.specs.Prelude.{◌≡◌, ◌||◌, ◌&&◌, Some};
ghost use Rattle.cr_base.specs.declared.entry.EntryKind.TheVariants as kinds;
ghost use Rattle.cr_base.specs.Lists.{listed};
ghost use Rattle.cr_base.specs.Page.{is_clear_chair, is_clear_member};
ghost use Rattle.cr_base.specs.Phases.{committee_sees_tags};
ghost use Rattle.cr_base.specs.TagTexts.{is_for_all as is_tag_for_all, is_for_chairs};
ghost use Rattle.cr_base.specs.Rows.{kind_of};
ghost use Rattle.cr_policy.specs.Triggers.{Around, standing_to, user_named};
ghost use Rattle.cr_policy.specs.View.{sight as sight_at};
ghost use Rattle.cr_sights.specs.Readers.{reader_in};

use crate::sighting::{Sighting, of_stamp};
use cr_base::{Entry, EntryKind, PaperNo, Stamped, Tag, UserNo};
use cr_view::Live;

/// Returns whether a tag is for all members.
fn is_for_all(tag: &Tag) -> bool
    ensures { result ≡ is_tag_for_all tag.now }
{
    !tag.is_private() && !tag.is_for_chairs()
}

/// Returns whether the reader is told of a tag: from the bidding unconflicted members are of one for all, and
/// unconflicted chairs of one for chairs; and the user who set it.
fn tells_tag(live: &Live, reader: UserNo, maker: UserNo, paper: PaperNo, tag: &Tag) -> bool
    ensures { let r = reader_in live.now.tables (Some reader) in
        result ≡ ((is_tag_for_all tag.now && is_clear_member (standing_to r paper) && committee_sees_tags r.now)
        || ((is_for_chairs tag.now && is_clear_chair (standing_to r paper) && committee_sees_tags r.now)
        || user_named r maker)) }
{
    let by = live.standing(&Some(reader), &Some(paper));
    is_for_all(tag) && by.is_clear_member() && by.phase.committee_sees_tags()
        || tag.is_for_chairs() && by.is_clear_chair() && by.phase.committee_sees_tags()
        || maker == reader
}

/// Returns what a tag shows the reader: all of it; `None` if the reader isn't told of it.
pub(crate) fn tagging<'a>(live: &Live, reader: UserNo, stamped: &'a Stamped) -> Option<Sighting<'a>>
    requires { kind_of stamped.now.entry ≡ kinds.Tagged }
    ensures { (at : Around) → listed result ≡ sight_at (reader_in live.now.tables (Some reader)) at stamped.now }
{
    let Entry::Tagged { paper, tag, on } = &stamped.entry else {
        return None;
    };
    if !tells_tag(live, reader, stamped.stamp.maker, *paper, tag) {
        return None;
    }
    let mut sighting = of_stamp(EntryKind::Tagged, reader, &stamped.stamp);
    sighting.paper = Some(*paper);
    sighting.on = Some(*on);
    sighting.tag = Some(tag);
    Some(sighting)
}
