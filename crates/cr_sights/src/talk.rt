// SPDX-License-Identifier: Apache-2.0 OR MIT
//! What comments and authors' responses show a reader.
ghost use Rattle.std.specs.Prelude.{◌≡◌, ◌||◌, ◌&&◌, Some, not, unwrap_or};
ghost use Rattle.cr_base.specs.declared.entry.EntryKind.TheVariants as kinds;
ghost use Rattle.cr_base.specs.Lists.{listed};
ghost use Rattle.cr_base.specs.Page.{is_clear_chair, is_clear_member};
ghost use Rattle.cr_base.specs.Phases.{members_read_comments};
ghost use Rattle.cr_base.specs.Words.{is_anonymous};
ghost use Rattle.cr_base.specs.Rows.{kind_of};
ghost use Rattle.cr_policy.specs.Triggers.{Around, authors, names_writers, reads_comments as may_read};
ghost use Rattle.cr_policy.specs.Triggers.{reads_responses, user_named};
ghost use Rattle.cr_policy.specs.View.{sight as sight_at};
ghost use Rattle.cr_sights.specs.Readers.{reader_in};

use crate::sighting::{Sighting, of_stamp};
use cr_base::{Entry, EntryKind, Ordinal, PaperNo, Stamped, Standing, Text, UserNo};
use cr_view::Live;

/// Returns whether the reader reads the comments on a paper: unconflicted members do, once members read comments.
fn reads_comments(by: &Standing) -> bool
    ensures { result ≡ (is_clear_member by.now && members_read_comments by.now.phase) }
{
    by.is_clear_member() && by.phase.members_read_comments()
}

/// Returns whether the reader is named who wrote what the reader discusses: unconflicted chairs are, and others unless
/// the mode is anonymous.
fn names_writers(by: &Standing) -> bool
    ensures { result ≡ (is_clear_chair by.now || not (is_anonymous by.now.mode)) }
{
    by.is_clear_chair() || !by.mode.is_anonymous()
}

/// Returns whether the reader is told of a comment: a user who reads the comments on the paper is, and the user who
/// wrote it.
fn tells_comment(live: &Live, reader: UserNo, maker: UserNo, paper: PaperNo) -> bool
    ensures { let r = reader_in live.now.tables (Some reader) in
        result ≡ (may_read r paper || ((may_read r paper && names_writers r paper)
        || ((may_read r paper && not (names_writers r paper)) || user_named r maker))) }
{
    let by = live.standing(&Some(reader), &Some(paper));
    reads_comments(&by) || maker == reader
}

/// Returns whether the reader is shown who wrote a comment.
fn shows_writer(live: &Live, reader: UserNo, paper: PaperNo) -> bool
    ensures { let r = reader_in live.now.tables (Some reader) in
        result ≡ (may_read r paper && names_writers r paper) }
{
    let by = live.standing(&Some(reader), &Some(paper));
    reads_comments(&by) && names_writers(&by)
}

/// Returns whether the reader is shown its writer's label: a user who reads it and isn't shown who wrote it is, and
/// the writer.
fn shows_label(live: &Live, reader: UserNo, maker: UserNo, paper: PaperNo) -> bool
    ensures { let r = reader_in live.now.tables (Some reader) in
        result ≡ ((may_read r paper && not (names_writers r paper)) || user_named r maker) }
{
    let by = live.standing(&Some(reader), &Some(paper));
    reads_comments(&by) && !names_writers(&by) || maker == reader
}

/// Returns the number of a label's ordinal, and 0 where there is none.
fn label_number(ordinal: &Option<Ordinal>) -> u64
    ensures { result ≡ unwrap_or ordinal.now 0 }
{
    match ordinal {
        Some(ordinal) => ordinal.number(),
        None => 0,
    }
}

/// Returns what a comment shows the reader: its paper, its number and its text, and who wrote it, or under which
/// label, if the reader may know that; or nothing where the reader isn't told of it.
pub(crate) fn comment<'a>(live: &Live, reader: UserNo, stamped: &'a Stamped) -> Option<Sighting<'a>>
    requires { kind_of stamped.now.entry ≡ kinds.Commented }
    ensures { (at : Around) → listed result ≡ sight_at (reader_in live.now.tables (Some reader)) at stamped.now }
{
    let Entry::Commented {
        paper,
        n,
        ordinal,
        text,
    } = &stamped.entry
    else {
        return None;
    };
    if !tells_comment(live, reader, stamped.stamp.maker, *paper) {
        return None;
    }
    let mine = reader == stamped.stamp.maker;
    let label = shows_label(live, reader, stamped.stamp.maker, *paper);
    let mut sighting = of_stamp(EntryKind::Commented, reader, &stamped.stamp);
    sighting.paper = Some(*paper);
    sighting.by = shows_writer(live, reader, *paper).then_some(stamped.stamp.maker);
    sighting.n = Some(*n);
    sighting.ordinal = label.then_some(label_number(ordinal));
    sighting.text = Some(text);
    Some(sighting)
}

/// Returns whether the reader is told what a paper's authors responded: its authors are, unconflicted members once
/// members read responses, and the user who made it.
fn tells_response(live: &Live, reader: UserNo, maker: UserNo, paper: PaperNo) -> bool
    ensures { let r = reader_in live.now.tables (Some reader) in
        result ≡ (authors r paper || (reads_responses r paper || user_named r maker)) }
{
    let by = live.standing(&Some(reader), &Some(paper));
    by.author || by.is_clear_member() && by.phase.members_read_responses() || maker == reader
}

/// Returns what a response shows the reader: its paper and its text; `None` if the reader isn't told of it. Who of its
/// authors wrote it is not shown to any user.
pub(crate) fn response<'a>(
    live: &Live,
    reader: UserNo,
    stamped: &'a Stamped,
) -> Option<Sighting<'a>>
    requires { kind_of stamped.now.entry ≡ kinds.Responded }
    ensures { (at : Around) → listed result ≡ sight_at (reader_in live.now.tables (Some reader)) at stamped.now }
{
    let Entry::Responded { paper, text } = &stamped.entry else {
        return None;
    };
    if !tells_response(live, reader, stamped.stamp.maker, *paper) {
        return None;
    }
    let mut sighting = of_stamp(EntryKind::Responded, reader, &stamped.stamp);
    sighting.paper = Some(*paper);
    sighting.text = Some(text);
    Some(sighting)
}
