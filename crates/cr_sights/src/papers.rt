// SPDX-License-Identifier: Apache-2.0 OR MIT
//! What entries that make a paper and its texts, tell its authors and its content, and withdraw it show a reader.
ghost use Rattle.std.specs.Prelude.{◌≡◌, ◌||◌, ◌&&◌, ◌∷◌, [], Bool, not, Some};
ghost use Rattle.cr_base.specs.Decisions.{is_published};
ghost use Rattle.cr_base.specs.Lists.{listed};
ghost use Rattle.cr_base.specs.Page.{is_clear_chair, is_clear_external, reads_paper};
ghost use Rattle.cr_base.specs.Phases.{members_see_papers, committee_sees_authors};
ghost use Rattle.cr_base.specs.Words.{is_member};
ghost use Rattle.cr_base.specs.declared.entry.EntryKind.TheVariants as kinds;
ghost use Rattle.cr_base.specs.Rows.{kind_of};
ghost use Rattle.cr_policy.specs.Triggers.{Around, authors, members, none_alike, published};
ghost use Rattle.cr_policy.specs.Triggers.{standing_to, unless_anonymous, user_named};
ghost use Rattle.cr_policy.specs.View.{sight as sight_at};
ghost use Rattle.cr_sights.specs.Readers.{reader_in};

use crate::sighting::{Sighting, of_stamp};
use cr_anonymity::shows_author;
use cr_base::{Blob, Entry, EntryKind, PaperNo, Stamped, Standing, Text, UserNo};
use cr_view::Live;

/// Returns whether the reader is shown the title of a submission or a revision.
fn shows_title(by: &Standing, mine: bool, is_last: bool, accepted: bool) -> bool
    ensures { result ≡ (by.now.author
        || ((is_last && is_member by.now.role && members_see_papers by.now.phase)
        || ((is_last && is_clear_external by.now && members_see_papers by.now.phase)
        || ((is_last && accepted) || mine)))) }
{
    by.author
        || is_last && by.role.is_member() && by.phase.members_see_papers()
        || is_last && by.is_clear_external() && by.phase.members_see_papers()
        || is_last && accepted
        || mine
}

/// Returns whether the reader is shown the abstract of a submission or a revision.
fn shows_abstract(by: &Standing, mine: bool, is_last: bool, accepted: bool) -> bool
    ensures { result ≡ (by.now.author
        || ((is_last && reads_paper by.now && members_see_papers by.now.phase)
        || ((is_last && is_published by.now.phase accepted) || mine))) }
{
    let published = is_last && by.phase.publishes(accepted);
    by.author || is_last && by.reads_paper() && by.phase.members_see_papers() || published || mine
}

/// Returns whether the reader is told that a user is an author of a paper: its authors are, a user who made the entry,
/// unconflicted chairs from the bidding, and unconflicted members and externals too where the mode isn't anonymous;
/// and everyone, if the paper is accepted.
fn tells_coauthor(live: &Live, reader: UserNo, maker: UserNo, paper: PaperNo) -> bool
    ensures { let r = reader_in live.now.tables (Some reader) in
        result ≡ (authors r paper || ((is_clear_chair (standing_to r paper) && committee_sees_authors r.now)
        || ((reads_paper (standing_to r paper) && unless_anonymous r && committee_sees_authors r.now)
        || (r.accepted paper || user_named r maker)))) }
{
    let by = live.standing(&Some(reader), &Some(paper));
    shows_author(&by, live.is_accepted(paper)) || maker == reader
}

/// Returns whether the reader is told of a revision of a paper: its authors are, a user who made it, and of the last
/// that gives the paper texts members and unconflicted externals from the bidding, and everyone, if the paper is
/// accepted.
fn tells_revision(live: &Live, reader: UserNo, maker: UserNo, is_last: bool, paper: PaperNo) -> bool
    ensures { let r = reader_in live.now.tables (Some reader) in
        result ≡ (authors r paper || ((is_last && members r && members_see_papers r.now)
        || ((is_last && is_clear_external (standing_to r paper) && members_see_papers r.now)
        || ((is_last && reads_paper (standing_to r paper) && members_see_papers r.now)
        || ((is_last && r.accepted paper) || ((is_last && published r paper) || user_named r maker)))))) }
{
    let by = live.standing(&Some(reader), &Some(paper));
    shows_title(&by, maker == reader, is_last, live.is_accepted(paper))
}

/// Returns whether the reader is told of an upload to a paper: its authors are, a user who made it, and of the last
/// one unconflicted members and externals from the bidding, and everyone, if the paper is published.
fn tells_upload(live: &Live, reader: UserNo, maker: UserNo, is_last: bool, paper: PaperNo) -> bool
    ensures { let r = reader_in live.now.tables (Some reader) in
        result
        ≡ (authors r paper || ((is_last && reads_paper (standing_to r paper) && members_see_papers r.now)
        || ((is_last && published r paper) || user_named r maker))) }
{
    let by = live.standing(&Some(reader), &Some(paper));
    let published = is_last && by.phase.publishes(live.is_accepted(paper));
    by.author
        || is_last && by.reads_paper() && by.phase.members_see_papers()
        || published
        || maker == reader
}

/// Returns whether the reader is told that a paper is withdrawn: its authors are, a user who made the entry, and from
/// the bidding members and unconflicted externals.
fn tells_withdrawal(live: &Live, reader: UserNo, maker: UserNo, paper: PaperNo) -> bool
    ensures { let r = reader_in live.now.tables (Some reader) in
        result ≡ (authors r paper || ((members r && members_see_papers r.now)
        || ((is_clear_external (standing_to r paper) && members_see_papers r.now) || user_named r maker))) }
{
    let by = live.standing(&Some(reader), &Some(paper));
    by.author
        || by.role.is_member() && by.phase.members_see_papers()
        || by.is_clear_external() && by.phase.members_see_papers()
        || maker == reader
}

/// Returns what a submission shows the reader: its paper, and who made it, its title and its abstract where the reader
/// may know them.
pub(crate) fn submission<'a>(
    live: &Live,
    reader: UserNo,
    stamped: &'a Stamped,
    is_last: bool,
) -> Option<Sighting<'a>>
    requires { kind_of stamped.now.entry ≡ kinds.Submitted }
    ensures { (at : Around) → none_alike stamped.now.entry at.after ≡ is_last
        → listed result ≡ sight_at (reader_in live.now.tables (Some reader)) at stamped.now }
{
    let Entry::Submitted {
        paper,
        title,
        abstract_,
    } = &stamped.entry
    else {
        return None;
    };
    let mine = reader == stamped.stamp.maker;
    let by = live.standing(&Some(reader), &Some(*paper));
    let accepted = live.is_accepted(*paper);
    let mut sighting = of_stamp(EntryKind::Submitted, reader, &stamped.stamp);
    sighting.paper = Some(*paper);
    sighting.by = shows_author(&by, accepted).then_some(stamped.stamp.maker);
    sighting.title = shows_title(&by, mine, is_last, accepted).then_some(title);
    sighting.abstract_ = shows_abstract(&by, mine, is_last, accepted).then_some(abstract_);
    Some(sighting)
}

/// Returns what a co-author shows the reader: all of it; `None` if the reader isn't told of it.
pub(crate) fn coauthor<'a>(
    live: &Live,
    reader: UserNo,
    stamped: &'a Stamped,
) -> Option<Sighting<'a>>
    requires { kind_of stamped.now.entry ≡ kinds.Coauthor }
    ensures { (at : Around) → listed result ≡ sight_at (reader_in live.now.tables (Some reader)) at stamped.now }
{
    let Entry::Coauthor { paper, user } = &stamped.entry else {
        return None;
    };
    if !tells_coauthor(live, reader, stamped.stamp.maker, *paper) {
        return None;
    }
    let mut sighting = of_stamp(EntryKind::Coauthor, reader, &stamped.stamp);
    sighting.paper = Some(*paper);
    sighting.user = Some(*user);
    Some(sighting)
}

/// Returns what a revision shows the reader: its paper, its title and its abstract where the reader may know them;
/// `None` if the reader isn't told of it.
pub(crate) fn revision<'a>(
    live: &Live,
    reader: UserNo,
    stamped: &'a Stamped,
    is_last: bool,
) -> Option<Sighting<'a>>
    requires { kind_of stamped.now.entry ≡ kinds.Revised }
    ensures { (at : Around) → none_alike stamped.now.entry at.after ≡ is_last
        → listed result ≡ sight_at (reader_in live.now.tables (Some reader)) at stamped.now }
{
    let Entry::Revised {
        paper,
        title,
        abstract_,
    } = &stamped.entry
    else {
        return None;
    };
    if !tells_revision(live, reader, stamped.stamp.maker, is_last, *paper) {
        return None;
    }
    let mine = reader == stamped.stamp.maker;
    let by = live.standing(&Some(reader), &Some(*paper));
    let accepted = live.is_accepted(*paper);
    let mut sighting = of_stamp(EntryKind::Revised, reader, &stamped.stamp);
    sighting.paper = Some(*paper);
    sighting.title = shows_title(&by, mine, is_last, accepted).then_some(title);
    sighting.abstract_ = shows_abstract(&by, mine, is_last, accepted).then_some(abstract_);
    Some(sighting)
}

/// Returns what an upload shows the reader: all of it; `None` if the reader isn't told of it.
pub(crate) fn upload<'a>(
    live: &Live,
    reader: UserNo,
    stamped: &'a Stamped,
    is_last: bool,
) -> Option<Sighting<'a>>
    requires { kind_of stamped.now.entry ≡ kinds.Uploaded }
    ensures { (at : Around) → none_alike stamped.now.entry at.after ≡ is_last
        → listed result ≡ sight_at (reader_in live.now.tables (Some reader)) at stamped.now }
{
    let Entry::Uploaded {
        paper,
        version,
        content,
    } = &stamped.entry
    else {
        return None;
    };
    if !tells_upload(live, reader, stamped.stamp.maker, is_last, *paper) {
        return None;
    }
    let mut sighting = of_stamp(EntryKind::Uploaded, reader, &stamped.stamp);
    sighting.paper = Some(*paper);
    sighting.version = Some(*version);
    sighting.content = Some(content);
    Some(sighting)
}

/// Returns what the withdrawal of this paper shows the reader: the paper; `None` if the reader isn't told of it.
pub(crate) fn withdrawal<'a>(
    live: &Live,
    reader: UserNo,
    stamped: &'a Stamped,
) -> Option<Sighting<'a>>
    requires { kind_of stamped.now.entry ≡ kinds.Withdrawn }
    ensures { (at : Around) → listed result ≡ sight_at (reader_in live.now.tables (Some reader)) at stamped.now }
{
    let Entry::Withdrawn { paper } = &stamped.entry else {
        return None;
    };
    if !tells_withdrawal(live, reader, stamped.stamp.maker, *paper) {
        return None;
    }
    let mut sighting = of_stamp(EntryKind::Withdrawn, reader, &stamped.stamp);
    sighting.paper = Some(*paper);
    Some(sighting)
}
