// SPDX-License-Identifier: Apache-2.0 OR MIT
//! What forms of reviews show a reader.
ghost use Rattle.std.specs.Prelude.{◌≡◌, ◌||◌, ◌&&◌, Some};
ghost use Rattle.cr_base.specs.declared.entry.EntryKind.TheVariants as kinds;
ghost use Rattle.cr_base.specs.Lists.{listed};
ghost use Rattle.cr_base.specs.Page.{is_clear_member};
ghost use Rattle.cr_base.specs.Phases.{members_read_reviews};
ghost use Rattle.cr_base.specs.Rows.{kind_of};
ghost use Rattle.cr_policy.specs.Triggers.{Around, position_of};
ghost use Rattle.cr_policy.specs.View.{sight as sight_at};
ghost use Rattle.cr_sights.specs.FormRows.{is_discussed_by, is_done_for, is_early_for, is_for_author};
ghost use Rattle.cr_sights.specs.Readers.{reader_in};

use crate::position::Position;
use crate::sighting::{Sighting, of_stamp};
use cr_base::{Entry, EntryKind, Stamped, Standing, UserNo};
use cr_view::Live;

/// Returns whether the reader is told that there is a form: of the first under a label unconflicted chairs are.
fn is_done_for(by: &Standing, position: Position) -> bool
    ensures { result ≡ is_done_for position by.now }
{
    position.first && by.is_clear_chair()
}

/// Returns whether the reader reads a paper's reviews: unconflicted members do, once members read reviews.
fn reads_reviews(by: &Standing) -> bool
    ensures { result ≡ (is_clear_member by.now && members_read_reviews by.now.phase) }
{
    by.is_clear_member() && by.phase.members_read_reviews()
}

/// Returns whether the reader discusses a form: a user who reads the paper's reviews does, the last under a label
/// before the discussion and all later ones.
fn is_discussed_by(by: &Standing, position: Position) -> bool
    ensures { result ≡ is_discussed_by position by.now }
{
    (position.last_before_discussion || position.from_discussion) && reads_reviews(by)
}

/// Returns whether a form is for the reader as an author: once authors read reviews the last under a label is.
fn is_for_author(by: &Standing, position: Position) -> bool
    ensures { result ≡ is_for_author position by.now }
{
    position.last && by.author && by.phase.authors_read_reviews()
}

/// Returns whether a form is for the reader as an author to respond to: from the response on, if it was opened, the
/// last under a label before it is.
fn is_early_for(by: &Standing, position: Position, opened: bool) -> bool
    ensures { result ≡ is_early_for position opened by.now }
{
    position.last_before_response && opened && by.author && by.phase.authors_read_early_reviews()
}

/// Returns whether a form is for the reader as an author, to respond to or in the end.
fn is_told_author(by: &Standing, position: Position, opened: bool) -> bool
    ensures { result ≡ (is_early_for position opened by.now || is_for_author position by.now) }
{
    is_early_for(by, position, opened) || is_for_author(by, position)
}

/// Returns whether the reader is shown all of a form: a user who discusses it is, and the user who wrote it.
fn shows_all(by: &Standing, position: Position, mine: bool) -> bool
    ensures { result ≡ (is_discussed_by position by.now || mine) }
{
    is_discussed_by(by, position) || mine
}

/// Returns whether the reader is shown the grades of a form and its text to the authors: a user who discusses it is,
/// the paper's authors where it is for them, and the user who wrote it.
fn shows_grades(by: &Standing, position: Position, opened: bool, mine: bool) -> bool
    ensures { result ≡ (is_discussed_by position by.now
        || (is_early_for position opened by.now || (is_for_author position by.now || mine))) }
{
    is_discussed_by(by, position) || is_told_author(by, position, opened) || mine
}

/// Returns whether the reader is told of a form: a user who is told that there is one, or shown its grades.
fn tells_review(by: &Standing, position: Position, opened: bool, mine: bool) -> bool
    ensures { result ≡ (is_done_for position by.now
        || (is_discussed_by position by.now
        || (is_early_for position opened by.now || (is_for_author position by.now || mine)))) }
{
    is_done_for(by, position) || shows_grades(by, position, opened, mine)
}

/// Returns what a form shows the reader: its paper and its label, and of the other parts those that the reader may
/// know; or nothing where the reader isn't told of it.
pub(crate) fn review<'a>(
    live: &Live,
    reader: UserNo,
    stamped: &'a Stamped,
    position: Position,
) -> Option<Sighting<'a>>
    requires { kind_of stamped.now.entry ≡ kinds.Reviewed }
    ensures { (at : Around) → position_of at stamped.now.entry ≡ position
        → listed result ≡ sight_at (reader_in live.now.tables (Some reader)) at stamped.now }
{
    let Entry::Reviewed {
        paper,
        ordinal,
        version,
        form,
    } = &stamped.entry
    else {
        return None;
    };
    let mine = reader == stamped.stamp.maker;
    let by = live.standing(&Some(reader), &Some(*paper));
    let opened = live.stage_table().had_response();
    if !tells_review(&by, position, opened, mine) {
        return None;
    }
    let all = shows_all(&by, position, mine);
    let grades = shows_grades(&by, position, opened, mine);
    let mut sighting = of_stamp(EntryKind::Reviewed, reader, &stamped.stamp);
    sighting.paper = Some(*paper);
    sighting.version = all.then_some(*version);
    sighting.ordinal = Some(ordinal.number());
    sighting.score = grades.then_some(form.score);
    sighting.confidence = grades.then_some(form.confidence);
    sighting.to_authors = grades.then_some(&form.to_authors);
    sighting.to_pc = all.then_some(&form.to_pc);
    sighting.done = is_done_for(&by, position).then_some(true);
    Some(sighting)
}
