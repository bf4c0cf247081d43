// SPDX-License-Identifier: Apache-2.0 OR MIT
//! What one entry shows a reader, kind by kind.
ghost use Rattle.std.specs.Prelude.{◌≡◌, Some};
ghost use Rattle.cr_base.specs.Lists.{listed};
ghost use Rattle.cr_policy.specs.Triggers.{Around, position_of};
ghost use Rattle.cr_policy.specs.View.{sight as sight_at};
ghost use Rattle.cr_sights.specs.Readers.{reader_in};

use crate::decisions::decision;
use crate::invites::{invitation, uninvitation};
use crate::papers::{coauthor, revision, submission, upload, withdrawal};
use crate::position::Position;
use crate::public::{deadline_set, dismissal, mode_set, naming, phase_set, registration};
use crate::reviews::review;
use crate::seats::{assignment, unassignment};
use crate::sighting::Sighting;
use crate::tags::tagging;
use crate::talk::{comment, response};
use crate::ties::{bid, conflict};
use cr_base::{Entry, Stamped, UserNo};
use cr_view::Live;

/// Returns what an entry shows a reader by the tables of the whole history, or `None` if it shows the reader nothing.
/// `position` is its place among the entries of its series.
///
/// # Cost
///
/// A few look-ups. Takes no memory.
pub fn sight<'a>(
    live: &Live,
    reader: UserNo,
    stamped: &'a Stamped,
    position: Position,
) -> Option<Sighting<'a>>
    ensures { (at : Around) → position_of at stamped.now.entry ≡ position
        → listed result ≡ sight_at (reader_in live.now.tables (Some reader)) at stamped.now }
{
    match &stamped.entry {
        Entry::Registered { .. } => registration(reader, stamped),
        Entry::Named { .. } => naming(reader, stamped),
        Entry::PhaseSet { .. } => phase_set(reader, stamped),
        Entry::ModeSet { .. } => mode_set(reader, stamped),
        Entry::Submitted { .. } => submission(live, reader, stamped, position.last),
        Entry::Coauthor { .. } => coauthor(live, reader, stamped),
        Entry::Revised { .. } => revision(live, reader, stamped, position.last),
        Entry::Uploaded { .. } => upload(live, reader, stamped, position.last),
        Entry::Withdrawn { .. } => withdrawal(live, reader, stamped),
        Entry::Conflict { .. } => conflict(live, reader, stamped),
        Entry::Bid { .. } => bid(live, reader, stamped),
        Entry::Assigned { .. } => assignment(live, reader, stamped),
        Entry::Unassigned { .. } => unassignment(live, reader, stamped),
        Entry::Reviewed { .. } => review(live, reader, stamped, position),
        Entry::Commented { .. } => comment(live, reader, stamped),
        Entry::Tagged { .. } => tagging(live, reader, stamped),
        Entry::Decided { .. } => decision(live, reader, stamped, position.last),
        Entry::DeadlineSet { .. } => deadline_set(reader, stamped),
        Entry::Dismissed { .. } => dismissal(reader, stamped),
        Entry::Invited { .. } => invitation(live, reader, stamped),
        Entry::Uninvited { .. } => uninvitation(live, reader, stamped),
        Entry::Responded { .. } => response(live, reader, stamped),
    }
}
