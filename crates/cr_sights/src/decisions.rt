// SPDX-License-Identifier: Apache-2.0 OR MIT
//! What decisions show a reader.
ghost use Rattle.std.specs.Prelude.{◌≡◌, ◌||◌, ◌&&◌, Some};
ghost use Rattle.cr_base.specs.declared.entry.EntryKind.TheVariants as kinds;
ghost use Rattle.cr_base.specs.Lists.{listed};
ghost use Rattle.cr_base.specs.Page.{is_clear_member};
ghost use Rattle.cr_base.specs.Phases.{members_read_decisions, authors_read_decisions};
ghost use Rattle.cr_base.specs.Rows.{kind_of};
ghost use Rattle.cr_policy.specs.Triggers.{Around, none_alike};
ghost use Rattle.cr_policy.specs.View.{sight as sight_at};
ghost use Rattle.cr_sights.specs.Readers.{reader_in};

use crate::sighting::{Sighting, of_stamp};
use cr_base::{Entry, EntryKind, Stamped, Standing, UserNo};
use cr_view::Live;

/// Returns whether the reader reads what is decided of a paper: unconflicted members do, once members read decisions.
fn reads_decisions(by: &Standing) -> bool
    ensures { result ≡ (is_clear_member by.now && members_read_decisions by.now.phase) }
{
    by.is_clear_member() && by.phase.members_read_decisions()
}

/// Returns whether a decision is what became of their paper: for its authors the last one is, once authors read
/// decisions.
fn is_outcome(by: &Standing, is_last: bool) -> bool
    ensures { result ≡ (is_last && by.now.author && authors_read_decisions by.now.phase) }
{
    is_last && by.author && by.phase.authors_read_decisions()
}

/// Returns whether everyone is told of a decision: of the last on an accepted paper.
fn is_announced(is_last: bool, accepted: bool) -> bool
    ensures { result ≡ (is_last && accepted) }
{
    is_last && accepted
}

/// Returns whether the reader is shown what was decided: a user who reads what is decided is, whose paper it became
/// of, and the user who decided.
fn shows_decision(by: &Standing, is_last: bool, mine: bool) -> bool
    ensures { result ≡ ((is_clear_member by.now && members_read_decisions by.now.phase)
        || ((is_last && by.now.author && authors_read_decisions by.now.phase) || mine)) }
{
    reads_decisions(by) || is_outcome(by, is_last) || mine
}

/// Returns whether the reader is told of a decision: a user who is shown what was decided is, and of the last on an
/// accepted paper everyone.
fn tells_decision(by: &Standing, is_last: bool, accepted: bool, mine: bool) -> bool
    ensures { result ≡ ((is_clear_member by.now && members_read_decisions by.now.phase)
        || ((is_last && by.now.author && authors_read_decisions by.now.phase)
        || ((is_last && accepted) || mine))) }
{
    shows_decision(by, is_last, mine) || is_announced(is_last, accepted)
}

/// Returns what a decision shows the reader: its paper, what was decided where the reader may know that, and that it
/// is what became of their paper, or that the paper is accepted, if it is so; or nothing where the reader isn't told
/// of it.
pub(crate) fn decision<'a>(
    live: &Live,
    reader: UserNo,
    stamped: &'a Stamped,
    is_last: bool,
) -> Option<Sighting<'a>>
    requires { kind_of stamped.now.entry ≡ kinds.Decided }
    ensures { (at : Around) → none_alike stamped.now.entry at.after ≡ is_last
        → listed result ≡ sight_at (reader_in live.now.tables (Some reader)) at stamped.now }
{
    let Entry::Decided { paper, decision } = &stamped.entry else {
        return None;
    };
    let mine = reader == stamped.stamp.maker;
    let by = live.standing(&Some(reader), &Some(*paper));
    let accepted = live.is_accepted(*paper);
    if !tells_decision(&by, is_last, accepted, mine) {
        return None;
    }
    let mut sighting = of_stamp(EntryKind::Decided, reader, &stamped.stamp);
    sighting.paper = Some(*paper);
    sighting.decision = shows_decision(&by, is_last, mine).then_some(*decision);
    sighting.outcome = is_outcome(&by, is_last).then_some(true);
    sighting.accepted = is_announced(is_last, accepted).then_some(true);
    Some(sighting)
}
