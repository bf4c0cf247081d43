// SPDX-License-Identifier: Apache-2.0 OR MIT
//! What a drill came to, in four lines.
ghost use Rattle.std.specs.Prelude.{◌≡◌, ◌++◌, IfOk, OnOk, Some, codes, length};
ghost use Rattle.cr_policy.specs.View.{view};
ghost use Rattle.cr_drill.specs.Cast.{cast};
ghost use Rattle.cr_drill.specs.Drill.{counted, entries_line, kinds_line, kinds_text};
ghost use Rattle.cr_drill.specs.Drill.{steps_line, summary, views_line, views_text};
ghost use Rattle.cr_drill.specs.Drilling.{drilled_of};

use crate::drilling::Progress;
use cr_base::{EntryKind, UserNo};
use cr_book::Book;
use cr_ports::PlainKeeper;
use itoa::Buffer;
use std::alloc::{AllocError, Global};

/// The kinds of entries in the order of their numbers.
const EVERY_KIND: [EntryKind; 22] = [
    EntryKind::Registered,
    EntryKind::Named,
    EntryKind::PhaseSet,
    EntryKind::ModeSet,
    EntryKind::Submitted,
    EntryKind::Coauthor,
    EntryKind::Revised,
    EntryKind::Uploaded,
    EntryKind::Withdrawn,
    EntryKind::Conflict,
    EntryKind::Bid,
    EntryKind::Assigned,
    EntryKind::Unassigned,
    EntryKind::Reviewed,
    EntryKind::Commented,
    EntryKind::Tagged,
    EntryKind::Decided,
    EntryKind::DeadlineSet,
    EntryKind::Dismissed,
    EntryKind::Invited,
    EntryKind::Uninvited,
    EntryKind::Responded,
];

/// Appends a piece.
///
/// # Errors
///
/// If memory runs out.
fn append(text: &mut Vec<u8>, piece: &[u8]) -> Result<(), AllocError>
    ensures { OnOk result (text.new.items ≡ text.old.items ++ piece.now) }
{
    text.extend_from_slice(piece)?;
    Ok(())
}

/// Appends a word and a number.
///
/// # Errors
///
/// If memory runs out.
fn append_counted(text: &mut Vec<u8>, word: &[u8], number: u64) -> Result<(), AllocError>
    ensures { OnOk result (text.new.items ≡ text.old.items ++ counted word.now number) }
{
    let mut digits = Buffer::new();
    append(text, word)?;
    append(text, digits.format(number).as_bytes())
}

/// Appends how many steps there were, and how many of them were accepted and refused.
#[tactic(auto, unfolding(crate::specs::Drill::steps_line))]
fn append_steps(text: &mut Vec<u8>, steps: u64, progress: Progress) -> Result<(), AllocError>
    ensures { OnOk result (text.new.items ≡ text.old.items ++ steps_line steps progress.accepted progress.refused) }
{
    append_counted(text, b"steps ", steps)?;
    append_counted(text, b", accepted ", progress.accepted)?;
    append_counted(text, b", refused ", progress.refused)?;
    append(text, b"\n")
}

/// Appends how many entries there are.
#[tactic(auto, unfolding(crate::specs::Drill::entries_line))]
fn append_entries(text: &mut Vec<u8>, entries: u64) -> Result<(), AllocError>
    ensures { OnOk result (text.new.items ≡ text.old.items ++ entries_line entries) }
{
    append_counted(text, b"entries ", entries)?;
    append(text, b"\n")
}

/// Appends how many entries are of each of these kinds.
fn append_kind_counts(
    text: &mut Vec<u8>,
    book: &Book<PlainKeeper>,
    kinds: &[EntryKind],
) -> Result<(), AllocError>
    ensures { OnOk result (text.new.items ≡ text.old.items ++ kinds_text book.now.log kinds.now) }
{
    for kind in kinds {
        append_counted(text, b" ", book.count_of_kind(*kind))?;
    }
    Ok(())
}

/// Appends the line on all kinds.
#[tactic(auto, unfolding(crate::specs::Drill::kinds_line))]
fn append_kinds(text: &mut Vec<u8>, book: &Book<PlainKeeper>) -> Result<(), AllocError>
    ensures { OnOk result (text.new.items ≡ text.old.items ++ kinds_line book.now.log) }
{
    append(text, b"kinds")?;
    append_kind_counts(text, book, EVERY_KIND.as_slice())?;
    append(text, b"\n")
}

/// Returns the users of a drill.
fn cast() -> [UserNo; 8]
    ensures { result ≡ cast }
{
    [
        UserNo::new(1),
        UserNo::new(2),
        UserNo::new(3),
        UserNo::new(4),
        UserNo::new(5),
        UserNo::new(6),
        UserNo::new(7),
        UserNo::new(8),
    ]
}

/// Appends how many lines a user's view has.
fn append_view_count(
    text: &mut Vec<u8>,
    book: &Book<PlainKeeper>,
    user: UserNo,
) -> Result<(), AllocError>
    ensures { OnOk result (text.new.items ≡ text.old.items
        ++ counted (codes " ") (length (view (Some user) book.now.log))) }
{
    let sightings = book.view_len(user)?;
    append_counted(text, b" ", sightings)
}

/// Appends how many lines the view of each of these users has.
fn append_view_counts(
    text: &mut Vec<u8>,
    book: &Book<PlainKeeper>,
    users: &[UserNo],
) -> Result<(), AllocError>
    ensures { OnOk result (text.new.items ≡ text.old.items ++ views_text book.now.log users.now) }
{
    for user in users {
        append_view_count(text, book, *user)?;
    }
    Ok(())
}

/// Appends the line on the views of all users.
#[tactic(auto, unfolding(crate::specs::Drill::views_line))]
fn append_views(text: &mut Vec<u8>, book: &Book<PlainKeeper>) -> Result<(), AllocError>
    ensures { OnOk result (text.new.items ≡ text.old.items ++ views_line book.now.log) }
{
    append(text, b"views")?;
    append_view_counts(text, book, cast().as_slice())?;
    append(text, b"\n")
}

/// Returns the four lines.
///
/// # Errors
///
/// If memory runs out.
///
/// # Cost
///
/// A walk over the history for each kind, and two for each user.
#[tactic(auto, unfolding(crate::specs::Drill::summary))]
pub(crate) fn summary(
    alloc: Global,
    book: &Book<PlainKeeper>,
    steps: u64,
    progress: Progress,
) -> Result<Vec<u8>, AllocError>
    ensures { IfOk result (λ text. text.items ≡ summary steps (drilled_of progress book.now.log)) }
{
    let mut text = Vec::new(alloc);
    append_steps(&mut text, steps, progress)?;
    append_entries(&mut text, book.entries())?;
    append_kinds(&mut text, book)?;
    append_views(&mut text, book)?;
    Ok(text)
}
