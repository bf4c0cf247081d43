// SPDX-License-Identifier: Apache-2.0 OR MIT
//! Beginnings of groups: whether an entry may stand after those that an unfinished group has so far.
ghost use Rattle.std.specs.Prelude.{◌≡◌, ◌≤◌, ◌+◌, ◌∷◌, ◌==◌, ◌↔◌, ◌&&◌, drop, if◌then◌else◌, length, true};
ghost use Rattle.std.specs.Prelude.{[], IsTrue, Some, None};
ghost use Rattle.std.specs.List.{list_any, AllByRecursion};
ghost use Rattle.std.specs.Option.{option_map};
ghost use Rattle.cr_base.specs.Bulk.{resolved_of_row};
ghost use Rattle.cr_base.specs.History.{all_told};
ghost use Rattle.cr_base.specs.Resolving.{command_of, drawn_numbers};
ghost use Rattle.cr_base.specs.Tables.{tables_from, tables_of};
ghost use Rattle.cr_base.specs.declared.entry.Entry.TheVariants as entries;
ghost use Rattle.cr_base.specs.declared.words.Role.TheVariants.{Chair};
ghost use Rattle.cr_judge.specs.Rows.{AreEarlier};
ghost use Rattle.cr_policy.specs.Legal.{IsNewKey, Legal};
ghost use Rattle.cr_beginnings.specs.Beginnings.{coauthor_told, fewest_entries, giver_told, is_first_user, is_known};
ghost use Rattle.cr_beginnings.specs.Beginnings.{is_of_row};
ghost use Rattle.cr_beginnings.specs.Beginnings.{lesser, may_bulk, may_count, may_have_key, most_entries};
ghost use Rattle.cr_beginnings.specs.Beginnings.{AreDue, HasMore, InTurn, IsCoauthor, IsDrawn, IsNext, IsRowDrawn};
ghost use Rattle.cr_beginnings.specs.Beginnings.{MayBegin};
ghost use Rattle.cr_book.specs.Reading.{row_told, IfRows, TakenIf};

use cr_base::{
    Coauthors, Entry, MOST_ROWS, Ordinal, PaperNo, ResolvedCall, ResolvedCommand, ResolvedRow,
    RetryKey, Stamp, Stamped, UserNo,
};
use cr_judge::{is_there, judge, judge_row};
use cr_log::Log;
use cr_view::Live;

/// Returns the entry if it may stand after those that are begun, each of which another follows; `None` if it may not.
///
/// # Cost
///
/// Takes no memory. At a group's first entry one judgement of its command, and one look-up if the command has a
/// number; at a co-author one read by number and a walk over the co-authors before; at a bulk's row one judgement,
/// which walks over the entries before it, at most 511.
pub(crate) fn due(log: &Log, live: &Live, begun: &[Stamped], next: Stamped) -> Option<Stamped>
    requires legal { Legal log.now.entries }
    requires same { live.now.tables ≡ tables_of log.now.entries }
    requires begun { AreDue log.now.entries [] begun.now }
    requires more { AllByRecursion HasMore begun.now }
    ensures { TakenIf (InTurn log.now.entries begun.now next) next result }
{
    match begun.first() {
        Some(first) => due_behind(live, first, begun, next),
        None => due_first(log, live, next),
    }
}

/// Returns the first entry of a group if it may begin one.
fn due_first(log: &Log, live: &Live, next: Stamped) -> Option<Stamped>
    requires same { live.now.tables ≡ tables_of log.now.entries }
    ensures { TakenIf (InTurn log.now.entries [] next) next result }
{
    if !may_begin(log, live, &next) {
        drop(next);
        return None;
    }
    drawn(live, next)
}

/// Returns an entry after the first, which is this one, of those begun, if it may stand there.
fn due_behind(live: &Live, first: &Stamped, begun: &[Stamped], next: Stamped) -> Option<Stamped>
    requires begun { begun.now ≡ first.now ∷ drop 1 begun.now }
    requires rows { IfRows first.now.entry (AreEarlier live.now.tables begun.now) }
    ensures { TakenIf (IsNext live.now.tables first.now (drop 1 begun.now) next) next result }
{
    if !follows(live, first, begun, &next) {
        drop(next);
        return None;
    }
    match &first.entry {
        Entry::Registered { user, .. } => chair_behind(next, *user),
        Entry::Submitted { paper, .. } => {
            coauthor_behind(live, first.stamp.maker, *paper, begun, next)
        }
        _ => row_drawn(live, begun, next),
    }
}

/// Returns the entry if it gives this user the role of a chair.
fn chair_behind(next: Stamped, user: UserNo) -> Option<Stamped>
    ensures { TakenIf (next.entry ≡ entries.Named user Chair) next result }
{
    let stands = is_chair_of(&next.entry, user);
    when(stands, next)
}

/// Returns the entry if it makes another co-author of the paper, after the first of a group and those begun.
fn coauthor_behind(
    live: &Live,
    maker: UserNo,
    paper: PaperNo,
    begun: &[Stamped],
    next: Stamped,
) -> Option<Stamped>
    requires { 1 ≤ length begun.now }
    ensures { TakenIf (IsCoauthor live.now.tables maker paper (drop 1 begun.now) next.entry) next result }
{
    let stands = is_coauthor_behind(live, maker, paper, begun, &next.entry);
    when(stands, next)
}

/// Returns whether it has the first entry's metadata, and a group that begins so may have an entry in its place.
fn follows(live: &Live, first: &Stamped, begun: &[Stamped], next: &Stamped) -> bool
    ensures { IsTrue result ↔ ((next.now.stamp ≡ first.now.stamp)
        × (may_count live.now.tables first.now (length begun.now + 1) next.now.more ≡ true)) }
{
    next.stamp == first.stamp && may_count(live, first, begun.len() + 1, next.more)
}

/// Returns the entry if this holds.
fn when(holds: bool, next: Stamped) -> Option<Stamped>
    ensures { result ≡ (if holds then Some next else None) }
{
    if holds {
        return Some(next);
    }
    drop(next);
    None
}

// ---- who gave it, and under which number

/// Returns who gave the command of a group with this first entry.
fn giver_of(first: &Stamped) -> Option<UserNo>
    ensures { result ≡ giver_told first.now.stamp.maker first.now.entry }
{
    match &first.entry {
        Entry::Registered { .. } => None,
        _ => Some(first.stamp.maker),
    }
}

/// Returns whether it is nobody, or a user who has registered.
fn is_known(live: &Live, caller: &Option<UserNo>) -> bool
    ensures { result ≡ is_known live.now.tables caller.now }
{
    match caller {
        Some(user) => is_there(live, *user),
        None => true,
    }
}

/// Returns whether this caller's command may have this number: an unauthenticated caller's has none.
fn may_have_key(caller: &Option<UserNo>, key: &Option<RetryKey>) -> bool
    ensures { result ≡ may_have_key caller.now key.now }
{
    caller.is_some() || key.is_none()
}

/// Returns whether nothing was added under the number of this stamp, if it has one.
fn is_new(log: &Log, stamp: &Stamp) -> bool
    ensures { IsTrue result ↔ IsNewKey log.now.entries (Some stamp.now.maker) stamp.now.key }
{
    match &stamp.key {
        Some(key) => log.is_unused(stamp.maker, key.number),
        None => true,
    }
}

/// Returns whether the entry may begin a group, if its command draws it.
fn may_begin(log: &Log, live: &Live, next: &Stamped) -> bool
    ensures { IsTrue result ↔ MayBegin live.now.tables log.now.entries next.now }
{
    let giver = giver_of(next);
    if !is_known(live, &giver) {
        return false;
    }
    if !may_have_key(&giver, &next.stamp.key) {
        return false;
    }
    if !may_count(live, next, 1, next.more) {
        return false;
    }
    is_new(log, &next.stamp)
}

// ---- how many entries

/// Returns whether the user has registered, and may give a bulk.
fn may_bulk(live: &Live, user: UserNo) -> bool
    ensures { result ≡ may_bulk live.now.tables user }
{
    is_there(live, user) && cr_judge::may_bulk(live, user).is_ok()
}

/// Returns whether a row of this user's bulk may draw such an entry.
fn is_of_row(maker: UserNo, entry: &Entry) -> bool
    ensures { result ≡ is_of_row maker entry.now }
{
    match entry {
        Entry::Conflict { user, .. } => *user != maker,
        Entry::Assigned { .. } => true,
        Entry::Unassigned { .. } => true,
        Entry::Tagged { .. } => true,
        _ => false,
    }
}

/// Returns the fewest entries that a group with this first entry has.
fn fewest_entries(live: &Live, first: &Entry) -> usize
    ensures { result ≡ fewest_entries live.now.tables first.now }
{
    match first {
        Entry::Registered { .. } => of_registration(live),
        _ => 1,
    }
}

/// Returns how many entries the next registration has.
fn of_registration(live: &Live) -> usize
    ensures { result ≡ (if is_first_user live.now.tables then 2 else 1) }
{
    if live.account_table().count() == 0 {
        2
    } else {
        1
    }
}

/// Returns the most entries that a submission may have.
fn of_submission(live: &Live) -> usize
    ensures { result ≡ lesser 20 (length live.now.tables.accounts) }
{
    let users = live.account_table().count();
    if 20 <= users { 20 } else { users as usize }
}

/// Returns the most entries of a group with another first entry, which is this one of the user's.
fn of_bulk(live: &Live, maker: UserNo, first: &Entry) -> usize
    ensures { result ≡ (if is_of_row maker first.now && may_bulk live.now.tables maker then 512 else 1) }
{
    if is_of_row(maker, first) && may_bulk(live, maker) {
        MOST_ROWS
    } else {
        1
    }
}

/// Returns the most entries that a group may have which begins with this one.
fn most_entries(live: &Live, first: &Stamped) -> usize
    ensures { result ≡ most_entries live.now.tables first.now.stamp.maker first.now.entry }
{
    match &first.entry {
        Entry::Registered { .. } => of_registration(live),
        Entry::Submitted { .. } => of_submission(live),
        entry => of_bulk(live, first.stamp.maker, entry),
    }
}

/// Returns whether a group with this first entry may have an entry in this place, from 1, with this mark.
fn may_count(live: &Live, first: &Stamped, place: usize, more: bool) -> bool
    ensures { result ≡ may_count live.now.tables first.now place more }
{
    if more {
        place < most_entries(live, first)
    } else {
        fewest_entries(live, &first.entry) <= place
    }
}

// ---- what is drawn

/// Returns the number of an entry that isn't its command's but is drawn, or 0 if none is.
fn number_of(entry: &Entry) -> u64
    ensures { result ≡ (drawn_numbers entry.now).number }
{
    match entry {
        Entry::Registered { user, .. } => user.number(),
        Entry::Submitted { paper, .. } => paper.number(),
        Entry::Uploaded { version, .. } => *version,
        Entry::Assigned { ordinal, .. } => ordinal.number(),
        Entry::Unassigned { ordinal, .. } => ordinal.number(),
        Entry::Reviewed { version, .. } => *version,
        Entry::Commented { n, .. } => *n,
        _ => 0,
    }
}

/// Returns the label that is drawn beside it, for a review and a comment.
fn ordinal_of(entry: &Entry) -> Option<Ordinal>
    ensures { result ≡ (drawn_numbers entry.now).ordinal }
{
    match entry {
        Entry::Reviewed { ordinal, .. } => Some(*ordinal),
        Entry::Commented { ordinal, .. } => *ordinal,
        _ => None,
    }
}

/// Returns whether these are the numbers drawn for an entry.
fn has_numbers(entry: &Entry, number: u64, ordinal: &Option<Ordinal>) -> bool
    ensures { IsTrue result ↔ (drawn_numbers entry.now ≡ record { number = number; ordinal = ordinal.now }) }
{
    number_of(entry) == number && ordinal_of(entry) == *ordinal
}

/// Returns whether the maker is the same, and these are the numbers drawn for the entry.
fn is_alike(
    given: &Stamp,
    stamp: &Stamp,
    entry: &Entry,
    number: u64,
    ordinal: &Option<Ordinal>,
) -> bool
    ensures { IsTrue result ↔ ((given.now.maker ≡ stamp.now.maker)
        × (drawn_numbers entry.now ≡ record { number = number; ordinal = ordinal.now })) }
{
    given.maker == stamp.maker && has_numbers(entry, number, ordinal)
}

/// Returns the entry if the command that it tells draws it first, by the same maker.
fn drawn(live: &Live, next: Stamped) -> Option<Stamped>
    ensures { TakenIf (IsDrawn live.now.tables next.stamp next.entry) next result }
{
    let number = number_of(&next.entry);
    let ordinal = ordinal_of(&next.entry);
    let caller = giver_of(&next);
    let Stamped { stamp, more, entry } = next;
    let Some(command) = command_of(entry) else {
        return None;
    };
    let call = ResolvedCall {
        caller,
        at: stamp.at,
        key: stamp.key,
        command,
    };
    let effect = match judge(live, call) {
        Ok(effect) => effect,
        Err(_) => return None,
    };
    let (given, entry) = effect.into_first();
    if is_alike(&given, &stamp, &entry, number, &ordinal) {
        return Some(Stamped { stamp, more, entry });
    }
    drop(entry);
    None
}

/// Returns the entry of a bulk if its row draws it after those that are begun.
fn row_drawn(live: &Live, begun: &[Stamped], next: Stamped) -> Option<Stamped>
    requires { AreEarlier live.now.tables begun.now }
    ensures { TakenIf (IsRowDrawn (tables_from live.now.tables begun.now) next.stamp next.entry) next result }
{
    let number = number_of(&next.entry);
    let Stamped { stamp, more, entry } = next;
    let Some(row) = row_of(entry) else {
        return None;
    };
    let entry = match judge_row(live, &stamp, row, begun) {
        Ok(entry) => entry,
        Err(_) => return None,
    };
    if has_numbers(&entry, number, &None) {
        return Some(Stamped { stamp, more, entry });
    }
    drop(entry);
    None
}

// ---- after the first

/// Returns whether it gives this user the role of a chair.
fn is_chair_of(entry: &Entry, user: UserNo) -> bool
    ensures { IsTrue result ↔ (entry.now ≡ entries.Named user Chair) }
{
    match entry {
        Entry::Named { user: named, role } => *named == user && role.is_chair(),
        _ => false,
    }
}

/// Returns whether it makes a co-author of the paper as `is_coauthor` says, where the first of those before begins the
/// group.
fn is_coauthor_behind(
    live: &Live,
    maker: UserNo,
    paper: PaperNo,
    begun: &[Stamped],
    entry: &Entry,
) -> bool
    requires { 1 ≤ length begun.now }
    ensures { IsTrue result ↔ IsCoauthor live.now.tables maker paper (drop 1 begun.now) entry.now }
{
    is_coauthor(live, maker, paper, &begun[1..], entry)
}

/// Returns whether it makes a co-author of the paper of a user who has registered, and is neither the maker nor made
/// one by those before.
fn is_coauthor(
    live: &Live,
    maker: UserNo,
    paper: PaperNo,
    behind: &[Stamped],
    entry: &Entry,
) -> bool
    ensures { IsTrue result ↔ IsCoauthor live.now.tables maker paper behind.now entry.now }
{
    let Entry::Coauthor { paper: of, user } = entry else {
        return false;
    };
    *of == paper && is_there(live, *user) && maker != *user && !tell(behind, *user)
}

/// Returns whether one of the entries makes this user a co-author.
fn tell(behind: &[Stamped], user: UserNo) -> bool
    ensures { result ≡ list_any (λ v. v == user) (all_told coauthor_told behind.now) }
{
    behind.iter().any(|other| is_of(&other.entry, user))
}

/// Returns whether it makes this user a co-author.
fn is_of(entry: &Entry, user: UserNo) -> bool
    ensures { result ≡ list_any (λ v. v == user) (coauthor_told entry.now) }
{
    match entry {
        Entry::Coauthor { user: told, .. } => *told == user,
        _ => false,
    }
}

// ---- the command

/// Returns the command of the row of a bulk that draws such an entry, which takes its tag; `None` if no row does.
fn row_of(entry: Entry) -> Option<ResolvedRow>
    ensures { option_map resolved_of_row result ≡ row_told entry }
{
    match entry {
        Entry::Conflict { paper, user, on } => Some(ResolvedRow::Conflict {
            paper: Some(paper),
            user: Some(user),
            on,
        }),
        Entry::Assigned {
            paper,
            user,
            kind,
            ..
        } => Some(ResolvedRow::Assign {
            paper: Some(paper),
            user: Some(user),
            kind,
        }),
        Entry::Unassigned { paper, user, .. } => Some(ResolvedRow::Unassign {
            paper: Some(paper),
            user: Some(user),
        }),
        Entry::Tagged { paper, tag, on } => Some(ResolvedRow::Tag {
            paper: Some(paper),
            tag,
            on,
        }),
        other => {
            drop(other);
            None
        }
    }
}

/// Returns the command whose group begins with the entry, which takes its texts and its content: of a submission the
/// one without co-authors, and `None` of a co-author.
fn command_of(entry: Entry) -> Option<ResolvedCommand>
    ensures { result ≡ command_of entry }
{
    Some(match entry {
        Entry::Registered { name, digest, .. } => ResolvedCommand::Register { name, digest },
        Entry::Named { user, role } => ResolvedCommand::Name {
            user: Some(user),
            role,
        },
        Entry::PhaseSet { phase } => ResolvedCommand::SetPhase { phase },
        Entry::ModeSet { mode } => ResolvedCommand::SetMode { mode },
        Entry::Submitted {
            title,
            abstract_,
            ..
        } => ResolvedCommand::Submit {
            title,
            abstract_,
            authors: Some(Coauthors::none()),
        },
        Entry::Coauthor { .. } => return None,
        Entry::Revised {
            paper,
            title,
            abstract_,
        } => ResolvedCommand::Revise {
            paper: Some(paper),
            title,
            abstract_,
        },
        Entry::Uploaded { paper, content, .. } => ResolvedCommand::Upload {
            paper: Some(paper),
            content,
        },
        Entry::Withdrawn { paper } => ResolvedCommand::Withdraw { paper: Some(paper) },
        Entry::Conflict { paper, user, on } => ResolvedCommand::SetConflict {
            paper: Some(paper),
            user: Some(user),
            on,
        },
        Entry::Bid { paper, value } => ResolvedCommand::Bid {
            paper: Some(paper),
            value,
        },
        Entry::Assigned {
            paper,
            user,
            kind,
            ..
        } => ResolvedCommand::Assign {
            paper: Some(paper),
            user: Some(user),
            kind,
        },
        Entry::Unassigned { paper, user, .. } => ResolvedCommand::Unassign {
            paper: Some(paper),
            user: Some(user),
        },
        Entry::Reviewed { paper, form, .. } => ResolvedCommand::Review {
            paper: Some(paper),
            form,
        },
        Entry::Commented { paper, text, .. } => ResolvedCommand::Comment {
            paper: Some(paper),
            text,
        },
        Entry::Tagged { paper, tag, on } => ResolvedCommand::Tag {
            paper: Some(paper),
            tag,
            on,
        },
        Entry::Decided { paper, decision } => ResolvedCommand::Decide {
            paper: Some(paper),
            decision,
        },
        Entry::DeadlineSet { phase, until } => ResolvedCommand::SetDeadline { phase, until },
        Entry::Dismissed { user } => ResolvedCommand::Dismiss { user: Some(user) },
        Entry::Invited { paper, user } => ResolvedCommand::Invite {
            paper: Some(paper),
            user: Some(user),
        },
        Entry::Uninvited { paper, user } => ResolvedCommand::Uninvite {
            paper: Some(paper),
            user: Some(user),
        },
        Entry::Responded { paper, text } => ResolvedCommand::Respond {
            paper: Some(paper),
            text,
        },
    })
}
