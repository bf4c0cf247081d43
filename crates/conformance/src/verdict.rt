// SPDX-License-Identifier: Apache-2.0 OR MIT
//! Whether the runs of a case come to what is due.

use crate::case::{Case, Ways};
use crate::connection::{Mark, Talk};
use crate::run::{Cut, Doors, Input, Outcome, SPARE_ROOM};
use crate::served::differing_connection;
use crate::store::{Store, are_same};
use cr_base::Row;
use cr_top::Exit;
use std::alloc::{AllocError, Global};
use std::fmt::Debug;
use std::sync::Wait;
use std::thread::Threads;

/// How many bytes of an answer are told where it isn't the one that is due.
const TOLD: usize = 600;

/// The cuts in which a case is run: of what is sent, of what is answered, and their name.
const CUTS: [(Cut, Cut, &str); 8] = [
    (Cut::WHOLE, Cut::WHOLE, "whole"),
    (Cut::BYTES, Cut::WHOLE, "byte by byte"),
    (Cut::WHOLE, Cut::BYTES, "written byte by byte"),
    (
        Cut {
            first: 1,
            size: usize::MAX,
        },
        Cut::WHOLE,
        "first byte, then the rest",
    ),
    (Cut { first: 0, size: 2 }, Cut::WHOLE, "in pieces of 2"),
    (Cut { first: 0, size: 3 }, Cut::BYTES, "in pieces of 3"),
    (
        Cut { first: 0, size: 7 },
        Cut { first: 1, size: 5 },
        "in pieces of 7",
    ),
    (Cut { first: 0, size: 64 }, Cut::WHOLE, "in pieces of 64"),
];

/// What is due of one run.
#[derive(Drop)]
struct Due<'a> {
    out: &'a [u8],
    exit: Exit,
    rows: Option<u64>,
    rows_due: Option<&'a [Row]>,
    unread: Option<usize>,
    /// How many moments the clock has given.
    moments: usize,
}

/// Returns the first difference between what is due of a case and what comes, in words; `None` if all is as due.
pub fn difference<R: Threads + Wait + Sync>(
    rt: &R,
    alloc: Global,
    case: &Case,
) -> Result<Option<String>, AllocError> {
    for number in 0..runs(case) {
        let input = input_at(case, number);
        let due = due_at(case, number);
        if let Some(why) = compare(rt, alloc, case, &input, &due)? {
            let name = name_of(case.ways, number);
            return Ok(Some(format!(in alloc; "{name}, run {number}: {why}")?));
        }
    }
    Ok(None)
}

// How often a case is run. Where it is run for each number of bytes, a run's number, from 0, is that number.
fn runs(case: &Case) -> usize {
    match case.ways {
        Ways::AllCuts => CUTS.len(),
        Ways::Whole => 1,
        Ways::EachEnd | Ways::EachRead => case.talk.sent.len().saturating_add(1),
        Ways::EachWrite => case.talk.due.len(),
        Ways::EachClock => case.talk.moments.len(),
        Ways::EachRow => case.rows.len().saturating_add(1),
    }
}

// The cut of a run: the whole where there is none of that number.
fn cut_at(number: usize) -> (Cut, Cut, &'static str) {
    match CUTS.as_slice().get(number) {
        Some(cut) => *cut,
        None => (Cut::WHOLE, Cut::WHOLE, "whole"),
    }
}

// What is told of a run.
fn name_of(ways: Ways, number: usize) -> &'static str {
    match ways {
        Ways::AllCuts | Ways::Whole => cut_at(number).2,
        Ways::EachEnd => "the input ends behind a number of bytes",
        Ways::EachRead => "the input fails behind a number of bytes",
        Ways::EachWrite => "the output fails behind a number of bytes",
        Ways::EachClock => "the clock fails behind a number of moments",
        Ways::EachRow => "the store ends behind a number of rows",
    }
}

/// Returns the first bytes of a text, all where no number is told or it has fewer.
pub fn front(bytes: &[u8], count: Option<usize>) -> &[u8] {
    match count.and_then(|count| bytes.get(..count)) {
        Some(front) => front,
        None => bytes,
    }
}

// What the last of these answers tells of rows.
fn rows_by(answers: &[Mark]) -> Option<u64> {
    answers.iter().rev().find_map(|mark| mark.rows)
}

// The store of a case with these rows.
fn store_of<'a>(case: &'a Case, rows: &'a [Row]) -> Store<'a> {
    Store {
        rows,
        is_shut: case.faults.is_shut,
        appends: case.faults.appends.as_slice(),
        reads: case.faults.reads.as_slice(),
    }
}

// The gates of a case.
fn doors_of(case: &Case) -> Doors<'_> {
    Doors {
        connections: case.connections.as_slice(),
        are_shut: case.faults.has_no_doors,
        failing: case.faults.doors.as_slice(),
    }
}

// The first rows of a case.
fn first_rows(case: &Case, count: usize) -> &[Row] {
    case.rows.get(..count).unwrap_or(&[])
}

// The run of a case by one cut.
fn input_of(case: &Case, cut: Cut, out_cut: Cut) -> Input<'_> {
    Input {
        words: case.words.as_slice(),
        sent: case.talk.sent.as_slice(),
        cut,
        out_cut,
        read_fault: case.talk.read,
        write_fault: case.talk.write,
        moments: case.talk.moments.as_slice(),
        clock_fault: case.talk.clock,
        store: store_of(case, case.rows.as_slice()),
        doors: doors_of(case),
    }
}

// The run of a case that has this number.
fn input_at(case: &Case, number: usize) -> Input<'_> {
    match case.ways {
        Ways::AllCuts | Ways::Whole => {
            let (cut, out_cut, _) = cut_at(number);
            input_of(case, cut, out_cut)
        }
        Ways::EachEnd => Input {
            sent: front(case.talk.sent.as_slice(), Some(number)),
            ..input_of(case, Cut::BYTES, Cut::WHOLE)
        },
        Ways::EachRead => Input {
            read_fault: Some(number),
            ..input_of(case, Cut::BYTES, Cut::WHOLE)
        },
        Ways::EachWrite => Input {
            write_fault: Some(number),
            ..input_of(case, Cut::WHOLE, Cut::BYTES)
        },
        Ways::EachClock => Input {
            clock_fault: Some(number as u64),
            ..input_of(case, Cut::BYTES, Cut::WHOLE)
        },
        Ways::EachRow => Input {
            store: store_of(case, first_rows(case, number)),
            ..input_of(case, Cut::WHOLE, Cut::WHOLE)
        },
    }
}

// What is due of the run that has this number.
fn due_at(case: &Case, number: usize) -> Due<'_> {
    match case.ways {
        Ways::AllCuts | Ways::Whole => due_of_cut(case, cut_at(number).0),
        Ways::EachEnd => due_of_end(case, number),
        Ways::EachRead => due_of_read(case, number),
        Ways::EachWrite => due_of_write(case, number),
        Ways::EachClock => due_of_clock(case, number),
        Ways::EachRow => due_of_rows(case, number),
    }
}

/// Returns how many bytes aren't to be read by a cut, if that is told: it is where the bytes come one by one.
pub fn unread_due(talk: &Talk, cut: Cut) -> Option<usize> {
    talk.unread
        .filter(|_| cut.size == 1)
        .map(|at| talk.sent.len().saturating_sub(at))
}

// By a cut. What isn't to be read is told where the bytes come one by one.
fn due_of_cut(case: &Case, cut: Cut) -> Due<'_> {
    Due {
        out: front(case.talk.due.as_slice(), case.talk.write),
        exit: case.exit,
        rows: rows_by(case.talk.answers.as_slice()),
        rows_due: case.rows_due.as_ref().map(|rows| rows.as_slice()),
        unread: unread_due(&case.talk, cut),
        moments: case.talk.moments.len(),
    }
}

// The answers that are due where the input gives so many bytes.
fn answered(case: &Case, count: usize) -> &[Mark] {
    let whole = case
        .talk
        .answers
        .iter()
        .take_while(|mark| mark.sent <= count)
        .count();
    case.talk.answers.get(..whole).unwrap_or(&[])
}

// How many bytes are due up to the last of these answers.
fn end_of(answers: &[Mark]) -> usize {
    answers.last().map_or(0, |mark| mark.end)
}

// How many moments the clock has given for these answers.
fn moments_by(answers: &[Mark]) -> usize {
    answers.last().map_or(0, |mark| mark.moments)
}

// Where the input ends after so many bytes. The end is clean where an answer is due there, or nothing was
// sent.
fn due_of_end(case: &Case, count: usize) -> Due<'_> {
    let answers = answered(case, count);
    let is_clean = count == answers.last().map_or(0, |mark| mark.sent);
    Due {
        out: front(case.talk.due.as_slice(), Some(end_of(answers))),
        exit: if is_clean { Exit::Done } else { Exit::Cut },
        rows: rows_by(answers),
        rows_due: None,
        unread: None,
        moments: moments_by(answers),
    }
}

// Where the input fails after so many bytes.
fn due_of_read(case: &Case, count: usize) -> Due<'_> {
    let answers = answered(case, count);
    Due {
        out: front(case.talk.due.as_slice(), Some(end_of(answers))),
        exit: Exit::ReadFault,
        rows: rows_by(answers),
        rows_due: None,
        unread: Some(case.talk.sent.len().saturating_sub(count)),
        moments: moments_by(answers),
    }
}

// The answers up to the one in which so many bytes end.
fn begun(case: &Case, count: usize) -> &[Mark] {
    let whole = case
        .talk
        .answers
        .iter()
        .take_while(|mark| mark.end <= count)
        .count();
    case.talk
        .answers
        .get(..whole.saturating_add(1))
        .unwrap_or(case.talk.answers.as_slice())
}

// Where the output fails after so many bytes.
fn due_of_write(case: &Case, count: usize) -> Due<'_> {
    let begun = begun(case, count);
    Due {
        out: front(case.talk.due.as_slice(), Some(count)),
        exit: Exit::WriteFault,
        rows: rows_by(begun),
        rows_due: None,
        unread: None,
        moments: moments_by(begun),
    }
}

// Where the clock fails after so many moments: the answers that had one are whole, and nothing is judged after them.
// What isn't to be read then is what is sent after the request that gets none.
fn due_of_clock(case: &Case, count: usize) -> Due<'_> {
    let marks = case.talk.answers.as_slice();
    let answers = marks.get(..count).unwrap_or(marks);
    let sent = marks.get(count).map(|mark| mark.sent);
    Due {
        out: front(case.talk.due.as_slice(), Some(end_of(answers))),
        exit: Exit::ClockFault,
        rows: rows_by(answers),
        rows_due: None,
        unread: sent.map(|sent| case.talk.sent.len().saturating_sub(sent)),
        moments: count,
    }
}

// Where the store ends after so many rows. It is bad at the last one where that has another of its command after it.
fn due_of_rows(case: &Case, count: usize) -> Due<'_> {
    match first_rows(case, count).last() {
        Some(last) if last.more == 1 => Due {
            out: &[],
            exit: Exit::BadStore {
                row: count.saturating_sub(1) as u64,
                kind: last.kind,
            },
            rows: Some(count as u64),
            rows_due: None,
            unread: None,
            moments: 0,
        },
        _ => due_of_cut(case, Cut::WHOLE),
    }
}

// Runs it, and tells the first difference.
fn compare<R: Threads + Wait + Sync>(
    rt: &R,
    alloc: Global,
    case: &Case,
    input: &Input<'_>,
    due: &Due<'_>,
) -> Result<Option<String>, AllocError> {
    let outcome = input.run(rt, alloc, due.out.len().saturating_add(SPARE_ROOM))?;
    differing_outcome(alloc, case, input.cut, due, &outcome)
}

// The first difference between what came of a run by this cut and what is due of it.
fn differing_outcome(
    alloc: Global,
    case: &Case,
    cut: Cut,
    due: &Due<'_>,
    outcome: &Outcome,
) -> Result<Option<String>, AllocError> {
    if outcome.own.out.as_slice() != due.out {
        return Ok(Some(differing_answer(alloc, case, outcome.own.out.as_slice(), due.out)?));
    }
    if let Some(why) = differing_end(alloc, case, outcome, due)? {
        return Ok(Some(why));
    }
    let rows = outcome.rows.as_slice();
    differing_connection(alloc, case, cut, outcome.connections.as_slice(), rows)
}

// The first answer that isn't the one that is due.
fn differing_answer(
    alloc: Global,
    case: &Case,
    out: &[u8],
    due: &[u8],
) -> Result<String, AllocError> {
    let same = out
        .iter()
        .zip(due.iter())
        .take_while(|(came, due)| came == due)
        .count();
    let (mut line, mut start) = (0, 0);
    for mark in case.talk.answers.iter() {
        line = mark.line;
        if same < mark.end {
            break;
        }
        start = mark.end;
    }
    let came = told(alloc, out, start)?;
    let due = told(alloc, due, start)?;
    format!(in alloc; "line {line}: came {came:?}, due {due:?}")
}

/// Returns the text that bytes are, cut short.
pub fn text_of(alloc: Global, bytes: &[u8]) -> Result<String, AllocError> {
    String::from_utf8_lossy(alloc, front(bytes, Some(TOLD)))
}

// What is in a text from a place on, cut short.
fn told(alloc: Global, bytes: &[u8], start: usize) -> Result<String, AllocError> {
    text_of(alloc, bytes.get(start..).unwrap_or(&[]))
}

/// Returns what came and what was due, in words.
pub fn differing<T: Debug>(
    alloc: Global,
    what: &str,
    came: &T,
    due: &T,
) -> Result<Option<String>, AllocError> {
    Ok(Some(format!(in alloc; "{what}: came {came:?}, due {due:?}")?))
}

// The address at which the gates were asked for doors, where it isn't the one that is due.
fn differing_address(
    alloc: Global,
    case: &Case,
    asked: &[String],
) -> Result<Option<String>, AllocError> {
    let Some(due) = &case.listen else {
        return Ok(None);
    };
    let came = asked.first().map_or("", |address| address.as_str());
    if asked.len() > 1 || came != due.as_str() {
        return differing(alloc, "address", &came, &due.as_str());
    }
    Ok(None)
}

// The first difference beside the answers.
fn differing_end(
    alloc: Global,
    case: &Case,
    outcome: &Outcome,
    due: &Due<'_>,
) -> Result<Option<String>, AllocError> {
    if outcome.exit != due.exit {
        return differing(alloc, "end", &outcome.exit, &due.exit);
    }
    let rows = Some(outcome.rows.len() as u64);
    if due.rows.is_some() && rows != due.rows {
        return differing(alloc, "rows", &rows, &due.rows);
    }
    if !due
        .rows_due
        .is_none_or(|rows| are_same(outcome.rows.as_slice(), rows))
    {
        return Ok(Some(String::from_str(alloc, "other rows are kept than are due")?));
    }
    let unread = Some(outcome.own.unread);
    if due.unread.is_some() && unread != due.unread {
        return differing(alloc, "unread", &unread, &due.unread);
    }
    let moments = case.talk.moments.len().saturating_sub(outcome.own.unasked);
    if moments != due.moments {
        return differing(alloc, "moments", &moments, &due.moments);
    }
    differing_address(alloc, case, outcome.asked.as_slice())
}
