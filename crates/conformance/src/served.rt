// SPDX-License-Identifier: Apache-2.0 OR MIT
//! Whether what came of the connections of a case is what is due.

use crate::case::{Case, Times};
use crate::connection::{Mark, Talk};
use crate::run::{Came, Cut};
use crate::store::is_among;
use crate::verdict::{differing, front, text_of, unread_due};
use cr_base::Row;
use std::alloc::{AllocError, Global};

// What is due of each connection that is asked for, in order.
fn due(alloc: Global, case: &Case) -> Result<Vec<&Talk>, AllocError> {
    let mut due = Vec::new(alloc);
    for connection in case
        .connections
        .iter()
        .filter(|connection| connection.is_asked)
    {
        for _ in 0..connection.count {
            due.push(&connection.talk)?;
        }
    }
    Ok(due)
}

// How often the answers came of which that is told.
#[derive(Drop)]
struct Tally<'a> {
    times: &'a [Times],
    counts: Vec<u64>,
}

impl Tally<'_> {
    // Counts an answer.
    fn add(&mut self, answer: &[u8]) {
        for (times, count) in self.times.iter().zip(self.counts.iter_mut()) {
            if times.answer.as_slice() == answer {
                *count = count.saturating_add(1);
            }
        }
    }

    // The first count that isn't the one that is due.
    fn difference(&self, alloc: Global) -> Result<Option<String>, AllocError> {
        for (times, count) in self.times.iter().zip(self.counts.iter()) {
            if times.times != *count {
                let answer = text_of(alloc, times.answer.as_slice())?;
                let what = format!(in alloc; "how often came {answer:?}")?;
                return differing(alloc, what.as_str(), count, &times.times);
            }
        }
        Ok(None)
    }
}

// What came on a connection, where it is looked at, and what it is looked at with.
#[derive(Drop)]
struct Looked<'a> {
    talk: &'a Talk,
    came: &'a Came,
    rows: &'a [Row],
    cut: Cut,
}

// How many bytes the answer has with which a text begins: the one that is due, or one that may come in its place.
fn length_of(mark: &Mark, answer: &[u8], text: &[u8]) -> Option<usize> {
    if text.starts_with(answer) {
        return Some(answer.len());
    }
    mark.others
        .iter()
        .find(|other| text.starts_with(other.as_slice()))
        .map(|other| other.len())
}

impl Looked<'_> {
    // Whether the row of an answer is kept exactly where that answer came.
    fn is_kept_as_due(&self, mark: &Mark, is_itself: bool) -> bool {
        match &mark.kept {
            Some(row) => is_among(row, self.rows) == is_itself,
            None => true,
        }
    }

    // The first difference in what came.
    fn difference(
        &self,
        alloc: Global,
        tally: &mut Tally<'_>,
    ) -> Result<Option<String>, AllocError> {
        let due = front(self.talk.due.as_slice(), self.talk.write);
        let mut start = 0;
        let mut rest = self.came.out.as_slice();
        for mark in self.talk.answers.iter() {
            let end = mark.end.min(due.len());
            let answer = due.get(start..end).unwrap_or(&[]);
            start = end;
            let line = mark.line;
            let Some(length) = length_of(mark, answer, rest) else {
                let what = format!(in alloc; "line {line}")?;
                let came = text_of(alloc, rest)?;
                return differing(alloc, what.as_str(), &came, &text_of(alloc, answer)?);
            };
            if !self.is_kept_as_due(mark, rest.starts_with(answer)) {
                return Ok(Some(format!(in alloc;
                    "line {line}: its row is kept, though it didn't come, or isn't"
                )?));
            }
            let (came, behind) = rest.split_at_checked(length).unwrap_or((rest, &[]));
            tally.add(came);
            rest = behind;
        }
        if !rest.is_empty() {
            let none = String::new(alloc);
            return differing(
                alloc,
                "behind the last answer",
                &text_of(alloc, rest)?,
                &none,
            );
        }
        let unread = unread_due(self.talk, self.cut);
        if unread.is_some_and(|unread| unread != self.came.unread) {
            return differing(alloc, "unread", &Some(self.came.unread), &unread);
        }
        if self.came.unasked != 0 {
            return differing(
                alloc,
                "moments that nobody asked for",
                &self.came.unasked,
                &0,
            );
        }
        Ok(None)
    }
}

/// Returns the first difference between what is due of a case's connections and what came of them, by this cut and
/// with these rows kept, in words.
pub fn differing_connection(
    alloc: Global,
    case: &Case,
    cut: Cut,
    came: &[Came],
    rows: &[Row],
) -> Result<Option<String>, AllocError> {
    if case.connections.is_empty() {
        return Ok(None);
    }
    let due = due(alloc, case)?;
    if came.len() != due.len() {
        return differing(alloc, "connections", &came.len(), &due.len());
    }
    let mut tally = Tally {
        times: case.times.as_slice(),
        counts: vec![in alloc; 0; case.times.len()]?,
    };
    for (number, (talk, came)) in due.iter().zip(came.iter()).enumerate() {
        let looked = Looked {
            talk,
            came,
            rows,
            cut,
        };
        if let Some(why) = looked.difference(alloc, &mut tally)? {
            return Ok(Some(format!(in alloc; "connection {}: {why}", number.saturating_add(1))?));
        }
    }
    tally.difference(alloc)
}
