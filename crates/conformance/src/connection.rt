// SPDX-License-Identifier: Apache-2.0 OR MIT
//! One connection of a case: what is sent on it, where it fails, and what is due.

use crate::message::{add_answer, add_request};
use crate::store::read_row;
use crate::text::{LineError, add_raw, read_before, read_number};
use crate::time::Time;
use cr_base::{Moment, Row};
use std::alloc::Global;

/// What is sent on one connection, where that fails, and what is due.
#[derive(Drop)]
pub struct Talk {
    /// All that is sent.
    pub sent: Vec<u8>,
    /// All that is due.
    pub due: Vec<u8>,
    /// The answers that are due, in order.
    pub answers: Vec<Mark>,
    /// After how many bytes the input fails.
    pub read: Option<usize>,
    /// After how many bytes the output fails.
    pub write: Option<usize>,
    /// Where the bytes begin that aren't to be read, if the case names some.
    pub unread: Option<usize>,
    /// The moments that its clock gives: one an answer.
    pub moments: Vec<Moment>,
    /// The number of its clock's call that fails, from 0.
    pub clock: Option<u64>,
}

/// A line that tells an answer.
#[derive(Drop)]
pub struct Mark {
    /// Its number in the file, from 1.
    pub line: usize,
    /// How many bytes are sent before it.
    pub sent: usize,
    /// How many bytes are due up to its end.
    pub end: usize,
    /// How many moments the clock has given by then.
    pub moments: usize,
    /// How many rows are kept by then, if that is told.
    pub rows: Option<u64>,
    /// What may be answered in its place.
    pub others: Vec<Vec<u8>>,
    /// The row that is kept exactly if it is answered itself, if that is told.
    pub kept: Option<Row>,
}

/// One of many connections, or several that are alike.
#[derive(Drop)]
pub struct Connection {
    /// What is sent on it, where that fails, and what is due.
    pub talk: Talk,
    /// How many are like this.
    pub count: usize,
    /// True if a door is asked for it.
    pub is_asked: bool,
}

impl Connection {
    /// Returns as many connections as a text says, one for an empty text, that send nothing yet.
    pub fn new(alloc: Global, count: &str) -> Result<Connection, LineError> {
        let count = if count.is_empty() {
            1
        } else {
            read_number(count)?
        };
        Ok(Connection {
            talk: Talk::new(alloc),
            count,
            is_asked: true,
        })
    }
}

impl Talk {
    /// Returns a connection that sends nothing yet.
    pub fn new(alloc: Global) -> Talk {
        Talk {
            sent: Vec::new(alloc),
            due: Vec::new(alloc),
            answers: Vec::new(alloc),
            read: None,
            write: None,
            unread: None,
            moments: Vec::new(alloc),
            clock: None,
        }
    }

    /// Adds what a line says of what is sent and due at this time, which has this number in the file.
    pub fn add(
        &mut self,
        alloc: Global,
        time: &Time,
        number: usize,
        form: &str,
        rest: &str,
    ) -> Result<(), LineError> {
        if form.starts_with('<') {
            self.add_due(alloc, time, form, rest)?;
            self.answers.push(Mark {
                line: number,
                sent: self.sent.len(),
                end: self.due.len(),
                moments: self.moments.len(),
                rows: None,
                others: Vec::new(alloc),
                kept: None,
            })?;
            return Ok(());
        }
        if let Some(count) = form.strip_prefix(">>") {
            return add_raw(&mut self.sent, count, rest);
        }
        if let Some(number) = form.strip_prefix('>') {
            return add_request(alloc, &mut self.sent, number, rest);
        }
        match form {
            "|" => self.add_other(alloc, time, rest),
            _ => Err(LineError::NoForm),
        }
    }

    // < CODE CONTENT, <! CODE CONTENT, <<[N] TEXT
    fn add_due(
        &mut self,
        alloc: Global,
        time: &Time,
        form: &str,
        rest: &str,
    ) -> Result<(), LineError> {
        if let Some(count) = form.strip_prefix("<<") {
            return add_raw(&mut self.due, count, rest);
        }
        let closes = match form {
            "<" => false,
            "<!" => true,
            _ => return Err(LineError::NoForm),
        };
        self.moments.push(time.moment)?;
        add_answer(alloc, &mut self.due, time, rest, closes)
    }

    // | CODE CONTENT
    fn add_other(&mut self, alloc: Global, time: &Time, rest: &str) -> Result<(), LineError> {
        let mut other = Vec::new(alloc);
        add_answer(alloc, &mut other, time, rest, false)?;
        self.last()?.others.push(other)?;
        Ok(())
    }

    // The last answer.
    fn last(&mut self) -> Result<&mut Mark, LineError> {
        self.answers.last_mut().ok_or(LineError::NoForm)
    }

    /// Adds what a line says that fails: `!read [N]`, `!write [N]`, `!clock N`.
    pub fn add_fault(&mut self, form: &str, rest: &str) -> Result<(), LineError> {
        match form {
            "!read" => self.read = Some(behind(self.sent.len(), rest)?),
            "!write" => self.write = Some(behind(self.due.len(), rest)?),
            "!clock" => self.clock = Some(read_before(rest)?),
            _ => return Err(LineError::NoForm),
        }
        Ok(())
    }

    /// Adds what a line says of the connection's end: `=unread`, `=rows N`, `=kept ROW`.
    pub fn add_end(&mut self, alloc: Global, form: &str, rest: &str) -> Result<(), LineError> {
        match (form, rest) {
            ("=unread", "") => self.unread = Some(self.sent.len()),
            ("=rows", _) => self.last()?.rows = Some(read_number(rest)? as u64),
            ("=kept", _) => self.last()?.kept = Some(read_row(alloc, rest)?),
            _ => return Err(LineError::NoForm),
        }
        Ok(())
    }
}

// So many bytes, or so many more as a text says.
fn behind(count: usize, more: &str) -> Result<usize, LineError> {
    if more.is_empty() {
        return Ok(count);
    }
    count
        .checked_add(read_number(more)?)
        .ok_or(LineError::NoForm)
}
