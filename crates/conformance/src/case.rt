// SPDX-License-Identifier: Apache-2.0 OR MIT
//! A case: what is sent on its connections, what fails meanwhile, and what is due.

use crate::connection::{Connection, Talk};
use crate::message::add_answer;
use crate::store::{add_row, copied, read_row};
use crate::text::{LineError, read_before, read_number};
use crate::time::Time;
use cr_base::Row;
use cr_top::Exit;
use std::alloc::{AllocError, Global};

/// What is sent, what fails, and what is due.
#[derive(Drop)]
pub struct Case {
    /// Its title, from the line that begins it.
    pub title: String,
    /// The words of the command line, the program's name first.
    pub words: Vec<String>,
    /// The program's own input and output.
    pub talk: Talk,
    /// The connections that the gates give, in order.
    pub connections: Vec<Connection>,
    /// How it is due to end.
    pub exit: Exit,
    /// What fails beside the connections.
    pub faults: Faults,
    /// The rows that are in the store before the run.
    pub rows: Vec<Row>,
    /// The rows that are due there after it, if they are told.
    pub rows_due: Option<Vec<Row>>,
    /// At which address the gates are asked for doors, if that is told; empty where they aren't asked.
    pub listen: Option<String>,
    /// How often some answers come on the connections.
    pub times: Vec<Times>,
    /// In which ways it is run.
    pub ways: Ways,
    // When the answers come that are told next.
    time: Time,
}

/// How often an answer comes on all connections together.
#[derive(Drop)]
pub struct Times {
    pub times: u64,
    pub answer: Vec<u8>,
}

/// What fails in a case beside its connections.
#[derive(Drop)]
pub struct Faults {
    /// True if the store can't be opened.
    pub is_shut: bool,
    /// The numbers of the appends that fail, from 0.
    pub appends: Vec<u64>,
    /// The numbers of the keeper's other calls that fail, from 0.
    pub reads: Vec<u64>,
    /// True if the gates can't be opened.
    pub has_no_doors: bool,
    /// Of each door the numbers of the calls that fail, from 0.
    pub doors: Vec<Vec<u64>>,
}

/// In which ways a case is run.
#[derive(Clone, Copy, Drop, PartialEq, Eq)]
pub enum Ways {
    /// With its bytes whole, and cut into pieces in several ways.
    AllCuts,
    /// With its bytes only whole.
    Whole,
    /// For each number of bytes after which the input may end, once.
    EachEnd,
    /// For each number of bytes after which the input may fail, once.
    EachRead,
    /// For each number of bytes after which the output may fail, once.
    EachWrite,
    /// For each call of the clock that may fail, once.
    EachClock,
    /// For each number of rows after which the store may end, once.
    EachRow,
}

impl Case {
    /// Returns a case of `confd pipe` that sends nothing yet.
    pub fn new(alloc: Global, title: &str) -> Result<Case, LineError> {
        Ok(Case {
            title: String::from_str(alloc, title)?,
            words: words_of(alloc, "confd pipe")?,
            talk: Talk::new(alloc),
            connections: Vec::new(alloc),
            exit: Exit::Done,
            faults: Faults {
                is_shut: false,
                appends: Vec::new(alloc),
                reads: Vec::new(alloc),
                has_no_doors: false,
                doors: Vec::new(alloc),
            },
            rows: Vec::new(alloc),
            rows_due: None,
            listen: None,
            times: Vec::new(alloc),
            ways: Ways::AllCuts,
            time: Time::usual()?,
        })
    }

    /// Returns how many answers are due.
    pub fn answers(&self) -> usize {
        let mut answers = self.talk.answers.len();
        for connection in self.connections.iter() {
            let more = connection
                .talk
                .answers
                .len()
                .saturating_mul(connection.count);
            answers = answers.saturating_add(more);
        }
        answers
    }

    /// Adds what a line says, which has this number in the file: once, or as often as `*N` before it says.
    pub fn add(&mut self, alloc: Global, number: usize, line: &str) -> Result<(), LineError> {
        if line.is_empty() || line.starts_with('#') {
            return Ok(());
        }
        let Some(repeated) = line.strip_prefix('*') else {
            return self.add_line(alloc, number, line);
        };
        let (count, line) = repeated.split_once(' ').ok_or(LineError::NoForm)?;
        for time in 0..read_number(count)? {
            let time = format!(in alloc; "{}", time.saturating_add(1))?;
            let line = line.replace(alloc, "\\#", time.as_str())?;
            self.add_line(alloc, number, line.as_str())?;
        }
        Ok(())
    }

    // The connection that was begun last, or the program's own input and output.
    fn current(&mut self) -> &mut Talk {
        match self.connections.last_mut() {
            Some(connection) => &mut connection.talk,
            None => &mut self.talk,
        }
    }

    // Adds what a line says that is neither empty nor a comment.
    fn add_line(&mut self, alloc: Global, number: usize, line: &str) -> Result<(), LineError> {
        let (form, rest) = line.split_once(' ').unwrap_or((line, ""));
        if let Some(index) = form.strip_prefix('@') {
            return add_row(&mut self.rows, index, read_row(alloc, rest)?);
        }
        if let Some(count) = form.strip_prefix('&') {
            self.connections.push(Connection::new(alloc, count)?)?;
            return Ok(());
        }
        match form {
            "$" => {
                self.words = words_of(alloc, rest)?;
                Ok(())
            }
            "~" => {
                self.time = Time::read(rest)?;
                Ok(())
            }
            "=@" => self.add_row_due(alloc, rest),
            "=times" => self.add_times(alloc, rest),
            "=listen" => {
                self.listen = Some(String::from_str(alloc, rest)?);
                Ok(())
            }
            _ if form.starts_with('!') => self.add_fault(alloc, form, rest),
            _ if form.starts_with('=') => self.add_end(alloc, form, rest),
            _ => {
                let time = self.time;
                self.current().add(alloc, &time, number, form, rest)
            }
        }
    }

    // =@ ROW, or `=@ same`
    fn add_row_due(&mut self, alloc: Global, rest: &str) -> Result<(), LineError> {
        let mut rows = self.rows_due.take().unwrap_or(Vec::new(alloc));
        if rest == "same" {
            rows = copied(alloc, self.rows.as_slice())?;
        } else {
            rows.push(read_row(alloc, rest)?)?;
        }
        self.rows_due = Some(rows);
        Ok(())
    }

    // =times N CODE CONTENT
    fn add_times(&mut self, alloc: Global, rest: &str) -> Result<(), LineError> {
        let (times, text) = rest.split_once(' ').ok_or(LineError::NoForm)?;
        let times = read_number(times)? as u64;
        let mut answer = Vec::new(alloc);
        add_answer(alloc, &mut answer, &self.time, text, false)?;
        self.times.push(Times { times, answer })?;
        Ok(())
    }

    // !open, !append N, !row N, !gates, !door N CALL, !each WHAT, !whole
    fn add_fault(&mut self, alloc: Global, form: &str, rest: &str) -> Result<(), LineError> {
        match (form, rest) {
            ("!open", "") => self.faults.is_shut = true,
            ("!append", _) => self.faults.appends.push(read_before(rest)?)?,
            ("!row", _) => self.faults.reads.push(read_before(rest)?)?,
            ("!gates", "") => self.faults.has_no_doors = true,
            ("!door", _) => return add_door(alloc, &mut self.faults.doors, rest),
            ("!whole", "") => self.ways = Ways::Whole,
            ("!each", "end") => self.ways = Ways::EachEnd,
            ("!each", "read") => self.ways = Ways::EachRead,
            ("!each", "write") => self.ways = Ways::EachWrite,
            ("!each", "clock") => self.ways = Ways::EachClock,
            ("!each", "row") => self.ways = Ways::EachRow,
            _ => return self.current().add_fault(form, rest),
        }
        Ok(())
    }

    // =EXIT, =bad_store ROW KIND, =unasked
    fn add_end(&mut self, alloc: Global, form: &str, rest: &str) -> Result<(), LineError> {
        match (form, rest) {
            ("=cut", "") => self.exit = Exit::Cut,
            ("=usage", "") => self.exit = Exit::Usage,
            ("=read_fault", "") => self.exit = Exit::ReadFault,
            ("=write_fault", "") => self.exit = Exit::WriteFault,
            ("=keeper_fault", "") => self.exit = Exit::KeeperFault,
            ("=listen_fault", "") => self.exit = Exit::ListenFault,
            ("=clock_fault", "") => self.exit = Exit::ClockFault,
            ("=no_user", "") => self.exit = Exit::NoUser,
            ("=bad_store", _) => {
                let (row, kind) = rest.split_once(' ').ok_or(LineError::NoForm)?;
                self.exit = Exit::BadStore {
                    row: read_number(row)? as u64,
                    kind: read_number(kind)? as u64,
                };
            }
            ("=unasked", "") => {
                let last = self.connections.last_mut().ok_or(LineError::NoForm)?;
                last.is_asked = false;
            }
            _ => return self.current().add_end(alloc, form, rest),
        }
        Ok(())
    }
}

// Adds the call that `N CALL` tells to the failing ones of door number N; both count from 1.
fn add_door(alloc: Global, doors: &mut Vec<Vec<u64>>, text: &str) -> Result<(), LineError> {
    let (door, call) = text.split_once(' ').ok_or(LineError::NoForm)?;
    let door = read_number(door)?;
    let call = read_before(call)?;
    for _ in doors.len()..door {
        doors.push(Vec::new(alloc))?;
    }
    let index = door.checked_sub(1).ok_or(LineError::NoForm)?;
    doors.get_mut(index).ok_or(LineError::NoForm)?.push(call)?;
    Ok(())
}

// The words of a command line.
fn words_of(alloc: Global, text: &str) -> Result<Vec<String>, AllocError> {
    let mut words = Vec::new(alloc);
    for word in text.split_whitespace() {
        words.push(String::from_str(alloc, word)?)?;
    }
    Ok(words)
}
