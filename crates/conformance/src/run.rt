// SPDX-License-Identifier: Apache-2.0 OR MIT
//! One run of a case, over streams, a store and gates in memory.

use crate::connection::{Connection, Talk};
use crate::store::{MemoryShelf, Store, path_in, rows_at};
use cr_base::{Moment, Row};
use cr_ports::{MemClock, MemGates, MemSink, MemSource};
use cr_top::{Exit, top};
use std::alloc::{AllocError, Global};
use std::sync::Wait;
use std::thread::Threads;

/// More room than any answers that are due need, so that what comes too much is told.
pub const SPARE_ROOM: usize = 4096;

/// How a stream is cut: one piece of `first` bytes, if that isn't 0, then pieces of `size`.
#[derive(Clone, Copy, Drop)]
pub struct Cut {
    pub first: usize,
    pub size: usize,
}

impl Cut {
    /// In one piece.
    pub const WHOLE: Cut = Cut {
        first: 0,
        size: usize::MAX,
    };

    /// Byte by byte.
    pub const BYTES: Cut = Cut { first: 0, size: 1 };

    // The lengths of the pieces of so many bytes, none of them 0.
    fn pieces(self, alloc: Global, count: usize) -> Result<Vec<usize>, AllocError> {
        let mut pieces = Vec::new(alloc);
        let first = self.first.min(count);
        if first > 0 {
            pieces.push(first)?;
        }
        let rest = count.saturating_sub(first);
        let size = self.size.max(1);
        for _ in 0..rest / size {
            pieces.push(size)?;
        }
        if rest % size > 0 {
            pieces.push(rest % size)?;
        }
        Ok(pieces)
    }

    // What gives these bytes. Where a read is to fail, it is the one after the pieces before.
    fn source(
        self,
        alloc: Global,
        sent: &[u8],
        read_fault: Option<usize>,
    ) -> Result<MemSource, AllocError> {
        let count = read_fault.unwrap_or(sent.len());
        let pieces = self.pieces(alloc, count)?;
        let mut failing = Vec::new(alloc);
        if read_fault.is_some() {
            failing.push(pieces.len() as u64)?;
        }
        Ok(MemSource::new(sent.to_vec(alloc)?, pieces, failing))
    }

    // What takes answers, with room for so many bytes, or up to where a write is to fail.
    fn sink(
        self,
        alloc: Global,
        room: usize,
        write_fault: Option<usize>,
    ) -> Result<MemSink, AllocError> {
        let room = write_fault.unwrap_or(room);
        let pieces = self.pieces(alloc, room)?;
        MemSink::new(alloc, room, pieces, Vec::new(alloc))
    }
}

// What tells the time: these moments, and none at the call that fails.
fn clock_of(alloc: Global, moments: &[Moment], fault: Option<u64>) -> Result<MemClock, AllocError> {
    let mut failing = Vec::new(alloc);
    if let Some(call) = fault {
        failing.push(call)?;
    }
    Ok(MemClock::new(moments.to_vec(alloc)?, failing))
}

/// What the gates give, and what fails of them.
#[derive(Clone, Copy, Drop)]
pub struct Doors<'a> {
    pub connections: &'a [Connection],
    /// True if they can't be opened.
    pub are_shut: bool,
    /// Of each door the numbers of the calls that fail, from 0.
    pub failing: &'a [Vec<u64>],
}

/// What comes in, in which pieces, and what fails.
#[derive(Drop)]
pub struct Input<'a> {
    pub words: &'a [String],
    pub sent: &'a [u8],
    pub cut: Cut,
    pub out_cut: Cut,
    /// Behind how many bytes the input fails.
    pub read_fault: Option<usize>,
    /// Behind how many bytes the output fails.
    pub write_fault: Option<usize>,
    /// The moments that the clock gives.
    pub moments: &'a [Moment],
    /// The number of the clock's call that fails, from 0.
    pub clock_fault: Option<u64>,
    pub store: Store<'a>,
    pub doors: Doors<'a>,
}

/// What a run is handed: its own streams, its stores, and the gates of its connections.
struct Outside {
    source: MemSource,
    sink: MemSink,
    shelf: MemoryShelf,
    gates: MemGates,
    clock: MemClock,
}

// Written out, so that a caller doesn't prove again how each part is dropped.
impl Drop for Outside {
    fn drop(self) {
        let Outside {
            source: _,
            sink: _,
            shelf: _,
            gates: _,
            clock: _,
        } = self;
    }
}

/// What came of one connection.
#[derive(Drop)]
pub struct Came {
    pub out: Vec<u8>,
    /// How many bytes of its input weren't read.
    pub unread: usize,
    /// How many moments its clock wasn't asked for.
    pub unasked: usize,
}

/// What came of a run.
pub struct Outcome {
    pub exit: Exit,
    pub own: Came,
    /// The connections that doors gave, in order.
    pub connections: Vec<Came>,
    /// The rows that are in the store.
    pub rows: Vec<Row>,
    /// The addresses that doors were asked for at.
    pub asked: Vec<String>,
}

// Written out, as that of `Outside`.
impl Drop for Outcome {
    fn drop(self) {
        let Outcome {
            exit: _,
            own: _,
            connections: _,
            rows: _,
            asked: _,
        } = self;
    }
}

// What came of a connection.
fn end_of(
    alloc: Global,
    source: &MemSource,
    sink: &MemSink,
    clock: &MemClock,
) -> Result<Came, AllocError> {
    Ok(Came {
        out: sink.taken().to_vec(alloc)?,
        unread: source.unread().len(),
        unasked: clock.coming().len(),
    })
}

// What came of each connection that a door gave, door by door.
fn ends_of(alloc: Global, gates: &MemGates) -> Result<Vec<Came>, AllocError> {
    let mut all = Vec::new(alloc);
    for door in gates.doors() {
        for served in door.served() {
            let (source, sink, clock) = &served.back;
            all.push(end_of(alloc, source, sink, clock)?)?;
        }
    }
    Ok(all)
}

// What came of a run that ended so.
fn outcome_of(
    alloc: Global,
    exit: Exit,
    path: &str,
    outside: &mut Outside,
) -> Result<Outcome, AllocError> {
    Ok(Outcome {
        exit,
        own: end_of(alloc, &outside.source, &outside.sink, &outside.clock)?,
        connections: ends_of(alloc, &outside.gates)?,
        rows: rows_at(alloc, &mut outside.shelf, path)?,
        asked: texts(alloc, outside.gates.asked())?,
    })
}

// A copy of the texts.
fn texts(alloc: Global, texts: &[String]) -> Result<Vec<String>, AllocError> {
    let mut copies = Vec::new(alloc);
    for text in texts {
        copies.push(String::from_str(alloc, text.as_str())?)?;
    }
    Ok(copies)
}

// A copy of the lists.
fn lists(alloc: Global, lists: &[Vec<u64>]) -> Result<Vec<Vec<u64>>, AllocError> {
    let mut copies = Vec::new(alloc);
    for list in lists {
        copies.push(list.to_vec(alloc)?)?;
    }
    Ok(copies)
}

impl Outside {
    // Does what the words ask for.
    fn run<R: Threads + Wait + Sync>(&mut self, rt: &R, alloc: Global, words: &[String]) -> Exit {
        top(
            rt,
            alloc,
            words,
            &mut self.source,
            &mut self.sink,
            &mut self.shelf,
            &mut self.gates,
            &mut self.clock,
        )
    }
}

impl Input<'_> {
    // Puts so many connections after those that the gates give.
    fn add(
        &self,
        alloc: Global,
        gates: &mut MemGates,
        talk: &Talk,
        count: usize,
    ) -> Result<(), AllocError> {
        let room = talk.due.len().saturating_add(SPARE_ROOM);
        for _ in 0..count {
            let source = self.cut.source(alloc, talk.sent.as_slice(), talk.read)?;
            let sink = self.out_cut.sink(alloc, room, talk.write)?;
            let clock = clock_of(alloc, talk.moments.as_slice(), talk.clock)?;
            gates.add(alloc, source, sink, clock)?;
        }
        Ok(())
    }

    // Puts all connections after those that the gates give.
    fn add_all(&self, alloc: Global, gates: &mut MemGates) -> Result<(), AllocError> {
        for connection in self.doors.connections {
            self.add(alloc, gates, &connection.talk, connection.count)?;
        }
        Ok(())
    }

    // Gates that give no connection yet.
    fn no_gates(&self, alloc: Global) -> Result<MemGates, AllocError> {
        let mut opens = Vec::new(alloc);
        if self.doors.are_shut {
            opens.push(0)?;
        }
        Ok(MemGates::new(alloc, opens, lists(alloc, self.doors.failing)?))
    }

    // Gates that give the connections.
    fn gates(&self, alloc: Global) -> Result<MemGates, AllocError> {
        let mut gates = self.no_gates(alloc)?;
        self.add_all(alloc, &mut gates)?;
        Ok(gates)
    }

    // What the run is handed, with room for so many bytes of answers.
    fn outside(&self, alloc: Global, room: usize) -> Result<Outside, AllocError> {
        Ok(Outside {
            source: self.cut.source(alloc, self.sent, self.read_fault)?,
            sink: self.out_cut.sink(alloc, room, self.write_fault)?,
            shelf: self.store.shelf(alloc, path_in(self.words))?,
            gates: self.gates(alloc)?,
            clock: clock_of(alloc, self.moments, self.clock_fault)?,
        })
    }

    /// Runs it, with room for so many bytes of answers.
    pub fn run<R: Threads + Wait + Sync>(
        &self,
        rt: &R,
        alloc: Global,
        room: usize,
    ) -> Result<Outcome, AllocError> {
        let mut outside = self.outside(alloc, room)?;
        let exit = outside.run(rt, alloc, self.words);
        outcome_of(alloc, exit, path_in(self.words), &mut outside)
    }
}
