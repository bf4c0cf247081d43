// SPDX-License-Identifier: Apache-2.0 OR MIT
//! A door in memory, which tells all that it did.
ghost use Rattle.std.specs.Prelude.{◌≡◌, ◌+◌, ◌≤◌, ℕ, List, Option, Some, [], length, IfOk, IsTrue};
ghost use Rattle.std.specs.Prelude.{IsFalse, is_some, vec_len, vec_capacity, if◌then◌else◌};
ghost use Rattle.std.specs.VecDeque.{deque_len};
ghost use Rattle.cr_ports.specs.Doors.{FaultsAfterNext, LeftAfter, and_answer};
ghost use Rattle.cr_ports.specs.Doors.{and_back, answered, given_back, gives, unasked};
ghost use Rattle.cr_ports.specs.MemoryDoors.{CallsAfter, and_coming, answer_of, next_answer, next_faults};

use crate::calls::Calls;
use crate::{Door, DoorAnswer, MemClock, MemSink, MemSource, NextConnection, Served};
use std::alloc::{AllocError, Global};
use std::collections::VecDeque;
use std::marker::Model;

/// What a connection reads from, what it writes to, and what tells it the time.
type Parts = (MemSource, MemSink, MemClock);

/// A connection that is still to be given, and a copy of it, which stays with the door.
///
/// # Model
///
/// The connection.
#[derive(Drop)]
pub(crate) struct Planned {
    live: Parts,
    kept: Parts,
}

impl Model for Planned {
    ghost use Rattle.std.specs.Prelude.{◌≡◌};
    ghost use Rattle.cr_ports.specs.Clocks.{Timed};
    ghost use Rattle.cr_ports.specs.Memory.{Input, Output};

    ghost Value = { Input × Output × Timed };

    ghost view = { λ p. p.live };

    ghost invariant = { λ p. p.kept ≡ p.live };
}

impl Planned {
    /// Copies this connection, and keeps it with its copy.
    ///
    /// # Errors
    ///
    /// If memory runs out.
    pub(crate) fn new(
        alloc: Global,
        source: MemSource,
        sink: MemSink,
        clock: MemClock,
    ) -> Result<Self, AllocError>
        ensures { IfOk result (λ planned. planned ≡ (source, sink, clock)) }
    {
        let kept = (source.copy()?, sink.copy(alloc)?, clock.copy()?);
        Ok(Planned {
            live: (source, sink, clock),
            kept,
        })
    }

    /// Takes the connection and its copy apart.
    fn into_parts(self) -> (Parts, Parts)
        ensures live { result.0 ≡ self }
        ensures kept { result.1 ≡ self }
    {
        (self.live, self.kept)
    }
}

/// Gives its connections in order, and fails exactly at the listed calls.
///
/// # Model
///
/// The connections that are still to come, what it did, the calls and the fault counter.
pub struct MemDoor {
    coming: VecDeque<Planned>,
    out: Option<Parts>,
    served: Vec<Served<MemSource, MemSink, MemClock>>,
    last: Option<DoorAnswer>,
    calls: Calls,
    faults: u64,
}

// Written out, so that a caller doesn't prove again how each part is dropped.
impl Drop for MemDoor {
    fn drop(self) {
        let MemDoor {
            coming: _,
            out: _,
            served: _,
            last: _,
            calls: _,
            faults: _,
        } = self;
    }
}

impl Model for MemDoor {
    ghost use Rattle.std.specs.Prelude.{◌+◌, ◌≤◌, is_some, vec_len, vec_capacity, if◌then◌else◌};
    ghost use Rattle.std.specs.VecDeque.{deque_len};
    ghost use Rattle.cr_ports.specs.MemoryDoors.{Doored};

    ghost Value = { Doored };

    ghost view = { λ d. record {
      coming = d.coming.items;
      log = record { last = d.last; out = d.out; served = d.served.items };
      calls = d.calls;
      faults = d.faults;
    } };

    // What is out, and what is still to come, has room behind what came back.
    ghost invariant = { λ d. vec_len d.served + (if is_some d.out then 1 else 0) + deque_len d.coming
        ≤ vec_capacity d.served };
}

impl MemDoor {
    /// Creates a door of these connections, of which none was asked for yet. Its calls numbered in `failing` fail,
    /// counted from 0; those that find no connection left aren't numbered.
    ///
    /// # Errors
    ///
    /// If memory runs out.
    pub(crate) fn new(
        alloc: Global,
        coming: VecDeque<Planned>,
        failing: Vec<u64>,
    ) -> Result<Self, AllocError>
        ensures coming { IfOk result (λ door. door.coming ≡ coming.items) }
        ensures log { IfOk result (λ door. door.log ≡ unasked) }
        ensures calls { IfOk result (λ door. door.calls ≡ record { failing = failing.items; made = 0 }) }
        ensures faults { IfOk result (λ door. door.faults ≡ 0) }
    {
        let served = Vec::with_capacity(alloc, coming.len())?;
        Ok(MemDoor {
            coming,
            out: None,
            served,
            last: None,
            calls: Calls::new(failing),
            faults: 0,
        })
    }

    /// Returns its last answer, if a connection was asked for.
    pub fn last(&self) -> Option<DoorAnswer>
        ensures { result ≡ self.now.log.last }
    {
        self.last
    }

    /// Returns the connections that were given back, in order.
    pub fn served(&self) -> &[Served<MemSource, MemSink, MemClock>]
        ensures { result.now ≡ self.now.log.served }
    {
        &self.served
    }

    /// Returns how often it has failed, up to 2^64 - 1.
    pub(crate) fn fault_count(&self) -> u64
        ensures { result ≡ self.now.faults }
    {
        self.faults
    }
}

impl Door for MemDoor {
    type In = MemSource;

    type Out = MemSink;

    type Clock = MemClock;

    ghost left = { λ d. length d.coming };

    ghost is_out = { λ d. is_some d.log.out };

    ghost faults = { λ d. d.faults };

    ghost log = { λ d. Some d.log };

    fn next(&mut self) -> NextConnection<MemSource, MemSink, MemClock>
        requires { IsFalse (is_some self.old.log.out) }
        ensures left { LeftAfter result (length self.old.coming) (length self.new.coming) }
        ensures out { is_some self.new.log.out ≡ gives result }
        ensures faults { FaultsAfterNext result self.old.faults self.new.faults }
        ensures log { Some self.new.log ≡ and_answer (Some self.old.log) result }

        // It fails at the listed calls that find a connection to give, and at no other.
        ensures answer { answer_of result ≡ next_answer self.old }
        ensures coming { self.old.coming ≡ and_coming result self.new.coming }
        ensures calls { CallsAfter result self.old.calls self.new.calls }
        ensures count { self.new.faults ≡ next_faults result self.old.faults }
    {
        if self.coming.is_empty() {
            self.last = Some(DoorAnswer::Done);
            return NextConnection::Done;
        }
        if self.calls.begin() {
            self.faults = self.faults.saturating_add(1);
            self.last = Some(DoorAnswer::Failed);
            return NextConnection::Failed;
        }
        let Some(planned) = self.coming.pop_front() else {
            unreachable!()
        };
        let ((source, sink, clock), kept) = planned.into_parts();
        self.out = Some(kept);
        self.last = Some(DoorAnswer::Conn);
        NextConnection::Conn(source, sink, clock)
    }

    fn give_back(&mut self, source: MemSource, sink: MemSink, clock: MemClock)
        requires { IsTrue (is_some self.old.log.out) }
        ensures left { length self.new.coming ≡ length self.old.coming }
        ensures out { IsFalse (is_some self.new.log.out) }
        ensures faults { self.new.faults ≡ self.old.faults }
        ensures log { Some self.new.log ≡ and_back (Some self.old.log) source sink clock }

        ensures coming { self.new.coming ≡ self.old.coming }
        ensures calls { self.new.calls ≡ self.old.calls }
    {
        if let Some(given) = self.out.take() {
            self.served.push_reserved(Served {
                given,
                back: (source, sink, clock),
            });
        }
    }
}
