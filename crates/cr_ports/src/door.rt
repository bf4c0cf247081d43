// SPDX-License-Identifier: Apache-2.0 OR MIT
//! Where connections come from.
ghost use Rattle.std.specs.Prelude.{◌≡◌, ◌≤◌, ◌+◌, ℕ, Bool, Option, IsTrue, IsFalse};

use crate::{Clock, Sink, Source};

/// What a door answers when it is asked for its next connection.
#[derive(Drop)]
pub enum NextConnection<I, O, C> {
    /// A connection: what it reads from, what it writes to, and what tells it the time.
    Conn(I, O, C),
    /// The door gave all connections of its share.
    Done,
    /// No connection could be given: a fault, which was counted.
    Failed,
}

/// What a door answered, without the connection.
#[derive(Clone, Copy, PartialEq, Eq)]
pub enum DoorAnswer {
    /// A connection was given.
    Conn,
    /// The door's share was given.
    Done,
    /// A fault, which was counted.
    Failed,
}

/// A connection that was given back: its source, its sink and its clock as they were given, and as they came back.
#[derive(Drop)]
pub struct Served<I, O, C> {
    /// As it was given.
    pub given: (I, O, C),
    /// As it came back.
    pub back: (I, O, C),
}

/// Gives the connections of its share, one at a time: each is given back before the next is asked for.
pub trait Door {
    /// What a connection reads from. It may go to another thread.
    type In: Source + Send;

    /// What a connection writes to. It may go to another thread.
    type Out: Sink + Send;

    /// What tells a connection the time. It may go to another thread.
    type Clock: Clock + Send;

    ghost use Rattle.cr_ports.specs.Doors.{DoorLog, FaultsAfterNext, LeftAfter, and_answer, and_back, gives};

    /// How many connections it has still to give.
    ghost left: { Self → ℕ };

    /// A connection was given and not given back.
    ghost is_out: { Self → Bool };

    /// How often it has failed.
    ghost faults: { Self → ℕ };

    /// Its last answer, and the connections that were given back, if the door tells them.
    ghost log: { Self → Option (DoorLog Self.In Self.Out Self.Clock) };

    /// Gives the next connection, which is out until it is given back.
    ///
    /// `Done` if and only if none is left to give; it changes nothing else.
    ///
    /// # Errors
    ///
    /// `Failed`: the fault counter rose, and as many connections are left as before.
    ///
    /// # Cost
    ///
    /// In memory a move of the connection; an adapter may wait for one to come.
    fn next(&mut self) -> NextConnection<Self::In, Self::Out, Self::Clock>
        requires { IsFalse (is_out self.old) }
        ensures left { LeftAfter result (left self.old) (left self.new) }
        ensures out { is_out self.new ≡ gives result }
        ensures faults { FaultsAfterNext result (faults self.old) (faults self.new) }
        ensures log { log self.new ≡ and_answer (log self.old) result };

    /// Takes back the connection that is out.
    ///
    /// # Cost
    ///
    /// Takes no memory. An adapter may wait for the connection's end.
    fn give_back(&mut self, source: Self::In, sink: Self::Out, clock: Self::Clock)
        requires { IsTrue (is_out self.old) }
        ensures left { left self.new ≡ left self.old }
        ensures out { IsFalse (is_out self.new) }
        ensures faults { faults self.new ≡ faults self.old }
        ensures log { log self.new ≡ and_back (log self.old) source sink clock };
}
