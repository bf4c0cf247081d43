// SPDX-License-Identifier: Apache-2.0 OR MIT
//! What takes connections, one at a time.
ghost use Rattle.std.specs.Prelude.{◌≡◌, ℕ, None};
ghost use Rattle.cr_net.specs.Doors.{new_door};

use crate::crowd::Crowd;
use crate::reason::Reason;
use crate::shared::SharedStream;
use crate::stream::{Ends, TcpSink, TcpSource, ends_of};
use crate::time::{AGAIN, is_broken_off};
use cr_ports::{Door, NextConnection, SystemClock};
use std::alloc::Global;
use std::io::{self, ErrorKind};
use std::marker::Model;
use std::net::TcpStream;
use std::sync::Arc;
use std::thread;
use std::time::Duration;

/// How often a connection is tried to be taken, which with the pauses is a minute.
const TRIES: u32 = 600;

/// The pause between two tries, in milliseconds.
const PAUSE: u64 = 100;

/// Takes the connections of one worker.
///
/// # Model
///
/// How many it has still to give, whether one is out, and the fault counter.
#[derive(Drop)]
pub struct TcpDoor {
    rt: HostRuntime,
    alloc: Global,
    crowd: Arc<Crowd, Global>,
    // Its number among the doors of the listener, from 0.
    number: usize,
    // It is counted among those that wait for a connection.
    waits: bool,
    left: u32,
    is_out: bool,
    faults: u64,
    reason: Option<Reason>,
}

impl Model for TcpDoor {
    ghost use Rattle.cr_net.specs.Doors.{DoorSeen};

    ghost Value = { DoorSeen };

    ghost view = { λ d. record { left = d.left; is_out = d.is_out; faults = d.faults } };
}

impl TcpDoor {
    /// Returns the door of this number, which gives `left` connections.
    pub(crate) fn new(
        rt: &HostRuntime,
        alloc: Global,
        crowd: Arc<Crowd, Global>,
        number: usize,
        left: u32,
    ) -> TcpDoor
        ensures { result ≡ new_door left }
    {
        TcpDoor {
            rt: *rt,
            alloc,
            crowd,
            number,
            waits: false,
            left,
            is_out: false,
            faults: 0,
            reason: None,
        }
    }

    /// Returns how often it has failed.
    pub(crate) fn faults(&self) -> u64
        ensures { result ≡ self.now.faults }
    {
        self.faults
    }

    /// Returns what its fault was.
    pub(crate) fn reason(&self) -> Option<Reason> {
        self.reason
    }

    /// Waits for one connection.
    fn accept_once(&self) -> io::Result<TcpStream> {
        let (stream, _) = self.crowd.listener.accept()?;
        Ok(stream)
    }

    /// Accepts a connection, retrying if a signal interrupts.
    fn accept(&self) -> io::Result<TcpStream> {
        for _ in 0..AGAIN {
            let answer = self.accept_once();
            if !is_broken_off(&answer) {
                return answer;
            }
        }
        self.accept_once()
    }

    /// Takes one connection, as its two ends.
    fn take(&self) -> io::Result<Ends> {
        let stream = self.accept()?;
        ends_of(&self.rt, self.alloc, stream, self.crowd.opened)
    }

    /// Takes a connection, trying again for a minute if it fails.
    fn take_patiently(&self) -> Result<Ends, ErrorKind> {
        let mut last = ErrorKind::Other;
        for _ in 0..TRIES {
            match self.take() {
                Ok(ends) => return Ok(ends),
                Err(error) => last = error.kind(),
            }
            thread::sleep(&self.rt, Duration::from_millis(PAUSE));
        }
        Err(last)
    }

    /// Counts this door among those that wait, unless it has none to give.
    fn begin_wait(&mut self)
        ensures { self.new ≡ self.old }
    {
        if !self.waits && self.left > 0 {
            self.waits = true;
            self.crowd.begin_wait();
        }
    }

    /// Counts this door no more among those that wait.
    fn end_wait(&mut self)
        ensures { self.new ≡ self.old }
    {
        if self.waits {
            self.waits = false;
            self.crowd.end_wait();
        }
    }

    /// Notes that a connection was taken. It may give way to another, as long as this door can take one more.
    fn note(&mut self, shared: Arc<SharedStream, Global>)
        ensures { self.new ≡ self.old }
    {
        if self.left > 0 {
            self.crowd.seat(self.number, Some(shared));
        }
        self.crowd.took();
        self.end_wait();
    }
}

impl Door for TcpDoor {
    type In = TcpSource;

    type Out = TcpSink;

    type Clock = SystemClock<HostRuntime>;

    ghost left = { λ d. d.left };

    ghost is_out = { λ d. d.is_out };

    ghost faults = { λ d. d.faults };

    ghost log = { λ _. None };

    /// Takes a connection. If none can be taken, as when no descriptor is left, it tries again for a minute. The
    /// connection's clock is the system's, with no fault counted.
    fn next(&mut self) -> NextConnection<TcpSource, TcpSink, SystemClock<HostRuntime>> {
        if self.left == 0 {
            return NextConnection::Done;
        }
        self.begin_wait();
        match self.take_patiently() {
            Ok(
                Ends {
                    source,
                    sink,
                    shared,
                },
            ) => {
                self.left -= 1;
                self.is_out = true;
                self.note(shared);
                NextConnection::Conn(source, sink, SystemClock::new(self.rt))
            }
            Err(kind) => {
                self.end_wait();
                self.faults = self.faults.saturating_add(1);
                self.reason = Some(Reason::Taking(kind));
                NextConnection::Failed
            }
        }
    }

    /// Gives the connection back. The client still sees the last answer, which takes a second at most.
    fn give_back(&mut self, source: TcpSource, _sink: TcpSink, _clock: SystemClock<HostRuntime>) {
        source.end();
        self.crowd.seat(self.number, None);
        self.begin_wait();
        self.is_out = false;
    }
}
