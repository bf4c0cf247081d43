// SPDX-License-Identifier: Apache-2.0 OR MIT
//! The two ends of a connection.
ghost use Rattle.std.specs.Prelude.{◌≡◌, ◌≤◌, ℕ, None, ⊤, length};
ghost use Rattle.std.specs.Io.{ReadsAtMost, WritesAtMost};
ghost use Rattle.cr_ports.specs.Count.{Rises};
ghost use Rattle.cr_net.specs.Steps.{read_step, write_step};

use crate::shared::SharedStream;
use crate::time::{AGAIN, Span, is_broken_off};
use cr_ports::{ReadStep, Sink, Source, WriteStep};
use std::alloc::Global;
use std::io::{self, ErrorKind, Read, Write};
use std::marker::Model;
use std::net::{Shutdown, TcpStream};
use std::sync::Arc;
use std::time::{Duration, Instant};

/// The milliseconds for a request to come whole, and for an answer to go.
const LIMIT: u64 = 60_000;

/// The milliseconds for a byte to come after an answer.
const IDLE: u64 = 5_000;

/// The milliseconds for the client to see the last answer.
const ENDING: u64 = 1_000;

/// The milliseconds after which a connection gives way to one that waits, where no byte came yet.
const SILENT: u64 = 1_000;

/// The milliseconds for a byte to come, if none came since the last answer.
const BETWEEN: u64 = 100;

/// The milliseconds, from its first byte on, after which a request that isn't whole gives way.
const WITHIN: u64 = 10_000;

/// How many bytes are dropped at most after the last answer.
const MOST_DROPPED: usize = 8_388_608;

/// How many of them at a time.
const PIECE: usize = 16_384;

/// Both ends of a connection, and what they share.
#[derive(Drop)]
pub(crate) struct Ends {
    pub(crate) source: TcpSource,
    pub(crate) sink: TcpSink,
    pub(crate) shared: Arc<SharedStream, Global>,
}

/// Returns the two ends of a stream that was opened just now, at gates that were opened then. An error for lack of
/// memory, or where the stream is gone; then it is closed.
pub(crate) fn ends_of(
    rt: &HostRuntime,
    alloc: Global,
    stream: TcpStream,
    opened: Instant,
) -> io::Result<Ends> {
    stream.set_nodelay(true)?;
    let shared = Arc::new(alloc, SharedStream::new(stream, opened))?;
    let ours = Arc::try_clone(&shared)?;
    let theirs = Arc::try_clone(&shared)?;
    Ok(Ends {
        source: TcpSource::new(rt, ours),
        sink: TcpSink::new(rt, theirs),
        shared,
    })
}

/// What one end works with: what the two share, the time for what it is at, for how long a wait goes on where others
/// wait for a connection, and its faults.
///
/// # Model
///
/// The fault counter.
#[derive(Drop)]
struct Half {
    rt: HostRuntime,
    shared: Arc<SharedStream, Global>,
    time: Span,
    // Nothing where it doesn't give way.
    patience: Option<Span>,
    // The seconds that the socket was last told to wait at most at this end; 0 before.
    told: u64,
    faults: u64,
}

impl Model for Half {
    ghost use Rattle.std.specs.Prelude.{ℕ};

    ghost Value = { ℕ };

    ghost view = { λ h. h.faults };
}

impl Half {
    /// Returns an end whose time has not begun, with no fault counted.
    fn new(rt: &HostRuntime, shared: Arc<SharedStream, Global>, patience: Option<Span>) -> Half
        ensures { result ≡ 0 }
    {
        Half {
            rt: *rt,
            shared,
            time: Span::new(LIMIT),
            patience,
            told: 0,
            faults: 0,
        }
    }

    /// Returns how long the socket is to be told to wait at most: what is left of the time, which begins here if it
    /// hasn't. Nothing if it was told that last, which spares a system call.
    ///
    /// # Errors
    ///
    /// If the time is over.
    fn to_tell(&mut self, now: Instant) -> io::Result<Option<Duration>>
        ensures { self.new ≡ self.old }
    {
        let left = self.time.left(now);
        if left == 0 {
            return Err(ErrorKind::TimedOut.into());
        }
        if left == self.told {
            return Ok(None);
        }
        self.told = left;
        Ok(Some(Duration::from_secs(left)))
    }

    /// Notes from when on the wait that begins now gives way, if it does.
    fn begin_wait(&mut self, now: Instant)
        ensures { self.new ≡ self.old }
    {
        if let Some(patience) = &mut self.patience {
            self.shared
                .begin_wait(patience.end(self.shared.opened, now));
        }
    }

    /// Reads once, for no longer than the time left.
    fn read_once(&mut self, buf: &mut [u8]) -> io::Result<usize>
        ensures size { ReadsAtMost result buf.new }
        ensures length { length buf.new ≡ length buf.old }
        ensures same { self.new ≡ self.old }
    {
        let now = Instant::now(&self.rt)?;
        if let Some(most) = self.to_tell(now)? {
            self.shared.stream.set_read_timeout(Some(most))?;
        }
        self.begin_wait(now);
        let got = (&self.shared.stream).read(buf);
        self.shared.end_wait();
        got
    }

    /// Reads once, retrying if a signal interrupts.
    fn read_on(&mut self, buf: &mut [u8]) -> io::Result<usize>
        ensures size { ReadsAtMost result buf.new }
        ensures length { length buf.new ≡ length buf.old }
        ensures same { self.new ≡ self.old }
    {
        'waiting: for _ in 0..AGAIN {
            let answer = self.read_once(buf);
            if !is_broken_off(&answer) {
                return answer;
            }
        }
        self.read_once(buf)
    }

    /// Writes once, for no longer than the time left.
    fn write_once(&mut self, piece: &[u8]) -> io::Result<usize>
        ensures size { WritesAtMost result piece.now }
        ensures same { self.new ≡ self.old }
    {
        let now = Instant::now(&self.rt)?;
        if let Some(most) = self.to_tell(now)? {
            self.shared.stream.set_write_timeout(Some(most))?;
        }
        (&self.shared.stream).write(piece)
    }

    /// Writes once, retrying if a signal interrupts.
    fn write_on(&mut self, piece: &[u8]) -> io::Result<usize>
        ensures size { WritesAtMost result piece.now }
        ensures same { self.new ≡ self.old }
    {
        'waiting: for _ in 0..AGAIN {
            let answer = self.write_once(piece);
            if !is_broken_off(&answer) {
                return answer;
            }
        }
        self.write_once(piece)
    }

    /// Counts a fault.
    fn failed(&mut self)
        ensures count { self.old ≤ self.new }
        ensures failed { Rises self.old self.new }
    {
        self.faults = self.faults.saturating_add(1);
    }
}

/// Returns what a read is told as: 0 bytes are the end, and each `Err` is a fault.
fn read_step(got: &io::Result<usize>) -> ReadStep
    ensures { result ≡ read_step got.now }
{
    match got {
        Ok(0) => ReadStep::End,
        Ok(n) => ReadStep::Got(*n),
        Err(_) => ReadStep::Failed,
    }
}

/// Returns what a write of a piece of so many bytes is told as: each `Err` is a fault, and so is one that took nothing
/// of a piece that isn't empty.
fn write_step(took: &io::Result<usize>, len: usize) -> WriteStep
    ensures { result ≡ write_step took.now len }
{
    match took {
        Ok(0) if len > 0 => WriteStep::Failed,
        Ok(n) => WriteStep::Took(*n),
        Err(_) => WriteStep::Failed,
    }
}

/// What a client sends. Each request has 60 seconds to come whole, from the first read after the last answer on; but
/// where that read finds nothing for 5 seconds, it fails, as one does past the 60. So a client that keeps its
/// connection and asks nothing holds its worker for 5 seconds. A connection's first request has the 60. A span may
/// take some seconds more than is said.
///
/// Where no door is free and another connection waits, a read that waits may be told the end of the stream: once no
/// byte came for a second since the connection was taken, or for a tenth of one since the last answer, or where a
/// request isn't whole ten seconds after the read that began it. What came before is read first.
///
/// # Model
///
/// The fault counter.
#[derive(Drop)]
pub struct TcpSource {
    half: Half,
    // A byte came since the last answer.
    has_begun: bool,
    is_ended: bool,
}

impl Model for TcpSource {
    ghost use Rattle.std.specs.Prelude.{ℕ};

    ghost Value = { ℕ };

    ghost view = { λ s. s.half };
}

impl TcpSource {
    fn new(rt: &HostRuntime, shared: Arc<SharedStream, Global>) -> TcpSource {
        TcpSource {
            half: Half::new(rt, shared, Some(Span::new(SILENT))),
            has_begun: false,
            is_ended: false,
        }
    }

    /// Reads once, for no longer than the time that the request has left.
    fn read_in_time(&mut self, buf: &mut [u8]) -> io::Result<usize>
        ensures size { ReadsAtMost result buf.new }
        ensures length { length buf.new ≡ length buf.old }
        ensures same { self.new ≡ self.old }
    {
        if self.half.shared.take_answer() {
            self.half.time = Span::new(IDLE);
            self.half.patience = Some(Span::new(BETWEEN));
            self.has_begun = false;
        }
        let got = self.half.read_on(buf)?;
        // A byte has come, so from here on it is a request's time.
        self.half.time.lasts(LIMIT);
        if !self.has_begun {
            self.has_begun = true;
            self.half.patience = Some(Span::new(WITHIN));
        }
        Ok(got)
    }

    /// Ends the connection so that the client sees the last answer: what it still sends is read and dropped, for a
    /// second at most. Where a stream is closed before its bytes were read, the client's system may drop the answer.
    pub(crate) fn end(mut self) {
        if self.is_ended || self.half.shared.stream.shutdown(Shutdown::Write).is_err() {
            return;
        }
        self.half.time = Span::new(ENDING);
        self.half.patience = None;
        let mut piece = [0; PIECE];
        let mut dropped = 0;
        'dropping: while dropped < MOST_DROPPED {
            match self.half.read_on(&mut piece) {
                Ok(n) if n > 0 => dropped += n,
                _ => return,
            }
        }
    }
}

impl Source for TcpSource {
    ghost left = { λ _. None };

    ghost faults = { λ s. s };

    ghost read_gives = { λ _ _ _. ⊤ };

    /// Reads once. Each `Err` is a fault, also that the time is over.
    fn read(&mut self, buf: &mut [u8]) -> ReadStep {
        let step = read_step(&self.read_in_time(buf));
        match step {
            ReadStep::Got(_) => {}
            ReadStep::End => self.is_ended = true,
            ReadStep::Failed => self.half.failed(),
        }
        step
    }
}

/// What a client is sent. Each answer has 60 seconds to go, all its pieces together, from its first write on; past
/// that a write fails, at most a second later.
///
/// # Model
///
/// The fault counter.
#[derive(Drop)]
pub struct TcpSink {
    half: Half,
}

impl Model for TcpSink {
    ghost use Rattle.std.specs.Prelude.{ℕ};

    ghost Value = { ℕ };

    ghost view = { λ s. s.half };
}

impl TcpSink {
    fn new(rt: &HostRuntime, shared: Arc<SharedStream, Global>) -> TcpSink {
        TcpSink {
            half: Half::new(rt, shared, None),
        }
    }
}

impl Sink for TcpSink {
    ghost taken = { λ _. None };

    ghost faults = { λ s. s };

    /// Writes once. Each `Err` is a fault, also that the time is over, and so is a write that takes nothing.
    fn write(&mut self, piece: &[u8]) -> WriteStep {
        let step = write_step(&self.half.write_on(piece), piece.len());
        match step {
            WriteStep::Took(n) if n == piece.len() => {
                self.half.shared.note_answer();
            }
            WriteStep::Took(_) => {}
            WriteStep::Failed => self.half.failed(),
        }
        step
    }

    /// Measures the answer's time from the next write on.
    fn begin_answer(&mut self) {
        self.half.time.reset();
    }
}
