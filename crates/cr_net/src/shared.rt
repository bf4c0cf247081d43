// SPDX-License-Identifier: Apache-2.0 OR MIT
//! What the two ends of a connection share, between themselves and with the reaper.

use std::net::{Shutdown, TcpStream};
use std::sync::atomic::{AtomicBool, AtomicU64, Ordering};
use std::time::{Duration, Instant};

/// Written for the moment from which on a connection gives way, while its worker doesn't wait for its client.
const BUSY: u64 = 0;

/// A connection's stream, and what is known of it.
#[derive(Drop)]
pub(crate) struct SharedStream {
    pub(crate) stream: TcpStream,
    /// When the gates were opened, from which on moments are counted.
    pub(crate) opened: Instant,
    // A piece went out whole since the last read, and so an answer did: no read is made in the middle of one.
    answered: AtomicBool,
    // From when on it gives way, in milliseconds since the gates were opened; `BUSY` where nobody waits for its client.
    due: AtomicU64,
}

impl SharedStream {
    /// Returns a stream that was opened just now.
    pub(crate) fn new(stream: TcpStream, opened: Instant) -> SharedStream {
        SharedStream {
            stream,
            opened,
            answered: AtomicBool::new(false),
            due: AtomicU64::new(BUSY),
        }
    }

    /// Notes that a piece went out whole.
    pub(crate) fn note_answer(&self) {
        self.answered.store(true, Ordering::SeqCst);
    }

    /// Returns whether a piece went out whole since this was last asked.
    pub(crate) fn take_answer(&self) -> bool {
        self.answered.swap(false, Ordering::SeqCst)
    }

    /// Notes that its worker waits for its client from here on; it gives way once so much time has passed since the
    /// gates were opened.
    pub(crate) fn begin_wait(&self, due: Duration) {
        self.due.store(millis(due).max(BUSY + 1), Ordering::SeqCst);
    }

    /// Notes that its worker waits no more.
    pub(crate) fn end_wait(&self) {
        self.due.store(BUSY, Ordering::SeqCst);
    }

    /// Returns when it gives way; nothing if its worker doesn't wait for its client.
    pub(crate) fn due(&self) -> Option<u64> {
        match self.due.load(Ordering::SeqCst) {
            BUSY => None,
            due => Some(due),
        }
    }

    /// Ends what its worker waits for, if that is still the wait that gives way from then on, as the end of what the
    /// client sends. What came before is read first. Returns whether it was ended.
    pub(crate) fn give_way(&self, due: u64) -> bool {
        self.due
            .compare_exchange(due, BUSY, Ordering::SeqCst, Ordering::SeqCst)
            .is_ok()
            && self.stream.shutdown(Shutdown::Read).is_ok()
    }
}

/// Returns the milliseconds of a span, as many as a word holds.
pub(crate) fn millis(span: Duration) -> u64 {
    u64::try_from(span.as_millis()).unwrap_or(u64::MAX)
}
