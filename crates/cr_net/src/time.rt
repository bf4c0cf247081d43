// SPDX-License-Identifier: Apache-2.0 OR MIT
//! How long something may take, and how often it is waited for.

use std::io::{self, ErrorKind};
use std::time::{Duration, Instant};

/// How often a wait that a signal broke off is waited again.
pub(crate) const AGAIN: u32 = 16;

/// Returns whether a signal broke a wait off, as when the process was stopped and goes on.
pub(crate) fn is_broken_off<T>(answer: &io::Result<T>) -> bool {
    match answer {
        Ok(_) => false,
        Err(error) => error.kind() == ErrorKind::Interrupted,
    }
}

/// A span of time, which begins when it is first asked for what is left, or for its end.
#[derive(Clone, Copy)]
pub(crate) struct Span {
    limit: Duration,
    start: Option<Instant>,
}

impl Span {
    /// Returns a span of so many milliseconds, not begun.
    pub(crate) fn new(millis: u64) -> Span {
        Span {
            limit: Duration::from_millis(millis),
            start: None,
        }
    }

    /// Resets the time to how it was before it began.
    pub(crate) fn reset(&mut self) {
        self.start = None;
    }

    /// Sets its length in milliseconds from its beginning, which stays.
    pub(crate) fn lasts(&mut self, millis: u64) {
        self.limit = Duration::from_millis(millis);
    }

    /// Returns when it began: now, if it hadn't.
    fn start(&mut self, now: Instant) -> Instant {
        let start = self.start.unwrap_or(now);
        self.start = Some(start);
        start
    }

    /// Returns the seconds that are left of it now, a part of one counted whole, 0 past its end.
    pub(crate) fn left(&mut self, now: Instant) -> u64 {
        let start = self.start(now);
        whole_seconds(self.limit.saturating_sub(now.duration_since(start)))
    }

    /// Returns how long after that moment it ends.
    pub(crate) fn end(&mut self, since: Instant, now: Instant) -> Duration {
        let start = self.start(now);
        self.limit.saturating_add(start.duration_since(since))
    }
}

/// Returns the seconds of a span, a part of one counted whole.
fn whole_seconds(span: Duration) -> u64 {
    let part = if span.subsec_nanos() > 0 { 1 } else { 0 };
    span.as_secs().saturating_add(part)
}
