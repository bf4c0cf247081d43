// SPDX-License-Identifier: Apache-2.0 OR MIT
//! The reaper: a thread that has idle connections give way where others wait at the listener.
//!
//! A worker waits for its own client, so where each has one nobody takes a further connection, and none of them can see
//! that one waits. The reaper waits at the listener, and takes none: where one comes and no door is free, it ends what
//! the connection that has been due longest is waiting for, and waits until somebody was taken in its place.

use crate::crowd::Crowd;
use crate::shared::millis;
use libc::net::{POLLIN, SHUT_RD, poll, shutdown};
use libc::types::pollfd;
use std::alloc::Global;
use std::net::TcpListener;
use std::os::fd::AsRawFd;
use std::sync::Arc;
use std::thread::{self, JoinHandle, Threads};
use std::time::{Duration, Instant};

/// For how many milliseconds the reaper waits for somebody to come before it looks whether the gates were shut.
const LOOK: i32 = 1_000;

/// The pause between two looks while somebody waits, in milliseconds.
const PAUSE: u64 = 10;

/// The pause between two looks for a client who is taken in place of a connection that gives way, in milliseconds.
const SOON: u64 = 1;

/// How often it is looked, which with the pauses is a second.
const LOOKS: u32 = 1_000;

/// What one wait at the listener found.
#[derive(Clone, Copy)]
enum Found {
    /// Somebody waits there.
    Somebody,
    /// Nobody came.
    Nobody,
    /// It can't be told.
    Nothing,
}

/// Waits until somebody waits at the listener, for so many milliseconds at most.
fn wait_at(listener: &TcpListener, most: i32) -> Found {
    let mut asked = [pollfd {
        fd: listener.as_raw_fd(),
        events: POLLIN,
        revents: 0,
    }];
    match poll(&mut asked, most) {
        0 => Found::Nobody,
        ready if ready > 0 => Found::Somebody,
        _ => Found::Nothing,
    }
}

/// Waits until a connection more than so many was taken, for a second at most.
fn wait_for_taking(rt: &HostRuntime, crowd: &Crowd, taken: u64) {
    'looking: for _ in 0..LOOKS {
        if crowd.taken() != taken || crowd.is_shut() {
            return;
        }
        thread::sleep(rt, Duration::from_millis(SOON));
    }
}

/// Returns whether a client still waits, and no door is free. It looks again, since a door that was free may have
/// taken a client who came.
fn is_full(crowd: &Crowd) -> bool {
    !crowd.has_free()
        && match wait_at(&crowd.listener, 0) {
            Found::Somebody => true,
            Found::Nobody | Found::Nothing => false,
        }
}

/// Makes one connection give way, if one is due and no door is free. Returns whether one does.
fn make_room(rt: &HostRuntime, crowd: &Crowd) -> bool {
    let Ok(now) = Instant::now(rt) else {
        return false;
    };
    is_full(crowd) && crowd.make_room(millis(now.duration_since(crowd.opened)))
}

/// Relieves a client that waits: has one connection give way, and waits until the client is taken in its place. If
/// none gives way, as when a door is about to take the client or no connection is due yet, pauses.
fn relieve(rt: &HostRuntime, crowd: &Crowd) {
    let taken = crowd.taken();
    if make_room(rt, crowd) {
        wait_for_taking(rt, crowd, taken);
    } else {
        thread::sleep(rt, Duration::from_millis(PAUSE));
    }
}

/// Looks once.
fn look(rt: &HostRuntime, crowd: &Crowd) {
    match wait_at(&crowd.listener, LOOK) {
        Found::Nobody => {}
        Found::Somebody => relieve(rt, crowd),
        Found::Nothing => thread::sleep(rt, Duration::from_millis(PAUSE)),
    }
}

/// Looks until the gates are shut.
fn reap(rt: &HostRuntime, crowd: &Crowd) {
    'looking: for _ in 0..u64::MAX {
        if crowd.is_shut() {
            return;
        }
        look(rt, crowd);
    }
}

/// The thread, and what it looks at.
#[derive(Drop)]
pub(crate) struct Reaper {
    crowd: Arc<Crowd, Global>,
    thread: JoinHandle<()>,
}

impl Reaper {
    /// Starts the thread; nothing where none can be made.
    pub(crate) fn start<R: Threads>(
        rt: &HostRuntime,
        handle: &R,
        crowd: &Arc<Crowd, Global>,
    ) -> Option<Reaper> {
        let rt = *rt;
        let ours = Arc::try_clone(crowd).ok()?;
        let theirs = Arc::try_clone(crowd).ok()?;
        match thread::spawn(handle, move || reap(&rt, &theirs)) {
            Ok(thread) => Some(Reaper {
                crowd: ours,
                thread,
            }),
            Err(_) => None,
        }
    }

    /// Ends the thread. The listener is closed for connections to come, which ends the thread's wait there.
    pub(crate) fn end<R: Threads>(self, handle: &R) {
        let Reaper { crowd, thread } = self;
        crowd.shut();
        shutdown(crowd.listener.as_raw_fd(), SHUT_RD);
        thread.join(handle);
    }
}
