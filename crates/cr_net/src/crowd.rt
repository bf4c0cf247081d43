// SPDX-License-Identifier: Apache-2.0 OR MIT
//! What the doors of one listener share, among themselves and with the reaper.

use crate::shared::SharedStream;
use std::alloc::{AllocError, Global};
use std::net::TcpListener;
use std::sync::atomic::{AtomicBool, AtomicU64, Ordering};
use std::sync::{Arc, Mutex};
use std::thread;
use std::time::Instant;

/// The connection of one door that is out, if one is.
#[derive(Drop)]
struct Seat(Mutex<Option<Arc<SharedStream, Global>>>);

impl Seat {
    /// Takes a connection, or lets it go. Only the reaper looks at the seat meanwhile, for a moment.
    fn set(&self, stream: Option<Arc<SharedStream, Global>>) {
        'looking: for _ in 0..u64::MAX {
            if let Some(mut seated) = self.0.try_lock() {
                *seated = stream;
                return;
            }
            thread::yield_now();
        }
    }

    /// Returns when its connection gives way; nothing if it has none, or one whose worker doesn't wait. It never
    /// waits: nothing, too, while a connection takes the seat or lets it go.
    fn due(&self) -> Option<u64> {
        let seated = self.0.try_lock()?;
        match &*seated {
            Some(stream) => stream.due(),
            None => None,
        }
    }

    /// Makes its connection give way, if it is still due since that time. Returns whether it does.
    fn give_way(&self, due: u64) -> bool {
        let Some(seated) = self.0.try_lock() else {
            return false;
        };
        match &*seated {
            Some(stream) => stream.give_way(due),
            None => false,
        }
    }
}

/// The doors of one listener.
#[derive(Drop)]
pub(crate) struct Crowd {
    /// Where they take their connections.
    pub(crate) listener: TcpListener,
    /// When the gates were opened.
    pub(crate) opened: Instant,
    // A seat a door, in their order.
    seats: Vec<Seat>,
    // How many doors wait for a connection, or are about to.
    free: AtomicU64,
    // How many connections were taken.
    taken: AtomicU64,
    is_shut: AtomicBool,
}

/// Returns so many seats without a connection.
fn seats(alloc: Global, count: u32) -> Result<Vec<Seat>, AllocError> {
    let mut seats = Vec::with_capacity(alloc, count as usize)?;
    'making: for _ in 0..count {
        seats.push(Seat(Mutex::new(None)))?;
    }
    Ok(seats)
}

impl Crowd {
    /// Returns so many doors of the listener, none of which waits for a connection yet.
    pub(crate) fn new(
        alloc: Global,
        listener: TcpListener,
        opened: Instant,
        doors: u32,
    ) -> Result<Crowd, AllocError> {
        Ok(Crowd {
            listener,
            opened,
            seats: seats(alloc, doors)?,
            free: AtomicU64::new(0),
            taken: AtomicU64::new(0),
            is_shut: AtomicBool::new(false),
        })
    }

    /// Counts one door more that waits for a connection.
    pub(crate) fn begin_wait(&self) {
        self.free.fetch_add(1, Ordering::SeqCst);
    }

    /// Counts one door fewer that waits.
    pub(crate) fn end_wait(&self) {
        self.free.fetch_sub(1, Ordering::SeqCst);
    }

    /// Returns whether a door waits for a connection.
    pub(crate) fn has_free(&self) -> bool {
        self.free.load(Ordering::SeqCst) > 0
    }

    /// Sets the connection of this door that may give way, if one may.
    pub(crate) fn seat(&self, door: usize, stream: Option<Arc<SharedStream, Global>>) {
        if let Some(seat) = self.seats.get(door) {
            seat.set(stream);
        }
    }

    /// Counts one connection more that was taken.
    pub(crate) fn took(&self) {
        self.taken.fetch_add(1, Ordering::SeqCst);
    }

    /// Returns how many connections were taken.
    pub(crate) fn taken(&self) -> u64 {
        self.taken.load(Ordering::SeqCst)
    }

    /// Returns the seat whose connection has been due longest at this moment, and since when it is; nothing where none
    /// is due.
    fn longest_due(&self, now: u64) -> Option<(&Seat, u64)> {
        let mut longest = None;
        let mut since = now;
        'looking: for seat in self.seats.iter() {
            if let Some(due) = seat.due() {
                if due <= since {
                    longest = Some((seat, due));
                    since = due;
                }
            }
        }
        longest
    }

    /// Makes the connection that has been due longest at this moment give way. Returns whether one does.
    pub(crate) fn make_room(&self, now: u64) -> bool {
        match self.longest_due(now) {
            Some((seat, due)) => seat.give_way(due),
            None => false,
        }
    }

    /// Notes that no door will wait again.
    pub(crate) fn shut(&self) {
        self.is_shut.store(true, Ordering::SeqCst);
    }

    /// Returns whether the gates were shut.
    pub(crate) fn is_shut(&self) -> bool {
        self.is_shut.load(Ordering::SeqCst)
    }
}
