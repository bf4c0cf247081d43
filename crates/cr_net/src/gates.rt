// SPDX-License-Identifier: Apache-2.0 OR MIT
//! What listens.
ghost use Rattle.std.specs.Prelude.{◌≡◌, ◌<◌, ℕ, List, Option, None, IfOk, map, All, IsFalse, ⊤, sum_by};
ghost use Rattle.cr_ports.specs.Count.{Gains};
ghost use Rattle.cr_ports.specs.Doors.{shares};
ghost use Rattle.cr_ports.specs.Opening.{FaultsAfterOpen};
ghost use Rattle.cr_net.specs.Doors.{new_door};

use crate::crowd::Crowd;
use crate::door::TcpDoor;
use crate::reaper::Reaper;
use crate::reason::Reason;
use cr_ports::{Gates, Opened, share};
use std::alloc::{AllocError, Global};
use std::io::ErrorKind;
use std::marker::Model;
use std::net::{TcpListener, ToSocketAddrs};
use std::sync::Arc;
use std::thread::Threads;
use std::time::Instant;

/// Listens only at loopback addresses, since secrets travel in the clear.
///
/// # Model
///
/// The fault counter.
#[derive(Drop)]
pub struct TcpGates<R> {
    rt: HostRuntime,
    handle: R,
    // What looks who waits, from an opening on until the doors are shut.
    reaper: Option<Reaper>,
    faults: u64,
    reason: Option<Reason>,
}

impl<R> Model for TcpGates<R> {
    ghost use Rattle.std.specs.Prelude.{ℕ};

    ghost Value = { ℕ };

    ghost view = { λ g. g.faults };
}

impl<R> TcpGates<R> {
    /// Creates gates with no fault counted, which listen nowhere yet. `handle` is the runtime, as one that may start
    /// threads.
    pub fn new(rt: &HostRuntime, handle: R) -> TcpGates<R>
        ensures { result ≡ 0 }
    {
        TcpGates {
            rt: *rt,
            handle,
            reaper: None,
            faults: 0,
            reason: None,
        }
    }

    /// Returns what the last fault was, of the gates or of a door that they took back; `None` if nothing has failed.
    pub fn reason(&self) -> Option<Reason> {
        self.reason
    }

    /// Counts a fault and keeps its reason.
    fn failed(&mut self, reason: Reason) -> Opened<TcpDoor>
        ensures step { result ≡ Opened.Failed }
        ensures count { FaultsAfterOpen result self.old self.new }
    {
        self.faults = self.faults.saturating_add(1);
        self.reason = Some(reason);
        Opened::Failed
    }

    /// Counts the faults of a door, and keeps the reason of the last.
    fn note(&mut self, door: &TcpDoor)
        ensures { Gains self.old door.now.faults self.new }
    {
        self.faults = self.faults.saturating_add(door.faults());
        self.reason = door.reason().or(self.reason);
    }
}

impl<R: Threads> TcpGates<R> {
    /// Returns one door for each worker, all of which take connections of one listener.
    fn doors(
        &self,
        alloc: Global,
        crowd: &Arc<Crowd, Global>,
        workers: u32,
        connections: u32,
    ) -> Result<Vec<TcpDoor>, AllocError>
        requires { 0 < workers }
        ensures { IfOk result (λ doors. doors.items ≡ map new_door (shares workers connections)) }
    {
        let mut doors = Vec::with_capacity(alloc, workers as usize)?;
        'making: for i in 0..workers {
            let theirs = Arc::try_clone(crowd)?;
            let left = share(i, workers, connections);
            let door = TcpDoor::new(&self.rt, alloc, theirs, i as usize, left);
            doors.push(door)?;
        }
        Ok(doors)
    }

    /// Starts a thread that looks from now on who waits. Returns whether one could be made.
    fn watch(&mut self, crowd: &Arc<Crowd, Global>) -> bool
        ensures { self.new ≡ self.old }
    {
        self.unwatch();
        self.reaper = Reaper::start(&self.rt, &self.handle, crowd);
        self.reaper.is_some()
    }

    /// Ends the thread, where there is one.
    fn unwatch(&mut self)
        ensures { self.new ≡ self.old }
    {
        if let Some(reaper) = self.reaper.take() {
            reaper.end(&self.handle);
        }
    }
}

/// Returns what so many doors of the listener share.
fn crowd_of(
    alloc: Global,
    listener: TcpListener,
    opened: Instant,
    doors: u32,
) -> Result<Arc<Crowd, Global>, AllocError> {
    Ok(Arc::new(alloc, Crowd::new(alloc, listener, opened, doors)?)?)
}

/// Listens at the first of the addresses meant that can be listened at, up to the first that isn't loopback.
fn listen(rt: &HostRuntime, addr: &str) -> Result<TcpListener, Reason> {
    let mut last = ErrorKind::NotFound;
    let found = match addr.to_socket_addrs(rt) {
        Ok(found) => found,
        Err(error) => return Err(Reason::Listening(error.kind())),
    };
    for addr in found {
        if !addr.ip().is_loopback() {
            return Err(Reason::NotLoopback);
        }
        match TcpListener::bind(rt, addr) {
            Ok(listener) => return Ok(listener),
            Err(error) => last = error.kind(),
        }
    }
    Err(Reason::Listening(last))
}

/// Tells where it listens, as far as standard error takes it.
fn tell(rt: &HostRuntime, listener: &TcpListener) {
    if let Ok(addr) = listener.local_addr() {
        let _ = eprintln!(rt; "confd: listening on {addr}");
    }
}

impl<R: Threads> Gates for TcpGates<R> {
    type Door = TcpDoor;

    ghost faults = { λ g. g };

    ghost logs = { λ _. None };

    ghost asked = { λ _. None };

    /// Listens at the address; port 0 asks for any port. A line on standard error says where. An address that isn't
    /// loopback, or that can't be listened at, is a fault.
    fn open(
        &mut self,
        alloc: Global,
        addr: &str,
        workers: u32,
        connections: u32,
    ) -> Opened<TcpDoor> {
        let listener = match listen(&self.rt, addr) {
            Ok(listener) => listener,
            Err(reason) => return self.failed(reason),
        };
        let Ok(opened) = Instant::now(&self.rt) else {
            return self.failed(Reason::Watching);
        };
        let Ok(crowd) = crowd_of(alloc, listener, opened, workers) else {
            return Opened::OutOfMemory;
        };
        let Ok(doors) = self.doors(alloc, &crowd, workers, connections) else {
            return Opened::OutOfMemory;
        };
        if !self.watch(&crowd) {
            return self.failed(Reason::Watching);
        }
        tell(&self.rt, &crowd.listener);
        Opened::Doors(doors)
    }

    fn shut(&mut self, doors: Vec<TcpDoor>)
        requires { All (λ door. IsFalse door.is_out) doors.items }
        ensures same { ◌≡◌ {A = Option (List (List ℕ))} None None }
        ensures told { ⊤ }
        ensures count { Gains self.old (sum_by (λ door. door.faults) doors.items) self.new }
    {
        'shutting: for door in doors.iter() {
            self.note(door);
        }
        self.unwatch();
    }
}
