// SPDX-License-Identifier: Apache-2.0 OR MIT
//! Gates in memory, which tell all that their doors did.
ghost use Rattle.std.specs.Prelude.{◌≡◌, ◌<◌, ◌≤◌, ◌+◌, ◌-◌, ◌^◌, ◌++◌, ◌∷◌, ◌↔◌, min};
ghost use Rattle.std.specs.Prelude.{ℕ, List, [], length, map, take, drop, flat_map};
ghost use Rattle.std.specs.Prelude.{sum_by, replicate, All, Some, slice_get, option_map};
ghost use Rattle.std.specs.Prelude.{IfOk, IfSome, OnOk, OnErr, IsTrue, IsFalse, is_some, string_bytes};
ghost use Rattle.std.specs.VecDeque.{deque_len};
ghost use Rattle.cr_ports.specs.Calls.{Advances, fails};
ghost use Rattle.cr_ports.specs.Count.{Gains};
ghost use Rattle.cr_ports.specs.Doors.{share_of, shares, unasked};
ghost use Rattle.cr_ports.specs.Keeping.{faults_after};
ghost use Rattle.cr_ports.specs.MemoryDoors.{calls_below, filled, listed_at, silent};
ghost use Rattle.cr_ports.specs.Opening.{AskedAfterOpen, FaultsAfterOpen, has_failed, OnDoors};

use crate::calls::Calls;
use crate::doors::Planned;
use crate::shares::share;
use crate::{Gates, MemClock, MemDoor, MemSink, MemSource, Opened};
use std::alloc::{AllocError, Global};
use std::collections::VecDeque;
use std::marker::Model;
use std::mem;

/// Gives connections in memory to its doors. An opening, and a door's call, fails exactly if it is listed.
///
/// # Model
///
/// The connections that no door took yet, the lists, the addresses at which doors were asked for, what the doors that
/// were shut last did, and the fault counter.
pub struct MemGates {
    coming: VecDeque<Planned>,
    opens: Calls,
    asked: Vec<String>,
    failing: Vec<Vec<u64>>,
    shut: Vec<MemDoor>,
    faults: u64,
}

// Written out, so that a caller doesn't prove again how each part is dropped.
impl Drop for MemGates {
    fn drop(self) {
        let MemGates {
            coming: _,
            opens: _,
            asked: _,
            failing: _,
            shut: _,
            faults: _,
        } = self;
    }
}

impl Model for MemGates {
    ghost use Rattle.std.specs.Prelude.{map, string_bytes};
    ghost use Rattle.cr_ports.specs.MemoryDoors.{Gated};

    ghost Value = { Gated };

    ghost view = { λ g. record {
      coming = g.coming.items;
      opens = g.opens;
      asked = map string_bytes g.asked.items;
      failing = map (λ l. l.items) g.failing.items;
      shut = g.shut.items;
      faults = g.faults;
    } };
}

impl MemGates {
    /// Creates gates with no connection, no opening made and no fault counted.
    ///
    /// The openings numbered in `failing_opens` fail. Of each opening's door number i the calls numbered in
    /// `failing[i]` fail, none past the list's end; calls that find no connection left aren't numbered. All count
    /// from 0.
    pub fn new(alloc: Global, failing_opens: Vec<u64>, failing: Vec<Vec<u64>>) -> Self
        ensures coming { result.coming ≡ [] }
        ensures opens { (result.opens.failing ≡ failing_opens.items) × (result.opens.made ≡ 0) }
        ensures asked { result.asked ≡ [] }
        ensures failing { result.failing ≡ map (λ l. l.items) failing.items }
        ensures shut { result.shut ≡ [] }
        ensures faults { result.faults ≡ 0 }
    {
        MemGates {
            coming: VecDeque::new(alloc),
            opens: Calls::new(failing_opens),
            asked: Vec::new(alloc),
            failing,
            shut: Vec::new(alloc),
            faults: 0,
        }
    }

    /// Adds a connection after those that no door took yet, with a copy of it, which stays with its door.
    ///
    /// # Errors
    ///
    /// If memory runs out. Then all is as before.
    pub fn add(
        &mut self,
        alloc: Global,
        source: MemSource,
        sink: MemSink,
        clock: MemClock,
    ) -> Result<(), AllocError>
        ensures added { OnOk result (self.new.coming ≡ self.old.coming ++ (source, sink, clock) ∷ []) }
        ensures refused { OnErr result (self.new.coming ≡ self.old.coming) }
        ensures opens { self.new.opens ≡ self.old.opens }
        ensures asked { self.new.asked ≡ self.old.asked }
        ensures failing { self.new.failing ≡ self.old.failing }
        ensures shut { self.new.shut ≡ self.old.shut }
        ensures faults { self.new.faults ≡ self.old.faults }
    {
        let planned = Planned::new(alloc, source, sink, clock)?;
        self.coming.push_back(planned)?;
        Ok(())
    }

    /// Returns the addresses at which doors were asked for, in order.
    pub fn asked(&self) -> &[String]
        ensures { map string_bytes result.now ≡ self.now.asked }
    {
        &self.asked
    }

    /// Lends the doors that were shut last, in their order.
    pub fn doors(&self) -> &[MemDoor]
        ensures { result.now ≡ self.now.shut }
    {
        &self.shut
    }
}

/// Notes an address after those at which doors were asked for.
///
/// # Errors
///
/// If memory runs out. Then the list is as before.
fn note(alloc: Global, asked: &mut Vec<String>, addr: &str) -> Result<(), AllocError>
    ensures noted { OnOk result (map string_bytes asked.new.items ≡ map string_bytes asked.old.items ++ addr.now ∷ []) }
    ensures refused { OnErr result (asked.new.items ≡ asked.old.items) }
{
    let addr = String::from_str(alloc, addr)?;
    asked.push(addr)?;
    Ok(())
}

/// Creates a connection that sends nothing and takes nothing, and whose clock gives no time.
///
/// # Errors
///
/// If memory runs out.
fn silent_connection(alloc: Global) -> Result<Planned, AllocError>
    ensures { IfOk result (λ planned. planned ≡ silent) }
{
    let source = MemSource::new(Vec::new(alloc), Vec::new(alloc), Vec::new(alloc));
    let sink = MemSink::new(alloc, 0, Vec::new(alloc), Vec::new(alloc))?;
    let clock = MemClock::new(Vec::new(alloc), Vec::new(alloc));
    Planned::new(alloc, source, sink, clock)
}

/// Adds silent connections to those to come until there are at least so many.
///
/// # Errors
///
/// If memory runs out. Some may have been added.
fn fill(alloc: Global, coming: &mut VecDeque<Planned>, connections: usize) -> Result<(), AllocError>
    ensures { OnOk result (coming.new.items ≡ filled connections coming.old.items) }
{
    'filling: while coming.len() < connections {
        coming.push_back(silent_connection(alloc)?)?;
    }
    Ok(())
}

/// Takes the first `share` connections of those to come.
///
/// # Errors
///
/// If memory runs out.
fn take_share(coming: &mut VecDeque<Planned>, share: u32) -> Result<VecDeque<Planned>, AllocError>
    requires { share ≤ length coming.old.items }
    ensures share { IfOk result (λ first. first.items ≡ take share coming.old.items) }
    ensures rest { OnOk result (coming.new.items ≡ drop share coming.old.items) }
{
    let rest = coming.split_off(share as usize)?;
    Ok(mem::replace(coming, rest))
}

/// Copies the list of door number `i`; it is empty if there is none.
///
/// # Errors
///
/// If memory runs out.
fn failing_at(alloc: Global, failing: &[Vec<u64>], i: u32) -> Result<Vec<u64>, AllocError>
    ensures { IfOk result (λ list. record { failing = list.items; made = 0 }
        ≡ listed_at (slice_get (map (λ l. l.items) failing.now) i)) }
{
    match failing.get(i as usize) {
        Some(list) => list.clone(),
        None => Ok(Vec::new(alloc)),
    }
}

/// Makes the doors, one a worker, with so many connections together; as many are to come.
///
/// # Errors
///
/// If memory runs out.
fn make_doors(
    alloc: Global,
    coming: &mut VecDeque<Planned>,
    failing: &[Vec<u64>],
    workers: u32,
    connections: u32,
) -> Result<Vec<MemDoor>, AllocError>
    requires some { 0 < workers }
    requires enough { connections ≤ length coming.old.items }
    ensures shares { IfOk result (λ doors. map (λ door. length door.coming) doors.items ≡ shares workers connections) }
    ensures logs { IfOk result (λ doors. All (λ door. door.log ≡ unasked) doors.items) }
    ensures faults { IfOk result (λ doors. All (λ door. door.faults ≡ 0) doors.items) }
    ensures coming { IfOk result (λ doors. flat_map (λ door. door.coming) doors.items ++ coming.new.items
        ≡ coming.old.items) }
    ensures calls { IfOk result (λ doors. map (λ door. door.calls) doors.items
        ≡ calls_below workers (map (λ l. l.items) failing.now)) }
{
    let mut doors = Vec::with_capacity(alloc, workers as usize)?;
    'making: for i in 0..workers {
        let first = take_share(coming, share(i, workers, connections))?;
        let list = failing_at(alloc, failing, i)?;
        doors.push(MemDoor::new(alloc, first, list)?)?;
    }
    Ok(doors)
}

/// Adds the faults of the doors to those counted before, up to 2^64 - 1.
fn faults_with(before: u64, doors: &[MemDoor]) -> u64
    ensures { result ≡ min (before + sum_by (λ door. door.faults) doors.now) (2 ^ 64 - 1) }
{
    let mut faults = before;
    'counting: for door in doors {
        faults = faults.saturating_add(door.fault_count());
    }
    faults
}

impl Gates for MemGates {
    type Door = MemDoor;

    ghost faults = { λ g. g.faults };

    ghost logs = { λ g. Some (map (λ door. door.log) g.shut) };

    ghost asked = { λ g. Some g.asked };

    /// Gives the connections out in their order, each door's share after that of the doors before it. If there are
    /// fewer than asked for, silent ones follow, which send and take nothing. The address is noted, and isn't looked
    /// at.
    ///
    /// # Errors
    ///
    /// - `Failed` if and only if this opening is listed, even if there is no memory to note the address.
    /// - `OutOfMemory`: fewer connections may be left.
    fn open(&mut self, alloc: Global, addr: &str, workers: u32, connections: u32) -> Opened<MemDoor>
        requires { 0 < workers }
        ensures shares { OnDoors result (λ doors. map (λ door. length door.coming) doors
            ≡ shares workers connections) }
        ensures idle { OnDoors result (λ doors. All (λ door. IsFalse (is_some door.log.out)) doors) }
        ensures fresh { OnDoors result (λ doors. All (λ door. door.faults ≡ 0) doors) }
        ensures unasked { OnDoors result (λ doors. All (λ door. IfSome (Some door.log) (λ log. log ≡ unasked)) doors) }
        ensures same { Some (map (λ door. door.log) self.new.shut) ≡ Some (map (λ door. door.log) self.old.shut) }
        ensures faults { FaultsAfterOpen result self.old.faults self.new.faults }
        ensures asked { AskedAfterOpen result addr.now (Some self.old.asked) (Some self.new.asked) }

        // It fails where this opening is listed, and nowhere else.
        ensures failed { has_failed result ≡ fails self.old.opens }
        ensures count { self.new.faults ≡ faults_after (fails self.old.opens) self.old.faults }
        ensures opens { Advances self.old.opens self.new.opens }

        // The doors have the connections, in order, and the calls that are listed for them.
        ensures coming { OnDoors result (λ doors. flat_map (λ door. door.coming) doors ++ self.new.coming
            ≡ filled connections self.old.coming) }
        ensures calls { OnDoors result (λ doors. map (λ door. door.calls) doors
            ≡ calls_below workers self.old.failing) }
        ensures failing { self.new.failing ≡ self.old.failing }
        ensures shut { self.new.shut ≡ self.old.shut }
    {
        let noted = note(alloc, &mut self.asked, addr);
        if self.opens.begin() {
            self.faults = self.faults.saturating_add(1);
            return Opened::Failed;
        }
        if noted.is_err() {
            return Opened::OutOfMemory;
        }
        if fill(alloc, &mut self.coming, connections as usize).is_err() {
            return Opened::OutOfMemory;
        }
        match make_doors(alloc, &mut self.coming, &self.failing, workers, connections) {
            Ok(doors) => Opened::Doors(doors),
            Err(_) => Opened::OutOfMemory,
        }
    }

    fn shut(&mut self, doors: Vec<MemDoor>)
        requires { All (λ door. IsFalse (is_some door.log.out)) doors.items }
        ensures same { Some self.new.asked ≡ Some self.old.asked }
        ensures told { IfSome (Some (map (λ door. door.log) self.new.shut))
            (λ logs. map (λ door. Some door.log) doors.items ≡ map Some logs) }
        ensures count { Gains self.old.faults (sum_by (λ door. door.faults) doors.items) self.new.faults }

        ensures shut { self.new.shut ≡ doors.items }
        ensures faults { self.new.faults
            ≡ min (self.old.faults + sum_by (λ door. door.faults) doors.items) (2 ^ 64 - 1) }
        ensures coming { self.new.coming ≡ self.old.coming }
        ensures opens { self.new.opens ≡ self.old.opens }
        ensures failing { self.new.failing ≡ self.old.failing }
    {
        self.faults = faults_with(self.faults, &doors);
        self.shut = doors;
    }
}
