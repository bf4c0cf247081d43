// SPDX-License-Identifier: Apache-2.0 OR MIT
//! What opens doors at an address.
ghost use Rattle.std.specs.Prelude.{◌≡◌, ◌<◌, ℕ, List, Option, Some, IfSome, IsFalse, All, map, sum_by};
ghost use Rattle.cr_ports.specs.Count.{Gains};

use crate::Door;
use std::alloc::Global;

/// What opening gates gave.
#[derive(Drop)]
pub enum Opened<D> {
    /// The doors, one a worker, in their order.
    Doors(Vec<D>),
    /// A fault, which was counted.
    Failed,
    /// Out of memory, which is no fault and isn't counted as one.
    OutOfMemory,
}

/// Opens doors at an address, and takes them back.
pub trait Gates {
    /// What gives a worker its connections. It may go to another thread.
    type Door: Door + Drop + Send;

    ghost use Rattle.cr_ports.specs.Doors.{DoorLog, shares, unasked};
    ghost use Rattle.cr_ports.specs.Opening.{AskedAfterOpen, FaultsAfterOpen, OnDoors};

    /// How often a call of the gates, or of a door that was shut, has failed.
    ghost faults: { Self → ℕ };

    /// What each of the doors that were shut last did, in their order, if the gates tell it.
    ghost logs: { Self → Option (List (DoorLog Self.Door.In Self.Door.Out Self.Door.Clock)) };

    /// The addresses at which doors were asked for, in order, if the gates tell them.
    ghost asked: { Self → Option (List (List ℕ)) };

    /// Opens doors at the address, one a worker, which give so many connections together.
    ///
    /// Doors are counted from 0. Each gives the quotient of `connections` by `workers`, and the first of them, as
    /// many as the remainder tells, one more. Each door is new: no connection is out, and no fault was counted. If no
    /// doors were opened, the gates needn't tell that they were asked for at this address.
    ///
    /// # Errors
    ///
    /// - `Failed`: the fault counter rose.
    /// - `OutOfMemory`: memory ran out. The fault counter is unchanged.
    ///
    /// # Cost
    ///
    /// In memory a look at each connection and a copy of the address; an adapter may wait for its system.
    fn open(
        &mut self,
        alloc: Global,
        addr: &str,
        workers: u32,
        connections: u32,
    ) -> Opened<Self::Door>
        requires { 0 < workers }
        ensures shares { OnDoors result (λ doors. map Self.Door.left doors ≡ shares workers connections) }
        ensures idle { OnDoors result (λ doors. All (λ door. IsFalse (Self.Door.is_out door)) doors) }
        ensures fresh { OnDoors result (λ doors. All (λ door. Self.Door.faults door ≡ 0) doors) }
        ensures unasked { OnDoors result
            (λ doors. All (λ door. IfSome (Self.Door.log door) (λ log. log ≡ unasked)) doors) }
        ensures same { logs self.new ≡ logs self.old }
        ensures asked { AskedAfterOpen result addr.now (asked self.old) (asked self.new) }
        ensures faults { FaultsAfterOpen result (faults self.old) (faults self.new) };

    /// Takes back the doors, none of which has a connection out. Gates that tell what doors did then tell it of
    /// these. The fault counter rises by at least those of all these doors together, up to its maximum. Takes no
    /// memory.
    fn shut(&mut self, doors: Vec<Self::Door>)
        requires { All (λ door. IsFalse (Self.Door.is_out door)) doors.items }
        ensures same { asked self.new ≡ asked self.old }
        ensures told { IfSome (logs self.new) (λ logs. map Self.Door.log doors.items ≡ map Some logs) }
        ensures count { Gains (faults self.old) (sum_by Self.Door.faults doors.items) (faults self.new) };
}
