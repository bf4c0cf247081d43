// SPDX-License-Identifier: Apache-2.0 OR MIT
//! The device calls of an append, two at a time, each with what a stop at any moment of them leaves.
ghost use Rattle.std.specs.Prelude.{◌≡◌, ◌≤◌, ◌<◌, ◌+◌, ◌^◌, [], ◌∷◌, List, ℕ, length, OnOk, IsTrue};
ghost use Rattle.cr_disks.specs.Disk.{Only, Holds, HasCause};
ghost use Rattle.cr_ports.specs.Stopping.{LeavesOnly};
ghost use Rattle.cr_journal.specs.Gates.{SameTo, SameBut};

use cr_disks::{Disk, DiskFailed};

/// Writes after what is synced, and syncs: the first two calls of an append.
pub(crate) fn stage<D: Disk>(disk: &mut D, at: u64, block: &[u8]) -> Result<(), DiskFailed>
    requires inside { IsTrue D.tells → at ≤ length (D.seen disk.old) }
    requires synced { IsTrue D.tells → (image : List ℕ) → D.may_leave disk.old image
        → SameTo at (D.seen disk.old) image }
    ensures within { OnOk result (at + length block.now ≤ 2 ^ 62) }
    ensures written { OnOk result (IsTrue D.tells
        → Holds (D.seen disk.old) at block.now (D.seen disk.new) × Only (D.seen disk.new) (D.may_leave disk.new)) }
    ensures seen { IsTrue D.tells → SameTo at (D.seen disk.old) (D.seen disk.new) }
    ensures images { IsTrue D.tells
        → (image : List ℕ) → D.may_leave disk.new image → SameTo at (D.seen disk.old) image }
    // A stop at any moment of the call leaves what was synced in front.
    ensures any_moment { IsTrue D.tells
        → LeavesOnly D.moment D.left_since disk.old disk.new (SameTo at (D.seen disk.old)) }
    ensures cause { HasCause (D.faults disk.old) (D.faults disk.new) result }
{
    disk.write_at(at, block)?;
    disk.sync()
}

/// Writes the gate, and syncs: the last two calls of an append (1), and the two before the next one (0).
pub(crate) fn set_gate<D: Disk>(disk: &mut D, gate: u64, value: u8) -> Result<(), DiskFailed>
    requires inside { IsTrue D.tells → gate < length (D.seen disk.old) }
    requires synced { IsTrue D.tells → (image : List ℕ) → D.may_leave disk.old image
        → SameBut gate (D.seen disk.old) image }
    ensures written { OnOk result (IsTrue D.tells
        → Holds (D.seen disk.old) gate (value ∷ []) (D.seen disk.new) × Only (D.seen disk.new) (D.may_leave disk.new)) }
    ensures seen { IsTrue D.tells → SameBut gate (D.seen disk.old) (D.seen disk.new) }
    ensures images { IsTrue D.tells
        → (image : List ℕ) → D.may_leave disk.new image → SameBut gate (D.seen disk.old) image }
    // A stop at any moment of the call leaves every byte but the gate.
    ensures any_moment { IsTrue D.tells
        → LeavesOnly D.moment D.left_since disk.old disk.new (SameBut gate (D.seen disk.old)) }
    ensures cause { HasCause (D.faults disk.old) (D.faults disk.new) result }
{
    disk.write_at(gate, &[value])?;
    disk.sync()
}
