// SPDX-License-Identifier: Apache-2.0 OR MIT
//! The journal: an append in four device calls, and two before them after one that failed in its third or fourth.
ghost use Rattle.std.specs.Prelude.{◌≡◌, ◌≤◌, ◌<◌, ◌+◌, ◌^◌, ◌++◌};
ghost use Rattle.std.specs.Prelude.{[], ◌∷◌, false, true, List, ℕ, length, OnOk, OnErr, IsTrue};
ghost use Rattle.cr_disks.specs.Disk.{HasCause};
ghost use Rattle.cr_ports.specs.Stopping.{LeavesOnly};
ghost use Rattle.cr_journal.specs.Grammar.{field};
ghost use Rattle.cr_journal.specs.Gates.{IsKeptOrOneMore};
ghost use Rattle.cr_journal.specs.Standing.{Stands, doubted};

use crate::state::Journal;
use crate::steps::{set_gate, stage};
use cr_disks::{Disk, DiskFailed};

impl<D: Disk> Journal<D> {
    /// Closes the gate again, if it is in doubt: the two calls before an append.
    pub(crate) fn make_ready(&mut self) -> Result<(), DiskFailed>
        requires { IsTrue D.tells
            → (kept : List (List ℕ)) × (d : List ℕ) × Stands D.seen D.may_leave self.old kept d }
        ensures ready { OnOk result (self.new.in_doubt ≡ false) }
        ensures doubt { OnErr result ((self.old.in_doubt ≡ true) × (self.new.in_doubt ≡ true)) }
        ensures gate { self.new.gate ≡ self.old.gate }
        ensures stands { IsTrue D.tells → (kept : List (List ℕ)) (d : List ℕ)
            → Stands D.seen D.may_leave self.old kept d → Stands D.seen D.may_leave self.new kept d }
        ensures any_moment { IsTrue D.tells → (kept : List (List ℕ)) (d : List ℕ)
            → Stands D.seen D.may_leave self.old kept d
            → LeavesOnly D.moment D.left_since self.old.disk self.new.disk
            (IsKeptOrOneMore kept (doubted self.old.in_doubt d)) }
        ensures cause { HasCause (D.faults self.old.disk) (D.faults self.new.disk) result }
    {
        if self.in_doubt {
            set_gate(&mut self.disk, self.gate, 0)?;
            self.in_doubt = false;
        }
        Ok(())
    }

    /// Appends a payload at a gate that isn't in doubt, given as its block: its length, itself, a closed gate.
    pub(crate) fn append(&mut self, block: &[u8]) -> Result<(), DiskFailed>
        requires room { self.old.gate < 2 ^ 62 }
        requires ready { self.old.in_doubt ≡ false }
        requires stands { IsTrue D.tells
            → (kept : List (List ℕ)) × (d : List ℕ) × Stands D.seen D.may_leave self.old kept d }
        requires block { (p : List ℕ) × (length p < 2 ^ 64) × (block.now ≡ field p ++ 0 ∷ []) }
        ensures room { self.new.gate < 2 ^ 62 }
        ensures ready { OnOk result (self.new.in_doubt ≡ false) }
        ensures kept { IsTrue D.tells → OnOk result ((kept : List (List ℕ)) (d p : List ℕ)
            → Stands D.seen D.may_leave self.old kept d → length p < 2 ^ 64 → block.now ≡ field p ++ 0 ∷ []
            → Stands D.seen D.may_leave self.new (kept ++ p ∷ []) p) }
        ensures not_kept { IsTrue D.tells → OnErr result ((kept : List (List ℕ)) (d p : List ℕ)
            → Stands D.seen D.may_leave self.old kept d → length p < 2 ^ 64 → block.now ≡ field p ++ 0 ∷ []
            → Stands D.seen D.may_leave self.new kept p) }
        // A stop at any moment of the call leaves the payloads kept, or those followed whole by this one.
        ensures any_moment { IsTrue D.tells → (kept : List (List ℕ)) (d p : List ℕ)
            → Stands D.seen D.may_leave self.old kept d → length p < 2 ^ 64 → block.now ≡ field p ++ 0 ∷ []
            → LeavesOnly D.moment D.left_since self.old.disk self.new.disk (IsKeptOrOneMore kept (p ∷ [])) }
        ensures cause { HasCause (D.faults self.old.disk) (D.faults self.new.disk) result }
    {
        stage(&mut self.disk, self.gate + 1, block)?;
        if let Err(failed) = set_gate(&mut self.disk, self.gate, 1) {
            self.in_doubt = true;
            return Err(failed);
        }
        self.gate += block.len() as u64;
        Ok(())
    }
}
