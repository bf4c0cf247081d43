// SPDX-License-Identifier: Apache-2.0 OR MIT
//! Bytes by offset, which last once they are synced.
ghost use Rattle.std.specs.Prelude.{◌≡◌, ◌⊎◌, ◌<◌, ◌≤◌, ◌+◌, ◌^◌, ℕ, List, Bool, length, IsTrue, IfOk, OnOk, OnErr};
ghost use Rattle.cr_ports.specs.Stream.{FillsWithin};
ghost use Rattle.cr_disks.specs.Disk.{GivesAt, Holds, Torn, Only, Follows, Elapses, HasCause, ReadHasCause};

use cr_ports::ReadStep;

/// A call of a disk failed, which was counted.
#[derive(Clone, Copy, Debug, PartialEq, Eq)]
pub struct DiskFailed;

/// Bytes by offset, at most 2^62 of them. A stop leaves what was synced; in the ranges of writes since, it may leave
/// any bytes.
pub trait Disk {
    /// Disks of this type tell what they hold, and what a stop may leave. `seen`, `may_leave`, `moment` and
    /// `left_since` speak of such a disk.
    ghost tells: { Bool };

    /// The bytes that a read gives.
    ghost seen: { Self → List ℕ };

    /// The bytes that a stop at this moment may leave.
    ghost may_leave: { Self → List ℕ → Type 0 };

    /// The disk's own time, as a number that doesn't fall.
    ghost moment: { Self → ℕ };

    /// The bytes that a stop may have left at some moment from that one on, during a call or between two.
    ghost left_since: { Self → ℕ → List ℕ → Type 0 };

    /// How often a call has failed.
    ghost faults: { Self → ℕ };

    /// Returns how many bytes there are, at most 2^62. The bytes, and what a stop may leave, stay.
    ///
    /// # Errors
    ///
    /// The fault counter rose. Otherwise it is unchanged.
    fn len(&mut self) -> Result<u64, DiskFailed>
        ensures range { IfOk result (λ n. n ≤ 2 ^ 62) }
        ensures told { IsTrue tells → IfOk result (λ n. n ≡ length (seen self.old)) }
        ensures seen { IsTrue tells → seen self.new ≡ seen self.old }
        ensures crash { IsTrue tells → (image : List ℕ) → may_leave self.new image → may_leave self.old image }
        ensures cause { HasCause (faults self.old) (faults self.new) result };

    /// Reads bytes from `at` on into the front of `buf`, which isn't empty. `End` if and only if there is no byte at
    /// `at` or after it. The bytes, and what a stop may leave, stay.
    ///
    /// # Errors
    ///
    /// `Failed`: the fault counter rose. Otherwise it is unchanged.
    fn read_at(&mut self, at: u64, buf: &mut [u8]) -> ReadStep
        requires { 0 < length buf.old }
        ensures size { FillsWithin result (length buf.old) }
        ensures told { IsTrue tells → GivesAt result buf.new at (seen self.old) }
        ensures seen { IsTrue tells → seen self.new ≡ seen self.old }
        ensures crash { IsTrue tells → (image : List ℕ) → may_leave self.new image → may_leave self.old image }
        ensures cause { ReadHasCause (faults self.old) (faults self.new) result };

    /// Writes a piece over the bytes from `at` on, and past the end. Until a sync succeeds, a stop may leave any
    /// bytes in its range.
    ///
    /// # Errors
    ///
    /// A write past 2^62 bytes fails; any other may. The fault counter rose, and the piece's range may hold any
    /// bytes. Otherwise the counter is unchanged.
    fn write_at(&mut self, at: u64, piece: &[u8]) -> Result<(), DiskFailed>
        requires { IsTrue tells → at ≤ length (seen self.old) }
        ensures within { OnOk result (at + length piece.now ≤ 2 ^ 62) }
        ensures written { IsTrue tells → OnOk result (Holds (seen self.old) at piece.now (seen self.new)) }
        ensures torn { IsTrue tells → OnErr result (Torn at (length piece.now) (seen self.old) (seen self.new)) }
        ensures crash { IsTrue tells → Follows (Torn at (length piece.now)) (may_leave self.old) (may_leave self.new) }
        ensures time { IsTrue tells → Elapses (moment self.old) (moment self.new)
            (left_since self.old) (left_since self.new) (may_leave self.new) }
        ensures cause { HasCause (faults self.old) (faults self.new) result };

    /// Syncs what was written: once it has succeeded, a stop leaves what a read gives.
    ///
    /// # Errors
    ///
    /// The fault counter rose. A stop may leave what it could leave before, or what a read gives. Otherwise the
    /// counter is unchanged.
    fn sync(&mut self) -> Result<(), DiskFailed>
        ensures durable { IsTrue tells → OnOk result (Only (seen self.old) (may_leave self.new)) }
        ensures seen { IsTrue tells → seen self.new ≡ seen self.old }
        ensures crash { IsTrue tells → (image : List ℕ)
            → may_leave self.new image → may_leave self.old image ⊎ (image ≡ seen self.old) }
        ensures time { IsTrue tells → Elapses (moment self.old) (moment self.new)
            (left_since self.old) (left_since self.new) (may_leave self.new) }
        ensures cause { HasCause (faults self.old) (faults self.new) result };

    /// Proves that what a read gives is among what a stop may leave.
    fn law_may_leave_seen(&self)
        ensures { IsTrue tells → may_leave self.now (seen self.now) };

    /// What a stop may leave at this moment, it may have left since each earlier moment.
    ghost counts_now: { (disk : Self) (t : ℕ) (image : List ℕ)
        → t ≤ moment disk → may_leave disk image → left_since disk t image };

    /// What a stop may have left since this moment, it may leave at it.
    ghost only_now: { (disk : Self) (image : List ℕ) → left_since disk (moment disk) image → may_leave disk image };
}
