// SPDX-License-Identifier: Apache-2.0 OR MIT
//! What opens disks by their paths.
ghost use Rattle.std.specs.Prelude.{◌≡◌, ◌≢◌, ◌⊎◌, ◌↔◌, [], ℕ, List, IfOk, OnOk, IsFalse, IsTrue};
ghost use Rattle.cr_ports.specs.Count.{Gains};
ghost use Rattle.cr_ports.specs.Keeping.{HasCause};
ghost use Rattle.cr_disks.specs.Disk.{with_bytes};

use crate::disk::Disk;
use cr_ports::KeeperError;

/// Opens a disk over the bytes at a path, and takes it back.
///
/// After an opening, a sync that succeeds does what `Disk` says, whatever happened to the file before: a stop then
/// leaves what a read gives, even if a sync failed before the opening. So an opening takes nothing as synced: until a
/// sync, a stop may leave all that it might have left before. A system that goes on showing what a failed sync lost
/// must not show that at an opening: what the disk shows has to be what a sync makes last.
pub trait Disks {
    /// What it opens. It may go to another thread.
    type Disk: Disk + Drop + Send;

    /// The bytes at each path, none if nothing is there, if its disks tell theirs. Those that are written are there
    /// once the disk was shut.
    ghost files: { Self → List ℕ → List ℕ };

    /// The bytes that a stop may leave at each path at which no disk is open.
    ghost may_leave: { Self → List ℕ → List ℕ → Type 0 };

    /// A disk may be taken back at this path.
    ghost has_opened: { Self → List ℕ → Type 0 };

    /// The bytes that a stop may have left of the disk that was last shut at a path, at some moment of it from that
    /// one on.
    ghost left: { Self → List ℕ → ℕ → List ℕ → Type 0 };

    /// How often a call of these has failed, or one of a disk that was shut.
    ghost faults: { Self → ℕ };

    /// Opens a disk over the bytes at the path, which has counted no fault. A stop may leave of it what it might have
    /// left before.
    ///
    /// # Errors
    ///
    /// - `Failed`: the fault counter rose.
    /// - `OutOfMemory`: memory ran out. The fault counter is unchanged.
    fn open(&mut self, path: &str) -> Result<Self::Disk, KeeperError>
        ensures found { IsTrue Self.Disk.tells → IfOk result (λ disk. Self.Disk.seen disk ≡ files self.old path.now) }
        ensures stops { IsTrue Self.Disk.tells → IfOk result (λ disk. (image : List ℕ)
            → Self.Disk.may_leave disk image ↔ may_leave self.old path.now image) }
        ensures fresh { IfOk result (λ disk. Self.Disk.faults disk ≡ 0) }
        ensures opened { OnOk result (has_opened self.new path.now) }
        ensures same { IsTrue Self.Disk.tells → files self.new ≡ files self.old }
        ensures as_before { IsTrue Self.Disk.tells → (other image : List ℕ)
            → may_leave self.new other image ↔ may_leave self.old other image }
        ensures cause { HasCause (faults self.old) (faults self.new) result };

    /// Takes back a disk that was opened at this path; its bytes are then there. The fault counter rises by at least
    /// the disk's, up to its maximum. Takes no memory.
    fn shut(&mut self, path: &str, disk: Self::Disk)
        requires { has_opened self.old path.now }
        ensures kept { IsTrue Self.Disk.tells
            → files self.new ≡ with_bytes (files self.old) path.now (Self.Disk.seen disk) }
        ensures stops { IsTrue Self.Disk.tells → (t : ℕ) (image : List ℕ)
            → left self.new path.now t image ↔ Self.Disk.left_since disk t image }
        ensures still { IsTrue Self.Disk.tells → (image : List ℕ)
            → may_leave self.new path.now image ↔ Self.Disk.may_leave disk image }
        ensures others { IsTrue Self.Disk.tells → (other image : List ℕ) → other ≢ path.now
            → may_leave self.new other image ↔ may_leave self.old other image }
        ensures count { Gains (faults self.old) (Self.Disk.faults disk) (faults self.new) };

    /// Takes back a disk that was opened at this path, takes its bytes away, and returns whether that could be done.
    /// If it couldn't, they are at the path. A stop may leave no bytes there, or what it might have left of the disk.
    /// The fault counter rises by at least the disk's, up to its maximum. Takes no memory.
    fn discard(&mut self, path: &str, disk: Self::Disk) -> bool
        requires { has_opened self.old path.now }
        ensures gone { IsTrue Self.Disk.tells → IsTrue result
            → files self.new ≡ with_bytes (files self.old) path.now [] }
        ensures kept { IsTrue Self.Disk.tells → IsFalse result
            → files self.new ≡ with_bytes (files self.old) path.now (Self.Disk.seen disk) }
        ensures still { IsTrue Self.Disk.tells → (image : List ℕ)
            → may_leave self.new path.now image → (image ≡ []) ⊎ Self.Disk.may_leave disk image }
        ensures others { IsTrue Self.Disk.tells → (other image : List ℕ) → other ≢ path.now
            → may_leave self.new other image ↔ may_leave self.old other image }
        ensures count { Gains (faults self.old) (Self.Disk.faults disk) (faults self.new) };
}
