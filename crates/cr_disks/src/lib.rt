// SPDX-License-Identifier: Apache-2.0 OR MIT
//! Disks: bytes by offset, which are written and synced, with what a stop may leave of them at each moment. A disk in
//! memory tells all of that; an adapter over a real file tells nothing.
//!
//! # Proved
//!
//! - A disk in memory meets the crash model of `Disk`: until a sync succeeds, the ranges of writes since may hold any
//!   bytes. The file may end anywhere between its old end and theirs: `MemDisk`. What a read gives is among what a
//!   stop may leave: `law_may_leave_seen`.
//! - `MemDisks` opens such a disk over the bytes at a path. One that is shut leaves its bytes there, and every other
//!   path unchanged: `open` (`found`), `shut` (`kept`).
//! - An opening takes nothing as synced: of the disk a stop may leave what it might have left at the path, and no
//!   more: `open` (`stops`), `shut` (`still`, `others`). After that a sync that succeeds leaves only what a read
//!   gives: `Disk::sync` (`durable`), of `Disks`.
//! - A discarded disk leaves no bytes at its path, or says that they stayed: `discard` (`gone`, `kept`, `can`).
//! - `PlainDisk` keeps no record, only what its calls do to its bytes.
#![tactic(auto)]

mod disk;
mod disks;
mod mem_disk;
mod mem_disks;
mod plain_disk;

pub use disk::{Disk, DiskFailed};
pub use disks::Disks;
pub use mem_disk::{DiskCall, MemDisk};
pub use mem_disks::MemDisks;
pub use plain_disk::PlainDisk;
