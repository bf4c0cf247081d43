// SPDX-License-Identifier: Apache-2.0 OR MIT
//! Disks over the files of the system: the trusted edge.
//!
//! # Proved
//!
//! - A call fails only if the counter rose: `Disk`, `Disks`. Contracts see no file's bytes.
//!
//! # Tested
//!
//! - On real files, with a second reader, kills, full disks, power cuts, and each call refused or cut short:
//!   `checks/journal.py`. Three file systems, over a disk that refuses a write: `checks/real_disks.py`.
//!
//! # Assumed
//!
//! - What a file holds; what was synced is there after a stop; reads after an opening give what the disk has.
#![tactic(auto)]

mod disk;
mod disks;
mod reason;

pub use disk::FileDisk;
pub use disks::FileDisks;
pub use reason::Reason;
