// SPDX-License-Identifier: Apache-2.0 OR MIT
//! A keeper and a shelf over disks: groups of rows in a file that only grows, each committed by one byte. What was
//! kept is found after a stop at any moment, also if unsynced writes are torn.
//!
//! # Proved
//!
//! Of disks that tell their bytes, as those in memory do:
//!
//! - A file is the journal of at most one list of groups: `law_one_reading`. What is opened has their rows; a file is
//!   refused as none only if it is none: `JournalKeeper::open` (`found`, `none`). If it is none, opening fails, but
//!   may report a fault or lack of memory instead.
//! - Once it is open, a stop leaves only what was read, also after a failed sync before: `JournalKeeper::open`,
//!   `JournalShelf::open` (`durable`).
//! - A journal tells what a stop may leave, as `Keeper` of cr_ports says. So what was answered as kept is in every
//!   file that a stop may leave: `JournalKeeper::append_all` (`any_moment`, `doubt`), `law_stops`; `into_disk`.
//! - A shelf tells the rows at each path as its file spells them: `JournalShelf::open` (`found`, `same`),
//!   `Shelf::shut`, `stored_rows`. If it fails to open a file, each file is unchanged, unless it says that part of a
//!   new journal is left in an empty one: `JournalShelf::open` (`spared`, `half_made`).
//! - An append fails only if the disk's counter rose, and leaves the rows: `append_all` (`cause`, `refused`). A shelf
//!   refuses a file only if disks failed, or if it is no journal, which it counts apart: `JournalShelf::open`
//!   (`failed`, `none`, `other`), `found_none`.
//!
//! # Tested
//!
//! - The bytes of a new journal and of a row; a stop at every call of thirty appends, torn in 26 ways; full disks:
//!   tests_of_journals.
//!
//! # Not claimed
//!
//! - What a stop leaves while a file is made.
#![tactic(auto)]

mod journal;
mod keeper;
mod laws;
mod opening;
mod reading;
mod shelf;
mod state;
mod steps;
mod writing;

pub use keeper::{JournalKeeper, law_stops};
pub use laws::law_one_reading;
pub use opening::OpenError;
pub use shelf::JournalShelf;
