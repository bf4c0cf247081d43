// SPDX-License-Identifier: Apache-2.0 OR MIT
//! A shelf and a keeper over SQLite files: four tables of rows, by kind of entry, and one with the version of these
//! tables.
//!
//! # Proved
//!
//! - No call does anything undefined, whatever the file holds; each returns if the disk's calls do (safety and
//!   totality).
//! - A keeper or shelf fails only if its counter rose: `Keeper`, `Shelf`; `SqliteKeeper::adopt` (`kept`, `cause`). Of
//!   the errors of `sqlite` only lack of memory is returned as that; any other is a fault with the error as its
//!   reason: `from_gives` of `StoreError`, `store_error`.
//! - Migrating version 1 or 2 commits at most once: a crash leaves what it could leave before, or one database more:
//!   `move_all` (`one`, `CommitsOnce`).
//!
//! # Tested
//!
//! - Rows of each kind and version over disks in memory: tests_of_stores. On real files kills, copies, full disks,
//!   failing writes and syncs, and stores unlike [STORE.md](../../../docs/STORE.md): `checks/store.py`. Migration:
//!   `checks/migration.py`.
//!
//! # Assumed
//!
//! - Of the crate `sqlite`: what [RUNNING.md](../../../docs/RUNNING.md#after-a-crash) says of commits, crashes and
//!   failed syncs; a file that another process has open is refused.
//!
//! # Not claimed
//!
//! - That a row comes back: contracts see no rows. What a real disk does.
#![tactic(auto)]

mod access;
mod cursors;
mod keeper;
mod migrate;
mod reason;
mod record;
mod schema;
mod shelf;
mod table;

pub use keeper::SqliteKeeper;
pub use reason::{Reason, StoreError};
pub use shelf::SqliteShelf;
