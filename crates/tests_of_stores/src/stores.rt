// SPDX-License-Identifier: Apache-2.0 OR MIT
//! What no clause says: that rows come back as they were from a store that was closed, and what a
//! reason's text is. `checks/store.py` tries bad stores, on real files.
ghost use Rattle.std.specs.Prelude.{IsTrue};

use crate::rows::of_each_kind;
use crate::steps::{Task, visited};
use cr_base::Row;
use cr_sqlite::{Reason, SqliteKeeper};
use sqlite::{Error, ErrorCode, File, FileStore};
use sqlite_disk::{Disk, Memory};
use std::alloc::Global;
use std::test::Fail;

fn must_send<T: Send>(_: &T) {}

/// Shows that a keeper over a file can be moved into a thread.
fn file_keepers_are_send(keeper: &SqliteKeeper<FileStore<File>>) {
    must_send(keeper);
}

/// Returns whether rows that are kept in a database come back, once it was closed, with another log.
fn come_back<D: Disk + Drop>(alloc: Global, log: D, other: D, db: D, rows: &[Row]) -> bool
    requires { IsTrue (D.Disk.is_usable log) × IsTrue (D.Disk.is_usable other) × IsTrue (D.Disk.is_usable db) }
{
    match visited(alloc, log, db, Task::Keep(rows)) {
        Some(db) => visited(alloc, other, db, Task::Find(rows)).is_some(),
        None => false,
    }
}

fn come_back_in_memory(alloc: Global, rows: &[Row]) -> bool {
    come_back(
        alloc,
        Memory::new(alloc),
        Memory::new(alloc),
        Memory::new(alloc),
        rows,
    )
}

#[test]
fn rows_outlive_the_connection(rt: HostRuntime) -> Result<(), Fail> {
    let rows = of_each_kind(rt.alloc(), 23)?;
    assert!(rt; come_back_in_memory(rt.alloc(), rows.as_slice()));
    Ok(())
}

fn is_refused_in_memory(alloc: Global) -> bool {
    visited(alloc, Memory::new(alloc), Memory::new(alloc), Task::Refuse).is_some()
}

#[test]
fn a_row_of_no_kind_keeps_nothing(rt: HostRuntime) {
    assert!(rt; is_refused_in_memory(rt.alloc()));
}

fn is_told(alloc: Global, reason: Reason, text: &str) -> bool {
    match format!(in alloc; "{reason}") {
        Ok(told) => told.as_str() == text,
        Err(_) => false,
    }
}

/// Returns the place of the first reason that has another text.
fn first_untold(alloc: Global, texts: &[(Reason, &str)]) -> Option<usize> {
    for (at, (reason, text)) in texts.iter().enumerate() {
        if !is_told(alloc, *reason, text) {
            return Some(at);
        }
    }
    None
}

#[test]
fn reasons_are_one_line(rt: HostRuntime) {
    let busy = Reason::Database(Error::SqliteFailure(ErrorCode::DatabaseBusy));
    let texts = [
        (busy, "database is locked"),
        (
            Reason::OtherTables,
            "the tables are not those of a store that this confd reads",
        ),
        (
            Reason::OtherVersion,
            "the store says another version than that of its tables",
        ),
        (Reason::MissingPlace(3), "no row stands at place 3"),
        (Reason::TakenPlace(3), "two rows stand at place 3"),
        (
            Reason::OtherTable(3),
            "the row at place 3 stands in another table than its kind's",
        ),
        (
            Reason::OtherValue(3),
            "the row at place 3 has a value that no row has",
        ),
        (Reason::UnknownRow(3), "the row for place 3 fits no table"),
        (Reason::InTransaction, "a transaction is open"),
    ];
    assert_eq!(rt; first_untold(rt.alloc(), texts.as_slice()), None);
}
