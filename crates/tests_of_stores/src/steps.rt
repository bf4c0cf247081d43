// SPDX-License-Identifier: Apache-2.0 OR MIT
//! What is done with a store: over any disk, with plain values for answers.
ghost use Rattle.std.specs.Prelude.{◌≡◌, IsTrue, IfSome, None};

use crate::rows::of_kind;
use cr_base::Row;
use cr_ports::Keeper;
use cr_sqlite::SqliteKeeper;
use sqlite::{Alter, Connection, Error, FileStore, Files, Options};
use sqlite_disk::Disk;
use std::alloc::Global;

// The tests alone name the disk: a proof that carries the clauses of several calls, and the ways in which what is open
// is dropped, takes many minutes.

pub(crate) fn open<D: Disk + Drop>(alloc: Global, log: D, db: D) -> Option<Connection<FileStore<D>>>
    requires { IsTrue (D.Disk.is_usable log) × IsTrue (D.Disk.is_usable db) }
{
    match Connection::open_files(alloc, Files { log, db }, Options::new(1)) {
        Ok(conn) => Some(conn),
        Err(_) => None,
    }
}

fn adopt<S: Alter + Drop>(alloc: Global, conn: Connection<S>) -> Option<SqliteKeeper<S>> {
    match SqliteKeeper::adopt(alloc, conn, &mut 0) {
        Ok(keeper) => Some(keeper),
        Err(_) => None,
    }
}

pub(crate) fn close<D: Disk + Drop>(conn: Connection<FileStore<D>>) -> Option<D>
    ensures { IfSome result (λ db. IsTrue (D.Disk.is_usable db)) }
{
    match conn.close_files() {
        Ok(Files { log: _, db }) => Some(db),
        Err(failed) => none_of(failed.0),
    }
}

fn none_of<D>(_: Error) -> Option<D>
    ensures { result ≡ None }
{
    None
}

/// What is done in a store that is open.
#[derive(Clone, Copy)]
pub(crate) enum Task<'a> {
    /// These rows are kept.
    Keep(&'a [Row]),
    /// Its rows are looked at, and are these.
    Find(&'a [Row]),
    /// Rows are kept, of which some are of a kind that no store takes.
    Refuse,
}

fn reads<S: Alter>(keeper: &mut SqliteKeeper<S>, at: u64, wanted: &Row) -> bool {
    match keeper.row(at) {
        Ok(row) => row.is_same(wanted),
        Err(_) => false,
    }
}

/// Returns whether these are the keeper's rows.
fn reads_all<S: Alter>(keeper: &mut SqliteKeeper<S>, rows: &[Row]) -> bool {
    for (at, row) in (0..rows.len() as u64).zip(rows) {
        if !reads(keeper, at, row) {
            return false;
        }
    }
    keeper.len() == Ok(rows.len() as u64)
}

fn appends<S: Alter>(keeper: &mut SqliteKeeper<S>, rows: &[Row]) -> bool {
    keeper.append_all(rows).is_ok()
}

/// Returns what became of three appends, and how many rows there are after each: of no row; of two rows, the second of
/// a kind that no store takes; and of only the first of them.
fn appended<S: Alter>(keeper: &mut SqliteKeeper<S>) -> [(bool, Option<u64>); 3] {
    let none = appends(keeper, &[]);
    let none_len = keeper.len().ok();
    let unknown = appends(keeper, [of_kind(1), of_kind(23)].as_slice());
    let unknown_len = keeper.len().ok();
    let one = appends(keeper, [of_kind(1)].as_slice());
    [
        (none, none_len),
        (unknown, unknown_len),
        (one, keeper.len().ok()),
    ]
}

fn is_done<S: Alter>(keeper: &mut SqliteKeeper<S>, task: Task<'_>) -> bool {
    match task {
        Task::Keep(rows) => appends(keeper, rows),
        Task::Find(rows) => reads_all(keeper, rows),
        Task::Refuse => appended(keeper) == [(true, Some(0)), (false, Some(0)), (true, Some(1))],
    }
}

/// Returns the connection, if the task is done in its database.
fn done_in<S: Alter + Drop>(
    alloc: Global,
    conn: Connection<S>,
    task: Task<'_>,
) -> Option<Connection<S>> {
    let mut keeper = adopt(alloc, conn)?;
    if !is_done(&mut keeper, task) {
        return None;
    }
    Some(keeper.release())
}

/// Returns the database, closed again, if the task is done in it.
pub(crate) fn visited<D: Disk + Drop>(alloc: Global, log: D, db: D, task: Task<'_>) -> Option<D>
    requires { IsTrue (D.Disk.is_usable log) × IsTrue (D.Disk.is_usable db) }
    ensures { IfSome result (λ db. IsTrue (D.Disk.is_usable db)) }
{
    let conn = open(alloc, log, db)?;
    close(done_in(alloc, conn, task)?)
}
