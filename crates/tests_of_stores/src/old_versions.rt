// SPDX-License-Identifier: Apache-2.0 OR MIT
//! Stores of the versions 1 and 2, whose rows have no numbers of commands, and in version 1 no moments.
ghost use Rattle.std.specs.Prelude.{IsTrue, IfSome};

use crate::rows::of_each_kind;
use crate::steps::{Task, close, open, visited};
use cr_base::{OldVersion, Row, migrate_row};
use sqlite::{Alter, Connection, Error, params};
use sqlite_disk::{Disk, Memory};
use std::alloc::{AllocError, Global};
use std::test::Fail;

/// The text that made a table of rows, whose name is of two parts; `$at` is the column that version 1 hadn't.
macro_rules! table_of_rows {
    ($table:literal, $end:literal, $at:literal) => {
        concat!(
            "CREATE TABLE ",
            $table,
            $end,
            " (place INTEGER PRIMARY KEY, kind INTEGER NOT NULL, maker INTEGER NOT NULL, more INTEGER NOT NULL,",
            $at,
            " n1 INTEGER NOT NULL, n2 INTEGER NOT NULL, n3 INTEGER NOT NULL, n4 INTEGER NOT NULL,",
            " n5 INTEGER NOT NULL, b1 BLOB NOT NULL, b2 BLOB NOT NULL) STRICT"
        )
    };
}

/// The texts that made a store which says this version.
macro_rules! store {
    ($version:literal, $end:literal, $at:literal) => {
        [
            "CREATE TABLE meta (version INTEGER NOT NULL) STRICT",
            table_of_rows!("papers", $end, $at),
            table_of_rows!("people", $end, $at),
            table_of_rows!("talk", $end, $at),
            table_of_rows!("ties", $end, $at),
            concat!("INSERT INTO meta VALUES (", $version, ")"),
        ]
    };
}

fn texts_of(from: OldVersion) -> [&'static str; 6] {
    match from {
        OldVersion::First => store!("1", "", ""),
        OldVersion::Second => store!("2", "_v2", " at INTEGER NOT NULL,"),
    }
}

/// The text that adds a row to a table of this version.
macro_rules! insert_into {
    ($table:literal, $from:expr) => {
        match $from {
            OldVersion::First => concat!(
                "INSERT INTO ",
                $table,
                " VALUES (?1, ?2, ?3, ?4, ?5, ?6, ?7, ?8, ?9, ?10, ?11)"
            ),
            OldVersion::Second => concat!(
                "INSERT INTO ",
                $table,
                "_v2 VALUES (?1, ?2, ?3, ?4, ?5, ?6, ?7, ?8, ?9, ?10, ?11, ?12)"
            ),
        }
    };
}

/// Returns the text that adds a row of this kind.
fn insert_of(from: OldVersion, kind: u64) -> &'static str {
    match kind {
        1..=4 | 18 => insert_into!("people", from),
        5..=9 => insert_into!("papers", from),
        10..=13 => insert_into!("ties", from),
        _ => insert_into!("talk", from),
    }
}

fn run<S: Alter>(conn: &mut Connection<S>, text: &str) -> bool {
    conn.execute(text, &[]).is_ok()
}

/// Returns the numbers of a row's columns, after its place.
fn numbers_of(row: &Row) -> Option<[i64; 9]> {
    let unsigned = [
        row.kind, row.maker, row.more, row.at, row.n1, row.n2, row.n3, row.n4, row.n5,
    ];
    let mut numbers = [0; 9];
    for (number, from) in numbers.iter_mut().zip(unsigned) {
        *number = i64::try_from(from).ok()?;
    }
    Some(numbers)
}

fn put<S: Alter>(conn: &mut Connection<S>, from: OldVersion, place: i64, row: &Row) -> bool {
    let Some(numbers) = numbers_of(row) else {
        return false;
    };
    insert(conn, from, place, numbers, row).is_ok()
}

fn insert<S: Alter>(
    conn: &mut Connection<S>,
    from: OldVersion,
    place: i64,
    numbers: [i64; 9],
    row: &Row,
) -> Result<usize, Error> {
    let [kind, maker, more, at, n1, n2, n3, n4, n5] = numbers;
    let b1 = row.b1.as_slice();
    let b2 = row.b2.as_slice();
    let text = insert_of(from, row.kind);
    match from {
        OldVersion::First => conn.execute(
            text,
            params![place, kind, maker, more, n1, n2, n3, n4, n5, b1, b2],
        ),
        OldVersion::Second => conn.execute(
            text,
            params![place, kind, maker, more, at, n1, n2, n3, n4, n5, b1, b2],
        ),
    }
}

/// Returns whether a store of this version was made, with what it keeps of these rows.
fn is_made<S: Alter>(conn: &mut Connection<S>, from: OldVersion, rows: &[Row]) -> bool {
    for text in texts_of(from) {
        if !run(conn, text) {
            return false;
        }
    }
    for (place, row) in (0..i64::MAX).zip(rows) {
        if !put(conn, from, place, row) {
            return false;
        }
    }
    true
}

/// Returns a database with a store of this version, with what it keeps of these rows.
fn made<D: Disk + Drop>(alloc: Global, log: D, db: D, from: OldVersion, rows: &[Row]) -> Option<D>
    requires { IsTrue (D.Disk.is_usable log) × IsTrue (D.Disk.is_usable db) }
    ensures { IfSome result (λ db. IsTrue (D.Disk.is_usable db)) }
{
    let mut conn = open(alloc, log, db)?;
    if !is_made(&mut conn, from, rows) {
        return None;
    }
    close(conn)
}

fn number<S: Alter>(conn: &mut Connection<S>, sql: &str) -> Result<i64, Error> {
    conn.query_row(sql, &[])?.get(0)
}

/// Returns the version that a store tells, and how many tables it has.
fn told_in<S: Alter>(conn: &mut Connection<S>) -> Result<(i64, i64), Error> {
    let version = number(conn, "SELECT version FROM meta")?;
    Ok((version, number(conn, "SELECT count(*) FROM sqlite_schema")?))
}

fn told<D: Disk + Drop>(alloc: Global, log: D, db: D) -> Option<(i64, i64)>
    requires { IsTrue (D.Disk.is_usable log) × IsTrue (D.Disk.is_usable db) }
{
    let mut conn = open(alloc, log, db)?;
    told_in(&mut conn).ok()
}

/// Returns what a store with the rows tells of itself, once it was opened as a store of an older version and then
/// again, where these rows were found both times.
fn found_twice(alloc: Global, from: OldVersion, rows: &[Row], found: &[Row]) -> Option<(i64, i64)> {
    let db = made(alloc, Memory::new(alloc), Memory::new(alloc), from, rows)?;
    let db = visited(alloc, Memory::new(alloc), db, Task::Find(found))?;
    let db = visited(alloc, Memory::new(alloc), db, Task::Find(found))?;
    told(alloc, Memory::new(alloc), db)
}

/// Returns the rows as a store of version 3 has them.
fn migrated(alloc: Global, from: OldVersion, rows: &[Row]) -> Result<Vec<Row>, AllocError> {
    let mut found = Vec::new(alloc);
    for row in rows {
        found.push(migrate_row(from, row.copy()?))?;
    }
    Ok(found)
}

/// Returns what a store tells of itself that had a row of each kind before `end`, once it was opened as a store of an
/// older version and then again, if the rows were found both times as version 3 has them.
fn told_later(alloc: Global, from: OldVersion, end: u64) -> Result<Option<(i64, i64)>, AllocError> {
    let rows = of_each_kind(alloc, end)?;
    let found = migrated(alloc, from, rows.as_slice())?;
    Ok(found_twice(alloc, from, rows.as_slice(), found.as_slice()))
}

#[test]
fn rows_of_version_1_get_the_first_moment(rt: HostRuntime) -> Result<(), Fail> {
    let told = told_later(rt.alloc(), OldVersion::First, 18)?;
    assert_eq!(rt; told, Some((3, 5)));
    Ok(())
}

#[test]
fn rows_of_version_2_keep_their_moments(rt: HostRuntime) -> Result<(), Fail> {
    let told = told_later(rt.alloc(), OldVersion::Second, 19)?;
    assert_eq!(rt; told, Some((3, 5)));
    Ok(())
}
