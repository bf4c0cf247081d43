// SPDX-License-Identifier: Apache-2.0 OR MIT
//! The tables of a store: made where a file has none, brought to this version where they are of an older one, else
//! looked at.
ghost use Rattle.std.specs.Prelude.{◌≡◌, false};

use crate::migrate::{migrate, run};
use crate::reason::{Reason, StoreError};
use cr_base::OldVersion;
use sqlite::{Alter, Connection, Error, Row, Transaction, params};

/// The text that makes a table of rows, whose name is of two parts; `$since` are the columns that version 1 hasn't.
macro_rules! table_of_rows {
    ($table:literal, $end:literal, $since:literal) => {
        concat!(
            "CREATE TABLE ",
            $table,
            $end,
            " (place INTEGER PRIMARY KEY, kind INTEGER NOT NULL, maker INTEGER NOT NULL, more INTEGER NOT NULL,",
            $since,
            " n1 INTEGER NOT NULL, n2 INTEGER NOT NULL, n3 INTEGER NOT NULL, n4 INTEGER NOT NULL,",
            " n5 INTEGER NOT NULL, b1 BLOB NOT NULL, b2 BLOB NOT NULL) STRICT"
        )
    };
}

/// The text that makes a table of rows of this version.
macro_rules! table_of_today {
    ($table:literal) => {
        table_of_rows!(
            $table,
            "_v3",
            " at INTEGER NOT NULL, num INTEGER NOT NULL, mark BLOB NOT NULL,"
        )
    };
}

/// The texts that make the tables of an older version.
macro_rules! older_tables {
    ($end:literal, $since:literal) => {
        [
            META,
            table_of_rows!("papers", $end, $since),
            table_of_rows!("people", $end, $since),
            table_of_rows!("talk", $end, $since),
            table_of_rows!("ties", $end, $since),
        ]
    };
}

/// What makes the table of `Table::People`.
pub(crate) const PEOPLE: &str = table_of_today!("people");

/// What makes that of `Table::Papers`.
pub(crate) const PAPERS: &str = table_of_today!("papers");

/// What makes that of `Table::Ties`.
pub(crate) const TIES: &str = table_of_today!("ties");

/// What makes that of `Table::Talk`.
pub(crate) const TALK: &str = table_of_today!("talk");

const META: &str = "CREATE TABLE meta (version INTEGER NOT NULL) STRICT";

/// The texts that make the tables, by the tables' names in ascending order. A file keeps them as
/// they were written.
const TABLES: [&str; 5] = [META, PAPERS, PEOPLE, TALK, TIES];

/// The texts that make the tables of version 1, whose rows have no moment.
const FIRST_TABLES: [&str; 5] = older_tables!("", "");

/// The texts that make the tables of version 2, whose rows have no command's number.
const SECOND_TABLES: [&str; 5] = older_tables!("_v2", " at INTEGER NOT NULL,");

/// What a store says of its tables: the version of those that are made.
pub(crate) const VERSION: i64 = 3;

/// Returns the version that an older store says.
fn said_by(from: OldVersion) -> i64 {
    match from {
        OldVersion::First => 1,
        OldVersion::Second => 2,
    }
}

/// Makes the tables, in one transaction, if there are none; or makes those of this version out of those of an older
/// one, in one transaction as well; or tests that they are those of a store of this version. A database that isn't
/// taken is unchanged.
pub(crate) fn bring_up_to_date<S: Alter>(conn: &mut Connection<S>) -> Result<(), StoreError> {
    match tables_in(conn)? {
        Found::Nothing => make(conn),
        Found::Others => Err(StoreError::Failed(Reason::OtherTables)),
        Found::Store => check_version(conn, VERSION),
        Found::OldStore(from) => {
            check_version(conn, said_by(from))?;
            migrate(conn, from)
        }
    }
}

/// What tables a database has.
enum Found {
    /// None.
    Nothing,
    /// Those of a store.
    Store,
    /// Those of a store of an older version.
    OldStore(OldVersion),
    /// Any others.
    Others,
}

/// Looks what tables a database has.
fn tables_in<S: Alter>(conn: &mut Connection<S>) -> Result<Found, Error> {
    let rows = all(conn, "SELECT sql FROM sqlite_schema ORDER BY name")?;
    found_in(rows.as_slice())
}

/// Decides from the rows of the schema what tables there are.
fn found_in(rows: &[Row]) -> Result<Found, Error> {
    if rows.is_empty() {
        return Ok(Found::Nothing);
    }
    if are_texts(rows, &TABLES)? {
        return Ok(Found::Store);
    }
    if are_texts(rows, &FIRST_TABLES)? {
        return Ok(Found::OldStore(OldVersion::First));
    }
    if are_texts(rows, &SECOND_TABLES)? {
        return Ok(Found::OldStore(OldVersion::Second));
    }
    Ok(Found::Others)
}

/// Returns whether the rows are these texts.
fn are_texts(rows: &[Row], texts: &[&str]) -> Result<bool, Error> {
    if rows.len() != texts.len() {
        return Ok(false);
    }
    for (row, text) in rows.iter().zip(texts) {
        if !is_text(row, text)? {
            return Ok(false);
        }
    }
    Ok(true)
}

/// Returns whether the row is this text.
fn is_text(row: &Row, text: &str) -> Result<bool, Error> {
    let found: String = row.get(0)?;
    Ok(found.as_str() == text)
}

/// Tests that the store says this version, which is that of its tables.
fn check_version<S: Alter>(conn: &mut Connection<S>, version: i64) -> Result<(), StoreError> {
    if has_version(conn, version)? {
        return Ok(());
    }
    Err(StoreError::Failed(Reason::OtherVersion))
}

/// Returns whether the store says this version.
fn has_version<S: Alter>(conn: &mut Connection<S>, version: i64) -> Result<bool, Error> {
    let rows = all(conn, "SELECT version FROM meta LIMIT 2")?;
    is_version(rows.as_slice(), version)
}

/// Reads all rows of a query.
fn all<S: Alter>(conn: &mut Connection<S>, sql: &str) -> Result<Vec<Row>, Error> {
    conn.query_all(sql, &[])
}

/// Returns whether there is one row, and it says this version.
fn is_version(rows: &[Row], version: i64) -> Result<bool, Error> {
    let Some(first) = rows.first() else {
        return Ok(false);
    };
    let found: i64 = first.get(0)?;
    Ok(rows.len() == 1 && found == version)
}

/// Makes the tables, all or none of them.
fn make<S: Alter>(conn: &mut Connection<S>) -> Result<(), StoreError> {
    if !conn.is_autocommit() {
        return Err(StoreError::Failed(Reason::InTransaction));
    }
    make_all(conn)?;
    Ok(())
}

/// Makes the tables in one transaction.
fn make_all<S: Alter>(conn: &mut Connection<S>) -> Result<(), Error>
    requires { conn.old.in_transaction ≡ false }
{
    let mut transaction = conn.transaction();
    run_all(&mut transaction, &TABLES)?;
    transaction.commit()
}

/// Makes the tables of these texts, and writes their version.
fn run_all<S: Alter>(transaction: &mut Transaction<'_, S>, texts: &[&str]) -> Result<(), Error> {
    for text in texts {
        run(transaction, text, &[])?;
    }
    run(
        transaction,
        "INSERT INTO meta VALUES (?1)",
        params![VERSION],
    )
}
