// SPDX-License-Identifier: Apache-2.0 OR MIT
//! From an older version to this one: what a row of it didn't keep is 0, or empty.
ghost use Rattle.std.specs.Prelude.{◌≡◌, false};
ghost use Rattle.sqlite.specs.Held.{state};
ghost use Rattle.cr_sqlite.specs.Migration.{CommitsNothing, CommitsOnce};

use crate::cursors::behind;
use crate::reason::{Reason, StoreError};
use crate::schema::{PAPERS, PEOPLE, TALK, TIES, VERSION};
use crate::table::naming;
use cr_base::OldVersion;
use sqlite::types::ValueRef;
use sqlite::{Alter, Connection, Error, Row, Transaction, params};

/// The text that moves so many rows of an older table, from a place on, and gives their places; `$since` are the
/// values of the columns that version 1 hasn't.
macro_rules! move_page {
    ($table:literal, $end:literal, $since:literal, $most:literal) => {
        naming!(
            "INSERT INTO ",
            $table,
            " SELECT place, kind, maker, more, ",
            $since,
            ", n1, n2, n3, n4, n5, b1, b2 FROM ",
            $table,
            $end,
            " WHERE place >= ?1 ORDER BY place LIMIT ",
            $most,
            " RETURNING place"
        )
    };
}

/// The texts that move a table's rows.
#[derive(Clone, Copy)]
struct Move {
    /// Makes the table of this version.
    make: &'static str,
    /// Moves a page of rows.
    page: &'static str,
    /// Drops the older table.
    drop: &'static str,
}

/// How the rows of an older version are moved: a table at a time, so that the pages of one that was dropped serve the
/// next; as many rows at once as are read at once.
macro_rules! moves {
    ($end:literal, $since:literal) => {
        [
            Move {
                make: PEOPLE,
                page: move_page!("people", $end, $since, "1000"),
                drop: concat!("DROP TABLE people", $end),
            },
            Move {
                make: PAPERS,
                page: move_page!("papers", $end, $since, "16"),
                drop: concat!("DROP TABLE papers", $end),
            },
            Move {
                make: TIES,
                page: move_page!("ties", $end, $since, "1000"),
                drop: concat!("DROP TABLE ties", $end),
            },
            Move {
                make: TALK,
                page: move_page!("talk", $end, $since, "1000"),
                drop: concat!("DROP TABLE talk", $end),
            },
        ]
    };
}

/// Version 1 kept neither a moment nor a command's number.
const FROM_FIRST: [Move; 4] = moves!("", "0, 0, x''");

/// Version 2 kept moments.
const FROM_SECOND: [Move; 4] = moves!("_v2", "at, 0, x''");

/// Returns the texts that move the tables of an older version.
fn moves_from(from: OldVersion) -> [Move; 4] {
    match from {
        OldVersion::First => FROM_FIRST,
        OldVersion::Second => FROM_SECOND,
    }
}

/// Turns a store of an older version into one of this version, in one transaction, which moves each row as
/// `migrate_row` says.
pub(crate) fn migrate<S: Alter>(
    conn: &mut Connection<S>,
    from: OldVersion,
) -> Result<(), StoreError> {
    if !conn.is_autocommit() {
        return Err(StoreError::Failed(Reason::InTransaction));
    }
    move_all(conn, &moves_from(from))?;
    Ok(())
}

/// Moves the rows of all tables, in one transaction.
fn move_all<S: Alter>(conn: &mut Connection<S>, moves: &[Move]) -> Result<(), Error>
    requires { conn.old.in_transaction ≡ false }
    ensures one { CommitsOnce (state S.Store conn.old) (state S.Store conn.new) }
{
    let mut transaction = conn.transaction();
    move_tables(&mut transaction, moves)?;
    transaction.commit()
}

/// Moves the rows of these tables, and tells the version.
fn move_tables<S: Alter>(transaction: &mut Transaction<'_, S>, moves: &[Move]) -> Result<(), Error>
    ensures same { transaction.new.conn.ghost_name ≡ transaction.old.conn.ghost_name }
    ensures inside { CommitsNothing (state S.Store transaction.old.conn.now) (state S.Store transaction.new.conn.now) }
{
    'tables: for table in moves {
        move_table(transaction, *table)?;
    }
    run(
        transaction,
        "UPDATE meta SET version = ?1",
        params![VERSION],
    )
}

/// Moves the rows of one table: makes the new one, fills it, and drops the older one.
fn move_table<S: Alter>(transaction: &mut Transaction<'_, S>, table: Move) -> Result<(), Error>
    ensures same { transaction.new.conn.ghost_name ≡ transaction.old.conn.ghost_name }
    ensures inside { CommitsNothing (state S.Store transaction.old.conn.now) (state S.Store transaction.new.conn.now) }
{
    run(transaction, table.make, &[])?;
    move_rows(transaction, table.page)?;
    run(transaction, table.drop, &[])
}

/// Runs one statement, and drops its count of rows.
pub(crate) fn run<S: Alter>(
    transaction: &mut Transaction<'_, S>,
    sql: &str,
    params: &[ValueRef<'_>],
) -> Result<(), Error>
    ensures same { transaction.new.conn.ghost_name ≡ transaction.old.conn.ghost_name }
    ensures inside { CommitsNothing (state S.Store transaction.old.conn.now) (state S.Store transaction.new.conn.now) }
{
    match transaction.execute(sql, params) {
        Ok(_) => Ok(()),
        Err(error) => Err(error),
    }
}

/// Moves all rows, page by page.
fn move_rows<S: Alter>(transaction: &mut Transaction<'_, S>, page: &str) -> Result<(), Error>
    ensures same { transaction.new.conn.ghost_name ≡ transaction.old.conn.ghost_name }
    ensures inside { CommitsNothing (state S.Store transaction.old.conn.now) (state S.Store transaction.new.conn.now) }
{
    let mut place = i64::MIN;
    // A page that moves a row ends behind its places, and there are fewer places than turns.
    'pages: for _ in 0..u64::MAX {
        match move_from(transaction, page, place)? {
            Some(behind) => place = behind,
            None => return Ok(()),
        }
    }
    Ok(())
}

/// Moves the page that begins at this place. Returns the first place after it; `None` if no row is left.
fn move_from<S: Alter>(
    transaction: &mut Transaction<'_, S>,
    page: &str,
    place: i64,
) -> Result<Option<i64>, Error>
    ensures same { transaction.new.conn.ghost_name ≡ transaction.old.conn.ghost_name }
    ensures inside { CommitsNothing (state S.Store transaction.old.conn.now) (state S.Store transaction.new.conn.now) }
{
    let places = moved(transaction, page, place)?;
    behind(places.as_slice())
}

/// Moves the rows of a page, and returns their places.
fn moved<S: Alter>(
    transaction: &mut Transaction<'_, S>,
    page: &str,
    place: i64,
) -> Result<Vec<Row>, Error>
    ensures same { transaction.new.conn.ghost_name ≡ transaction.old.conn.ghost_name }
    ensures inside { CommitsNothing (state S.Store transaction.old.conn.now) (state S.Store transaction.new.conn.now) }
{
    transaction.query_all(page, params![place])
}
