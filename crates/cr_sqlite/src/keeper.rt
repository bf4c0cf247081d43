// SPDX-License-Identifier: Apache-2.0 OR MIT
//! A keeper over a connection.
ghost use Rattle.std.specs.Prelude.{◌≡◌, ℕ, [], None, false, IfOk, IfErr};
ghost use Rattle.cr_ports.specs.Keeping.{HasCause};
ghost use Rattle.cr_ports.specs.Stopping.{untold};
ghost use Rattle.cr_sqlite.specs.Telling.{without_reason};

use crate::cursors::Cursors;
use crate::reason::{Reason, StoreError};
use crate::record::insert;
use crate::schema::bring_up_to_date;
use crate::table::Table;
use cr_base::Row;
use cr_notices::Notices;
use cr_ports::{Keeper, KeeperError};
use sqlite::{Alter, Connection, Error, ErrorCode, Transaction};
use std::alloc::Global;
use std::marker::Model;

/// The rows of a store, over a connection that nothing else uses. It doesn't tell them.
///
/// # Model
///
/// The fault counter.
pub struct SqliteKeeper<S: Alter> {
    conn: Connection<S>,
    cursors: Cursors,
    /// How many rows are kept.
    len: u64,
    /// The row at which the cursors are, if they are at one.
    next: Option<u64>,
    faults: u64,
    reason: Option<Reason>,
    notices: Notices,
}

// Written out, so that a caller doesn't prove again how each part is dropped.
impl<S: Alter + Drop> Drop for SqliteKeeper<S> {
    fn drop(self) {
        let SqliteKeeper {
            conn: _,
            cursors: _,
            len: _,
            next: _,
            faults: _,
            reason: _,
            notices: _,
        } = self;
    }
}

impl<S: Alter> Model for SqliteKeeper<S> {
    ghost use Rattle.std.specs.Prelude.{ℕ};

    ghost Value = { ℕ };

    ghost view = { λ k. k.faults };
}

/// Makes the store's tables if the database has none, or those of an older version, and else looks at them. Returns
/// the cursors, and how many rows there are.
fn prepare<S: Alter>(
    alloc: Global,
    conn: &mut Connection<S>,
) -> Result<(Cursors, u64), StoreError> {
    bring_up_to_date(conn)?;
    let len = count_all(conn)?;
    let cursors = Cursors::new(alloc, conn)?;
    Ok((cursors, len))
}

/// Counts the rows of all tables.
fn count_all<S: Alter>(conn: &mut Connection<S>) -> Result<u64, Error> {
    let mut len = 0u64;
    for table in [Table::People, Table::Papers, Table::Ties, Table::Talk] {
        len = len.saturating_add(count_of(conn, table)?);
    }
    Ok(len)
}

/// Counts the rows of a table.
fn count_of<S: Alter>(conn: &mut Connection<S>, table: Table) -> Result<u64, Error> {
    conn.query_row(table.count(), &[])?.get(0)
}

/// Returns whether no statement runs over the connection any more: a sync or an append's last write failed, after
/// which what the system shows of the file may not be on the disk.
fn is_over<S: Alter>(conn: &mut Connection<S>) -> bool {
    match conn.prepare(Table::People.count()) {
        Err(Error::SqliteFailure(ErrorCode::Closed)) => true,
        Ok(_) | Err(_) => false,
    }
}

/// Adds all rows from a place on, in one transaction, or none of them.
fn insert_all<S: Alter>(
    conn: &mut Connection<S>,
    cursors: &Cursors,
    first: u64,
    added: &[Row],
) -> Result<(), StoreError>
    requires { conn.old.in_transaction ≡ false }
{
    let mut transaction = conn.transaction();
    insert_each(&mut transaction, cursors, first, added)?;
    transaction.commit()?;
    Ok(())
}

/// Adds all rows from a place on.
fn insert_each<S: Alter>(
    transaction: &mut Transaction<'_, S>,
    cursors: &Cursors,
    first: u64,
    added: &[Row],
) -> Result<(), StoreError> {
    let mut place = first;
    for row in added {
        insert_one(transaction, cursors, place, row)?;
        place = place.saturating_add(1);
    }
    Ok(())
}

/// Adds one row at a place.
fn insert_one<S: Alter>(
    transaction: &mut Transaction<'_, S>,
    cursors: &Cursors,
    place: u64,
    row: &Row,
) -> Result<(), StoreError> {
    match cursors.insert_for(row.kind) {
        Some(statement) => insert(transaction, statement, place, row),
        None => Err(StoreError::Failed(Reason::UnknownRow(place))),
    }
}

impl<S: Alter> SqliteKeeper<S> {
    /// Takes the rows that the connection's database has as a store, with no fault counted.
    ///
    /// A database without tables becomes a store without rows, in one transaction. A store of version 1 or 2 becomes
    /// one of version 3, in one transaction as well, which moves each row as `migrate_row` says. Any other database
    /// is left unchanged. If each of the first that many places then has one row, there is no other. Nothing is
    /// written to standard error.
    ///
    /// # Errors
    ///
    /// - `Failed`: `faults` rose. The database isn't a store of one of these versions, or a statement failed.
    /// - `OutOfMemory`: memory ran out. `faults` is unchanged.
    ///
    /// # Cost
    ///
    /// Counts the rows; what they are is looked at as they are read.
    pub fn adopt(
        alloc: Global,
        mut conn: Connection<S>,
        faults: &mut u64,
    ) -> Result<Self, (StoreError, Connection<S>)>
        ensures kept { IfOk result (λ keeper. (keeper ≡ 0) × (faults.new ≡ faults.old)) }
        ensures cause { IfErr result (λ e. HasCause {T = ℕ} faults.old faults.new (Err (without_reason e.0))) }
    {
        match prepare(alloc, &mut conn) {
            Ok((cursors, len)) => Ok(SqliteKeeper {
                conn,
                cursors,
                len,
                next: None,
                faults: 0,
                reason: None,
                notices: Notices::none(),
            }),
            Err(StoreError::Failed(reason)) => {
                *faults = faults.saturating_add(1);
                Err((StoreError::Failed(reason), conn))
            }
            Err(StoreError::OutOfMemory) => Err((StoreError::OutOfMemory, conn)),
        }
    }

    /// Returns the connection, whose database has the rows.
    pub fn release(self) -> Connection<S> {
        let SqliteKeeper {
            conn,
            cursors: _,
            len: _,
            next: _,
            faults: _,
            reason: _,
            notices: _,
        } = self;
        conn
    }

    /// Returns the connection, how many calls have failed, and what the last fault was.
    pub(crate) fn into_parts(self) -> (Connection<S>, u64, Option<Reason>)
        ensures { result.1 ≡ self }
    {
        let SqliteKeeper {
            conn,
            cursors: _,
            len: _,
            next: _,
            faults,
            reason,
            notices: _,
        } = self;
        (conn, faults, reason)
    }

    /// Returns how many calls have failed, up to 2^64 - 1.
    pub fn faults(&self) -> u64
        ensures { result ≡ self.now }
    {
        self.faults
    }

    /// Returns what the last fault was; `None` if no call has failed.
    pub fn reason(&self) -> Option<Reason> {
        self.reason
    }

    /// Counts a fault and keeps its reason. Lack of memory is no fault.
    fn refused(&mut self, refusal: StoreError) -> KeeperError
        ensures { HasCause {T = ℕ} self.old self.new (Err result) }
    {
        match refusal {
            StoreError::Failed(reason) => {
                self.faults = self.faults.saturating_add(1);
                self.reason = Some(reason);
                KeeperError::Failed
            }
            StoreError::OutOfMemory => KeeperError::OutOfMemory,
        }
    }

    /// Writes a notice of an append that was refused. Of lack of memory it says nothing: others do.
    fn note(&mut self, refusal: StoreError)
        ensures { self.new ≡ self.old }
    {
        if let StoreError::Failed(reason) = refusal {
            let is_over = is_over(&mut self.conn);
            self.notices.refused(&reason, is_over);
        }
    }

    /// Keeps all rows, or none of them.
    fn keep(&mut self, added: &[Row]) -> Result<(), StoreError>
        ensures { self.new ≡ self.old }
    {
        if !self.conn.is_autocommit() {
            return Err(StoreError::Failed(Reason::InTransaction));
        }
        insert_all(&mut self.conn, &self.cursors, self.len, added)?;
        self.len = self.len.saturating_add(added.len() as u64);
        self.next = None;
        Ok(())
    }

    /// Takes the row at this place, from the pages at hand if it is the next one.
    fn take(&mut self, at: u64) -> Result<Row, StoreError>
        ensures { self.new ≡ self.old }
    {
        if self.next != Some(at) {
            self.seek(at);
        }
        self.next = None;
        let row = self.cursors.take(&mut self.conn, at)?;
        self.next = at.checked_add(1);
        Ok(row)
    }

    /// Lets the pages at hand go, and reads on from this place.
    fn seek(&mut self, at: u64)
        ensures { self.new ≡ self.old }
    {
        self.cursors.seek(i64::try_from(at).unwrap_or(i64::MAX));
    }
}

impl<S: Alter + Drop> SqliteKeeper<S> {
    /// Takes the rows as `adopt` does, and lets a connection that isn't taken go. Standard error is told when appends
    /// begin to be refused, and when they are taken again.
    pub(crate) fn adopt_or_drop(
        rt: &HostRuntime,
        conn: Connection<S>,
        faults: &mut u64,
    ) -> Result<Self, StoreError>
        ensures kept { IfOk result (λ keeper. (keeper ≡ 0) × (faults.new ≡ faults.old)) }
        ensures cause { IfErr result (λ e. HasCause {T = ℕ} faults.old faults.new (Err (without_reason e))) }
    {
        match SqliteKeeper::adopt(rt.alloc(), conn, faults) {
            Ok(mut keeper) => {
                keeper.notices = Notices::on_standard_error(rt);
                Ok(keeper)
            }
            Err((error, _)) => Err(error),
        }
    }
}

impl<S: Alter> Keeper for SqliteKeeper<S> {
    ghost rows = { λ _. None };

    ghost faults = { λ k. k };

    ghost kind = { λ _. [] };

    ghost tells_stops = { λ _. false };

    ghost tells_alike = { λ keeper other same i. false };

    ghost rows_alike = { λ keeper other same i. false };

    ghost rows_told = { λ keeper told. untold told };

    ghost tried = { λ _. [] };

    ghost moment = { λ _. 0 };

    ghost left_since = { λ _ _ _. ⊥ };

    ghost opens = { λ _ _. ⊥ };

    /// Appends in one transaction, whose commit waits until the disk has it. After a sync or the last write failed,
    /// each later call fails as well, and the rows that were refused may be found when the file is opened again.
    fn append_all(&mut self, added: &[Row]) -> Result<(), KeeperError> {
        match self.keep(added) {
            Ok(()) => {
                self.notices.taken();
                Ok(())
            }
            Err(refusal) => {
                self.note(refusal);
                Err(self.refused(refusal))
            }
        }
    }

    fn len(&mut self) -> Result<u64, KeeperError> {
        Ok(self.len)
    }

    /// Reads a row. Rows that are read in their order are read by pages; any other row begins a page.
    fn row(&mut self, at: u64) -> Result<Row, KeeperError> {
        match self.take(at) {
            Ok(row) => Ok(row),
            Err(refusal) => Err(self.refused(refusal)),
        }
    }
}
