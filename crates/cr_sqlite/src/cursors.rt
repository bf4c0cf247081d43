// SPDX-License-Identifier: Apache-2.0 OR MIT
//! The four tables read side by side, merged by place.
use crate::reason::{Reason, StoreError};
use crate::record::{place_of, read};
use crate::table::Table;
use cr_base::Row;
use sqlite::{Alter, Connection, Error, Statement, params};
use std::alloc::Global;

/// One table: its statements, made once, and the page of it that is being read.
pub(crate) struct Cursor {
    table: Table,
    insert: Statement,
    page: Statement,
    rows: Vec<sqlite::Row>,
    /// How many rows of the page were taken.
    taken: usize,
    /// The first place after the page; none if the page is the table's last.
    behind: Option<i64>,
}

// Written out, so that a caller doesn't prove again how each part is dropped.
impl Drop for Cursor {
    fn drop(self) {
        let Cursor {
            table: _,
            insert: _,
            page: _,
            rows: _,
            taken: _,
            behind: _,
        } = self;
    }
}

/// The four tables.
pub(crate) struct Cursors {
    alloc: Global,
    people: Cursor,
    papers: Cursor,
    ties: Cursor,
    talk: Cursor,
}

// Written out, so that a caller doesn't prove again how each part is dropped.
impl Drop for Cursors {
    fn drop(self) {
        let Cursors {
            alloc: _,
            people: _,
            papers: _,
            ties: _,
            talk: _,
        } = self;
    }
}

/// Makes a statement.
fn prepare<S: Alter>(conn: &mut Connection<S>, sql: &str) -> Result<Statement, Error> {
    conn.prepare(sql)
}

/// Reads the rows of the page that begins at this place.
fn page_from<S: Alter>(
    page: &Statement,
    conn: &mut Connection<S>,
    place: i64,
) -> Result<Vec<sqlite::Row>, Error> {
    page.query_all(conn, params![place])
}

/// Returns the first place after these rows; `None` if there are no rows.
pub(crate) fn behind(rows: &[sqlite::Row]) -> Result<Option<i64>, Error> {
    match rows.last() {
        Some(last) => Ok(place_of(last)?.checked_add(1)),
        None => Ok(None),
    }
}

impl Cursor {
    /// Makes the statements of a table, and reads no row yet.
    fn new<S: Alter>(
        alloc: Global,
        conn: &mut Connection<S>,
        table: Table,
    ) -> Result<Cursor, Error> {
        Ok(Cursor {
            table,
            insert: prepare(conn, table.insert())?,
            page: prepare(conn, table.page())?,
            rows: Vec::new(alloc),
            taken: 0,
            behind: None,
        })
    }

    /// Lets the page go, and reads on from this place.
    fn seek(&mut self, alloc: Global, place: i64) {
        self.rows = Vec::new(alloc);
        self.taken = 0;
        self.behind = Some(place);
    }

    /// Reads the next page if all rows of this one were taken.
    fn fill<S: Alter>(&mut self, alloc: Global, conn: &mut Connection<S>) -> Result<(), Error> {
        if self.taken < self.rows.len() {
            return Ok(());
        }
        match self.behind {
            Some(place) => self.turn(alloc, conn, place),
            None => Ok(()),
        }
    }

    /// Lets the page go, and then reads the one that begins at this place.
    fn turn<S: Alter>(
        &mut self,
        alloc: Global,
        conn: &mut Connection<S>,
        place: i64,
    ) -> Result<(), Error> {
        self.seek(alloc, place);
        self.rows = page_from(&self.page, conn, place)?;
        self.behind = behind(self.rows.as_slice())?;
        Ok(())
    }

    /// Returns whether the next row is at this place.
    fn stands_at<S: Alter>(
        &mut self,
        alloc: Global,
        conn: &mut Connection<S>,
        place: i64,
    ) -> Result<bool, Error> {
        self.fill(alloc, conn)?;
        match self.rows.get(self.taken) {
            Some(next) => Ok(place_of(next)? == place),
            None => Ok(false),
        }
    }

    /// Returns the table if its next row is at this place.
    fn table_at<S: Alter>(
        &mut self,
        alloc: Global,
        conn: &mut Connection<S>,
        place: i64,
    ) -> Result<Option<Table>, Error> {
        if self.stands_at(alloc, conn, place)? {
            return Ok(Some(self.table));
        }
        Ok(None)
    }

    /// Takes the next row, which is at this place.
    fn take(&mut self, alloc: Global, place: u64) -> Result<Row, StoreError> {
        let Some(next) = self.rows.get(self.taken) else {
            return Err(StoreError::Failed(Reason::MissingPlace(place)));
        };
        let row = read(alloc, self.table, place, next)?;
        self.taken = self.taken.saturating_add(1);
        Ok(row)
    }
}

impl Cursors {
    /// Makes the statements of all tables.
    pub fn new<S: Alter>(alloc: Global, conn: &mut Connection<S>) -> Result<Cursors, Error> {
        Ok(Cursors {
            alloc,
            people: Cursor::new(alloc, conn, Table::People)?,
            papers: Cursor::new(alloc, conn, Table::Papers)?,
            ties: Cursor::new(alloc, conn, Table::Ties)?,
            talk: Cursor::new(alloc, conn, Table::Talk)?,
        })
    }

    /// Returns the statement that adds a row to the table of a kind; `None` if the kind has no table.
    pub fn insert_for(&self, kind: u64) -> Option<&Statement> {
        match Table::of_kind(kind)? {
            Table::People => Some(&self.people.insert),
            Table::Papers => Some(&self.papers.insert),
            Table::Ties => Some(&self.ties.insert),
            Table::Talk => Some(&self.talk.insert),
        }
    }

    /// Lets all pages go, and reads on from this place.
    pub fn seek(&mut self, place: i64) {
        self.people.seek(self.alloc, place);
        self.papers.seek(self.alloc, place);
        self.ties.seek(self.alloc, place);
        self.talk.seek(self.alloc, place);
    }

    /// Takes the one row at this place, which is the next one.
    pub fn take<S: Alter>(
        &mut self,
        conn: &mut Connection<S>,
        place: u64,
    ) -> Result<Row, StoreError> {
        let Ok(at) = i64::try_from(place) else {
            return Err(StoreError::Failed(Reason::MissingPlace(place)));
        };
        let found = self.tables_at(conn, at)?;
        match the_one(place, found)? {
            Table::People => self.people.take(self.alloc, place),
            Table::Papers => self.papers.take(self.alloc, place),
            Table::Ties => self.ties.take(self.alloc, place),
            Table::Talk => self.talk.take(self.alloc, place),
        }
    }

    /// Returns each table whose next row is at this place.
    fn tables_at<S: Alter>(
        &mut self,
        conn: &mut Connection<S>,
        place: i64,
    ) -> Result<[Option<Table>; 4], Error> {
        let people = self.people.table_at(self.alloc, conn, place)?;
        let papers = self.papers.table_at(self.alloc, conn, place)?;
        let ties = self.ties.table_at(self.alloc, conn, place)?;
        let talk = self.talk.table_at(self.alloc, conn, place)?;
        Ok([people, papers, ties, talk])
    }
}

/// Returns the one table that was found with a row at this place.
///
/// # Errors
///
/// `MissingPlace` if there is none, `TakenPlace` if there are several.
fn the_one(place: u64, found: [Option<Table>; 4]) -> Result<Table, StoreError> {
    let mut tables = found.into_iter().flatten();
    let Some(one) = tables.next() else {
        return Err(StoreError::Failed(Reason::MissingPlace(place)));
    };
    if tables.next().is_some() {
        return Err(StoreError::Failed(Reason::TakenPlace(place)));
    }
    Ok(one)
}
