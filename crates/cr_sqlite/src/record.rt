// SPDX-License-Identifier: Apache-2.0 OR MIT
//! A row of a keeper as a row of a table, and back.
use crate::reason::{Reason, StoreError};
use crate::table::Table;
use cr_base::{Blob, Row};
use sqlite::types::{Type, ValueRef};
use sqlite::{Alter, Error, Statement, Transaction, params};
use std::alloc::Global;

/// Adds a row at a place by the statement of its table, inside a transaction.
pub(crate) fn insert<S: Alter>(
    transaction: &mut Transaction<'_, S>,
    statement: &Statement,
    place: u64,
    row: &Row,
) -> Result<(), StoreError> {
    let Some(numbers) = numbers_of(place, row) else {
        return Err(StoreError::Failed(Reason::UnknownRow(place)));
    };
    put(transaction, statement, &numbers, row)?;
    Ok(())
}

/// Returns the numbers of a row's columns; `None` if one is past 2^63 - 1.
fn numbers_of(place: u64, row: &Row) -> Option<[i64; 11]> {
    let unsigned = [
        place, row.kind, row.maker, row.more, row.at, row.num, row.n1, row.n2, row.n3, row.n4,
        row.n5,
    ];
    let mut numbers = [0; 11];
    for (number, from) in numbers.iter_mut().zip(unsigned) {
        *number = i64::try_from(from).ok()?;
    }
    Some(numbers)
}

fn put<S: Alter>(
    transaction: &mut Transaction<'_, S>,
    statement: &Statement,
    numbers: &[i64; 11],
    row: &Row,
) -> Result<usize, Error> {
    let [place, kind, maker, more, at, num, n1, n2, n3, n4, n5] = *numbers;
    let mark = row.mark.as_slice();
    let b1 = row.b1.as_slice();
    let b2 = row.b2.as_slice();
    transaction.execute_prepared(
        statement,
        params![
            place, kind, maker, more, at, num, mark, n1, n2, n3, n4, n5, b1, b2
        ],
    )
}

/// Reads the place of a table's row.
pub(crate) fn place_of(row: &sqlite::Row) -> Result<i64, Error> {
    row.get(0)
}

/// Reads the row at this place from a row of its table.
pub(crate) fn read(
    alloc: Global,
    table: Table,
    place: u64,
    row: &sqlite::Row,
) -> Result<Row, StoreError> {
    match fields_of(alloc, row) {
        Ok(read) => of_table(table, place, read),
        Err(error) => Err(unread(place, error)),
    }
}

/// Turns an error in reading the fields of the row at this place into a refusal.
fn unread(place: u64, error: Error) -> StoreError {
    match StoreError::from(error) {
        StoreError::OutOfMemory => StoreError::OutOfMemory,
        StoreError::Failed(_) => StoreError::Failed(Reason::OtherValue(place)),
    }
}

/// Returns the row if it may be in the table.
fn of_table(table: Table, place: u64, row: Row) -> Result<Row, StoreError> {
    if is_of(table, row.kind) {
        return Ok(row);
    }
    Err(StoreError::Failed(Reason::OtherTable(place)))
}

/// Returns whether a row of this kind may be in the table: it is the table of the kind, or the kind has none. Rows of
/// no kind are refused by the code that reads them.
fn is_of(table: Table, kind: u64) -> bool {
    match Table::of_kind(kind) {
        Some(other) => other == table,
        None => true,
    }
}

/// Reads the fields of a row from its columns.
fn fields_of(alloc: Global, row: &sqlite::Row) -> Result<Row, Error> {
    let [kind, maker, more, at, num, n1, n2, n3, n4, n5] = numbers_in(row)?;
    let mark = blob_at(alloc, row, 6)?;
    let b1 = blob_at(alloc, row, 12)?;
    let b2 = blob_at(alloc, row, 13)?;
    Ok(Row {
        kind,
        maker,
        more,
        at,
        num,
        mark,
        n1,
        n2,
        n3,
        n4,
        n5,
        b1,
        b2,
    })
}

/// The columns of the numbers after the place, the mark among them.
const NUMBERS: [usize; 10] = [1, 2, 3, 4, 5, 7, 8, 9, 10, 11];

/// Reads the numbers of a row from its columns.
fn numbers_in(row: &sqlite::Row) -> Result<[u64; 10], Error> {
    let mut numbers = [0; 10];
    for (number, column) in numbers.iter_mut().zip(NUMBERS) {
        *number = number_at(row, column)?;
    }
    Ok(numbers)
}

/// Reads a number that isn't negative from a column.
fn number_at(row: &sqlite::Row, column: usize) -> Result<u64, Error> {
    row.get(column)
}

/// Copies the bytes of a column, once.
fn blob_at(alloc: Global, row: &sqlite::Row, column: usize) -> Result<Blob, Error> {
    match row.get_ref(column)? {
        ValueRef::Blob(bytes) => Ok(Blob::from_slice(alloc, bytes)?),
        other => Err(Error::InvalidColumnType(column, Type::of(other))),
    }
}
