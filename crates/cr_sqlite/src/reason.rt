// SPDX-License-Identifier: Apache-2.0 OR MIT
//! What was wrong where a shelf or a keeper failed.
use sqlite::{Error, ErrorCode};
use std::fmt;

/// What a fault was. Its text is one line, without the path.
#[derive(Clone, Copy, PartialEq, Eq)]
pub enum Reason {
    /// The crate `sqlite` refused the file, the disk failed, or another process holds the file.
    Database(Error),
    /// The file has other tables than a store of this version or of an older one, or one of them has other columns.
    OtherTables,
    /// The version that the store says isn't that of its tables.
    OtherVersion,
    /// No row is at this place, which is below the number of rows.
    MissingPlace(u64),
    /// Two rows are at this place.
    TakenPlace(u64),
    /// The row at this place is in another table than that of its kind.
    OtherTable(u64),
    /// A value of the row at this place is of another type, or no number that a row can hold.
    OtherValue(u64),
    /// A row was to be kept whose kind has no table, or with a number past 2^63 - 1.
    UnknownRow(u64),
    /// The connection is inside a transaction.
    InTransaction,
}

impl fmt::Display for Reason {
    fn fmt<W: fmt::Write>(&self, f: &mut fmt::Formatter<W>) -> fmt::Result {
        match self {
            Reason::Database(error) => write!(f, "{error}"),
            Reason::OtherTables => f.write_str(
                "the tables are not those of a store that this confd reads",
            ),
            Reason::OtherVersion => f.write_str(
                "the store says another version than that of its tables",
            ),
            Reason::MissingPlace(place) => write!(f, "no row stands at place {place}"),
            Reason::TakenPlace(place) => write!(f, "two rows stand at place {place}"),
            Reason::OtherTable(place) => write!(
                f,
                "the row at place {place} stands in another table than its kind's"
            ),
            Reason::OtherValue(place) => write!(
                f,
                "the row at place {place} has a value that no row has"
            ),
            Reason::UnknownRow(place) => write!(f, "the row for place {place} fits no table"),
            Reason::InTransaction => f.write_str("a transaction is open"),
        }
    }
}

/// Why a connection wasn't taken as a keeper, or a call of one gave up.
#[derive(Clone, Copy, PartialEq, Eq)]
pub enum StoreError {
    /// A fault, which was counted.
    Failed(Reason),
    /// Out of memory, which isn't counted as a fault.
    OutOfMemory,
}

impl From<Error> for StoreError {
    ghost use Rattle.std.specs.Prelude.{◌≡◌};
    ghost use Rattle.cr_sqlite.specs.Telling.{store_error};

    // Which error gives which.
    ghost from_gives = { λ error e. e ≡ store_error error };

    fn from(error: Error) -> StoreError {
        match error {
            Error::SqliteFailure(ErrorCode::OutOfMemory) => StoreError::OutOfMemory,
            _ => StoreError::Failed(Reason::Database(error)),
        }
    }
}
