// SPDX-License-Identifier: Apache-2.0 OR MIT
//! How a store opens.
ghost use Rattle.std.specs.Prelude.{◌≡◌, ◌++◌, List, length, IfOk, IfErr, IfSome, IsTrue, ℕ};
ghost use Rattle.cr_base.specs.declared.row.Row.{Row};
ghost use Rattle.cr_base.specs.Rows.{rows_of};
ghost use Rattle.cr_base.specs.Tables.{tables_of};
ghost use Rattle.cr_policy.specs.Legal.{Legal};
ghost use Rattle.cr_ports.specs.Stopping.{OpensToTold};
ghost use Rattle.cr_book.specs.Opening.{Explains, IsCounted};
ghost use Rattle.cr_book.specs.Reading.{refusal, untold};

use crate::reading::{ReadError, Reading};
use cr_base::Row;
use cr_log::Log;
use cr_ports::{Keeper, KeeperError};
use cr_view::Live;
use std::alloc::Global;

/// Why a store doesn't open.
#[derive(Drop)]
pub enum OpenError {
    /// A row is no entry's, or doesn't continue a legal history, or is the last one though another of
    /// its command or its bulk should follow.
    BadStore {
        /// Its number, from 0: it is the first such row.
        row: u64,
        /// The row as it was read.
        found: Row,
    },
    /// The keeper failed to tell its rows.
    KeeperFault,
    /// Out of memory.
    OutOfMemory,
}

/// Returns why a store doesn't open whose keeper told nothing.
fn untold(error: KeeperError) -> OpenError
    ensures { result ≡ untold error }
{
    match error {
        KeeperError::Failed => OpenError::KeeperFault,
        KeeperError::OutOfMemory => OpenError::OutOfMemory,
    }
}

/// Returns why a store doesn't open in which the row of this number, from 0, was refused.
fn refusal(row: u64, error: ReadError) -> OpenError
    ensures { result ≡ refusal row error }
{
    match error {
        ReadError::Bad(found) => OpenError::BadStore { row, found },
        ReadError::OutOfMemory => OpenError::OutOfMemory,
    }
}

/// Reads every row once, in order.
fn read_rows<K: Keeper>(alloc: Global, keeper: &mut K, count: u64) -> Result<Reading, OpenError>
    requires { IfSome (K.rows keeper.old) (λ rows. count ≡ length rows) }
    ensures spelled { IfOk result
        (λ read. IfSome (K.rows keeper.old) (λ rows. rows_of read.log ++ rows_of read.begun ≡ rows)) }
    ensures bad { IfErr result (λ e. IfSome (K.rows keeper.old) (λ rows. Explains rows e)) }
    ensures same { K.rows keeper.new ≡ K.rows keeper.old }
    ensures alike { K.kind keeper.new ≡ K.kind keeper.old }
    ensures still { IsTrue (K.tells_stops keeper.old) → keeper.new ≡ keeper.old }
    ensures cause { IsCounted (K.faults keeper.old) (K.faults keeper.new) result }
{
    let mut reading = Reading::new(alloc);
    for i in 0..count {
        let row = match keeper.row(i) {
            Ok(row) => row,
            Err(error) => return Err(untold(error)),
        };
        reading = match reading.read(row) {
            Ok(after) => after,
            Err(error) => return Err(refusal(i, error)),
        };
    }
    Ok(reading)
}

/// Reads the history that the keeper's rows spell, with its tables.
///
/// # Errors
///
/// As of `Book::open`.
pub(crate) fn read_all<K: Keeper>(alloc: Global, keeper: &mut K) -> Result<(Log, Live), OpenError>
    ensures legal { IfOk result (λ read. Legal read.0.entries × (read.1.tables ≡ tables_of read.0.entries)) }
    ensures spelled { IfOk result (λ read. IfSome (K.rows keeper.old) (λ rows. rows_of read.0.entries ≡ rows)) }
    ensures bad { IfErr result (λ e. IfSome (K.rows keeper.old) (λ rows. Explains rows e)) }
    ensures same { K.rows keeper.new ≡ K.rows keeper.old }
    ensures alike { K.kind keeper.new ≡ K.kind keeper.old }
    ensures still { IsTrue (K.tells_stops keeper.old) → keeper.new ≡ keeper.old }
    ensures between { IsTrue (K.tells_stops keeper.old) → IfOk result (λ read. (image : List ℕ)
        → K.left_since keeper.old (K.moment keeper.old) image
        → OpensToTold K.opens (K.rows keeper.old) (K.tried keeper.old) image) }
    ensures cause { IsCounted (K.faults keeper.old) (K.faults keeper.new) result }
{
    let count = match keeper.len() {
        Ok(count) => count,
        Err(error) => return Err(untold(error)),
    };
    let reading = match read_rows(alloc, keeper, count) {
        Ok(reading) => reading,
        Err(error) => return Err(error),
    };
    match reading.finish() {
        Ok(read) => Ok(read),
        Err(last) => Err(refusal(count.saturating_sub(1), ReadError::Bad(last))),
    }
}
