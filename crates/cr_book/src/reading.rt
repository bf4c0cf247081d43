// SPDX-License-Identifier: Apache-2.0 OR MIT
//! A store that is being read, row by row.
ghost use Rattle.std.specs.Prelude.{◌≡◌, ◌++◌, ◌∷◌, [], true, false, IfOk, IfErr, OnOk, Some};
ghost use Rattle.cr_base.specs.Rows.{row_of, rows_of};
ghost use Rattle.cr_base.specs.Tables.{tables_of};
ghost use Rattle.cr_book.specs.Reading.{IsCutStore, IsReading, IsRowRefused, IsWholeGroup, IsWholeStore};

use crate::beginnings::due;
use crate::rows::copies_of;
use cr_base::{Row, Stamped};
use cr_log::Log;
use cr_view::Live;
use std::alloc::{AllocError, Global};
use std::marker::Model;

/// Why a row was not taken.
#[derive(Drop)]
pub(crate) enum ReadError {
    /// It doesn't continue a legal history; the row as it was given.
    Bad(Row),
    /// Memory ran out.
    OutOfMemory,
}

/// The history of the whole groups read so far, with its tables.
#[derive(Drop)]
struct WholeGroups {
    alloc: Global,
    log: Log,
    live: Live,
}

/// The whole groups read so far, and the entries of a group of which more are to come, with the row of the last.
#[derive(Drop)]
pub(crate) struct Reading {
    whole: WholeGroups,
    begun: Vec<Stamped>,
    last: Option<Row>,
}

impl Model for Reading {
    ghost use Rattle.cr_book.specs.Seen.{SeenReading};

    ghost Value = { SeenReading };

    ghost view = { λ r. record { log = r.whole.log.entries; begun = r.begun.items } };

    ghost use Rattle.cr_book.specs.Reading.{IsReading};

    ghost invariant = { λ r. IsReading r.whole.log.entries r.whole.live.tables r.begun.items r.last };
}

impl Reading {
    /// Creates one with nothing read.
    ///
    /// # Cost
    ///
    /// Takes no memory.
    pub(crate) fn new(alloc: Global) -> Reading
        ensures log { result.log ≡ [] }
        ensures begun { result.begun ≡ [] }
    {
        Reading {
            whole: WholeGroups {
                alloc,
                log: Log::new(alloc),
                live: Live::new(alloc),
            },
            begun: Vec::new(alloc),
            last: None,
        }
    }

    /// Reads one more row, whose entry is kept until its group is whole.
    ///
    /// # Errors
    ///
    /// If the row is no entry's, or its entry may not stand after those before it; or if memory runs out.
    ///
    /// # Cost
    ///
    /// The row is decoded once. What `due` says, and at the last row of a group what applying the group costs.
    pub(crate) fn read(self, row: Row) -> Result<Reading, ReadError>
        ensures ok { IfOk result (λ after. rows_of after.log ++ rows_of after.begun
            ≡ (rows_of self.log ++ rows_of self.begun) ++ row ∷ []) }
        ensures refused { IfErr result (λ e. IsRowRefused (rows_of self.log ++ rows_of self.begun) row e) }
    {
        let Reading {
            whole,
            begun,
            last: _,
        } = self;
        let Ok(found) = Stamped::from_row(&row) else {
            return Err(ReadError::OutOfMemory);
        };
        let Some(next) = found else {
            return Err(ReadError::Bad(row));
        };
        let Some(next) = due(&whole.log, &whole.live, &begun, next) else {
            return Err(ReadError::Bad(row));
        };
        with_next(whole, begun, row, next)
    }

    /// Gives the history read with its tables, or the last row if more of its group should come.
    pub(crate) fn finish(self) -> Result<(Log, Live), Row>
        ensures whole { IfOk result (λ read. IsWholeStore self.log self.begun read.0.entries read.1.tables) }
        ensures cut { IfErr result (λ last. IsCutStore self.log self.begun last) }
    {
        let Reading {
            whole,
            begun: _,
            last,
        } = self;
        match last {
            Some(row) => Err(row),
            None => Ok((whole.log, whole.live)),
        }
    }
}

/// Returns the reading with one more entry, whose row this is; the group is added once it is the last.
fn with_next(
    whole: WholeGroups,
    mut begun: Vec<Stamped>,
    row: Row,
    next: Stamped,
) -> Result<Reading, ReadError>
    requires row { row_of next ≡ row }
    requires more { next.more ≡ true
        → IsReading whole.log.entries whole.live.tables (begun.items ++ next ∷ []) (Some row) }
    requires group { next.more ≡ false → IsWholeGroup whole.log.entries whole.live.tables (begun.items ++ next ∷ []) }
    requires same { whole.live.tables ≡ tables_of whole.log.entries }
    ensures ok { IfOk result (λ after. rows_of after.log ++ rows_of after.begun
        ≡ (rows_of whole.log.entries ++ rows_of begun.items) ++ row ∷ []) }
    ensures memory { IfErr result (λ e. e ≡ ReadError.OutOfMemory) }
{
    let more = next.more;
    let Ok(()) = add(&mut begun, next) else {
        return Err(ReadError::OutOfMemory);
    };
    if more {
        return Ok(Reading {
            whole,
            begun,
            last: Some(row),
        });
    }
    drop(row);
    with_group(whole, begun)
}

/// Adds a value after those that are there. It is for any type, so that no check spells out how it goes.
fn add<A: Drop>(values: &mut Vec<A>, value: A) -> Result<(), AllocError>
    ensures { OnOk result (values.new.items ≡ values.old.items ++ value ∷ []) }
{
    values.reserve(1)?;
    values.push_reserved(value);
    Ok(())
}

/// Returns the reading with a whole group added.
fn with_group(mut whole: WholeGroups, group: Vec<Stamped>) -> Result<Reading, ReadError>
    requires group { IsWholeGroup whole.log.entries whole.live.tables group.items }
    requires same { whole.live.tables ≡ tables_of whole.log.entries }
    ensures ok { IfOk result (λ after. rows_of after.log ++ rows_of after.begun
        ≡ rows_of whole.log.entries ++ rows_of group.items) }
    ensures memory { IfErr result (λ e. e ≡ ReadError.OutOfMemory) }
{
    let Ok(entries) = copies_of(whole.alloc, &group) else {
        return Err(ReadError::OutOfMemory);
    };
    let Ok(()) = whole.live.room(&group) else {
        return Err(ReadError::OutOfMemory);
    };
    let Ok(()) = whole.log.room(&group) else {
        return Err(ReadError::OutOfMemory);
    };
    whole.log.append(entries);
    whole.live.apply_all(group);
    Ok(Reading {
        begun: Vec::new(whole.alloc),
        whole,
        last: None,
    })
}
