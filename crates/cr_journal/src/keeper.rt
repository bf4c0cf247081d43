// SPDX-License-Identifier: Apache-2.0 OR MIT
//! A keeper over a disk.
ghost use Rattle.std.specs.Prelude.{◌≡◌, ◌≢◌, ◌<◌, ◌≤◌, ◌+◌, ◌^◌, ◌++◌, [], ◌∷◌, List, ℕ, length};
ghost use Rattle.std.specs.Prelude.{Err, Some, false, true, vec_len, vec_capacity, IfOk, IfErr, OnOk, OnErr, IsTrue};
ghost use Rattle.cr_base.specs.declared.row.Row.{Row};
ghost use Rattle.cr_disks.specs.Disk.{Only};
ghost use Rattle.cr_ports.specs.Count.{Rises};
ghost use Rattle.cr_ports.specs.Stopping.{LeavesOnly, TriedAfter};
ghost use Rattle.cr_ports.specs.Keeping.{HasCause, and_rows};
ghost use Rattle.cr_journal.specs.Grammar.{empty_journal, field, payload, FitsGroup, IsJournalOf};
ghost use Rattle.cr_journal.specs.Keeping.{Keeps, OpenCause, Opens, OpensTo, rows_of};
ghost use Rattle.cr_journal.specs.Standing.{doubted};
ghost use Rattle.cr_journal.specs.declared.opening.OpenError.TheVariants.{NoJournal, NotMade};

use crate::opening::{OpenError, open_or_make};
use crate::state::Journal;
use crate::writing::block_of;
use cr_base::Row;
use cr_disks::Disk;
use cr_ports::{Keeper, KeeperError};
use std::alloc::{AllocError, Global};
use std::marker::Model;

/// The rows of a journal, held in memory and in a file that only grows.
///
/// # Model
///
/// Its disk, the rows, and the group that may be found after them once the machine stopped, if an append that failed
/// left one.
#[derive(Drop)]
pub struct JournalKeeper<D: Disk> {
    alloc: Global,
    journal: Journal<D>,
    rows: Vec<Row>,
    doubt: Vec<Row>,
}

impl<D: Disk> Model for JournalKeeper<D> {
    ghost use Rattle.std.specs.Prelude.{IsTrue, ◌<◌, ◌^◌};
    ghost use Rattle.cr_journal.specs.Keeping.{Journaled, Keeps};
    ghost use Rattle.cr_journal.specs.Standing.{doubted};

    ghost Value = { Journaled D };

    ghost view = { λ k. record {
      disk = k.journal.disk;
      rows = k.rows.items;
      doubted = doubted k.journal.in_doubt k.doubt.items;
    } };

    ghost invariant = { λ k. (k.journal.gate < 2 ^ 62)
        × (IsTrue D.tells → Keeps D.seen D.may_leave k.journal k.rows.items k.doubt.items) };
}

/// Copies `rows`.
///
/// # Errors
///
/// If memory runs out.
fn copies_of(alloc: Global, rows: &[Row]) -> Result<Vec<Row>, AllocError>
    ensures { IfOk result (λ copies. copies.items ≡ rows.now) }
{
    let mut copies = Vec::with_capacity(alloc, rows.len())?;
    for row in rows {
        copies.push(row.copy()?)?;
    }
    Ok(copies)
}

/// What an append needs, taken in advance so that nothing is missing once the disk has the group.
#[derive(Drop)]
struct Prepared {
    block: Vec<u8>,
    copies: Vec<Row>,
}

/// Makes the block of a group and copies of its rows, and room for these.
///
/// # Errors
///
/// If memory runs out.
fn prepare(alloc: Global, rows: &mut Vec<Row>, added: &[Row]) -> Result<Prepared, AllocError>
    ensures same { rows.new.items ≡ rows.old.items }
    ensures copies { IfOk result (λ p. p.copies.items ≡ added.now) }
    ensures block { IfOk result (λ p. p.block.items ≡ field (payload p.copies.items) ++ 0 ∷ []) }
    ensures fits { IfOk result (λ p. FitsGroup p.copies.items × (length (payload p.copies.items) < 2 ^ 64)) }
    ensures room { IfOk result (λ p. vec_len rows.new + vec_len p.copies ≤ vec_capacity rows.new) }
{
    let copies = copies_of(alloc, added)?;
    let block = block_of(alloc, &copies)?;
    rows.reserve(copies.len())?;
    Ok(Prepared { block, copies })
}

/// Moves the copies to the end of the rows, which have room for them.
fn add_all(rows: &mut Vec<Row>, copies: &mut Vec<Row>)
    requires { vec_len rows.old + vec_len copies.old ≤ vec_capacity rows.old }
    ensures rows { rows.new.items ≡ rows.old.items ++ copies.old.items }
    ensures rest { copies.new.items ≡ [] }
{
    let _ = rows.append(copies);
}

/// Appends a group to a journal whose gate isn't in doubt, and its rows to those that are there, or changes no row.
fn keep_ready<D: Disk>(
    journal: &mut Journal<D>,
    rows: &mut Vec<Row>,
    doubt: &mut Vec<Row>,
    prepared: Prepared,
) -> Result<(), KeeperError>
    requires near { journal.old.gate < 2 ^ 62 }
    requires ready { journal.old.in_doubt ≡ false }
    requires keeps { IsTrue D.tells → Keeps D.seen D.may_leave journal.old rows.old.items doubt.old.items }
    requires block { prepared.block.items ≡ field (payload prepared.copies.items) ++ 0 ∷ [] }
    requires fits { FitsGroup prepared.copies.items × (length (payload prepared.copies.items) < 2 ^ 64) }
    requires room { vec_len rows.old + vec_len prepared.copies ≤ vec_capacity rows.old }
    ensures near { journal.new.gate < 2 ^ 62 }
    ensures keeps { IsTrue D.tells → Keeps D.seen D.may_leave journal.new rows.new.items doubt.new.items }
    ensures kept { OnOk result (rows.new.items ≡ rows.old.items ++ prepared.copies.items) }
    ensures refused { OnErr result (rows.new.items ≡ rows.old.items) }
    ensures doubt { (old : List (List Row)) → TriedAfter result old prepared.copies.items
        (doubted journal.new.in_doubt doubt.new.items) }
    ensures any_moment { IsTrue D.tells → LeavesOnly D.moment D.left_since journal.old.disk journal.new.disk
        (OpensTo rows.old.items (prepared.copies.items ∷ [])) }
    ensures cause { HasCause (D.faults journal.old.disk) (D.faults journal.new.disk) result }
    ensures memory { result ≢ Err KeeperError.OutOfMemory }
{
    let Prepared { block, mut copies } = prepared;
    match journal.append(&block) {
        Ok(()) => {
            add_all(rows, &mut copies);
            *doubt = copies;
            Ok(())
        }
        Err(_) => {
            *doubt = copies;
            Err(KeeperError::Failed)
        }
    }
}

/// Appends a group to the journal, and its rows to those that are there, or changes no row.
fn keep_group<D: Disk>(
    journal: &mut Journal<D>,
    rows: &mut Vec<Row>,
    doubt: &mut Vec<Row>,
    prepared: Prepared,
) -> Result<(), KeeperError>
    requires near { journal.old.gate < 2 ^ 62 }
    requires keeps { IsTrue D.tells → Keeps D.seen D.may_leave journal.old rows.old.items doubt.old.items }
    requires block { prepared.block.items ≡ field (payload prepared.copies.items) ++ 0 ∷ [] }
    requires fits { FitsGroup prepared.copies.items × (length (payload prepared.copies.items) < 2 ^ 64) }
    requires room { vec_len rows.old + vec_len prepared.copies ≤ vec_capacity rows.old }
    ensures near { journal.new.gate < 2 ^ 62 }
    ensures keeps { IsTrue D.tells → Keeps D.seen D.may_leave journal.new rows.new.items doubt.new.items }
    ensures kept { OnOk result (rows.new.items ≡ rows.old.items ++ prepared.copies.items) }
    ensures refused { OnErr result (rows.new.items ≡ rows.old.items) }
    ensures doubt { TriedAfter result (doubted journal.old.in_doubt doubt.old.items) prepared.copies.items
        (doubted journal.new.in_doubt doubt.new.items) }
    ensures any_moment { IsTrue D.tells → LeavesOnly D.moment D.left_since journal.old.disk journal.new.disk
        (OpensTo rows.old.items (prepared.copies.items ∷ doubted journal.old.in_doubt doubt.old.items)) }
    ensures cause { HasCause (D.faults journal.old.disk) (D.faults journal.new.disk) result }
    ensures memory { result ≢ Err KeeperError.OutOfMemory }
{
    match journal.make_ready() {
        Ok(()) => keep_ready(journal, rows, doubt, prepared),
        Err(_) => Err(KeeperError::Failed),
    }
}

impl<D: Disk> JournalKeeper<D> {
    /// Opens the rows that the disk's file has as a journal. An empty file becomes a journal of no rows. All of it is
    /// read, once it is synced.
    ///
    /// # Errors
    ///
    /// - `Failed`: the disk's fault counter rose, and it has the bytes that it had.
    /// - `NotMade`: the counter rose; the file was empty, and may now have some bytes.
    /// - `NoJournal`: the bytes are no journal of any groups.
    /// - `OutOfMemory`: memory ran out.
    pub fn open(alloc: Global, mut disk: D) -> Result<Self, (OpenError, D)>
        ensures found { IsTrue D.tells → IfOk result (λ k. (groups : List (List Row))
            × IsJournalOf groups (D.seen k.disk) × (rows_of groups ≡ k.rows)) }
        ensures same { IsTrue D.tells → D.seen disk ≢ [] → IfOk result (λ k. D.seen k.disk ≡ D.seen disk) }
        ensures made { IsTrue D.tells → D.seen disk ≡ [] → IfOk result (λ k. D.seen k.disk ≡ empty_journal) }
        ensures durable { IsTrue D.tells → IfOk result (λ k. Only (D.seen k.disk) (D.may_leave k.disk)) }
        ensures settled { IfOk result (λ k. k.doubted ≡ []) }
        ensures spared { IsTrue D.tells → IfErr result (λ e. e.0 ≢ NotMade → D.seen e.1 ≡ D.seen disk) }
        ensures empty { IsTrue D.tells → IfErr result (λ e. e.0 ≡ NotMade → D.seen disk ≡ []) }
        ensures none { IsTrue D.tells → IfErr result (λ e. e.0 ≡ NoJournal → (D.seen disk ≢ [])
            × ((groups : List (List Row)) → IsJournalOf groups (D.seen disk) → ⊥)) }
        ensures steady { IfOk result (λ k. D.faults k.disk ≡ D.faults disk) }
        ensures cause { IfErr result
            (λ e. e.0 ≢ NotMade → OpenCause {T = ℕ} (D.faults disk) (D.faults e.1) (Err e.0)) }
        ensures not_made { IfErr result (λ e. e.0 ≡ NotMade → Rises (D.faults disk) (D.faults e.1)) }
    {
        let mut rows = Vec::new(alloc);
        match open_or_make(alloc, &mut disk, &mut rows) {
            Ok(gate) => Ok(JournalKeeper {
                alloc,
                journal: Journal {
                    disk,
                    gate,
                    in_doubt: false,
                },
                rows,
                doubt: Vec::new(alloc),
            }),
            Err(error) => Err((error, disk)),
        }
    }

    /// Returns its disk. The file opens to the rows, or to these and one whole group whose append failed since the
    /// last success.
    pub fn into_disk(self) -> D
        ensures disk { result ≡ self.disk }
        ensures opens { IsTrue D.tells → OpensTo self.rows self.doubted (D.seen self.disk) }
    {
        let JournalKeeper {
            alloc: _,
            journal,
            rows: _,
            doubt: _,
        } = self;
        journal.into_disk()
    }

    /// Lends its disk.
    pub fn disk(&self) -> &D
        ensures { result.now ≡ self.now.disk }
    {
        &self.journal.disk
    }
}

impl<D: Disk> Keeper for JournalKeeper<D> {
    ghost rows = { λ k. Some k.rows };

    ghost faults = { λ k. D.faults k.disk };

    ghost kind = { λ _. [] };

    ghost tells_stops = { λ _. D.tells };

    ghost tells_alike = { λ keeper other same i. D.tells };

    ghost rows_alike = { λ keeper other same i. true };

    ghost rows_told = { λ keeper told i. true };

    ghost tried = { λ k. k.doubted };

    ghost moment = { λ k. D.moment k.disk };

    ghost left_since = { λ k t image. D.left_since k.disk t image };

    ghost opens = { Opens };

    /// Appends by four calls of the disk, or by six if a group may be found after the rows, which is taken away
    /// first.
    fn append_all(&mut self, added: &[Row]) -> Result<(), KeeperError>
        ensures kept { OnOk result (Some self.new.rows ≡ and_rows (Some self.old.rows) added.now) }
        ensures refused { OnErr result (Some self.new.rows ≡ Some self.old.rows) }
        ensures cause { HasCause (D.faults self.old.disk) (D.faults self.new.disk) result }

        // What may be found behind the rows after a stop.
        ensures doubt { TriedAfter result self.old.doubted added.now self.new.doubted }

        // A stop at any moment of the call leaves a file that opens to the rows kept so far, or to these and then whole
        // one group: this one, or one whose append failed since the last that was kept.
        ensures any_moment { IsTrue D.tells → LeavesOnly D.moment D.left_since self.old.disk self.new.disk
            (OpensTo self.old.rows (added.now ∷ self.old.doubted)) }
        ensures between { IsTrue D.tells → (image : List ℕ)
            → D.left_since self.new.disk (D.moment self.new.disk) image → OpensTo self.new.rows self.new.doubted image }

        // Memory is taken before anything is tried.
        ensures memory { result ≡ Err KeeperError.OutOfMemory → self.new ≡ self.old }
    {
        match prepare(self.alloc, &mut self.rows, added) {
            Ok(prepared) => keep_group(
                &mut self.journal,
                &mut self.rows,
                &mut self.doubt,
                prepared,
            ),
            Err(_) => Err(KeeperError::OutOfMemory),
        }
    }

    fn len(&mut self) -> Result<u64, KeeperError> {
        Ok(self.rows.len() as u64)
    }

    fn row(&mut self, at: u64) -> Result<Row, KeeperError> {
        match self.rows[at as usize].copy() {
            Ok(row) => Ok(row),
            Err(_) => Err(KeeperError::OutOfMemory),
        }
    }
}

/// Proves that a stop between two calls leaves a file that opens to the rows kept so far, or to these and one whole
/// group whose append failed since the last success.
pub fn law_stops<D: Disk>(keeper: &JournalKeeper<D>)
    ensures between { IsTrue D.tells → (image : List ℕ) → D.may_leave keeper.now.disk image
        → OpensTo keeper.now.rows keeper.now.doubted image }
{
    let _in_doubt = keeper.journal.in_doubt;
}
