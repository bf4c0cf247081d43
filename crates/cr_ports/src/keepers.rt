// SPDX-License-Identifier: Apache-2.0 OR MIT
//! Keepers in memory, which tell all their rows.
ghost use Rattle.std.specs.Prelude.{◌≡◌, ◌≢◌, ◌<◌, ◌++◌, ◌↔◌, ℕ, List, [], IfOk, IfSome};
ghost use Rattle.std.specs.Prelude.{OnOk, OnErr, IsTrue, Some, Result, length, slice_get, false, true};
ghost use Rattle.cr_base.specs.declared.row.Row.{Row};
ghost use Rattle.cr_ports.specs.Calls.{Advances, fails};
ghost use Rattle.cr_ports.specs.Count.{Rises};
ghost use Rattle.cr_ports.specs.Keeping.{HasCause, Kept, and_rows, failed_or, faults_after};

use crate::calls::Calls;
use crate::keeper::{Keeper, KeeperError};
use cr_base::Row;
use std::alloc::{AllocError, Global};
use std::marker::Model;

/// Keeps rows in memory, and fails exactly at the listed calls.
///
/// # Model
///
/// The rows, the lists and the fault counter.
#[derive(Drop)]
pub struct MemKeeper {
    alloc: Global,
    rows: Vec<Row>,
    appends: Calls,
    reads: Calls,
    faults: u64,
}

impl Model for MemKeeper {
    ghost Value = { Kept };

    ghost view = { λ k. record { rows = k.rows.items; appends = k.appends; reads = k.reads; faults = k.faults } };
}

impl MemKeeper {
    /// Creates a keeper of no rows, with no call made and no fault counted.
    ///
    /// The appends numbered in `failing_appends` fail, and of the other calls, which are numbered apart, those in
    /// `failing_reads`; both count from 0.
    pub fn new(alloc: Global, failing_appends: Vec<u64>, failing_reads: Vec<u64>) -> Self
        ensures rows { result.rows ≡ [] }
        ensures appends { (result.appends.failing ≡ failing_appends.items) × (result.appends.made ≡ 0) }
        ensures reads { (result.reads.failing ≡ failing_reads.items) × (result.reads.made ≡ 0) }
        ensures faults { result.faults ≡ 0 }
    {
        MemKeeper::over(alloc, Vec::new(alloc), failing_appends, failing_reads)
    }

    /// Creates a keeper of these rows, with no call made and no fault counted, which fails as the lists say.
    pub(crate) fn over(
        alloc: Global,
        rows: Vec<Row>,
        failing_appends: Vec<u64>,
        failing_reads: Vec<u64>,
    ) -> Self
        ensures rows { result.rows ≡ rows.items }
        ensures appends { (result.appends.failing ≡ failing_appends.items) × (result.appends.made ≡ 0) }
        ensures reads { (result.reads.failing ≡ failing_reads.items) × (result.reads.made ≡ 0) }
        ensures faults { result.faults ≡ 0 }
    {
        MemKeeper {
            alloc,
            rows,
            appends: Calls::new(failing_appends),
            reads: Calls::new(failing_reads),
            faults: 0,
        }
    }

    /// Returns its rows and its fault counter.
    pub(crate) fn into_parts(self) -> (Vec<Row>, u64)
        ensures rows { result.0.items ≡ self.rows }
        ensures faults { result.1 ≡ self.faults }
    {
        (self.rows, self.faults)
    }

    /// Counts a call that isn't an append, and fails it if it is listed.
    fn begin_read(&mut self) -> Result<(), KeeperError>
        ensures answer { result ≡ failed_or (fails self.old.reads) tt }
        ensures cause { HasCause self.old.faults self.new.faults result }
        ensures faults { self.new.faults ≡ faults_after (fails self.old.reads) self.old.faults }
        ensures reads { Advances self.old.reads self.new.reads }
        ensures appends { self.new.appends ≡ self.old.appends }
        ensures rows { self.new.rows ≡ self.old.rows }
    {
        if self.reads.begin() {
            self.faults = self.faults.saturating_add(1);
            return Err(KeeperError::Failed);
        }
        Ok(())
    }
}

/// Copies `rows`.
///
/// # Errors
///
/// If memory runs out.
pub(crate) fn copies_of(alloc: Global, rows: &[Row]) -> Result<Vec<Row>, AllocError>
    ensures { IfOk result (λ copies. copies.items ≡ rows.now) }
{
    let mut copies = Vec::with_capacity(alloc, rows.len())?;
    for row in rows {
        copies.push(row.copy()?)?;
    }
    Ok(copies)
}

/// Appends copies of `added` to the rows.
///
/// # Errors
///
/// If memory runs out. Then the rows are as before.
fn add_copies(alloc: Global, rows: &mut Vec<Row>, added: &[Row]) -> Result<(), AllocError>
    ensures ok { OnOk result (rows.new.items ≡ rows.old.items ++ added.now) }
    ensures err { OnErr result (rows.new.items ≡ rows.old.items) }
{
    let mut copies = copies_of(alloc, added)?;
    rows.append(&mut copies)?;
    Ok(())
}

/// Appends copies of `added` to the rows.
///
/// # Errors
///
/// `OutOfMemory`, and no other. Then the rows are as before.
fn keep_copies(alloc: Global, rows: &mut Vec<Row>, added: &[Row]) -> Result<(), KeeperError>
    ensures ok { OnOk result (rows.new.items ≡ rows.old.items ++ added.now) }
    ensures err { OnErr result (rows.new.items ≡ rows.old.items) }
    ensures memory { result ≢ Err KeeperError.Failed }
{
    match add_copies(alloc, rows, added) {
        Ok(()) => Ok(()),
        Err(_) => Err(KeeperError::OutOfMemory),
    }
}

/// Copies row number `at`.
///
/// # Errors
///
/// `OutOfMemory`, and no other.
fn copy_at(rows: &[Row], at: u64) -> Result<Row, KeeperError>
    requires { at < length rows.now }
    ensures ok { IfOk result (λ row. slice_get rows.now at ≡ Some row) }
    ensures memory { result ≢ Err KeeperError.Failed }
{
    match rows[at as usize].copy() {
        Ok(row) => Ok(row),
        Err(_) => Err(KeeperError::OutOfMemory),
    }
}

impl Keeper for MemKeeper {
    ghost rows = { λ k. Some k.rows };

    ghost faults = { λ k. k.faults };

    ghost kind = { λ _. [] };

    ghost tells_stops = { λ _. false };

    ghost tells_alike = { λ keeper other same i. false };

    ghost rows_alike = { λ keeper other same i. true };

    ghost rows_told = { λ keeper told i. true };

    ghost tried = { λ _. [] };

    ghost moment = { λ _. 0 };

    ghost left_since = { λ _ _ _. ⊥ };

    ghost opens = { λ _ _. ⊥ };

    fn append_all(&mut self, added: &[Row]) -> Result<(), KeeperError>
        ensures kept { OnOk result (Some self.new.rows ≡ and_rows (Some self.old.rows) added.now) }
        ensures refused { OnErr result (Some self.new.rows ≡ Some self.old.rows) }
        ensures cause { HasCause self.old.faults self.new.faults result }

        // It fails where this append is listed, and nowhere else.
        ensures failed { (result ≡ Err KeeperError.Failed) ↔ IsTrue (fails self.old.appends) }
        ensures faults { self.new.faults ≡ faults_after (fails self.old.appends) self.old.faults }
        ensures appends { Advances self.old.appends self.new.appends }
        ensures reads { self.new.reads ≡ self.old.reads }
    {
        if self.appends.begin() {
            self.faults = self.faults.saturating_add(1);
            return Err(KeeperError::Failed);
        }
        keep_copies(self.alloc, &mut self.rows, added)
    }

    fn len(&mut self) -> Result<u64, KeeperError>
        ensures told { IfOk result (λ n. IfSome (Some self.old.rows) (λ rows. n ≡ length rows)) }
        ensures same { Some self.new.rows ≡ Some self.old.rows }
        ensures cause { HasCause self.old.faults self.new.faults result }

        // It fails where this call is listed, and nowhere else.
        ensures answer { result ≡ failed_or (fails self.old.reads) (length self.old.rows) }
        ensures faults { self.new.faults ≡ faults_after (fails self.old.reads) self.old.faults }
        ensures reads { Advances self.old.reads self.new.reads }
        ensures appends { self.new.appends ≡ self.old.appends }
    {
        self.begin_read()?;
        Ok(self.rows.len() as u64)
    }

    fn row(&mut self, at: u64) -> Result<Row, KeeperError>
        requires { IfSome (Some self.old.rows) (λ rows. at < length rows) }
        ensures told { IfOk result (λ row. IfSome (Some self.old.rows) (λ rows. slice_get rows at ≡ Some row)) }
        ensures same { Some self.new.rows ≡ Some self.old.rows }
        ensures cause { HasCause self.old.faults self.new.faults result }

        // It fails where this call is listed, and nowhere else.
        ensures failed { (result ≡ Err KeeperError.Failed) ↔ IsTrue (fails self.old.reads) }
        ensures faults { self.new.faults ≡ faults_after (fails self.old.reads) self.old.faults }
        ensures reads { Advances self.old.reads self.new.reads }
        ensures appends { self.new.appends ≡ self.old.appends }
    {
        self.begin_read()?;
        copy_at(&self.rows, at)
    }
}

/// Keeps rows in memory. A call fails only if memory runs out: its fault counter is 0.
///
/// # Model
///
/// The rows.
#[derive(Drop)]
pub struct PlainKeeper {
    alloc: Global,
    rows: Vec<Row>,
}

impl Model for PlainKeeper {
    ghost Value = { List Row };

    ghost view = { λ k. k.rows.items };
}

impl PlainKeeper {
    /// Creates a keeper of no rows.
    pub fn new(alloc: Global) -> Self
        ensures { result ≡ [] }
    {
        PlainKeeper {
            alloc,
            rows: Vec::new(alloc),
        }
    }
}

impl Keeper for PlainKeeper {
    ghost rows = { λ k. Some k };

    ghost faults = { λ _. 0 };

    ghost kind = { λ _. [] };

    ghost tells_stops = { λ _. false };

    ghost tells_alike = { λ keeper other same i. false };

    ghost rows_alike = { λ keeper other same i. true };

    ghost rows_told = { λ keeper told i. true };

    ghost tried = { λ _. [] };

    ghost moment = { λ _. 0 };

    ghost left_since = { λ _ _ _. ⊥ };

    ghost opens = { λ _ _. ⊥ };

    fn append_all(&mut self, added: &[Row]) -> Result<(), KeeperError>
        ensures kept { OnOk result (Some self.new ≡ and_rows (Some self.old) added.now) }
        ensures refused { OnErr result (Some self.new ≡ Some self.old) }
        ensures cause { HasCause 0 0 result }

        ensures memory { result ≢ Err KeeperError.Failed }
    {
        keep_copies(self.alloc, &mut self.rows, added)
    }

    fn len(&mut self) -> Result<u64, KeeperError>
        ensures told { IfOk result (λ n. IfSome (Some self.old) (λ rows. n ≡ length rows)) }
        ensures same { Some self.new ≡ Some self.old }
        ensures cause { HasCause 0 0 result }

        ensures ok { ◌≡◌ {A = Result ℕ KeeperError} result (Ok (length self.old)) }
    {
        Ok(self.rows.len() as u64)
    }

    fn row(&mut self, at: u64) -> Result<Row, KeeperError>
        requires { IfSome (Some self.old) (λ rows. at < length rows) }
        ensures told { IfOk result (λ row. IfSome (Some self.old) (λ rows. slice_get rows at ≡ Some row)) }
        ensures same { Some self.new ≡ Some self.old }
        ensures cause { HasCause 0 0 result }

        ensures memory { result ≢ Err KeeperError.Failed }
    {
        copy_at(&self.rows, at)
    }
}
