// SPDX-License-Identifier: Apache-2.0 OR MIT
//! A shelf in memory, which tells the rows at all its paths.
ghost use Rattle.std.specs.Prelude.{◌≡◌, ◌≢◌, ◌+◌, ◌^◌, ◌-◌, ◌↔◌, ℕ, List, min, IfOk, IfSome, OnOk, IsTrue, IsFalse};
ghost use Rattle.std.specs.Prelude.{Some, [], false};
ghost use Rattle.cr_ports.specs.Calls.{Advances, fails};
ghost use Rattle.cr_ports.specs.Count.{Gains};
ghost use Rattle.cr_ports.specs.Keeping.{HasCause, faults_after};
ghost use Rattle.cr_ports.specs.Shelving.{StandsAfter, StaysOpened, files, has_store, with_rows};

use crate::calls::Calls;
use crate::keeper::KeeperError;
use crate::keepers::{MemKeeper, copies_of};
use crate::shelf::Shelf;
use cr_base::Row;
use std::alloc::{AllocError, Global};
use std::collections::BTreeMap;
use std::marker::Model;

/// Keeps rows in memory, by path. An open fails exactly if it is listed.
///
/// # Model
///
/// The rows at each path, the paths that were opened, the lists and the fault counter.
pub struct MemShelf {
    alloc: Global,
    stores: BTreeMap<String, Vec<Row>>,
    opens: Calls,
    failing_appends: Vec<u64>,
    failing_reads: Vec<u64>,
    faults: u64,
}

// Written out, so that a caller doesn't prove again how each part is dropped.
impl Drop for MemShelf {
    fn drop(self) {
        let MemShelf {
            alloc: _,
            stores: _,
            opens: _,
            failing_appends: _,
            failing_reads: _,
            faults: _,
        } = self;
    }
}

impl Model for MemShelf {
    ghost use Rattle.cr_ports.specs.Shelving.{Shelved};

    ghost Value = { Shelved };

    ghost view = { λ s. record {
      stores = s.stores.entries;
      opens = s.opens;
      failing_appends = s.failing_appends.items;
      failing_reads = s.failing_reads.items;
      faults = s.faults;
    } };
}

impl MemShelf {
    /// Creates a shelf with no rows at any path, with no call made and no fault counted.
    ///
    /// The opens numbered in `failing_opens` fail. Each keeper that it opens fails at its own appends and at its own
    /// other calls as the two other lists say. All three count from 0.
    pub fn new(
        alloc: Global,
        failing_opens: Vec<u64>,
        failing_appends: Vec<u64>,
        failing_reads: Vec<u64>,
    ) -> Self
        ensures files { files result.stores ≡ (λ _. []) }
        ensures opens { (result.opens.failing ≡ failing_opens.items) × (result.opens.made ≡ 0) }
        ensures appends { result.failing_appends ≡ failing_appends.items }
        ensures reads { result.failing_reads ≡ failing_reads.items }
        ensures faults { result.faults ≡ 0 }
    {
        MemShelf {
            alloc,
            stores: BTreeMap::new(alloc),
            opens: Calls::new(failing_opens),
            failing_appends,
            failing_reads,
            faults: 0,
        }
    }

    /// Lends the rows at the path.
    ///
    /// # Cost
    ///
    /// One look-up.
    pub fn rows_at(&self, path: &str) -> &[Row]
        ensures { result.now ≡ files self.now.stores path.now }
    {
        match self.stores.get(path) {
            Some(rows) => rows.as_slice(),
            None => &[],
        }
    }

    /// Makes a store of no rows for the path, if it has none.
    ///
    /// # Errors
    ///
    /// If memory runs out.
    fn make_store(&mut self, path: &str) -> Result<(), AllocError>
        ensures opened { OnOk result (IsTrue (has_store self.new.stores path.now)) }
        ensures files { files self.new.stores ≡ files self.old.stores }
        ensures opens { self.new.opens ≡ self.old.opens }
        ensures appends { self.new.failing_appends ≡ self.old.failing_appends }
        ensures reads { self.new.failing_reads ≡ self.old.failing_reads }
        ensures faults { self.new.faults ≡ self.old.faults }
    {
        if self.stores.contains_key(path) {
            return Ok(());
        }
        add_store(self.alloc, &mut self.stores, path)
    }

    /// Creates a keeper of copies of the rows at the path, which fails as the lists say.
    ///
    /// # Errors
    ///
    /// If memory runs out.
    fn keeper_at(&self, path: &str) -> Result<MemKeeper, AllocError>
        ensures rows { IfOk result (λ keeper. keeper.rows ≡ files self.now.stores path.now) }
        ensures appends { IfOk result (λ keeper. (keeper.appends.failing ≡ self.now.failing_appends)
            × (keeper.appends.made ≡ 0)) }
        ensures reads { IfOk result (λ keeper. (keeper.reads.failing ≡ self.now.failing_reads)
            × (keeper.reads.made ≡ 0)) }
        ensures faults { IfOk result (λ keeper. keeper.faults ≡ 0) }
    {
        let rows = copies_of(self.alloc, self.rows_at(path))?;
        let appends = self.failing_appends.clone()?;
        let reads = self.failing_reads.clone()?;
        Ok(MemKeeper::over(self.alloc, rows, appends, reads))
    }
}

/// Makes a store of no rows for a path that has none.
///
/// # Errors
///
/// If memory runs out.
fn add_store(
    alloc: Global,
    stores: &mut BTreeMap<String, Vec<Row>>,
    path: &str,
) -> Result<(), AllocError>
    requires { IsFalse (has_store stores.old.entries path.now) }
    ensures opened { OnOk result (IsTrue (has_store stores.new.entries path.now)) }
    ensures files { files stores.new.entries ≡ files stores.old.entries }
{
    let name = String::from_str(alloc, path)?;
    match stores.insert(name, Vec::new(alloc)) {
        Ok(_) => Ok(()),
        Err(_) => Err(AllocError),
    }
}

/// Puts rows at a path that has a store.
fn put(stores: &mut BTreeMap<String, Vec<Row>>, path: &str, rows: Vec<Row>)
    requires { IsTrue (has_store stores.old.entries path.now) }
    ensures { files stores.new.entries ≡ with_rows (files stores.old.entries) path.now rows.items }
{
    if let Some(store) = stores.get_mut(path) {
        *store = rows;
    }
}

impl Shelf for MemShelf {
    type Keeper = MemKeeper;

    ghost rows = { λ s path. Some (files s.stores path) };

    ghost tells_stops = { λ _ _. false };

    ghost has_opened = { λ s path _. IsTrue (has_store s.stores path) };

    ghost faults = { λ s. s.faults };

    ghost opened_at = { λ _ _. 0 };

    ghost left = { λ _ _ _. ⊥ };

    fn open(&mut self, path: &str) -> Result<MemKeeper, KeeperError>
        ensures found { IfOk result
            (λ keeper. IfSome (Some (files self.old.stores path.now)) (λ there. Some keeper.rows ≡ Some there)) }
        ensures fresh { IfOk result (λ keeper. keeper.faults ≡ 0) }
        ensures opened { OnOk result (IsTrue (has_store self.new.stores path.now)) }
        ensures same { StaysOpened false path.now result (λ other. Some (files self.old.stores other))
            (λ other. Some (files self.new.stores other)) }
        ensures cause { HasCause self.old.faults self.new.faults result }

        // It fails where this open is listed, and nowhere else.
        ensures failed { (result ≡ Err KeeperError.Failed) ↔ IsTrue (fails self.old.opens) }
        ensures faults { self.new.faults ≡ faults_after (fails self.old.opens) self.old.faults }
        ensures opens { Advances self.old.opens self.new.opens }
        ensures appends { IfOk result (λ keeper. (keeper.appends.failing ≡ self.old.failing_appends)
            × (keeper.appends.made ≡ 0)) }
        ensures reads { IfOk result (λ keeper. (keeper.reads.failing ≡ self.old.failing_reads)
            × (keeper.reads.made ≡ 0)) }
        ensures lists { (self.new.failing_appends ≡ self.old.failing_appends)
            × (self.new.failing_reads ≡ self.old.failing_reads) }
        ensures files { files self.new.stores ≡ files self.old.stores }
    {
        if self.opens.begin() {
            self.faults = self.faults.saturating_add(1);
            return Err(KeeperError::Failed);
        }
        if self.make_store(path).is_err() {
            return Err(KeeperError::OutOfMemory);
        }
        match self.keeper_at(path) {
            Ok(keeper) => Ok(keeper),
            Err(_) => Err(KeeperError::OutOfMemory),
        }
    }

    fn shut(&mut self, path: &str, keeper: MemKeeper)
        requires { IsTrue (has_store self.old.stores path.now) }
        ensures kept { IfSome (Some keeper.rows)
            (λ kept. StandsAfter false kept [] (Some (files self.old.stores path.now))
            (Some (files self.new.stores path.now))) }
        ensures others { (other : List ℕ) → other ≢ path.now
            → Some (files self.new.stores other) ≡ Some (files self.old.stores other) }
        ensures count { Gains self.old.faults keeper.faults self.new.faults }

        ensures files { files self.new.stores ≡ with_rows (files self.old.stores) path.now keeper.rows }
        ensures faults { self.new.faults ≡ min (self.old.faults + keeper.faults) (2 ^ 64 - 1) }
        ensures opens { self.new.opens ≡ self.old.opens }
        ensures lists { (self.new.failing_appends ≡ self.old.failing_appends)
            × (self.new.failing_reads ≡ self.old.failing_reads) }
    {
        let (rows, faults) = keeper.into_parts();
        self.faults = self.faults.saturating_add(faults);
        put(&mut self.stores, path, rows);
    }
}
