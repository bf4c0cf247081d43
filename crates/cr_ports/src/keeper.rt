// SPDX-License-Identifier: Apache-2.0 OR MIT
//! A list of rows that only grows.
ghost use Rattle.std.specs.Prelude.{◌≡◌, ◌<◌, ◌∷◌, ℕ, Bool, List, length, Option, IfOk, IfSome, OnOk, OnErr, slice_get};
ghost use Rattle.std.specs.Prelude.{Err, IsTrue, Some, is_some};
ghost use Rattle.cr_base.specs.declared.row.Row.{Row};
ghost use Rattle.cr_ports.specs.Keeping.{HasCause, and_rows};
ghost use Rattle.cr_ports.specs.Stopping.{LeavesOnly, OpensToTold, TriedAfter};

use cr_base::Row;

/// Why a keeper didn't do what it was asked.
#[derive(Clone, Copy, PartialEq, Eq)]
pub enum KeeperError {
    /// A fault of what keeps the rows, which was counted.
    Failed,
    /// Out of memory, which is no fault and isn't counted as one.
    OutOfMemory,
}

/// Keeps a list of rows that only grows. A call that is refused changes no row.
pub trait Keeper {
    /// The rows, if the keeper tells them.
    ghost rows: { Self → Option (List Row) };

    /// How often a call has failed.
    ghost faults: { Self → ℕ };

    /// Which it is of several kinds that one type may have, by the choices that lead to it. No call changes it.
    ghost kind: { Self → List Bool };

    /// The keeper tells what a stop may leave. `tried`, `moment`, `left_since` and `opens` speak of a keeper that
    /// does.
    ghost tells_stops: { Self → Bool };

    /// Keepers of one kind agree in whether they tell what a stop may leave.
    ghost tells_alike: { (keeper other : Self) → kind keeper ≡ kind other
        → tells_stops keeper ≡ tells_stops other };

    /// Keepers of one kind agree in whether they tell their rows.
    ghost rows_alike: { (keeper other : Self) → kind keeper ≡ kind other
        → is_some (rows keeper) ≡ is_some (rows other) };

    /// A keeper that tells what a stop may leave tells its rows as well.
    ghost rows_told: { (keeper : Self) → IsTrue (tells_stops keeper) → IsTrue (is_some (rows keeper)) };

    /// The groups of which after a stop one may be found, whole, after the rows: their appends failed since the last
    /// success.
    ghost tried: { Self → List (List Row) };

    /// The keeper's own time, as a number that doesn't fall.
    ghost moment: { Self → ℕ };

    /// The bytes that a stop may have left at some moment from that one on, during a call or between two.
    ghost left_since: { Self → ℕ → List ℕ → Type 0 };

    /// The rows to which it opens the bytes that a stop left.
    ghost opens: { List ℕ → List Row → Type 0 };

    /// Appends all of `added` to the rows, or none of it.
    ///
    /// A stop at any moment of the call leaves bytes that open to the rows from before, or to these and one whole
    /// group after them: `added`, or one that was tried.
    ///
    /// # Errors
    ///
    /// - `Failed`: the fault counter rose. The rows are as before.
    /// - `OutOfMemory`: memory ran out. The rows and the fault counter are as before, and nothing was tried: a keeper
    ///   that tells what a stop leaves is unchanged.
    ///
    /// # Cost
    ///
    /// At most a copy of each row of `added`; an adapter may wait for its store.
    fn append_all(&mut self, added: &[Row]) -> Result<(), KeeperError>
        ensures kept { OnOk result (rows self.new ≡ and_rows (rows self.old) added.now) }
        ensures refused { OnErr result (rows self.new ≡ rows self.old) }
        ensures alike { kind self.new ≡ kind self.old }
        ensures tried { IsTrue (tells_stops self.old) → TriedAfter result (tried self.old) added.now (tried self.new) }
        ensures stops { IsTrue (tells_stops self.old) → LeavesOnly moment left_since self.old self.new
            (OpensToTold opens (rows self.old) (added.now ∷ tried self.old)) }
        ensures between { IsTrue (tells_stops self.old) → (image : List ℕ) → left_since self.new (moment self.new) image
            → OpensToTold opens (rows self.new) (tried self.new) image }
        ensures untried { IsTrue (tells_stops self.old) → result ≡ Err KeeperError.OutOfMemory → self.new ≡ self.old }
        ensures cause { HasCause (faults self.old) (faults self.new) result };

    /// Returns how many rows are kept. A stop before the next call leaves bytes that open to the rows, or to these
    /// and one whole group that was tried.
    ///
    /// # Errors
    ///
    /// - `Failed`: the fault counter rose.
    /// - `OutOfMemory`: memory ran out. The fault counter is unchanged.
    ///
    /// # Cost
    ///
    /// No look at a row; an adapter may wait for its store.
    fn len(&mut self) -> Result<u64, KeeperError>
        ensures told { IfOk result (λ n. IfSome (rows self.old) (λ rows. n ≡ length rows)) }
        ensures same { rows self.new ≡ rows self.old }
        ensures alike { kind self.new ≡ kind self.old }
        ensures still { IsTrue (tells_stops self.old) → self.new ≡ self.old }
        ensures between { IsTrue (tells_stops self.old) → (image : List ℕ) → left_since self.old (moment self.old) image
            → OpensToTold opens (rows self.old) (tried self.old) image }
        ensures cause { HasCause (faults self.old) (faults self.new) result };

    /// Copies row number `at`, from 0; it is below the number of rows.
    ///
    /// # Errors
    ///
    /// - `Failed`: the fault counter rose.
    /// - `OutOfMemory`: memory ran out. The fault counter is unchanged.
    ///
    /// # Cost
    ///
    /// A copy of that one row.
    fn row(&mut self, at: u64) -> Result<Row, KeeperError>
        requires { IfSome (rows self.old) (λ rows. at < length rows) }
        ensures told { IfOk result (λ row. IfSome (rows self.old) (λ rows. slice_get rows at ≡ Some row)) }
        ensures same { rows self.new ≡ rows self.old }
        ensures alike { kind self.new ≡ kind self.old }
        ensures still { IsTrue (tells_stops self.old) → self.new ≡ self.old }
        ensures cause { HasCause (faults self.old) (faults self.new) result };
}
