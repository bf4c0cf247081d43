// SPDX-License-Identifier: Apache-2.0 OR MIT
//! What opens keepers by their paths.
ghost use Rattle.std.specs.Prelude.{◌≡◌, ◌≢◌, ◌↔◌, [], ℕ, Bool, List, Option, Some, IfOk, IsTrue, IfSome};
ghost use Rattle.cr_base.specs.declared.row.Row.{Row};
ghost use Rattle.cr_ports.specs.Count.{Gains};
ghost use Rattle.cr_ports.specs.Keeping.{HasCause};
ghost use Rattle.cr_ports.specs.Shelving.{StandsAfter, StaysOpened};

use crate::keeper::{Keeper, KeeperError};

/// Opens a keeper of the rows at a path, and takes it back.
pub trait Shelf {
    /// What it opens. It may go to another thread.
    type Keeper: Keeper + Send;

    /// The rows at a path, if the shelf tells them there; those that a keeper appends are there once it was shut.
    ghost rows: { Self → List ℕ → Option (List Row) };

    /// The keepers that it opens at a path tell what a stop may leave.
    ghost tells_stops: { Self → List ℕ → Bool };

    /// A keeper of this kind may be taken back at this path.
    ghost has_opened: { Self → List ℕ → List Bool → Type 0 };

    /// How often a call of the shelf, or of a keeper that was shut, has failed.
    ghost faults: { Self → ℕ };

    /// The moment at which it last opened a keeper, if its keepers tell what a stop may leave. A shelf with several
    /// kinds of keepers gives the last of the kind at this path.
    ghost opened_at: { Self → List ℕ → ℕ };

    /// The bytes that a stop since then may have left at a path at which it took back a keeper, if keepers tell that.
    ghost left: { Self → List ℕ → List ℕ → Type 0 };

    /// Opens a keeper of the rows at the path, which has counted no fault. A path at which nothing is has no rows.
    /// Each path keeps the rows that it had, unless a keeper that tells stops fails while it makes a file.
    ///
    /// # Errors
    ///
    /// - `Failed`: the fault counter rose.
    /// - `OutOfMemory`: memory ran out. The fault counter is unchanged.
    ///
    /// # Cost
    ///
    /// An adapter may look at all that is at the path.
    fn open(&mut self, path: &str) -> Result<Self::Keeper, KeeperError>
        ensures found { IfOk result
            (λ keeper. IfSome (rows self.old path.now) (λ there. Self.Keeper.rows keeper ≡ Some there)) }
        ensures fresh { IfOk result (λ keeper. Self.Keeper.faults keeper ≡ 0) }
        ensures opened { IfOk result (λ keeper. has_opened self.new path.now (Self.Keeper.kind keeper)) }
        ensures telling { IfOk result
            (λ keeper. Self.Keeper.tells_stops keeper ≡ tells_stops self.old path.now) }
        ensures begins { IfOk result (λ keeper. IsTrue (Self.Keeper.tells_stops keeper)
            → (opened_at self.new path.now ≡ Self.Keeper.moment keeper) × (Self.Keeper.tried keeper ≡ [])) }
        ensures same { StaysOpened (tells_stops self.old path.now) path.now result (rows self.old) (rows self.new) }
        ensures cause { HasCause (faults self.old) (faults self.new) result };

    /// Takes back a keeper of a kind that was opened at this path. Its rows are then at the path; if it tells what a
    /// stop leaves, one whole group that was tried may follow them. Each other path keeps what it had. The fault
    /// counter rises by at least the keeper's, up to its maximum. Takes no memory.
    fn shut(&mut self, path: &str, keeper: Self::Keeper)
        requires { has_opened self.old path.now (Self.Keeper.kind keeper) }
        ensures kept { IfSome (Self.Keeper.rows keeper)
            (λ kept. StandsAfter (Self.Keeper.tells_stops keeper) kept (Self.Keeper.tried keeper)
            (rows self.old path.now) (rows self.new path.now)) }
        ensures others { (other : List ℕ) → other ≢ path.now → rows self.new other ≡ rows self.old other }
        ensures stops { IsTrue (Self.Keeper.tells_stops keeper) → (image : List ℕ)
            → left self.new path.now image ↔ Self.Keeper.left_since keeper (opened_at self.old path.now) image }
        ensures count { Gains (faults self.old) (Self.Keeper.faults keeper) (faults self.new) };
}
