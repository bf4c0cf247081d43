// SPDX-License-Identifier: Apache-2.0 OR MIT
//! A law of what a run leaves.
ghost use Rattle.std.specs.Prelude.{◌≡◌, ℕ, Bool, List, Some, IfSome};
ghost use Rattle.cr_base.specs.History.{History};
ghost use Rattle.cr_base.specs.Rows.{rows_of};
ghost use Rattle.cr_ports.specs.Count.{Rises};
ghost use Rattle.cr_top.specs.Stores.{LeavesRows, ShelfState};

/// If the shelf's fault counter didn't rise and isn't at its last value, the rows that a run leaves at its store's path
/// are those of the last history, all of them and no more, if the shelf tells them.
pub fn law_exact_rows()
    ensures { (tells : Bool) (path : List ℕ) (history : History) (s s' : ShelfState)
        → LeavesRows tells path history s s' → (Rises s.faults s'.faults → ⊥)
        → IfSome (s.rows path) (λ before. s'.rows path ≡ Some (rows_of history)) }
{}
