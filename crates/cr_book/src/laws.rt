// SPDX-License-Identifier: Apache-2.0 OR MIT
//! A law over the definitions alone: what the tables tell of a user is what the history does.
ghost use Rattle.std.specs.Prelude.{◌≡◌, ℕ, Option};
ghost use Rattle.cr_base.specs.HistoryFacts.{standing_of};
ghost use Rattle.cr_base.specs.History.{History};
ghost use Rattle.cr_base.specs.Sources.{standing_at};
ghost use Rattle.cr_base.specs.Tables.{tables_of};
ghost use Rattle.cr_policy.specs.Legal.{Legal};

/// States that the tables of a legal history, as `Live::standing` reads them, give a user, or nobody, the same phase,
/// mode, role and ties to a paper, if one is named, as the history does.
pub fn law_standing_by_tables()
    ensures { (user paper : Option ℕ) (H : History) → Legal H
        → standing_at (tables_of H) user paper ≡ standing_of user paper H }
{}
