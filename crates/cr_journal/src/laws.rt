// SPDX-License-Identifier: Apache-2.0 OR MIT
//! Laws of journals.
ghost use Rattle.std.specs.Prelude.{◌≡◌, List, ℕ};
ghost use Rattle.cr_base.specs.declared.row.Row.{Row};
ghost use Rattle.cr_journal.specs.Grammar.{IsJournalOf};

/// Proves that a file is a journal of one list of groups at most.
pub fn law_one_reading()
    ensures one { (one other : List (List Row)) (file : List ℕ) → IsJournalOf one file → IsJournalOf other file
        → one ≡ other }
{}
