// SPDX-License-Identifier: Apache-2.0 OR MIT
//! How many entries are of a kind.
ghost use Rattle.std.specs.Prelude.{◌≡◌};
ghost use Rattle.cr_book.specs.Kinds.{count_of_kind, is_of_kind};

use cr_base::{EntryKind, Stamped};

/// Returns whether an entry is of the kind.
fn is_of_kind(stamped: &Stamped, kind: EntryKind) -> bool
    ensures { result ≡ is_of_kind kind stamped.now }
{
    stamped.entry.kind().number() == kind.number()
}

/// Counts the entries of the kind.
///
/// # Cost
///
/// Takes no memory; one walk over the entries.
pub(crate) fn count_of_kind(entries: &[Stamped], kind: EntryKind) -> usize
    ensures { result ≡ count_of_kind kind entries.now }
{
    entries
        .iter()
        .filter(|stamped| is_of_kind(stamped, kind))
        .count()
}
