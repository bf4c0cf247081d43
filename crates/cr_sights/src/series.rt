// SPDX-License-Identifier: Apache-2.0 OR MIT
//! The series of an entry: what it gives a paper, and a later one may give it again.
ghost use Rattle.std.specs.Prelude.{◌≡◌, ℕ, ◌+◌, ◌*◌, ◌<◌};
ghost use Rattle.cr_base.specs.History.{History};
ghost use Rattle.cr_base.specs.Lists.{is_number};
ghost use Rattle.cr_policy.specs.Triggers.{none_alike};
ghost use Rattle.cr_sights.specs.Series.{is_of, none_of};

use cr_base::{Entry, PaperNo};

/// How many series a paper may have: its texts, the forms under each of 26 labels, its
/// content, and the decisions on it.
const SERIES_PER_PAPER: u32 = 29;

/// Returns the number of the series of a paper at an index: 0 for its texts, 27 for its content, 28 for the decisions
/// on it, and between the first two the ordinal of a label.
fn number(paper: PaperNo, index: u32) -> u32
    requires { index < 29 }
    ensures { result ≡ paper * 29 + index }
{
    paper.number() as u32 * SERIES_PER_PAPER + index
}

/// Returns the number of the series to which an entry belongs: its paper's texts, its content, the reviews under a
/// label, or the decisions on it. `None` if no later entry can give the same again.
pub(crate) fn series(entry: &Entry) -> Option<u32>
    ensures same { (k : ℕ) → is_of k entry.now ≡ is_number result k }
    ensures alike { (H : History) → none_alike entry.now H ≡ none_of result H }
{
    match entry {
        Entry::Submitted { paper, .. } | Entry::Revised { paper, .. } => Some(number(*paper, 0)),
        Entry::Uploaded { paper, .. } => Some(number(*paper, SERIES_PER_PAPER - 2)),
        Entry::Reviewed { paper, ordinal, .. } => Some(number(*paper, ordinal.number() as u32)),
        Entry::Decided { paper, .. } => Some(number(*paper, SERIES_PER_PAPER - 1)),
        _ => None,
    }
}
