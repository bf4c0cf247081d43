// SPDX-License-Identifier: Apache-2.0 OR MIT
//! What reports ask of a paper's facts: whether it is told to a member of the committee line by line, and its title.
ghost use Rattle.std.specs.Prelude.{◌≡◌};
ghost use Rattle.cr_reports.specs.ReportLines.{is_open_seen, titled};

use cr_view::PaperFacts;

/// Returns whether the user is in no conflict with the paper, and it isn't withdrawn. Reads no table.
pub(crate) fn is_open(facts: &PaperFacts<'_>) -> bool
    ensures { result ≡ is_open_seen facts.now }
{
    !facts.by().conflicted && !facts.is_withdrawn()
}

/// Returns the paper's last title; no bytes if there is no such paper. Reads no table.
pub(crate) fn title<'a>(facts: &PaperFacts<'a>) -> &'a [u8]
    ensures { result.now ≡ titled facts.now }
{
    match facts.title() {
        Some(title) => title.as_str().as_bytes(),
        None => b"",
    }
}
