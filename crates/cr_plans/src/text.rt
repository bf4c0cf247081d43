// SPDX-License-Identifier: Apache-2.0 OR MIT
//! The text of a plan.
ghost use Rattle.std.specs.Prelude.{◌≡◌, ◌<◌, ◌++◌, IfOk, OnOk, length};
ghost use Rattle.std.specs.List.{flat_map};
ghost use Rattle.cr_base.specs.Plans.{plan_header};
ghost use Rattle.cr_match.specs.Answer.{AreInside};
ghost use Rattle.cr_plans.specs.Pairing.{row_at};

use crate::put::{append_header, append_row};
use cr_base::{AccountLine, Blob, PaperNo};
use cr_match::Pair;
use std::alloc::{AllocError, Global};

/// Appends the row of a pair of places.
///
/// # Errors
///
/// If memory runs out.
fn append_pair(
    into: &mut Vec<u8>,
    papers: &[PaperNo],
    members: &[AccountLine],
    pair: &Pair,
) -> Result<(), AllocError>
    requires paper { pair.now.paper < length papers.now }
    requires member { pair.now.member < length members.now }
    ensures { OnOk result (into.new.items ≡ into.old.items ++ row_at papers.now members.now pair.now) }
{
    let paper = papers[pair.paper as usize];
    let member = members[pair.member as usize];
    append_row(into, paper.number(), member.name.as_slice())
}

/// Returns the header, and the row of each pair of places over these papers and members.
///
/// # Errors
///
/// If memory runs out.
pub(crate) fn text(
    alloc: Global,
    papers: &[PaperNo],
    members: &[AccountLine],
    pairs: &[Pair],
) -> Result<Blob, AllocError>
    requires { AreInside (length papers.now) (length members.now) pairs.now }
    ensures { IfOk result (λ text. text
        ≡ plan_header ++ flat_map (row_at papers.now members.now) pairs.now) }
{
    let mut text = Vec::new(alloc);
    append_header(&mut text)?;
    for pair in pairs {
        append_pair(&mut text, papers, members, pair)?;
    }
    Ok(Blob::from_vec(text)?)
}
