// SPDX-License-Identifier: Apache-2.0 OR MIT
//! The papers of pairs.
ghost use Rattle.std.specs.Prelude.{◌≡◌, IfOk, map};

use cr_base::{Pair, PaperNo};
use std::alloc::{AllocError, Global};

/// Returns the paper of each of the pairs, in their order.
///
/// # Errors
///
/// If memory runs out.
///
/// # Cost
///
/// A walk over them.
pub fn papers_of(alloc: Global, pairs: &[Pair]) -> Result<Vec<PaperNo>, AllocError>
    ensures { IfOk result (λ papers. papers.items ≡ map (λ pair. pair.paper) pairs.now) }
{
    pairs.iter().map(|pair| pair.paper).collect(alloc)
}
