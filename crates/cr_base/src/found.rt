// SPDX-License-Identifier: Apache-2.0 OR MIT
//! The papers that a search finds.

use crate::items::Items;
use crate::numbers::PaperNo;
use crate::texts::Text;

/// A paper that a search finds.
#[derive(Drop)]
pub struct FoundPaper {
    /// The paper.
    pub paper: PaperNo,
    /// Its last title.
    pub title: Text,
}

/// The papers that a search finds, by number.
pub type FoundPapers = Items<FoundPaper>;
