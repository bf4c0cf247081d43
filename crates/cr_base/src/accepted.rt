// SPDX-License-Identifier: Apache-2.0 OR MIT
//! The accepted papers, as everyone is told of them.

use crate::items::Items;
use crate::numbers::PaperNo;
use crate::page::Names;
use crate::texts::Text;

/// A paper that is accepted.
#[derive(Drop)]
pub struct AcceptedPaper {
    /// Its authors, the submitter first.
    pub authors: Names,
    /// The paper.
    pub paper: PaperNo,
    /// Its last title.
    pub title: Text,
}

/// The accepted papers, by number.
pub type AcceptedPapers = Items<AcceptedPaper>;
