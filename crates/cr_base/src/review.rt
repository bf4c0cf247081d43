// SPDX-License-Identifier: Apache-2.0 OR MIT
//! Reviews: what is kept of one, and how it is told.
ghost use Rattle.std.specs.Prelude.{◌≡◌, ◌==◌};

use crate::form::Form;
use crate::items::Items;
use crate::numbers::{Grade, Ordinal};
use crate::texts::{Short, Text};
use crate::words::Phase;

/// What is kept of a form that a reviewer has written. All of them are kept, since which one is whose to read goes by
/// the phase.
#[derive(Drop)]
pub struct WrittenForm {
    /// The ordinal of the label under which it was written.
    pub ordinal: Ordinal,
    /// Its number among those of the label, from 1.
    pub version: u64,
    /// The phase in which it was written.
    pub phase: Phase,
    /// The form.
    pub form: Form,
}

impl WrittenForm {
    /// Returns whether it was written under the label of this ordinal.
    pub fn is_under(&self, ordinal: Ordinal) -> bool
        ensures { result ≡ (self.now.ordinal == ordinal) }
    {
        self.ordinal.number() == ordinal.number()
    }
}

/// A review as an answer has it: each of its last three parts is there only if the caller may be told it.
#[derive(Drop)]
pub struct ReviewLine {
    /// How sure the reviewer is.
    pub confidence: Grade,
    /// The ordinal of the reviewer's label.
    pub label: Ordinal,
    /// The reviewer's grade of the paper.
    pub score: Grade,
    /// What the authors may read of it.
    pub to_authors: Text,
    /// The text that only the committee reads.
    pub to_pc: Option<Text>,
    /// The reviewer's name.
    pub user: Option<Short>,
    /// The number of the form among those of the label, from 1.
    pub version: Option<u64>,
}

/// Reviews of a paper, by label, those of a label by version.
pub type ReviewLines = Items<ReviewLine>;
