// SPDX-License-Identifier: Apache-2.0 OR MIT
//! The form of a review.
ghost use Rattle.std.specs.Prelude.{◌≡◌, IfOk};

use crate::numbers::Grade;
use crate::texts::{Text, TwoTexts};
use std::alloc::AllocError;

/// What a reviewer writes of a paper (the HotCRP manual's review form, with two texts).
#[derive(Drop)]
pub struct Form {
    /// How good the paper is: 1 to 5.
    pub score: Grade,
    /// How sure the reviewer is: 1 to 5.
    pub confidence: Grade,
    /// What the paper's authors may read of it: UTF-8, at most 20,000 bytes.
    pub to_authors: Text,
    /// The text that only the committee reads: UTF-8, at most 20,000 bytes.
    pub to_pc: Text,
}

impl Form {
    /// Returns an equal one, which shares its texts.
    ///
    /// # Errors
    ///
    /// If memory runs out.
    pub fn copy(&self) -> Result<Form, AllocError>
        ensures { IfOk result (λ form. form ≡ self.now) }
    {
        let texts = TwoTexts::copies(&self.to_authors, &self.to_pc)?;
        Ok(Form {
            score: self.score,
            confidence: self.confidence,
            to_authors: texts.first,
            to_pc: texts.second,
        })
    }
}
