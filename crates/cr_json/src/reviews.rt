// SPDX-License-Identifier: Apache-2.0 OR MIT
//! Reviews of a paper.

use crate::object::Object;
use crate::value::Value;
use cr_base::ReviewLine;
use std::alloc::AllocError;

/// A review, as far as the caller is told of it.
impl Value for ReviewLine {
    ghost use Rattle.cr_json.specs.Reviews.{review_text};

    ghost text = { review_text };

    fn append_to(&self, into: &mut Vec<u8>) -> Result<(), AllocError> {
        let mut object = Object::open(into)?;
        object.number(into, "confidence", self.confidence.number())?;
        object.label(into, "label", self.label)?;
        object.number(into, "score", self.score.number())?;
        object.string(into, "to_authors", self.to_authors.as_str().as_bytes())?;
        object.told(into, "to_pc", &self.to_pc)?;
        object.told(into, "user", &self.user)?;
        object.told(into, "version", &self.version)?;
        object.close(into)
    }
}
