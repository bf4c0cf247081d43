// SPDX-License-Identifier: Apache-2.0 OR MIT
//! Papers that a search finds.

use crate::object::Object;
use crate::value::Value;
use cr_base::FoundPaper;
use std::alloc::AllocError;

/// A paper that a search finds.
impl Value for FoundPaper {
    ghost use Rattle.cr_json.specs.Found.{found_paper_text};

    ghost text = { found_paper_text };

    fn append_to(&self, into: &mut Vec<u8>) -> Result<(), AllocError> {
        let mut object = Object::open(into)?;
        object.number(into, "paper", self.paper.number())?;
        object.string(into, "title", self.title.as_str().as_bytes())?;
        object.close(into)
    }
}
