// SPDX-License-Identifier: Apache-2.0 OR MIT
//! The accepted papers.

use crate::object::Object;
use crate::value::Value;
use cr_base::AcceptedPaper;
use std::alloc::AllocError;

/// An accepted paper, as everyone is told of it.
impl Value for AcceptedPaper {
    ghost use Rattle.cr_json.specs.Accepted.{accepted_text};

    ghost text = { accepted_text };

    fn append_to(&self, into: &mut Vec<u8>) -> Result<(), AllocError> {
        let mut object = Object::open(into)?;
        object.list(into, "authors", self.authors.as_slice())?;
        object.number(into, "paper", self.paper.number())?;
        object.string(into, "title", self.title.as_str().as_bytes())?;
        object.close(into)
    }
}
