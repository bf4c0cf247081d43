// SPDX-License-Identifier: Apache-2.0 OR MIT
//! Comments on a paper.

use crate::object::Object;
use crate::value::Value;
use cr_base::CommentLine;
use std::alloc::AllocError;

/// A comment, as far as the caller is told who wrote it.
impl Value for CommentLine {
    ghost use Rattle.cr_json.specs.Comments.{comment_text};

    ghost text = { comment_text };

    fn append_to(&self, into: &mut Vec<u8>) -> Result<(), AllocError> {
        let mut object = Object::open(into)?;
        object.told(into, "label", &self.label)?;
        object.number(into, "n", self.n)?;
        object.string(into, "text", self.text.as_str().as_bytes())?;
        object.told(into, "user", &self.user)?;
        object.close(into)
    }
}
