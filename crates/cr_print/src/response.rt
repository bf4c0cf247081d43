// SPDX-License-Identifier: Apache-2.0 OR MIT
//! What a paper's authors responded.
ghost use Rattle.cr_json.specs.Put.{Appends};
ghost use Rattle.cr_print.specs.Response.{response_content};

use cr_base::Text;
use cr_json::Object;
use std::alloc::AllocError;

/// Appends the content that tells what a paper's authors responded.
pub(crate) fn append_response(into: &mut Vec<u8>, text: &Text) -> Result<(), AllocError>
    ensures { Appends result into.old into.new (response_content text.now) }
{
    let mut object = Object::open(into)?;
    object.string(into, "text", text.as_str().as_bytes())?;
    object.close(into)
}
