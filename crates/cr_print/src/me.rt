// SPDX-License-Identifier: Apache-2.0 OR MIT
//! What a user is told of themselves.
ghost use Rattle.cr_json.specs.Put.{Appends};
ghost use Rattle.cr_print.specs.Me.{me_content};

use cr_base::Me;
use cr_json::Object;
use std::alloc::AllocError;

/// Appends the content that tells a user of themselves.
pub(crate) fn append_me(into: &mut Vec<u8>, me: &Me) -> Result<(), AllocError>
    ensures { Appends result into.old into.new (me_content me.now) }
{
    let mut object = Object::open(into)?;
    object.list(into, "assigned", me.assigned.as_slice())?;
    object.number(into, "bytes", me.bytes)?;
    object.number(into, "comments", me.comments)?;
    object.list(into, "conflicts", me.conflicts.as_slice())?;
    object.list(into, "invited", me.invited.as_slice())?;
    object.string(into, "name", me.name.as_slice())?;
    object.list(into, "papers", me.papers.as_slice())?;
    object.string(into, "role", me.role.name().as_bytes())?;
    object.number(into, "user", me.user.number())?;
    object.close(into)
}
