// SPDX-License-Identifier: Apache-2.0 OR MIT
//! Lists of JSON (RFC 8259, section 5).
ghost use Rattle.std.specs.Prelude.{true, map};
ghost use Rattle.cr_json.specs.Put.{Appends, Takes};
ghost use Rattle.cr_json.specs.Json.{comma, separated, array_text};

use crate::put::append;
use crate::value::Value;
use std::alloc::AllocError;

/// Appends the comma before a value, or nothing before the first of its list.
#[tactic(auto, unfolding(crate::specs::Json::comma))]
pub(crate) fn append_comma(into: &mut Vec<u8>, is_first: bool) -> Result<(), AllocError>
    ensures text { Appends result into.old into.new (comma is_first) }
    ensures room { Takes result into.old into.new 1 }
{
    if is_first {
        return Ok(());
    }
    append(into, b",")?;
    Ok(())
}

fn append_separated<T: Value>(into: &mut Vec<u8>, items: &[T]) -> Result<(), AllocError>
    ensures { Appends result into.old into.new (separated true (map T.text items.now)) }
{
    let mut is_first = true;
    for item in items {
        append_comma(into, is_first)?;
        item.append_to(into)?;
        is_first = false;
    }
    Ok(())
}

/// Appends a list.
#[tactic(auto, unfolding(crate::specs::Json::array_text))]
pub(crate) fn append_list<T: Value>(into: &mut Vec<u8>, items: &[T]) -> Result<(), AllocError>
    ensures { Appends result into.old into.new (array_text (map T.text items.now)) }
{
    append(into, b"[")?;
    append_separated(into, items)?;
    append(into, b"]")?;
    Ok(())
}
