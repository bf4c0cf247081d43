// SPDX-License-Identifier: Apache-2.0 OR MIT
//! The order in which tags are kept.
ghost use Rattle.std.specs.Prelude.{◌≡◌};
ghost use Rattle.cr_base.specs.Tags.{owner_number, tag_order};

use cr_base::{SetTag, UserNo};
use std::cmp::Ordering;

/// Returns an owner's number, and 0 if the tag has no owner.
fn owner_number(owner: &Option<UserNo>) -> u64
    ensures { result ≡ owner_number owner.now }
{
    match owner {
        Some(user) => user.number(),
        None => 0,
    }
}

/// Compares two tags by their bytes, and equal ones by their owners' numbers.
pub(crate) fn compare(first: &SetTag, second: &SetTag) -> Ordering
    ensures { result ≡ tag_order first.now second.now }
{
    let bytes = first.tag.as_slice().cmp(&second.tag.as_slice());
    bytes.then(owner_number(&first.owner).cmp(&owner_number(&second.owner)))
}
