// SPDX-License-Identifier: Apache-2.0 OR MIT
//! Accounts.

use crate::object::Object;
use crate::value::Value;
use cr_base::AccountLine;
use std::alloc::AllocError;

/// An account, as everyone sees it.
impl Value for AccountLine {
    ghost use Rattle.cr_json.specs.Accounts.{account_text};

    ghost text = { account_text };

    fn append_to(&self, into: &mut Vec<u8>) -> Result<(), AllocError> {
        let mut object = Object::open(into)?;
        object.string(into, "name", self.name.as_slice())?;
        object.string(into, "role", self.role.name().as_bytes())?;
        object.number(into, "user", self.user.number())?;
        object.close(into)
    }
}
