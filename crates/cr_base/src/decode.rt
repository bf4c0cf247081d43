// SPDX-License-Identifier: Apache-2.0 OR MIT
//! Why bytes give no value.

use std::alloc::AllocError;

/// Why bytes give no value.
#[derive(Clone, Copy, PartialEq, Eq)]
pub enum DecodeError {
    /// They spell none.
    Malformed,
    /// Memory ran out.
    OutOfMemory,
}

impl From<AllocError> for DecodeError {
    ghost use Rattle.std.specs.Prelude.{◌≡◌};
    ghost use Rattle.cr_base.specs.declared.decode.DecodeError.TheVariants.{OutOfMemory};

    ghost from_gives = { λ _ e. e ≡ OutOfMemory };

    fn from(_: AllocError) -> DecodeError {
        DecodeError::OutOfMemory
    }
}
