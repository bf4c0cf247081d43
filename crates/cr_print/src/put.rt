// SPDX-License-Identifier: Apache-2.0 OR MIT
//! Bytes appended where room was made before.
ghost use Rattle.std.specs.Prelude.{length};
ghost use Rattle.cr_json.specs.Put.{HasRoom, Puts};

/// Appends a piece where there is room.
pub(crate) fn put(into: &mut Vec<u8>, piece: &[u8])
    requires { HasRoom into.old (length piece.now) }
    ensures { Puts into.old into.new piece.now (length piece.now) }
{
    into.extend_from_slice(piece).unwrap();
}
