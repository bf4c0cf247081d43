// SPDX-License-Identifier: Apache-2.0 OR MIT
//! The letters that name reviewers.
ghost use Rattle.std.specs.Prelude.{◌≡◌, ◌≤◌};
ghost use Rattle.cr_anonymity.specs.Letters.{letter_of};

use cr_base::Ordinal;

/// Returns the letter that a reviewer is called by on a paper: A for the ordinal 1, and so on to Z for 26; its code in
/// ASCII, from 65 to 90.
///
/// # Cost
///
/// Takes no memory.
pub fn letter(ordinal: Ordinal) -> u8
    ensures letter { result ≡ letter_of ordinal }
    ensures low { 65 ≤ result }
    ensures high { result ≤ 90 }
{
    64 + ordinal.number() as u8
}
