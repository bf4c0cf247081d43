// SPDX-License-Identifier: Apache-2.0 OR MIT
//! The answer to words that are refused.
ghost use Rattle.std.specs.Prelude.{◌≡◌};
ghost use Rattle.cr_words.specs.Usage.{usage};

/// Returns the line that is written where the words are refused, its line feed included.
#[tactic(auto, unfolding(crate::specs::Usage::usage))]
pub fn usage_text() -> &'static [u8]
    ensures { result.now ≡ usage }
{
    b"usage: confd pipe|serve|view|drill\n"
}
