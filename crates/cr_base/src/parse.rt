// SPDX-License-Identifier: Apache-2.0 OR MIT
//! Numbers of papers and names of users, as texts spell them.
ghost use Rattle.std.specs.Prelude.{◌≡◌};
ghost use Rattle.cr_base.specs.Parse as spec;

use crate::digits::{all_digits, decimal_value};
use crate::numbers::PaperNo;
use crate::texts::{Short, is_name};

/// Returns whether a text has from one to four bytes.
fn is_short(text: &[u8]) -> bool
    ensures { result ≡ spec.is_short text.now }
{
    1 <= text.len() && text.len() <= 4
}

/// Returns whether a text is a number from 1 to 9,999 in decimal.
fn is_paper_number(text: &[u8]) -> bool
    ensures { result ≡ spec.is_paper_number text.now }
{
    is_short(text) && text[0] != b'0' && all_digits(text)
}

/// Returns the paper of a text: Some exactly if it is a number from 1 to 9,999 in decimal, without a sign and without
/// a zero in front.
///
/// # Cost
///
/// Looks at four bytes at most. Takes no memory.
pub fn parse_paper(text: &[u8]) -> Option<PaperNo>
    ensures { result ≡ spec.parse_paper text.now }
{
    if is_paper_number(text) {
        Some(PaperNo::new(decimal_value(text)))
    } else {
        None
    }
}

/// Returns the name that a text is: 1 to 32 of `a-z0-9-`. `None` if it is no name.
///
/// # Cost
///
/// One walk over at most 32 bytes. Takes no memory.
pub fn parse_name(text: &[u8]) -> Option<Short>
    ensures { result ≡ spec.parse_name text.now }
{
    if is_name(text) {
        Some(Short::from_slice(text))
    } else {
        None
    }
}
