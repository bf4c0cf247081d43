// SPDX-License-Identifier: Apache-2.0 OR MIT
//! Texts that have a value, letters of ASCII without regard to case.
ghost use Rattle.std.specs.Prelude.{◌≡◌, ◌<◌, length, drop, slice_index};
ghost use Rattle.cr_base.specs.Searching.{begins_alike, contains};

use memchr::memchr2_iter;

/// Returns whether the text begins with the value. A look at each byte of the value, up to the first that isn't like
/// the text's.
fn begins_alike(value: &[u8], text: &[u8]) -> bool
    ensures { result ≡ begins_alike value.now text.now }
{
    if text.len() < value.len() {
        return false;
    }
    for at in 0..value.len() {
        if !value[at].eq_ignore_ascii_case(&text[at]) {
            return false;
        }
    }
    true
}

/// Returns whether the value is somewhere in the text. Leaps from one byte that is like the value's first to the next,
/// and looks at more after each.
pub(crate) fn contains(value: &[u8], text: &[u8]) -> bool
    ensures { result ≡ contains value.now text.now }
{
    if value.is_empty() {
        return true;
    }
    let (lower, upper) = (value[0].to_ascii_lowercase(), value[0].to_ascii_uppercase());
    for at in memchr2_iter(lower, upper, text) {
        if begins_alike(value, &text[at..]) {
            return true;
        }
    }
    false
}
