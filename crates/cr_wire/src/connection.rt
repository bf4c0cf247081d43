// SPDX-License-Identifier: Apache-2.0 OR MIT
//! The field Connection.
ghost use Rattle.std.specs.Prelude.{◌≡◌, ◌==◌, reverse};
ghost use Rattle.std.specs.List.{list_any, slice_split};
ghost use Rattle.httparse.specs.Grammar.{is_ows, skip_ows};
ghost use Rattle.cr_wire.specs.Connection.{has_close as has_close_element, is_close as is_close_element};

/// Returns whether a byte is optional white space: a space or a tab (RFC 9110, section 5.6.3).
fn is_blank(byte: u8) -> bool
    ensures { result ≡ is_ows byte }
{
    byte == b' ' || byte == b'\t'
}

/// Returns the bytes after the blanks at the front.
fn without_front(text: &[u8]) -> &[u8]
    ensures { result.now ≡ skip_ows text.now }
{
    let mut rest = text;
    while let [first, tail @ ..] = rest {
        if !is_blank(*first) {
            return rest;
        }
        rest = tail;
    }
    rest
}

/// Returns the bytes in front of the blanks at the back.
fn without_back(text: &[u8]) -> &[u8]
    ensures { result.now ≡ reverse (skip_ows (reverse text.now)) }
{
    let mut rest = text;
    while let [front @ .., last] = rest {
        if !is_blank(*last) {
            return rest;
        }
        rest = front;
    }
    rest
}

/// Returns whether an element of a list is `close`, the blanks around it aside.
#[tactic(auto, unfolding(httparse::specs::Grammar::trim_ows))]
fn is_close(element: &[u8]) -> bool
    ensures { result ≡ is_close_element element.now }
{
    without_back(without_front(element)).eq_ignore_ascii_case(b"close")
}

/// Returns whether a Connection field's value has the element `close`, in any case (RFC 9110, sections 5.6.1 and
/// 7.6.1).
pub(crate) fn has_close(value: &[u8]) -> bool
    ensures { result ≡ has_close_element value.now }
{
    value
        .split(|byte| *byte == b',')
        .any(|element| is_close(element))
}
