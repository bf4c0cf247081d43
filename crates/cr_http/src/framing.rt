// SPDX-License-Identifier: Apache-2.0 OR MIT
//! How long a body is, by the fields of its head.
ghost use Rattle.std.specs.Prelude.{◌≡◌, ◌≤◌, ◌∷◌, [], length, ℕ, List, IsTrue};
ghost use Rattle.std.specs.Char.{is_ascii_digit};
ghost use Rattle.std.specs.List.{list_all};
ghost use Rattle.cr_http.specs.Head.{framing_by_length, framing_of, has_hosts, is_length, IsShort};
ghost use Rattle.cr_http.specs.Values.{AreValues};

use crate::head::{Head, Version};
use crate::refusal::Refusal;
use crate::values::Values;
use cr_base::{all_digits, decimal_value};

/// The longest body that is read, in bytes.
pub const MAX_BODY: usize = 4_194_304;

/// What the fields of a head say of its body.
#[derive(Clone, Copy, PartialEq, Eq)]
pub enum Framing {
    /// It has so many bytes.
    Body(usize),
    /// The request is refused.
    Refuse(Refusal),
}

/// Returns whether it is 1 to 18 digits.
fn is_length(value: &[u8]) -> bool
    ensures is { result ≡ is_length value.now }
    ensures short { IsTrue result → length value.now ≤ 18 }
    ensures digits { IsTrue result → IsTrue (list_all is_ascii_digit value.now) }
{
    if value.is_empty() || value.len() > 18 {
        return false;
    }
    all_digits(value)
}

fn framing_by_length(values: Values<'_>) -> Framing
    ensures is { (list : List (List ℕ)) → AreValues values.entry list → result ≡ framing_by_length list }
    ensures short { IsShort result }
{
    match values {
        Values::None => Framing::Body(0),
        Values::Many => Framing::Refuse(Refusal::BadLength),
        Values::One(value) => framing_by_value(value),
    }
}

fn framing_by_value(value: &[u8]) -> Framing
    ensures is { result ≡ framing_by_length (value.now ∷ []) }
    ensures short { IsShort result }
{
    if !is_length(value) {
        return Framing::Refuse(Refusal::BadLength);
    }
    let len = decimal_value(value) as usize;
    if len > MAX_BODY {
        Framing::Refuse(Refusal::TooLarge)
    } else {
        Framing::Body(len)
    }
}

/// Returns whether a head of this version may have these fields Host.
fn has_hosts(version: Version, hosts: Values<'_>) -> bool
    ensures { (list : List (List ℕ)) → AreValues hosts.entry list → result ≡ has_hosts version (length list) }
{
    match hosts {
        Values::None => version == Version::Http10,
        Values::One(_) => true,
        Values::Many => false,
    }
}

/// Returns what the fields of the head say: first Host is judged, then Transfer-Encoding, then Content-Length (RFC
/// 9112, sections 3.2 and 6).
pub fn framing_of(head: &Head<'_>) -> Framing
    ensures is { result ≡ framing_of head.now }
    ensures short { IsShort result }
{
    if !has_hosts(head.version(), head.values_of(b"host")) {
        return Framing::Refuse(Refusal::NoHost);
    }
    match head.values_of(b"transfer-encoding") {
        Values::None => framing_by_length(head.values_of(b"content-length")),
        _ => Framing::Refuse(Refusal::LengthRequired),
    }
}
