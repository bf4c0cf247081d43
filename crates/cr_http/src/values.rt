// SPDX-License-Identifier: Apache-2.0 OR MIT
//! The values of the fields of one name, in order.
ghost use Rattle.std.specs.Prelude.{◌≡◌, ◌∷◌, ℕ, List, [], length, All, IfSome, MatchOption};
ghost use Rattle.httparse.specs.Spans.{IsHeaderWithin};
ghost use Rattle.cr_http.specs.Head.{same_name};
ghost use Rattle.cr_http.specs.Values.{values_at, HasNext};

use httparse::spans::HeaderSpan;
use std::marker::Model;

/// The values of the fields of one name, where one is wanted.
#[derive(Clone, Copy)]
pub enum Values<'b> {
    /// There is no such field.
    None,
    /// The value of the only one, without the white space around it.
    One(&'b [u8]),
    /// There is more than one.
    Many,
}

fn same_name(a: &[u8], b: &[u8]) -> bool
    ensures { result ≡ same_name a.now b.now }
{
    a.eq_ignore_ascii_case(b)
}

/// Returns the value of the first field of that name, and the fields after it.
pub(crate) fn first_value<'b>(
    bytes: &'b [u8],
    fields: &'b [HeaderSpan],
    name: &[u8],
) -> Option<(&'b [u8], &'b [HeaderSpan])>
    requires { All (IsHeaderWithin (length bytes.now)) fields.now }
    ensures values { MatchOption result (values_at bytes.now fields.now name.now ≡ [])
        (λ r. values_at bytes.now fields.now name.now ≡ r.0.now ∷ values_at bytes.now r.1.now name.now) }
    ensures within { IfSome result (λ r. All (IsHeaderWithin (length bytes.now)) r.1.now) }
{
    let [first, rest @ ..] = fields else {
        return None;
    };
    if same_name(first.name.of(bytes), name) {
        return Some((first.value.of(bytes), rest));
    }
    first_value(bytes, rest, name)
}

/// Goes over the values of all fields of one name, in order.
///
/// # Model
///
/// The values to come.
#[derive(Drop)]
pub struct AllValues<'b> {
    bytes: &'b [u8],
    fields: &'b [HeaderSpan],
    name: &'b [u8],
}

impl<'b> Model for AllValues<'b> {
    ghost Value = { List (List ℕ) };

    ghost view = { λ v. values_at v.bytes.now v.fields.now v.name.now };

    ghost invariant = { λ v. All (IsHeaderWithin (length v.bytes.now)) v.fields.now };
}

impl<'b> AllValues<'b> {
    pub(crate) fn new(bytes: &'b [u8], fields: &'b [HeaderSpan], name: &'b [u8]) -> Self
        requires { All (IsHeaderWithin (length bytes.now)) fields.now }
        ensures { result ≡ values_at bytes.now fields.now name.now }
    {
        AllValues {
            bytes,
            fields,
            name,
        }
    }

    /// Returns the next value, without the white space around it, or none where none is left.
    ///
    /// # Cost
    ///
    /// A look at the names of the fields up to it.
    pub fn next(&mut self) -> Option<&'b [u8]>
        ensures { HasNext self.old result self.new }
    {
        match first_value(self.bytes, self.fields, self.name) {
            None => {
                self.fields = &[];
                None
            }
            Some((value, rest)) => {
                self.fields = rest;
                Some(value)
            }
        }
    }
}
