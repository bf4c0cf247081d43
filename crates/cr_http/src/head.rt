// SPDX-License-Identifier: Apache-2.0 OR MIT
//! The head of a request, lent from the bytes that were read.
ghost use Rattle.std.specs.Prelude.{◌≡◌, ◌≤◌, ◌∷◌, ℕ, List, [], length, map, take, All, IfSome, IfNone};
ghost use Rattle.httparse.specs.Grammar.{RequestHead, ReadsRequest};
ghost use Rattle.httparse.specs.Spans.{IsRequestAt, IsRequestWithin, IsWithin};
ghost use Rattle.httparse.specs.Spans.{IsHeaderWithin, span_bytes, header_bytes};
ghost use Rattle.cr_http.specs.Head.{HeadText, is_head_method, values_of, version_of};
ghost use Rattle.cr_http.specs.Found.{IsNoHead, line_feeds};
ghost use Rattle.cr_http.specs.Extent.{spans_head};
ghost use Rattle.cr_http.specs.Values.{AreValues};

use crate::values::{AllValues, Values, first_value};
use httparse::Status;
use httparse::spans::{HeaderSpan, RequestSpans, Span, parse_request};
use std::marker::Model;

/// How many fields a head may have.
pub const MAX_FIELDS: usize = 64;

/// The version of HTTP that a head names.
#[derive(Clone, Copy, PartialEq, Eq)]
pub enum Version {
    /// HTTP/1.0.
    Http10,
    /// HTTP/1.1.
    Http11,
}

fn version_of(minor: u8) -> Version
    ensures { result ≡ version_of minor }
{
    if minor == 0 {
        Version::Http10
    } else {
        Version::Http11
    }
}

/// Returns where the parts of the head are that these bytes are, from the first to the last, or none.
pub(crate) fn parse_spans(bytes: &[u8], headers: &mut [HeaderSpan]) -> Option<RequestSpans>
    requires room { length headers.old ≡ 64 }
    requires few { line_feeds bytes.now ≤ 66 }
    ensures within { IfSome result (IsRequestWithin bytes.now headers.new) }
    ensures head { IfSome result (λ spans. (h : RequestHead) × ReadsRequest bytes.now h []
        × IsRequestAt bytes.now headers.new spans h) }
    ensures none { IfNone result (IsNoHead bytes.now) }
{
    match parse_request(bytes, headers) {
        Ok(Status::Complete(spans)) => {
            if spans.len == bytes.len() {
                Some(spans)
            } else {
                None
            }
        }
        _ => None,
    }
}

/// The head of a request (RFC 9112, sections 3 and 5), lent from the bytes that were read: its parts are slices of
/// them, and nothing is copied.
///
/// # Model
///
/// The parts: method, target, version, and each field by its name and value, the values without the white space around
/// them.
#[derive(Drop)]
pub struct Head<'b> {
    bytes: &'b [u8],
    method: Span,
    target: Span,
    version: Version,
    fields: &'b [HeaderSpan],
}

impl<'b> Model for Head<'b> {
    ghost Value = { HeadText };

    ghost view = { λ h. record {
      method = span_bytes h.bytes.now h.method;
      target = span_bytes h.bytes.now h.target;
      version = h.version;
      fields = map (header_bytes h.bytes.now) h.fields.now;
    } };

    ghost invariant = { λ h. let len = length h.bytes.now in
        IsWithin len h.method × IsWithin len h.target × All (IsHeaderWithin len) h.fields.now };
}

impl<'b> Head<'b> {
    /// Returns the head whose parts lie there.
    pub(crate) fn new(bytes: &'b [u8], spans: RequestSpans, headers: &'b [HeaderSpan]) -> Self
        requires { IsRequestWithin bytes.now headers.now spans }
        ensures { result ≡ spans_head bytes.now headers.now spans }
    {
        Head {
            bytes,
            method: spans.method,
            target: spans.path,
            version: version_of(spans.version),
            fields: &headers[..spans.headers],
        }
    }

    /// Returns the method, a token, in the case in which it was sent.
    pub fn method(&self) -> &'b [u8]
        ensures { result.now ≡ self.now.method }
    {
        self.method.of(self.bytes)
    }

    /// Returns the request target, as the grammar of `httparse` reads it, not decoded.
    pub fn target(&self) -> &'b [u8]
        ensures { result.now ≡ self.now.target }
    {
        self.target.of(self.bytes)
    }

    /// Returns the version of HTTP.
    pub fn version(&self) -> Version
        ensures { result ≡ self.now.version }
    {
        self.version
    }

    /// Returns whether the method is HEAD, whose answers leave out their content.
    pub fn is_head(&self) -> bool
        ensures { result ≡ is_head_method self.now }
    {
        self.method() == b"HEAD".as_slice()
    }

    /// Returns the value of the field of this name where there is exactly one, or that there is none or are many.
    /// Names are compared without regard to the case of their letters.
    ///
    /// # Cost
    ///
    /// A look at each field's name.
    pub fn values_of(&self, name: &[u8]) -> Values<'b>
        ensures { AreValues result (values_of name.now self.now.fields) }
    {
        let Some((value, rest)) = first_value(self.bytes, self.fields, name) else {
            return Values::None;
        };
        match first_value(self.bytes, rest, name) {
            None => Values::One(value),
            Some(_) => Values::Many,
        }
    }

    /// Returns the values of all fields of this name, in order. Names are compared without regard to the case of their
    /// letters.
    pub fn all_values_of(&self, name: &'b [u8]) -> AllValues<'b>
        ensures { result ≡ values_of name.now self.now.fields }
    {
        AllValues::new(self.bytes, self.fields, name)
    }
}
