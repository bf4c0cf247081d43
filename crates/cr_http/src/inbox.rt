// SPDX-License-Identifier: Apache-2.0 OR MIT
//! What a connection has read: the request at hand, lent, and the bytes after it.
ghost use Rattle.std.specs.Prelude.{◌≡◌, [], IsSome, IfSome, length, unwrap_or};
ghost use Rattle.cr_http.specs.Body.{IsBody};
ghost use Rattle.cr_http.specs.Buffer.{text_of};
ghost use Rattle.cr_http.specs.Extent.{InboxText, IsExtent, inbox_text};

use crate::body::Body;
use crate::buffer::Buffer;
use crate::head::{Head, MAX_FIELDS};
use crate::head_range::HeadRange;
use cr_base::Blob;
use httparse::spans::{EMPTY_HEADER_SPAN, HeaderSpan, RequestSpans};
use std::alloc::Global;
use std::marker::Model;

/// Where a whole request lies in the bytes that were read.
#[derive(Clone, Copy, PartialEq, Eq)]
pub struct Extent {
    /// Its head.
    pub range: HeadRange,
    /// The parts of its head, counted from the head's first byte.
    pub spans: RequestSpans,
    /// Where what follows it begins: after its body, which begins where the head ends, or after its head, if its body
    /// is in a block of its own.
    pub end: usize,
}

/// A whole request, lent by an inbox.
#[derive(Drop)]
pub struct Request<'b> {
    /// Its head.
    pub head: Head<'b>,
    /// Its body, of as many bytes as the head says; 4,194,304 at most.
    pub body: Body<'b>,
}

/// What a connection has read. It is made once a connection, and keeps one block of bytes, which grows with the
/// longest request. A body of 16,384 bytes or more that came in pieces has a block of its own, which is dropped here
/// when the next request is read.
///
/// # Model
///
/// The request that was read last, if one was, and the bytes that were read and not used.
#[derive(Drop)]
pub struct Inbox {
    pub(crate) buffer: Buffer,
    pub(crate) headers: [HeaderSpan; MAX_FIELDS],
    pub(crate) request: Option<Extent>,
    pub(crate) block: Option<Blob>,
}

impl Model for Inbox {
    ghost Value = { InboxText };

    ghost view = { λ i. inbox_text (text_of i.buffer) i.headers i.block i.request };

    ghost invariant = { λ i. IfSome i.request (IsExtent (text_of i.buffer) i.headers i.block) };
}

/// Returns the body in its block, or else these bytes.
fn body_in<'b>(block: &'b Option<Blob>, lent: &'b [u8]) -> Body<'b>
    requires { IsBody (unwrap_or block.now lent.now) }
    ensures { result ≡ unwrap_or block.now lent.now }
{
    match block {
        Some(block) => Body::block(block),
        None => Body::lent(lent),
    }
}

impl Inbox {
    /// Returns an inbox with no request and no bytes.
    ///
    /// # Cost
    ///
    /// It takes no memory yet.
    pub fn new(alloc: Global) -> Self
        ensures request { result.request ≡ None }
        ensures rest { result.rest ≡ [] }
    {
        Inbox {
            buffer: Buffer::new(alloc),
            headers: [EMPTY_HEADER_SPAN; MAX_FIELDS],
            request: None,
            block: None,
        }
    }

    /// Returns the request that was read last. It is lent: nothing is copied, and it is there until the next one is
    /// read.
    pub fn request(&self) -> Request<'_>
        requires { IsSome self.now.request }
        ensures is { self.now.request ≡ Some (record { head = result.head; body = result.body }) }
        ensures short { IsBody result.body }
    {
        let Some(extent) = self.request else {
            unreachable!()
        };
        let text = self.buffer.as_slice();
        let head = &text[extent.range.start..extent.range.end];
        Request {
            head: Head::new(head, extent.spans, &self.headers),
            body: body_in(&self.block, &text[extent.range.end..extent.end]),
        }
    }
}
