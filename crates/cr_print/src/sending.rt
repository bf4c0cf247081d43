// SPDX-License-Identifier: Apache-2.0 OR MIT
//! How an answer is sent.

use crate::date::Date;

/// What the sending of an answer takes from its request, its connection and the clock, whatever it tells. Status and
/// media type aren't part of it: they follow from what is answered, so that no caller can say another one.
#[derive(Clone, Copy)]
pub struct Sending {
    /// The request is a HEAD: no content is sent, and `Content-Length` is the content's without it
    /// (RFC 9110, section 9.3.2).
    pub is_head: bool,
    /// The connection ends after the answer, which says so.
    pub closes: bool,
    /// The date that it has: of the second in which its request was whole, or was refused.
    pub date: Date,
}
