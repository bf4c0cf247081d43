// SPDX-License-Identifier: Apache-2.0 OR MIT
//! Refusals by name, each with its status.

/// Why a connection is closed before a whole request was read. Its answer is the connection's last
/// one. The statuses are those of RFC 9110, and of RFC 6585, section 5, for 431.
#[derive(Clone, Copy, PartialEq, Eq)]
pub enum Refusal {
    /// No head ends within 16,384 bytes, or the head has more than 64 fields (431).
    HeadTooLarge,
    /// The bytes of the head are no head of HTTP/1.0 or HTTP/1.1 (400).
    BadHttp,
    /// In HTTP/1.1 no field Host, or in either version several of them (400; RFC 9112, 3.2).
    NoHost,
    /// A body in a transfer coding (411; RFC 9112, 6.1).
    LengthRequired,
    /// More than one Content-Length, equal ones too, or one whose value isn't 1 to 18 digits (400;
    /// RFC 9110, 8.6).
    BadLength,
    /// A body of more than 4,194,304 bytes (413).
    TooLarge,
}
