// SPDX-License-Identifier: Apache-2.0 OR MIT
//! The head of an answer: the status line and the fields (RFC 9112, sections 4 and 5).
ghost use Rattle.std.specs.Prelude.{◌≡◌, ◌≤◌, length};
ghost use Rattle.cr_json.specs.Put.{HasRoom, Puts};
ghost use Rattle.cr_print.specs.Answers.{json_head};
ghost use Rattle.cr_print.specs.Dates.{date_line};
ghost use Rattle.cr_print.specs.Head.{media_type_name, status_line, extra_line};
ghost use Rattle.cr_print.specs.Head.{type_line, length_line, close_line, head_text};

use crate::date::Date;
use crate::put::put;
use crate::sending::Sending;
use crate::status::Status;
use cr_routes::Resource;
use itoa::Buffer;

/// Bytes that suffice for any status line.
const STATUS_LINE: usize = 46;

/// The bytes of `Date` (RFC 9110, section 5.6.7).
const DATE_LINE: usize = 37;

/// Bytes that suffice for the field that only some answers have: `Allow` with 32 bytes of methods.
const EXTRA_LINE: usize = 41;

/// Bytes that suffice for `Content-Type`.
const TYPE_LINE: usize = 41;

/// Bytes that suffice for `Content-Length`, whose number has at most 20 digits.
const LENGTH_LINE: usize = 38;

/// The bytes of `Connection: close`.
const CLOSE_LINE: usize = 19;

/// The bytes of the empty line.
const EMPTY_LINE: usize = 2;

/// Bytes that suffice for any head: 224.
pub(crate) const HEAD_ROOM: usize = STATUS_LINE
    + DATE_LINE
    + EXTRA_LINE
    + TYPE_LINE
    + LENGTH_LINE
    + CLOSE_LINE
    + EMPTY_LINE;

/// What kind of content an answer has (RFC 9110, section 8.3.1).
#[derive(Clone, Copy, PartialEq, Eq)]
pub(crate) enum MediaType {
    /// JSON (RFC 8259).
    Json,
    /// Text in UTF-8.
    PlainText,
    /// Bytes of any kind.
    OctetStream,
}

impl MediaType {
    /// Returns its name, at most 25 bytes.
    #[tactic(auto, unfolding(crate::specs::Head::media_type_name))]
    fn name(self) -> &'static str
        ensures value { result.now ≡ media_type_name self }
        ensures short { length result.now ≤ 25 }
    {
        match self {
            MediaType::Json => "application/json",
            MediaType::PlainText => "text/plain; charset=utf-8",
            MediaType::OctetStream => "application/octet-stream",
        }
    }
}

/// The field that only some answers have, right after the date.
#[derive(Clone, Copy, PartialEq, Eq)]
pub(crate) enum Extra {
    /// None.
    Nothing,
    /// How to log in: `WWW-Authenticate`.
    Challenge,
    /// The methods of a path: `Allow`.
    Allow(Resource),
}

/// What a head tells that follows from what is answered.
#[derive(Clone, Copy, PartialEq, Eq)]
pub(crate) struct AnswerHead {
    /// The status.
    pub status: Status,
    /// What kind of content it has.
    pub media_type: MediaType,
    /// The field that only some answers have.
    pub extra: Extra,
}

/// Returns the head of an answer whose content is JSON.
pub(crate) fn json(status: Status, extra: Extra) -> AnswerHead
    ensures { result ≡ json_head status extra }
{
    AnswerHead {
        status,
        media_type: MediaType::Json,
        extra,
    }
}

fn put_status(into: &mut Vec<u8>, status: Status)
    requires { HasRoom into.old 46 }
    ensures { Puts into.old into.new (status_line status) 46 }
{
    put(into, b"HTTP/1.1 ");
    put(into, status.code().as_str().as_bytes());
    put(into, b" ");
    put(into, status.phrase().as_bytes());
    put(into, b"\r\n");
}

fn put_date(into: &mut Vec<u8>, date: Date)
    requires { HasRoom into.old 37 }
    ensures { Puts into.old into.new (date_line date) 37 }
{
    put(into, b"Date: ");
    put(into, date.as_bytes());
    put(into, b"\r\n");
}

#[tactic(auto, unfolding(crate::specs::Head::extra_line))]
fn put_allow(into: &mut Vec<u8>, resource: Resource)
    requires { HasRoom into.old 41 }
    ensures { Puts into.old into.new (extra_line (Extra.Allow resource)) 41 }
{
    put(into, b"Allow: ");
    put(into, resource.allow().as_bytes());
    put(into, b"\r\n");
}

#[tactic(auto, unfolding(crate::specs::Head::extra_line))]
fn put_extra(into: &mut Vec<u8>, extra: Extra)
    requires { HasRoom into.old 41 }
    ensures { Puts into.old into.new (extra_line extra) 41 }
{
    match extra {
        Extra::Nothing => {}
        Extra::Challenge => put(into, b"WWW-Authenticate: Bearer realm=\"confd\"\r\n"),
        Extra::Allow(resource) => put_allow(into, resource),
    }
}

#[tactic(auto, unfolding(crate::specs::Head::type_line))]
fn put_type(into: &mut Vec<u8>, media_type: MediaType)
    requires { HasRoom into.old 41 }
    ensures { Puts into.old into.new (type_line media_type) 41 }
{
    put(into, b"Content-Type: ");
    put(into, media_type.name().as_bytes());
    put(into, b"\r\n");
}

#[tactic(auto, unfolding(crate::specs::Head::length_line))]
fn put_length(into: &mut Vec<u8>, length: usize)
    requires { HasRoom into.old 38 }
    ensures { Puts into.old into.new (length_line length) 38 }
{
    let mut buffer = Buffer::new();
    put(into, b"Content-Length: ");
    put(into, buffer.format(length as u64).as_bytes());
    put(into, b"\r\n");
}

#[tactic(auto, unfolding(crate::specs::Head::close_line))]
fn put_close(into: &mut Vec<u8>, closes: bool)
    requires { HasRoom into.old 19 }
    ensures { Puts into.old into.new (close_line closes) 19 }
{
    if closes {
        put(into, b"Connection: close\r\n");
    }
}

/// Appends the head of an answer whose content has so many bytes. It can't fail.
pub(crate) fn print_head(into: &mut Vec<u8>, head: AnswerHead, length: usize, sending: Sending)
    requires { HasRoom into.old 224 }
    ensures { Puts into.old into.new (head_text head length sending) 224 }
{
    put_status(into, head.status);
    put_date(into, sending.date);
    put_extra(into, head.extra);
    put_type(into, head.media_type);
    put_length(into, length);
    put_close(into, sending.closes);
    put(into, b"\r\n");
}
