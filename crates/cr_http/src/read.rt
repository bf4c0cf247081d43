// SPDX-License-Identifier: Apache-2.0 OR MIT
//! Reads one request.
ghost use Rattle.std.specs.Prelude.{◌≡◌, ◌≢◌, ◌⊎◌, ◌≤◌, ◌<◌, IsSome, length};
ghost use Rattle.cr_ports.specs.Count.{Rises};
ghost use Rattle.cr_http.specs.Buffer.{text_of};
ghost use Rattle.cr_http.specs.Extent.{used};
ghost use Rattle.cr_http.specs.Found.{StandsAt, clean, cut};
ghost use Rattle.cr_http.specs.HeadRange.{head_at};
ghost use Rattle.cr_http.specs.Reading.{AtEndIfEnded, IsSettled, Reads, ReadsInto};

use crate::buffer::Buffer;
use crate::fill::{HeadFill, fill_head};
use crate::fill_body::{BodyFill, fill_body};
use crate::head_range::{HeadRange, blank_end};
use crate::inbox::{Extent, Inbox};
use crate::judge::{HeadJudgement, judge_head};
use crate::refusal::Refusal;
use cr_base::Blob;
use cr_ports::Source;
use httparse::spans::HeaderSpan;

/// What was read.
#[derive(Clone, Copy, PartialEq, Eq)]
pub enum RequestRead {
    /// A whole request, which the inbox now lends.
    Whole,
    /// The connection closes before a whole request was read.
    Refused {
        /// Why.
        why: Refusal,
        /// True if the refusal answers HEAD, so that its content is left out. False where the head wasn't read so far.
        is_head: bool,
    },
    /// The stream ended between requests.
    Clean,
    /// The stream ended inside a request.
    Cut,
    /// The source failed before a whole request was read.
    ReadFault,
    /// There was no memory for more bytes, before a whole request was read.
    OutOfMemory {
        /// True if what is answered is HEAD. False where the head wasn't read so far.
        is_head: bool,
    },
}

/// Reads the request at the front of the bytes that the inbox has not used and those that the source has left. The
/// request that the inbox lent before is dropped first.
///
/// Nothing is read ahead: each read is made only if neither a whole request nor a refusal is in what has come, so
/// after a refusal that closes, no byte of a body is read. Bytes after the request that came with its last piece stay
/// in the inbox. If bytes of a head come later, the search goes on where it stopped. A body of 16,384 bytes or more
/// that isn't whole when its head is read goes into a block of its own, of the length that the head tells, and no
/// read goes past its end.
///
/// # Errors
///
/// `ReadFault`: the source's fault counter rose; with every other answer it is unchanged. After it, and after
/// `OutOfMemory`, the inbox keeps all that came, and the source has left what follows.
///
/// # Cost
///
/// A few looks at each byte of the head, and the reads.
pub fn read_request<S: Source>(source: &mut S, inbox: &mut Inbox) -> RequestRead
    ensures reads { Reads S.left S.read_gives source.old source.new inbox.old inbox.new result }
    ensures still { IsSettled inbox.old.rest → source.new ≡ source.old }
    ensures request { result ≡ RequestRead.Whole → IsSome inbox.new.request }
    ensures count { S.faults source.old ≤ S.faults source.new }
    ensures fault { result ≡ RequestRead.ReadFault → Rises (S.faults source.old) (S.faults source.new) }
    ensures steady { result ≢ RequestRead.ReadFault → S.faults source.new ≡ S.faults source.old }
{
    if let Some(extent) = inbox.request {
        inbox.buffer.discard(extent.end);
        inbox.request = None;
    }
    inbox.block = None;
    read_into(
        source,
        &mut inbox.buffer,
        &mut inbox.headers,
        &mut inbox.block,
        &mut inbox.request,
    )
}

/// Reads the request at the front of the buffer's bytes and those that the source has left.
fn read_into<S: Source>(
    source: &mut S,
    buffer: &mut Buffer,
    headers: &mut [HeaderSpan],
    block: &mut Option<Blob>,
    request: &mut Option<Extent>,
) -> RequestRead
    requires room { length headers.old ≡ 64 }
    requires none { (request.old ≡ None) × (block.old ≡ None) }
    ensures reads { ReadsInto S.left S.read_gives source.old source.new (text_of buffer.old)
        (text_of buffer.new) headers.new block.new request.new result }
    ensures ended { AtEndIfEnded result (S.left source.new) }
    ensures count { S.faults source.old ≤ S.faults source.new }
    ensures fault { result ≡ RequestRead.ReadFault → Rises (S.faults source.old) (S.faults source.new) }
    ensures steady { result ≢ RequestRead.ReadFault → S.faults source.new ≡ S.faults source.old }
{
    match fill_head(source, buffer) {
        HeadFill::Found(range) => read_framed(source, buffer, headers, block, request, range),
        HeadFill::Full => RequestRead::Refused {
            why: Refusal::HeadTooLarge,
            is_head: false,
        },
        HeadFill::Ended => at_end(buffer.as_slice()),
        HeadFill::Failed => RequestRead::ReadFault,
        HeadFill::OutOfMemory => RequestRead::OutOfMemory { is_head: false },
    }
}

/// Reads on after the head that lies there.
fn read_framed<S: Source>(
    source: &mut S,
    buffer: &mut Buffer,
    headers: &mut [HeaderSpan],
    block: &mut Option<Blob>,
    request: &mut Option<Extent>,
    range: HeadRange,
) -> RequestRead
    requires range { head_at (text_of buffer.old) ≡ Some (range.start, range.end) }
    requires room { length headers.old ≡ 64 }
    requires none { (request.old ≡ None) × (block.old ≡ None) }
    ensures reads { ReadsInto S.left S.read_gives source.old source.new (text_of buffer.old)
        (text_of buffer.new) headers.new block.new request.new result }
    ensures ended { AtEndIfEnded result (S.left source.new) }
    ensures count { S.faults source.old ≤ S.faults source.new }
    ensures fault { result ≡ RequestRead.ReadFault → Rises (S.faults source.old) (S.faults source.new) }
    ensures steady { result ≢ RequestRead.ReadFault → S.faults source.new ≡ S.faults source.old }
{
    let (spans, len, is_head) = match judge_head(buffer.as_slice(), range, headers) {
        HeadJudgement::Framed {
            spans,
            len,
            is_head,
        } => (spans, len, is_head),
        HeadJudgement::Refused { why, is_head } => return RequestRead::Refused { why, is_head },
    };
    let end = range.end + len;
    match fill_body(source, buffer, range.end, end) {
        BodyFill::Buffer => {
            *request = Some(Extent { range, spans, end });
            RequestRead::Whole
        }
        BodyFill::Block(body) => {
            let end = range.end;
            *request = Some(Extent { range, spans, end });
            *block = Some(body);
            RequestRead::Whole
        }
        BodyFill::Ended => RequestRead::Cut,
        BodyFill::Failed => RequestRead::ReadFault,
        BodyFill::OutOfMemory => RequestRead::OutOfMemory { is_head },
    }
}

/// Returns what the end of the stream means where no head is.
fn at_end(text: &[u8]) -> RequestRead
    requires none { head_at text.now ≡ None }
    requires short { length text.now < 16384 }
    ensures clean { result ≡ RequestRead.Clean → StandsAt text.now clean }
    ensures cut { result ≡ RequestRead.Cut → StandsAt text.now cut }
    ensures either { (result ≡ RequestRead.Clean) ⊎ (result ≡ RequestRead.Cut) }
{
    if blank_end(text) == text.len() {
        RequestRead::Clean
    } else {
        RequestRead::Cut
    }
}
