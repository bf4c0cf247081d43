// SPDX-License-Identifier: Apache-2.0 OR MIT
//! From the offset of a head to its parts and the length of its body.
ghost use Rattle.std.specs.Prelude.{◌≡◌, ◌≤◌, length, slice_range};
ghost use Rattle.cr_http.specs.HeadRange.{head_at};
ghost use Rattle.cr_http.specs.Found.{line_feeds};
ghost use Rattle.cr_http.specs.Reading.{JudgesHead};

use crate::framing::{Framing, framing_of};
use crate::head::{Head, parse_spans};
use crate::head_range::HeadRange;
use crate::refusal::Refusal;
use httparse::spans::{HeaderSpan, RequestSpans};

/// How many lines a head may have: the request line, 64 fields and the empty line.
const MAX_LINES: usize = 66;

/// What a head says of the request.
#[derive(Clone, Copy, PartialEq, Eq)]
pub enum HeadJudgement {
    /// The head is read.
    Framed {
        /// Where its parts lie.
        spans: RequestSpans,
        /// How many bytes its body is to have.
        len: usize,
        /// True if the method is HEAD.
        is_head: bool,
    },
    /// The request is refused.
    Refused {
        /// Why.
        why: Refusal,
        /// True if the method is HEAD, if that is known.
        is_head: bool,
    },
}

fn between(text: &[u8], range: HeadRange) -> &[u8]
    requires ordered { range.start ≤ range.end }
    requires within { range.end ≤ length text.now }
    ensures { result.now ≡ slice_range text.now range.start range.end }
{
    &text[range.start..range.end]
}

fn count_lines(bytes: &[u8]) -> usize
    ensures { result ≡ line_feeds bytes.now }
{
    bytes.iter().filter(|byte| **byte == b'\n').count()
}

/// Looks at the head that lies there. Where its fields lie is written to the front of `headers`.
pub fn judge_head(text: &[u8], range: HeadRange, headers: &mut [HeaderSpan]) -> HeadJudgement
    requires range { head_at text.now ≡ Some (range.start, range.end) }
    requires room { length headers.old ≡ 64 }
    ensures { JudgesHead text.now range headers.new result }
{
    let bytes = between(text, range);
    if count_lines(bytes) > MAX_LINES {
        return HeadJudgement::Refused {
            why: Refusal::HeadTooLarge,
            is_head: false,
        };
    }
    let Some(spans) = parse_spans(bytes, headers) else {
        return HeadJudgement::Refused {
            why: Refusal::BadHttp,
            is_head: false,
        };
    };
    let head = Head::new(bytes, spans, headers);
    let is_head = head.is_head();
    match framing_of(&head) {
        Framing::Body(len) => HeadJudgement::Framed {
            spans,
            len,
            is_head,
        },
        Framing::Refuse(why) => HeadJudgement::Refused { why, is_head },
    }
}
