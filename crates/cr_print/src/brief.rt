// SPDX-License-Identifier: Apache-2.0 OR MIT
//! Answers whose content is brief, written without memory.
ghost use Rattle.std.specs.Prelude.{◌≡◌, ◌+◌, ◌≤◌, ◌++◌, length, take, drop, vec_len, vec_capacity};
ghost use Rattle.cr_json.specs.Put.{HasRoom, Puts};
ghost use Rattle.cr_print.specs.Answers.{answer_text, unless_head};

use crate::head::{AnswerHead, HEAD_ROOM, print_head};
use crate::put::put;
use crate::sending::Sending;
use arrayvec::ArrayVec;

/// Bytes that suffice for any brief content: 288. The longest has 232: it tells of a user's role, with a
/// name of 34 bytes that are all written as six.
const CONTENT_ROOM: usize = 288;

/// Bytes that suffice for the answer of any refusal, any receipt, the conference and a count: 512, which are 224
/// for the head and 288 for the content.
pub const ANSWER_ROOM: usize = HEAD_ROOM + CONTENT_ROOM;

/// Appends a content, unless the answer is to HEAD.
fn put_content(into: &mut Vec<u8>, content: &[u8], is_head: bool)
    requires { HasRoom into.old (length content.now) }
    ensures { Puts into.old into.new (unless_head is_head content.now) (length content.now) }
{
    if !is_head {
        put(into, content);
    }
}

/// Puts the head before a brief content that is at the end, from `start` on. A head tells its content's length, so the
/// content is written first, and moved after it. It can't fail.
pub(crate) fn print_brief(into: &mut Vec<u8>, start: usize, head: AnswerHead, sending: Sending)
    requires begins { start ≤ vec_len into.old }
    requires brief { vec_len into.old ≤ start + 288 }
    requires room { start + 512 ≤ vec_capacity into.old }
    ensures items { into.new.items ≡ take start into.old.items
        ++ answer_text head (drop start into.old.items) sending }
    ensures within { vec_len into.new ≤ start + 512 }
    ensures capacity { vec_capacity into.old ≤ vec_capacity into.new }
{
    let mut content: ArrayVec<u8, CONTENT_ROOM> = ArrayVec::new();
    content.try_extend_from_slice(&into[start..]).unwrap();
    into.truncate(start);
    let is_head = sending.is_head;
    print_head(into, head, content.len(), sending);
    put_content(into, content.as_slice(), is_head);
}
