// SPDX-License-Identifier: Apache-2.0 OR MIT
//! Reads on, until a body is whole.
ghost use Rattle.std.specs.Prelude.{◌≡◌, ◌≢◌, ◌≤◌, ◌<◌, ◌-◌, ◌++◌, length, take, drop};
ghost use Rattle.cr_ports.specs.Count.{Rises};
ghost use Rattle.cr_http.specs.Buffer.{text_of};
ghost use Rattle.cr_http.specs.BodyFill.{FillsBody, KeepsBlock};
ghost use Rattle.cr_http.specs.Filling.{IsAtEnd};

use crate::buffer::{Buffer, Fill};
use crate::fill::{fill_room, fill_to};
use cr_base::Blob;
use cr_ports::Source;

/// A body of at least so many bytes is read into a block of its own, if it isn't whole when its head is read.
pub const LARGE_BODY: usize = 16_384;

/// How the reading of a body ended.
#[derive(Drop)]
pub enum BodyFill {
    /// It is whole, in the buffer.
    Buffer,
    /// It is whole, in this block; the buffer has only what precedes it.
    Block(Blob),
    /// The stream has ended before.
    Ended,
    /// The source failed before.
    Failed,
    /// There is no room for more.
    OutOfMemory,
}

/// Puts bytes that were read beside the buffer in the place of the buffer's own, after its first `head`.
fn put_back(buffer: &mut Buffer, mut block: Buffer, head: usize)
    requires start { block.start ≡ 0 }
    requires block { head ≤ length (text_of block) }
    requires head { head ≤ length (text_of buffer.old) }
    ensures { text_of buffer.new ≡ take head (text_of buffer.old) ++ drop head (text_of block) }
{
    block.copy_front(&buffer.as_slice()[..head]);
    *buffer = block;
}

/// Parts a whole body from what precedes it; without memory for that, both stay in the buffer.
fn keep_block(buffer: &mut Buffer, block: Buffer, head: usize) -> BodyFill
    requires start { block.start ≡ 0 }
    requires block { head ≤ length (text_of block) }
    requires head { head ≤ length (text_of buffer.old) }
    ensures { KeepsBlock result head (text_of block) (text_of buffer.old) (text_of buffer.new) }
{
    match block.into_blob(head) {
        Ok(blob) => {
            buffer.truncate(head);
            BodyFill::Block(blob)
        }
        Err(block) => {
            put_back(buffer, block, head);
            BodyFill::Buffer
        }
    }
}

/// Reads on into a block that is made only for the body, so that nothing is read after it. The block has room before
/// the body, for what precedes it in the buffer: if the body doesn't come whole, the block with it is the buffer.
fn fill_block<S: Source>(source: &mut S, buffer: &mut Buffer, head: usize, end: usize) -> BodyFill
    requires head { head ≤ length (text_of buffer.old) }
    requires short { length (text_of buffer.old) < end }
    ensures fills { FillsBody S.left S.read_gives source.old source.new (text_of buffer.old)
        (text_of buffer.new) head end result }
    ensures exact { length (text_of buffer.new) ≤ end }
    ensures ended { result ≡ BodyFill.Ended → IsAtEnd (S.left source.new) }
    ensures count { S.faults source.old ≤ S.faults source.new }
    ensures failed { result ≡ BodyFill.Failed → Rises (S.faults source.old) (S.faults source.new) }
    ensures steady { result ≢ BodyFill.Failed → S.faults source.new ≡ S.faults source.old }
{
    let Ok(mut block) = buffer.beside(head, end) else {
        return BodyFill::OutOfMemory;
    };
    match fill_room(source, &mut block, end) {
        Fill::Grew => keep_block(buffer, block, head),
        Fill::Ended => {
            put_back(buffer, block, head);
            BodyFill::Ended
        }
        Fill::Failed => {
            put_back(buffer, block, head);
            BodyFill::Failed
        }
        Fill::OutOfMemory => {
            put_back(buffer, block, head);
            BodyFill::OutOfMemory
        }
    }
}

/// Reads on until the body is whole that lies between these two offsets. Where it has `LARGE_BODY` bytes or more and
/// isn't whole yet, nothing after it is read.
pub fn fill_body<S: Source>(
    source: &mut S,
    buffer: &mut Buffer,
    head: usize,
    end: usize,
) -> BodyFill
    requires head { head ≤ length (text_of buffer.old) }
    requires ordered { head ≤ end }
    ensures fills { FillsBody S.left S.read_gives source.old source.new (text_of buffer.old)
        (text_of buffer.new) head end result }
    ensures exact { 16384 ≤ end - head → length (text_of buffer.old) < end → length (text_of buffer.new) ≤ end }
    ensures ended { result ≡ BodyFill.Ended → IsAtEnd (S.left source.new) }
    ensures count { S.faults source.old ≤ S.faults source.new }
    ensures failed { result ≡ BodyFill.Failed → Rises (S.faults source.old) (S.faults source.new) }
    ensures steady { result ≢ BodyFill.Failed → S.faults source.new ≡ S.faults source.old }
{
    if end - head >= LARGE_BODY && buffer.len() < end {
        return fill_block(source, buffer, head, end);
    }
    match fill_to(source, buffer, end) {
        Fill::Grew => BodyFill::Buffer,
        Fill::Ended => BodyFill::Ended,
        Fill::Failed => BodyFill::Failed,
        Fill::OutOfMemory => BodyFill::OutOfMemory,
    }
}
