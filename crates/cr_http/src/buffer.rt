// SPDX-License-Identifier: Apache-2.0 OR MIT
//! The bytes of a connection that were read and not yet used, in one block that grows.
ghost use Rattle.std.specs.Prelude.{◌≡◌, ◌≢◌, ◌≤◌, ◌<◌, ◌+◌, ◌-◌, ◌++◌, [], length};
ghost use Rattle.std.specs.Prelude.{take, drop, replicate, vec_len, IfOk, IfErr, OnOk};
ghost use Rattle.cr_ports.specs.Count.{Rises};
ghost use Rattle.cr_ports.specs.Stream.{FillsWithin, and_left, gave};
ghost use Rattle.cr_http.specs.Filling.{Moves, IsAtEnd, GrowsAs, ReadsWhile};

use crate::head_range::WINDOW;
use cr_base::Blob;
use cr_ports::{ReadStep, Source};
use std::alloc::{AllocError, AllocFailed, Global};

/// The least room that a read is given.
const LEAST_ROOM: usize = 4_096;

/// The most room that a read is given in a block whose length is known before. It is cleared first, so a block is no
/// larger in fact than by one piece than what came.
const PIECE: usize = 65_536;

/// What one read did.
#[derive(Clone, Copy, PartialEq, Eq)]
pub enum Fill {
    /// There are more bytes.
    Grew,
    /// The stream has ended.
    Ended,
    /// The source failed.
    Failed,
    /// There is no room for more.
    OutOfMemory,
}

/// Bytes that were read and not yet used: those from `start` to `end` of the block. Reads go straight into the block
/// after them, and what is used is dropped by moving `start`.
#[derive(Drop)]
pub struct Buffer {
    block: Vec<u8>,
    start: usize,
    end: usize,
    ghost ordered: { start ≤ end },
    ghost within: { end ≤ vec_len block },
}

/// Brings the bytes from `start` to `end` to the front of the block.
fn bring_forward(block: &mut [u8], start: usize, end: usize)
    requires ordered { start ≤ end }
    requires within { end ≤ length block.old }
    ensures { take (end - start) block.new ≡ drop start (take end block.old) }
{
    block.copy_within(start..end, 0);
}

/// Reads once into the block after its first `end` bytes.
fn read_behind<S: Source>(source: &mut S, block: &mut [u8], end: usize) -> ReadStep
    requires { end < length block.old }
    ensures bytes { S.left source.old ≡ and_left (gave result (drop end block.new)) (S.left source.new) }
    ensures front { take end block.new ≡ take end block.old }
    ensures size { FillsWithin result (length block.old - end) }
    ensures end { result ≡ ReadStep.End → IsAtEnd (S.left source.new) }
    ensures gives { S.read_gives source.old source.new (gave result (drop end block.new)) }
    ensures count { S.faults source.old ≤ S.faults source.new }
    ensures failed { result ≡ ReadStep.Failed → Rises (S.faults source.old) (S.faults source.new) }
    ensures steady { result ≢ ReadStep.Failed → S.faults source.new ≡ S.faults source.old }
{
    source.read(&mut block[end..])
}

/// Writes these bytes over the first of a block.
fn write_front(block: &mut [u8], front: &[u8])
    requires { length front.now ≤ length block.old }
    ensures { block.new ≡ front.now ++ drop (length front.now) block.old }
{
    block[..front.len()].copy_from_slice(front);
}

impl Buffer {
    ghost use Rattle.cr_http.specs.Buffer.{text_of, HasRoomFor};

    /// Creates one without bytes and no block yet.
    pub fn new(alloc: Global) -> Self
        ensures { text_of result ≡ [] }
    {
        Buffer {
            block: Vec::new(alloc),
            start: 0,
            end: 0,
        }
    }

    /// Returns `front` zeros and then these bytes, in a block that has room for `len` in all.
    ///
    /// # Cost
    ///
    /// It takes the memory of this one's source.
    pub fn beside(&self, front: usize, len: usize) -> Result<Self, AllocError>
        requires front { front ≤ length (text_of self.now) }
        requires within { length (text_of self.now) ≤ len }
        ensures text { IfOk result (λ b. text_of b ≡ replicate front 0 ++ drop front (text_of self.now)) }
        ensures room { IfOk result (HasRoomFor len) }
    {
        let alloc: Global = *self.block.allocator();
        let mut block = Vec::with_capacity(alloc, len)?;
        block.resize(front, 0)?;
        block.extend_from_slice(&self.as_slice()[front..])?;
        let end = block.len();
        Ok(Buffer {
            block,
            start: 0,
            end,
        })
    }

    /// Returns the bytes.
    pub fn as_slice(&self) -> &[u8]
        ensures { result.now ≡ text_of self.now }
    {
        &self.block[self.start..self.end]
    }

    /// Returns how many there are.
    pub fn len(&self) -> usize
        ensures { result ≡ length (text_of self.now) }
    {
        self.end - self.start
    }

    /// Drops the first `n` bytes.
    pub fn discard(&mut self, n: usize)
        requires { n ≤ length (text_of self.old) }
        ensures { text_of self.new ≡ drop n (text_of self.old) }
    {
        self.start += n;
    }

    /// Drops all but the first `n` bytes.
    pub fn truncate(&mut self, n: usize)
        requires { n ≤ length (text_of self.old) }
        ensures { text_of self.new ≡ take n (text_of self.old) }
    {
        self.end = self.start + n;
    }

    /// Writes these bytes over its first ones.
    pub fn copy_front(&mut self, front: &[u8])
        requires start { self.old.start ≡ 0 }
        requires within { length front.now ≤ length (text_of self.old) }
        ensures { text_of self.new ≡ front.now ++ drop (length front.now) (text_of self.old) }
    {
        write_front(&mut self.block, front);
    }

    /// Returns the bytes after the first `n`, in the buffer's own block.
    ///
    /// # Errors
    ///
    /// The unchanged buffer, if there is no memory for the count of the bytes' owners.
    pub fn into_blob(self, n: usize) -> Result<Blob, Buffer>
        requires { n ≤ length (text_of self) }
        ensures ok { IfOk result (λ blob. blob ≡ drop n (text_of self)) }
        ensures back { IfErr result (λ buffer. text_of buffer ≡ text_of self) }
        ensures start { IfErr result (λ buffer. buffer.start ≡ self.start) }
    {
        let Buffer {
            mut block,
            start,
            end,
        } = self;
        block.truncate(end);
        match Blob::from_vec_after(block, start + n) {
            Ok(blob) => Ok(blob),
            Err(AllocFailed { value: block }) => Err(Buffer { block, start, end }),
        }
    }

    /// Moves the bytes to the front of the block.
    fn move_to_front(&mut self)
        ensures text { text_of self.new ≡ text_of self.old }
        ensures end { self.new.end + self.old.start ≡ self.old.end }
        ensures len { vec_len self.new.block ≡ vec_len self.old.block }
    {
        bring_forward(&mut self.block, self.start, self.end);
        self.end -= self.start;
        self.start = 0;
    }

    /// Makes the block at least twice as long.
    fn grow(&mut self) -> Result<(), AllocError>
        ensures text { text_of self.new ≡ text_of self.old }
        ensures room { OnOk result (self.new.end < vec_len self.new.block) }
    {
        let len = self.block.len();
        self.block.resize(len + len.max(WINDOW), 0)
    }

    /// Makes room after the bytes. A block that is longer than they are by twice the least room is kept, so that it
    /// stops growing however many requests go through it.
    fn make_room(&mut self) -> Result<(), AllocError>
        ensures text { text_of self.new ≡ text_of self.old }
        ensures room { OnOk result (self.new.end < vec_len self.new.block) }
        ensures kept { length (text_of self.old) + 8192 ≤ vec_len self.old.block →
            vec_len self.new.block ≡ vec_len self.old.block }
    {
        if self.block.len() - self.end >= LEAST_ROOM {
            return Ok(());
        }
        if self.start >= LEAST_ROOM {
            self.move_to_front();
            return Ok(());
        }
        self.grow()
    }

    /// Makes room after the bytes, up to a length of the block that is at most `most`.
    fn make_room_within(&mut self, most: usize) -> Result<(), AllocError>
        requires room { HasRoomFor most self.old }
        requires short { length (text_of self.old) < most }
        ensures text { text_of self.new ≡ text_of self.old }
        ensures room { HasRoomFor most self.new }
        ensures more { OnOk result (self.new.end < vec_len self.new.block) }
    {
        if self.end < self.block.len() {
            return Ok(());
        }
        let more = (most - self.end).min(PIECE);
        self.block.resize(self.end + more, 0)
    }

    /// Reads once into the room after the bytes, which is there.
    fn read_room<S: Source>(&mut self, source: &mut S) -> Fill
        requires { self.old.end < vec_len self.old.block }
        ensures moves { Moves (S.left source.old) (S.left source.new) (text_of self.old) (text_of self.new) }
        ensures once { ReadsWhile S.left S.read_gives (λ text. text ≡ text_of self.old) source.old source.new
            (text_of self.old) (text_of self.new) }
        ensures grows { GrowsAs result (text_of self.old) (text_of self.new) }
        ensures start { self.new.start ≡ self.old.start }
        ensures len { vec_len self.new.block ≡ vec_len self.old.block }
        ensures ended { result ≡ Fill.Ended → IsAtEnd (S.left source.new) }
        ensures count { S.faults source.old ≤ S.faults source.new }
        ensures failed { result ≡ Fill.Failed → Rises (S.faults source.old) (S.faults source.new) }
        ensures steady { result ≢ Fill.Failed → S.faults source.new ≡ S.faults source.old }
    {
        match read_behind(source, &mut self.block, self.end) {
            ReadStep::Got(n) => {
                self.end += n;
                Fill::Grew
            }
            ReadStep::End => Fill::Ended,
            ReadStep::Failed => Fill::Failed,
        }
    }

    /// Reads once, after the bytes that are there.
    pub fn read_more<S: Source>(&mut self, source: &mut S) -> Fill
        ensures moves { Moves (S.left source.old) (S.left source.new) (text_of self.old) (text_of self.new) }
        ensures once { ReadsWhile S.left S.read_gives (λ text. text ≡ text_of self.old) source.old source.new
            (text_of self.old) (text_of self.new) }
        ensures grows { GrowsAs result (text_of self.old) (text_of self.new) }
        ensures ended { result ≡ Fill.Ended → IsAtEnd (S.left source.new) }
        ensures count { S.faults source.old ≤ S.faults source.new }
        ensures failed { result ≡ Fill.Failed → Rises (S.faults source.old) (S.faults source.new) }
        ensures steady { result ≢ Fill.Failed → S.faults source.new ≡ S.faults source.old }
    {
        if self.make_room().is_err() {
            return Fill::OutOfMemory;
        }
        self.read_room(source)
    }

    /// Reads once, after the bytes that are there and not past the length `most`.
    pub fn read_within<S: Source>(&mut self, source: &mut S, most: usize) -> Fill
        requires room { HasRoomFor most self.old }
        requires short { length (text_of self.old) < most }
        ensures moves { Moves (S.left source.old) (S.left source.new) (text_of self.old) (text_of self.new) }
        ensures once { ReadsWhile S.left S.read_gives (λ text. text ≡ text_of self.old) source.old source.new
            (text_of self.old) (text_of self.new) }
        ensures grows { GrowsAs result (text_of self.old) (text_of self.new) }
        ensures room { HasRoomFor most self.new }
        ensures ended { result ≡ Fill.Ended → IsAtEnd (S.left source.new) }
        ensures count { S.faults source.old ≤ S.faults source.new }
        ensures failed { result ≡ Fill.Failed → Rises (S.faults source.old) (S.faults source.new) }
        ensures steady { result ≢ Fill.Failed → S.faults source.new ≡ S.faults source.old }
    {
        if self.make_room_within(most).is_err() {
            return Fill::OutOfMemory;
        }
        self.read_room(source)
    }
}
