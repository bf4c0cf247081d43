// SPDX-License-Identifier: Apache-2.0 OR MIT
//! A disk in memory, with a record of its calls.
ghost use Rattle.std.specs.Prelude.{◌≡◌, ◌⊎◌, ◌<◌, ◌≤◌, ◌+◌, ◌^◌, [], ◌∷◌, ◌++◌, length, take, true};
ghost use Rattle.std.specs.Prelude.{IfOk, vec_len, vec_capacity};
ghost use Rattle.std.proofs.Common.{inl};
ghost use Rattle.cr_ports.specs.Count.{Rises, counted};
ghost use Rattle.cr_disks.specs.Disk.{Elapses, Follows, Holds, Torn};
ghost use Rattle.cr_disks.specs.declared.mem_disk.DiskCall.TheVariants.{Wrote, Synced, SyncFailed};
ghost use Rattle.cr_disks.specs.Held.{after_call, fails_next, is_full, left_in, left_since_of, past_of, state_of};
ghost use Rattle.cr_disks.specs.Past.{only_this};

use crate::disk::{Disk, DiskFailed};
use cr_ports::ReadStep;
use std::alloc::{AllocError, Global};
use std::marker::Model;

/// A call of a disk in memory that might have changed what a stop leaves.
#[derive(Clone, Copy, Debug, PartialEq, Eq)]
pub enum DiskCall {
    /// A write of `len` bytes at an offset, which put `put` of them there. If it put fewer than all, it failed.
    Wrote {
        /// The offset.
        at: u64,
        /// How many of its bytes it put there.
        put: usize,
        /// How many it was to put there.
        len: usize,
    },
    /// A sync that succeeded.
    Synced,
    /// A sync that failed.
    SyncFailed,
}

/// Bytes in memory, and a record of each write and each sync. Exactly those of them fail that are listed, and those
/// for which there is no room; a listed write fails after half of its bytes. No call takes memory. A disk that is
/// opened over the file of another has that one's record before its own.
///
/// # Model
///
/// The record, how many of its calls were there when the disk was opened, the bytes, the list, the room and the fault
/// counter.
#[derive(Drop)]
pub struct MemDisk {
    first: Vec<u8>,
    calls: Vec<DiskCall>,
    put: Vec<u8>,
    begun: usize,
    bytes: Vec<u8>,
    failing: Vec<u64>,
    room: usize,
    calls_left: usize,
    faults: u64,
}

impl Model for MemDisk {
    ghost use Rattle.std.specs.Prelude.{◌≡◌, ◌≤◌, ◌+◌, ◌^◌, length, vec_len, vec_capacity};
    ghost use Rattle.cr_disks.specs.Held.{Held, left_in, put_by_all, settled, state_after};

    ghost Value = { Held };

    ghost view = { λ d. record {
      first = d.first.items;
      calls = d.calls.items;
      put = d.put.items;
      begun = d.begun;
      bytes = d.bytes.items;
      failing = d.failing.items;
      room = d.room;
      calls_left = d.calls_left;
      faults = d.faults;
    } };

    ghost invariant = { λ d.
        (d.bytes.items ≡ (state_after d.calls.items d.put.items (settled d.first.items)).seen)
        × (put_by_all d.calls.items ≡ length d.put.items)
        × (vec_len d.put + d.room ≤ vec_capacity d.put)
        × (vec_len d.bytes + d.room ≤ vec_capacity d.bytes)
        × (vec_len d.calls + d.calls_left ≤ vec_capacity d.calls)
        × (length d.bytes.items + d.room ≤ 2 ^ 62)
        × (d.begun ≤ length d.calls.items)
        × left_in (state_after d.calls.items d.put.items (settled d.first.items)) d.bytes.items };
}

/// Puts the piece over the bytes from `at` on.
fn overwrite(bytes: &mut [u8], at: usize, piece: &[u8])
    requires { at + length piece.now ≤ length bytes.old }
    ensures { Holds bytes.old at piece.now bytes.new }
{
    bytes[at..at + piece.len()].copy_from_slice(piece);
}

/// Puts the piece over the bytes from `at` on, and past the end; there is room for it.
pub(crate) fn put_over(bytes: &mut Vec<u8>, at: usize, piece: &[u8])
    requires inside { at ≤ length bytes.old.items }
    requires room { vec_len bytes.old + length piece.now ≤ vec_capacity bytes.old }
    ensures holds { Holds bytes.old.items at piece.now bytes.new.items }
    ensures len { vec_len bytes.new ≤ vec_len bytes.old + length piece.now }
    ensures capacity { vec_capacity bytes.old ≤ vec_capacity bytes.new }
{
    let over = piece.len().min(bytes.len() - at);
    overwrite(bytes, at, &piece[..over]);
    append_within(bytes, &piece[over..]);
}

/// Copies the front of `from` to that of `to`, as much as both have, and returns how many bytes.
pub(crate) fn copy_front(from: &[u8], to: &mut [u8]) -> usize
    requires from { 0 < length from.now }
    requires to { 0 < length to.old }
    ensures some { (0 < result) × (result ≤ length from.now) × (result ≤ length to.old) }
    ensures same { take result to.new ≡ take result from.now }
{
    let n = from.len().min(to.len());
    to[..n].copy_from_slice(&from[..n]);
    n
}

/// Appends the piece; there is room for it.
pub(crate) fn append_within(bytes: &mut Vec<u8>, piece: &[u8])
    requires { vec_len bytes.old + length piece.now ≤ vec_capacity bytes.old }
    ensures items { bytes.new.items ≡ bytes.old.items ++ piece.now }
    ensures len { vec_len bytes.new ≡ vec_len bytes.old + length piece.now }
    ensures capacity { vec_capacity bytes.old ≤ vec_capacity bytes.new }
{
    let _ = bytes.extend_from_slice(piece);
}

impl MemDisk {
    /// Creates a disk that holds these bytes, all of them synced, and has room for so many more bytes and so many
    /// calls, writes and syncs alike. Of these calls, numbered from 0, those in `failing` fail.
    ///
    /// # Errors
    ///
    /// If memory runs out.
    pub fn new(
        alloc: Global,
        first: Vec<u8>,
        room: usize,
        calls: usize,
        failing: Vec<u64>,
    ) -> Result<Self, AllocError>
        requires { length first.items + room < 2 ^ 62 }
        ensures first { IfOk result (λ disk. disk.first ≡ first.items) }
        ensures bytes { IfOk result (λ disk. disk.bytes ≡ first.items) }
        ensures calls { IfOk result (λ disk. disk.calls ≡ []) }
        ensures put { IfOk result (λ disk. disk.put ≡ []) }
        ensures begun { IfOk result (λ disk. disk.begun ≡ 0) }
        ensures failing { IfOk result (λ disk. disk.failing ≡ failing.items) }
        ensures room { IfOk result (λ disk. disk.room ≡ room) }
        ensures calls_left { IfOk result (λ disk. disk.calls_left ≡ calls) }
        ensures faults { IfOk result (λ disk. disk.faults ≡ 0) }
    {
        let mut bytes = Vec::with_capacity(alloc, first.len() + room)?;
        append_within(&mut bytes, &first);
        let put = Vec::with_capacity(alloc, room)?;
        let record = Vec::with_capacity(alloc, calls)?;
        Ok(MemDisk {
            first,
            calls: record,
            put,
            begun: 0,
            bytes,
            failing,
            room,
            calls_left: calls,
            faults: 0,
        })
    }

    /// Opens a disk over the file of this one, which goes on with its record: a stop may leave of it what it may
    /// leave of this one. Room and calls are as for a new disk; those that fail are numbered from 0 after the record.
    ///
    /// # Errors
    ///
    /// If memory runs out.
    pub(crate) fn reopened(
        &self,
        alloc: Global,
        room: usize,
        calls: usize,
        failing: Vec<u64>,
    ) -> Result<Self, AllocError>
        requires { length self.now.bytes + room < 2 ^ 62 }
        ensures bytes { IfOk result (λ disk. disk.bytes ≡ self.now.bytes) }
        ensures state { IfOk result (λ disk. state_of disk ≡ state_of self.now) }
        ensures faults { IfOk result (λ disk. disk.faults ≡ 0) }
    {
        let Some(all) = self.calls.len().checked_add(calls) else {
            return Err(AllocError);
        };
        let mut first = Vec::with_capacity(alloc, self.first.len())?;
        append_within(&mut first, &self.first);
        let mut record = Vec::with_capacity(alloc, all)?;
        let _ = record.extend_from_slice(&self.calls);
        let mut put = Vec::with_capacity(alloc, self.put.len() + room)?;
        append_within(&mut put, &self.put);
        let mut bytes = Vec::with_capacity(alloc, self.bytes.len() + room)?;
        append_within(&mut bytes, &self.bytes);
        Ok(MemDisk {
            first,
            begun: record.len(),
            calls: record,
            put,
            bytes,
            failing,
            room,
            calls_left: calls,
            faults: 0,
        })
    }

    /// Lends the bytes.
    pub fn bytes(&self) -> &[u8]
        ensures { result.now ≡ self.now.bytes }
    {
        &self.bytes
    }

    /// Lends the bytes that it held at first.
    pub fn first(&self) -> &[u8]
        ensures { result.now ≡ self.now.first }
    {
        &self.first
    }

    /// Lends its writes and syncs, in order.
    pub fn calls(&self) -> &[DiskCall]
        ensures { result.now ≡ self.now.calls }
    {
        &self.calls
    }

    /// Returns whether the next write or sync is listed as one that fails.
    fn fails_next(&self) -> bool
        ensures { result ≡ fails_next self.now }
    {
        self.failing
            .contains(&((self.calls.len() - self.begun) as u64))
    }

    /// Returns whether there is no room for another call, or for so many bytes.
    fn is_full(&self, len: usize) -> bool
        ensures { result ≡ is_full self.now len }
    {
        self.calls_left == 0 || self.room < len
    }

    /// Counts a fault.
    fn fail(&mut self) -> DiskFailed
        ensures later { self.old.faults ≤ self.new.faults }
        ensures rises { Rises self.old.faults self.new.faults }
        ensures faults { self.new.faults ≡ counted self.old.faults }
        ensures same { (self.new.first ≡ self.old.first) × (self.new.calls ≡ self.old.calls)
            × (self.new.put ≡ self.old.put) × (self.new.bytes ≡ self.old.bytes) × (self.new.failing ≡ self.old.failing)
            × (self.new.begun ≡ self.old.begun) × (self.new.room ≡ self.old.room) × (self.new.calls_left ≡ self.old.calls_left) }
        ensures state { state_of self.new ≡ state_of self.old }
        ensures past { past_of self.new ≡ past_of self.old }
    {
        self.faults = self.faults.saturating_add(1);
        DiskFailed
    }

    /// Puts a piece at an offset, of a write of `len` bytes, and records it.
    fn record_write(&mut self, at: u64, piece: &[u8], len: usize)
        requires inside { at ≤ length self.old.bytes }
        requires room { length piece.now ≤ self.old.room }
        requires calls { 0 < self.old.calls_left }
        requires few { length piece.now ≤ len }
        ensures bytes { Holds self.old.bytes at piece.now self.new.bytes }
        ensures within { at + length piece.now ≤ 2 ^ 62 }
        ensures state { state_of self.new ≡ after_call (Wrote at (length piece.now) len) piece.now (state_of self.old) }
        ensures past { past_of self.new ≡ past_of self.old ++ state_of self.old ∷ [] }
        ensures faults { self.new.faults ≡ self.old.faults }
    {
        put_over(&mut self.bytes, at as usize, piece);
        append_within(&mut self.put, piece);
        self.calls.push_reserved(DiskCall::Wrote {
            at,
            put: piece.len(),
            len,
        });
        self.room -= piece.len();
        self.calls_left -= 1;
    }

    /// Puts a front of the piece of a write of `len` bytes at an offset, or all of it.
    fn put_front(&mut self, at: u64, piece: &[u8], len: usize)
        requires inside { at ≤ length self.old.bytes }
        requires room { length piece.now ≤ self.old.room }
        requires calls { 0 < self.old.calls_left }
        requires few { length piece.now ≤ len }
        ensures bytes { Holds self.old.bytes at piece.now self.new.bytes }
        ensures within { at + length piece.now ≤ 2 ^ 62 }
        ensures torn { Torn at len self.old.bytes self.new.bytes }
        ensures crash { Follows (Torn at len) (left_in (state_of self.old)) (left_in (state_of self.new)) }
        ensures past { past_of self.new ≡ past_of self.old ++ state_of self.old ∷ [] }
        ensures time { Elapses (length (past_of self.old)) (length (past_of self.new))
            (left_since_of self.old) (left_since_of self.new) (left_in (state_of self.new)) }
        ensures faults { self.new.faults ≡ self.old.faults }
    {
        self.record_write(at, piece, len);
    }

    /// Fails a write after the first half of its piece.
    fn put_half(&mut self, at: u64, piece: &[u8]) -> DiskFailed
        requires inside { at ≤ length self.old.bytes }
        requires room { length piece.now ≤ self.old.room }
        requires calls { 0 < self.old.calls_left }
        ensures torn { Torn at (length piece.now) self.old.bytes self.new.bytes }
        ensures crash { Follows (Torn at (length piece.now)) (left_in (state_of self.old))
            (left_in (state_of self.new)) }
        ensures time { Elapses (length (past_of self.old)) (length (past_of self.new))
            (left_since_of self.old) (left_since_of self.new) (left_in (state_of self.new)) }
        ensures later { self.old.faults ≤ self.new.faults }
        ensures rises { Rises self.old.faults self.new.faults }
    {
        self.put_front(at, &piece[..piece.len() / 2], piece.len());
        self.fail()
    }

    /// Records a sync.
    fn record_sync(&mut self, call: DiskCall)
        requires sync { (call ≡ Synced) ⊎ (call ≡ SyncFailed) }
        requires calls { 0 < self.old.calls_left }
        ensures bytes { self.new.bytes ≡ self.old.bytes }
        ensures calls { self.new.calls ≡ self.old.calls ++ call ∷ [] }
        ensures put { self.new.put ≡ self.old.put }
        ensures state { state_of self.new ≡ after_call call [] (state_of self.old) }
        ensures past { past_of self.new ≡ past_of self.old ++ state_of self.old ∷ [] }
        ensures seen { (state_of self.old).seen ≡ self.old.bytes }
        ensures first { self.new.first ≡ self.old.first }
        ensures failing { self.new.failing ≡ self.old.failing }
        ensures room { self.new.room ≡ self.old.room }
        ensures calls_left { self.new.calls_left + 1 ≡ self.old.calls_left }
        ensures faults { self.new.faults ≡ self.old.faults }
    {
        self.calls.push_reserved(call);
        self.calls_left -= 1;
    }

    /// Returns how many faults it has counted, up to 2^64 - 1.
    pub(crate) fn faults(&self) -> u64
        ensures { result ≡ self.now.faults }
    {
        self.faults
    }

    /// Lends the bytes that its writes put there, one after the other.
    pub fn put(&self) -> &[u8]
        ensures { result.now ≡ self.now.put }
    {
        &self.put
    }
}

impl Disk for MemDisk {
    ghost tells = { true };

    ghost seen = { λ d. d.bytes };

    ghost may_leave = { λ d image. left_in (state_of d) image };

    ghost moment = { λ d. length (past_of d) };

    ghost left_since = { left_since_of };

    ghost faults = { λ d. d.faults };

    ghost counts_now = { λ d t image le now. inl now };

    ghost only_now = { λ d image left. only_this left_in (past_of d) (λ i. left_in (state_of d) i) image left };

    fn len(&mut self) -> Result<u64, DiskFailed> {
        Ok(self.bytes.len() as u64)
    }

    fn read_at(&mut self, at: u64, buf: &mut [u8]) -> ReadStep {
        if at >= self.bytes.len() as u64 {
            return ReadStep::End;
        }
        ReadStep::Got(copy_front(&self.bytes[at as usize..], buf))
    }

    fn write_at(&mut self, at: u64, piece: &[u8]) -> Result<(), DiskFailed> {
        if self.is_full(piece.len()) {
            return Err(self.fail());
        }
        if self.fails_next() {
            return Err(self.put_half(at, piece));
        }
        self.put_front(at, piece, piece.len());
        Ok(())
    }

    fn sync(&mut self) -> Result<(), DiskFailed> {
        if self.is_full(0) {
            return Err(self.fail());
        }
        if self.fails_next() {
            self.record_sync(DiskCall::SyncFailed);
            return Err(self.fail());
        }
        self.record_sync(DiskCall::Synced);
        Ok(())
    }

    fn law_may_leave_seen(&self) {
        let _bytes = &self.bytes;
    }
}
