// SPDX-License-Identifier: Apache-2.0 OR MIT
//! A disk in memory that keeps no record.
ghost use Rattle.std.specs.Prelude.{◌≡◌, ◌⊎◌, ◌<◌, ◌≤◌, ◌+◌, ◌^◌, ℕ, List, length, false, Ok};
ghost use Rattle.std.specs.Prelude.{IfOk, IsOk, IsTrue, OnErr, OnOk};
ghost use Rattle.cr_ports.specs.Stream.{FillsWithin};
ghost use Rattle.cr_disks.specs.Disk.{Elapses, Follows, GivesAt, HasCause, Holds, Only, ReadHasCause, Torn};

use crate::disk::{Disk, DiskFailed};
use crate::mem_disk::{append_within, copy_front, put_over};
use cr_ports::ReadStep;
use std::alloc::{AllocError, Global};
use std::marker::Model;

/// Bytes in memory, without a record of the calls, so that it takes no more than its bytes and their room. A write
/// fails if it begins after the end or has no room, and no other call does. No call takes memory.
///
/// # Model
///
/// The bytes, the room and the fault counter. It says nothing of what a stop would leave: it is for users who look at
/// none.
#[derive(Drop)]
pub struct PlainDisk {
    bytes: Vec<u8>,
    room: usize,
    faults: u64,
}

impl Model for PlainDisk {
    ghost use Rattle.std.specs.Prelude.{◌≤◌, ◌+◌, ◌^◌, length, vec_len, vec_capacity};
    ghost use Rattle.cr_disks.specs.Plain.{PlainHeld};

    ghost Value = { PlainHeld };

    ghost view = { λ d. record { bytes = d.bytes.items; room = d.room; faults = d.faults } };

    ghost invariant = { λ d. (vec_len d.bytes + d.room ≤ vec_capacity d.bytes)
        × (length d.bytes.items + d.room ≤ 2 ^ 62) };
}

impl PlainDisk {
    /// Creates a disk of these bytes, with room for so many more.
    ///
    /// # Errors
    ///
    /// If memory runs out.
    pub fn new(alloc: Global, first: &[u8], room: usize) -> Result<Self, AllocError>
        requires { length first.now + room ≤ 2 ^ 62 }
        ensures bytes { IfOk result (λ disk. disk.bytes ≡ first.now) }
        ensures room { IfOk result (λ disk. disk.room ≡ room) }
        ensures faults { IfOk result (λ disk. disk.faults ≡ 0) }
    {
        let mut bytes = Vec::with_capacity(alloc, first.len() + room)?;
        append_within(&mut bytes, first);
        Ok(PlainDisk {
            bytes,
            room,
            faults: 0,
        })
    }

    /// Lends the bytes.
    pub fn bytes(&self) -> &[u8]
        ensures { result.now ≡ self.now.bytes }
    {
        &self.bytes
    }
}

impl Disk for PlainDisk {
    ghost tells = { false };

    ghost seen = { λ d. d.bytes };

    ghost may_leave = { λ _ _. ⊥ };

    ghost moment = { λ _. 0 };

    ghost left_since = { λ _ _ _. ⊥ };

    ghost faults = { λ d. d.faults };

    ghost counts_now = { λ d t image le now. now };

    ghost only_now = { λ d image left. left };

    fn len(&mut self) -> Result<u64, DiskFailed>
        ensures range { IfOk result (λ n. n ≤ 2 ^ 62) }
        ensures told { IsTrue false → IfOk result (λ n. n ≡ length self.old.bytes) }
        ensures seen { IsTrue false → self.new.bytes ≡ self.old.bytes }
        ensures crash { IsTrue false → (image : List ℕ) → ⊥ → ⊥ }
        ensures cause { HasCause self.old.faults self.new.faults result }

        ensures many { result ≡ Ok (length self.old.bytes) }
        ensures same { self.new ≡ self.old }
    {
        Ok(self.bytes.len() as u64)
    }

    fn read_at(&mut self, at: u64, buf: &mut [u8]) -> ReadStep
        requires { 0 < length buf.old }
        ensures size { FillsWithin result (length buf.old) }
        ensures told { IsTrue false → GivesAt result buf.new at self.old.bytes }
        ensures seen { IsTrue false → self.new.bytes ≡ self.old.bytes }
        ensures crash { IsTrue false → (image : List ℕ) → ⊥ → ⊥ }
        ensures cause { ReadHasCause self.old.faults self.new.faults result }

        ensures gives { GivesAt result buf.new at self.old.bytes }
        ensures same { self.new ≡ self.old }
    {
        if at >= self.bytes.len() as u64 {
            return ReadStep::End;
        }
        ReadStep::Got(copy_front(&self.bytes[at as usize..], buf))
    }

    fn write_at(&mut self, at: u64, piece: &[u8]) -> Result<(), DiskFailed>
        requires { IsTrue false → at ≤ length self.old.bytes }
        ensures within { OnOk result (at + length piece.now ≤ 2 ^ 62) }
        ensures written { IsTrue false → OnOk result (Holds self.old.bytes at piece.now self.new.bytes) }
        ensures torn { IsTrue false → OnErr result (Torn at (length piece.now) self.old.bytes self.new.bytes) }
        ensures crash { IsTrue false → Follows (Torn at (length piece.now)) (λ _. ⊥) (λ _. ⊥) }
        ensures time { IsTrue false → Elapses 0 0 (λ _ _. ⊥) (λ _ _. ⊥) (λ _. ⊥) }
        ensures cause { HasCause self.old.faults self.new.faults result }

        // It fails where it begins behind the end or has no room, and then changes no byte.
        ensures puts { OnOk result (Holds self.old.bytes at piece.now self.new.bytes) }
        ensures fits { OnOk result ((at ≤ length self.old.bytes) × (length piece.now ≤ self.old.room)) }
        ensures fails { OnErr result ((self.old.room < length piece.now) ⊎ (length self.old.bytes < at)) }
        ensures stays { OnErr result (self.new.bytes ≡ self.old.bytes) }
    {
        if at > self.bytes.len() as u64 || self.room < piece.len() {
            self.faults = self.faults.saturating_add(1);
            return Err(DiskFailed);
        }
        put_over(&mut self.bytes, at as usize, piece);
        self.room -= piece.len();
        Ok(())
    }

    fn sync(&mut self) -> Result<(), DiskFailed>
        ensures durable { IsTrue false → OnOk result (Only self.old.bytes (λ _. ⊥)) }
        ensures seen { IsTrue false → self.new.bytes ≡ self.old.bytes }
        ensures crash { IsTrue false → (image : List ℕ) → ⊥ → ⊥ ⊎ (image ≡ self.old.bytes) }
        ensures time { IsTrue false → Elapses 0 0 (λ _ _. ⊥) (λ _ _. ⊥) (λ _. ⊥) }
        ensures cause { HasCause self.old.faults self.new.faults result }

        ensures done { IsOk result }
        ensures same { self.new ≡ self.old }
    {
        Ok(())
    }

    fn law_may_leave_seen(&self)
        ensures { IsTrue false → ⊥ }
    {}
}
