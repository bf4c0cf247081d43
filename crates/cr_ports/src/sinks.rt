// SPDX-License-Identifier: Apache-2.0 OR MIT
//! A sink in memory, which tells all that it took, and the answers that were begun.
ghost use Rattle.std.specs.Prelude.{◌≡◌, ◌≢◌, ◌≤◌, ◌+◌, ◌++◌, Some, length, IfOk, vec_len, vec_capacity};
ghost use Rattle.cr_ports.specs.Count.{Rises};
ghost use Rattle.cr_ports.specs.Memory.{Output, write_step, write_faults};
ghost use Rattle.cr_ports.specs.Script.{FollowsScript};
ghost use Rattle.cr_ports.specs.Stream.{and_begun, taken_and, took, untaken, TakesWithin};

use crate::script::Script;
use crate::{Sink, WriteStep};
use std::alloc::{AllocError, Global};
use std::marker::Model;

/// Takes bytes up to its room, at most as many a call as are listed, and fails exactly at the listed calls and if its
/// room is used up.
///
/// # Model
///
/// The bytes that were taken; how many answers were begun, up to 2^64 - 1, and how many bytes had been taken when the
/// last of these was; the room that is left, and the lists.
pub struct MemSink {
    bytes: Vec<u8>,
    begun: u64,
    // How many bytes there were when the last answer was begun.
    begun_at: usize,
    room: usize,
    script: Script,
}

// Written out, so that a caller doesn't prove again how each part is dropped.
impl Drop for MemSink {
    fn drop(self) {
        let MemSink {
            bytes: _,
            begun: _,
            begun_at: _,
            room: _,
            script: _,
        } = self;
    }
}

impl Model for MemSink {
    ghost Value = { Output };

    ghost view = { λ s. record {
      taken = record { bytes = s.bytes.items; begun = s.begun; begun_at = s.begun_at };
      room = s.room;
      script = s.script;
    } };

    ghost invariant = { λ s. vec_len s.bytes + s.room ≤ vec_capacity s.bytes };
}

impl MemSink {
    /// Creates a sink with room for `room` bytes, which is taken here, with no call made, no answer begun and no
    /// fault counted.
    ///
    /// Call number i, from 0, takes at most `pieces[i]` bytes (1 if 0 is listed), and past the list's end as many as
    /// there is room for. The calls numbered in `failing` fail. A call also fails if its piece isn't empty and no
    /// room is left.
    ///
    /// # Errors
    ///
    /// If memory runs out.
    pub fn new(
        alloc: Global,
        room: usize,
        pieces: Vec<usize>,
        failing: Vec<u64>,
    ) -> Result<Self, AllocError>
        ensures taken { IfOk result (λ sink. sink.taken ≡ untaken) }
        ensures room { IfOk result (λ sink. sink.room ≡ room) }
        ensures pieces { IfOk result (λ sink. sink.script.pieces ≡ pieces.items) }
        ensures failing { IfOk result (λ sink. sink.script.calls.failing ≡ failing.items) }
        ensures calls { IfOk result (λ sink. sink.script.calls.made ≡ 0) }
        ensures faults { IfOk result (λ sink. sink.script.faults ≡ 0) }
    {
        let bytes = Vec::with_capacity(alloc, room)?;
        Ok(MemSink {
            bytes,
            begun: 0,
            begun_at: 0,
            room,
            script: Script::new(pieces, failing),
        })
    }

    /// Copies the bytes, room, lists and counts.
    ///
    /// # Errors
    ///
    /// If memory runs out.
    pub(crate) fn copy(&self, alloc: Global) -> Result<Self, AllocError>
        ensures { IfOk result (λ copy. copy ≡ self.now) }
    {
        let mut bytes = Vec::with_capacity(alloc, self.bytes.len() + self.room)?;
        append_within(&mut bytes, &self.bytes);
        let script = self.script.copy()?;
        Ok(MemSink {
            bytes,
            begun: self.begun,
            begun_at: self.begun_at,
            room: self.room,
            script,
        })
    }

    /// Returns the bytes that were taken, in order.
    pub fn taken(&self) -> &[u8]
        ensures { result.now ≡ self.now.taken.bytes }
    {
        &self.bytes
    }

    /// Returns how many answers were begun, up to 2^64 - 1.
    pub fn begun(&self) -> u64
        ensures { result ≡ self.now.taken.begun }
    {
        self.begun
    }
}

impl Sink for MemSink {
    ghost taken = { λ s. Some s.taken };

    ghost faults = { λ s. s.script.faults };

    fn write(&mut self, piece: &[u8]) -> WriteStep
        ensures bytes { Some self.new.taken ≡ taken_and (Some self.old.taken) (took result piece.now) }
        ensures size { TakesWithin result (length piece.now) }
        ensures count { self.old.script.faults ≤ self.new.script.faults }
        ensures failed { result ≡ WriteStep.Failed → Rises self.old.script.faults self.new.script.faults }
        ensures steady { result ≢ WriteStep.Failed → self.new.script.faults ≡ self.old.script.faults }

        // It fails at the listed calls, where it has no room for a piece, and nowhere else.
        ensures step { result ≡ write_step self.old (length piece.now) }
        ensures script { FollowsScript self.old.script self.new.script }
        ensures faults { self.new.script.faults ≡ write_faults result self.old.script.faults }
    {
        let n = self.script.moved(self.room.min(piece.len()));
        let listed = self.script.begin();
        if listed || (self.room == 0 && !piece.is_empty()) {
            self.script.fail();
            return WriteStep::Failed;
        }
        append_within(&mut self.bytes, &piece[..n]);
        self.room -= n;
        WriteStep::Took(n)
    }

    fn begin_answer(&mut self)
        ensures begun { Some self.new.taken ≡ and_begun (Some self.old.taken) }
        ensures steady { self.new.script.faults ≡ self.old.script.faults }

        // The room and the script are as they were.
        ensures room { self.new.room ≡ self.old.room }
        ensures script { self.new.script ≡ self.old.script }
    {
        self.begun = self.begun.saturating_add(1);
        self.begun_at = self.bytes.len();
    }
}

/// Appends the piece; there is room for it.
fn append_within(bytes: &mut Vec<u8>, piece: &[u8])
    requires { vec_len bytes.old + length piece.now ≤ vec_capacity bytes.old }
    ensures items { bytes.new.items ≡ bytes.old.items ++ piece.now }
    ensures len { vec_len bytes.new ≡ vec_len bytes.old + length piece.now }
    ensures capacity { vec_capacity bytes.old ≤ vec_capacity bytes.new }
{
    let _ = bytes.extend_from_slice(piece);
}
