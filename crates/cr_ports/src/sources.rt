// SPDX-License-Identifier: Apache-2.0 OR MIT
//! Sources in memory, which tell all that they hold.
ghost use Rattle.std.specs.Prelude.{◌≡◌, ◌≢◌, ◌<◌, ◌≤◌, ℕ, List, [], Some, length, IfOk, IfSome};
ghost use Rattle.cr_ports.specs.Count.{Rises};
ghost use Rattle.cr_ports.specs.Memory.{Input, PlainReadGives, ReadGives, plain_step, read_step, read_faults};
ghost use Rattle.cr_ports.specs.Script.{FollowsScript};
ghost use Rattle.cr_ports.specs.Stream.{and_left, gave, FillsWithin};

use crate::script::Script;
use crate::unread::Unread;
use crate::{ReadStep, Source};
use std::alloc::AllocError;
use std::marker::Model;

/// Gives its bytes in pieces of the listed lengths, and fails exactly at the listed calls.
///
/// # Model
///
/// The bytes that are left, and the lists.
pub struct MemSource {
    bytes: Unread,
    script: Script,
}

// Written out, so that a caller doesn't prove again how each part is dropped.
impl Drop for MemSource {
    fn drop(self) {
        let MemSource {
            bytes: _,
            script: _,
        } = self;
    }
}

impl Model for MemSource {
    ghost Value = { Input };

    ghost view = { λ s. record { left = s.bytes; script = s.script } };
}

impl MemSource {
    /// Creates a source of `bytes`, with no call made and no fault counted.
    ///
    /// Call number i, from 0, gives at most `pieces[i]` bytes (1 if 0 is listed), and past the list's end as many as
    /// the buffer takes. The calls numbered in `failing` fail.
    pub fn new(bytes: Vec<u8>, pieces: Vec<usize>, failing: Vec<u64>) -> Self
        ensures left { result.left ≡ bytes.items }
        ensures pieces { result.script.pieces ≡ pieces.items }
        ensures failing { result.script.calls.failing ≡ failing.items }
        ensures calls { result.script.calls.made ≡ 0 }
        ensures faults { result.script.faults ≡ 0 }
    {
        MemSource {
            bytes: Unread::new(bytes),
            script: Script::new(pieces, failing),
        }
    }

    /// Copies the bytes, lists and counts.
    ///
    /// # Errors
    ///
    /// If memory runs out.
    pub(crate) fn copy(&self) -> Result<Self, AllocError>
        ensures { IfOk result (λ copy. copy ≡ self.now) }
    {
        let bytes = self.bytes.copy()?;
        let script = self.script.copy()?;
        Ok(MemSource { bytes, script })
    }

    /// Returns the bytes that no read has given yet.
    pub fn unread(&self) -> &[u8]
        ensures { result.now ≡ self.now.left }
    {
        self.bytes.as_slice()
    }
}

impl Source for MemSource {
    ghost left = { λ s. Some s.left };

    ghost faults = { λ s. s.script.faults };

    ghost read_gives = { ReadGives };

    fn read(&mut self, buf: &mut [u8]) -> ReadStep
        requires { 0 < length buf.old }

        ensures bytes { Some self.old.left ≡ and_left (gave result buf.new) (Some self.new.left) }
        ensures size { FillsWithin result (length buf.old) }
        ensures end { result ≡ ReadStep.End → IfSome (Some self.old.left) (λ bytes. bytes ≡ []) }
        ensures gives { ReadGives self.old self.new (gave result buf.new) }
        ensures count { self.old.script.faults ≤ self.new.script.faults }
        ensures failed { result ≡ ReadStep.Failed → Rises self.old.script.faults self.new.script.faults }
        ensures steady { result ≢ ReadStep.Failed → self.new.script.faults ≡ self.old.script.faults }

        // It fails at the listed calls and at no other, and ends where nothing is left.
        ensures step { result ≡ read_step self.old (length buf.old) }
        ensures script { FollowsScript self.old.script self.new.script }
        ensures faults { self.new.script.faults ≡ read_faults result self.old.script.faults }
    {
        let n = self.script.moved(self.bytes.len().min(buf.len()));
        if self.script.begin() {
            self.script.fail();
            return ReadStep::Failed;
        }
        if self.bytes.len() == 0 {
            return ReadStep::End;
        }
        self.bytes.give(buf, n);
        ReadStep::Got(n)
    }
}

/// Gives as many bytes as the buffer takes, and never fails: its fault counter is 0.
///
/// # Model
///
/// The bytes that are left.
#[derive(Drop)]
pub struct PlainSource {
    bytes: Unread,
}

impl Model for PlainSource {
    ghost Value = { List ℕ };

    ghost view = { λ s. s.bytes };
}

impl PlainSource {
    /// Creates a source of `bytes`.
    pub fn new(bytes: Vec<u8>) -> Self
        ensures { result ≡ bytes.items }
    {
        PlainSource {
            bytes: Unread::new(bytes),
        }
    }
}

impl Source for PlainSource {
    ghost left = { λ s. Some s };

    ghost faults = { λ _. 0 };

    ghost read_gives = { PlainReadGives };

    fn read(&mut self, buf: &mut [u8]) -> ReadStep
        requires { 0 < length buf.old }

        ensures bytes { Some self.old ≡ and_left (gave result buf.new) (Some self.new) }
        ensures size { FillsWithin result (length buf.old) }
        ensures end { result ≡ ReadStep.End → IfSome (Some self.old) (λ bytes. bytes ≡ []) }
        ensures gives { PlainReadGives self.old self.new (gave result buf.new) }
        ensures count { 0 ≤ 0 }
        ensures failed { result ≡ ReadStep.Failed → Rises 0 0 }
        ensures steady { result ≢ ReadStep.Failed → ◌≡◌ {A = ℕ} 0 0 }

        ensures step { result ≡ plain_step (length self.old) (length buf.old) }
    {
        if self.bytes.len() == 0 {
            return ReadStep::End;
        }
        let n = self.bytes.len().min(buf.len());
        self.bytes.give(buf, n);
        ReadStep::Got(n)
    }
}
