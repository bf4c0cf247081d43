// SPDX-License-Identifier: Apache-2.0 OR MIT
//! Bytes that come in pieces.
ghost use Rattle.std.specs.Prelude.{◌≡◌, ◌≢◌, ◌<◌, ◌≤◌, ℕ, List, [], Option, length, IfSome};
ghost use Rattle.cr_ports.specs.Count.{Rises};
ghost use Rattle.cr_ports.specs.Stream.{and_left, gave, FillsWithin};

/// What one read did.
#[derive(Clone, Copy, PartialEq, Eq)]
pub enum ReadStep {
    /// So many bytes, from 1 to the buffer's length, now stand at the front of the buffer.
    Got(usize),
    /// No byte is left, and none will come.
    End,
    /// Nothing was read: a fault, which was counted.
    Failed,
}

/// Bytes that come in pieces.
pub trait Source {
    /// The bytes that are left, if the source tells them.
    ghost left: { Self → Option (List ℕ) };

    /// How often a read has failed.
    ghost faults: { Self → ℕ };

    /// One read leads from the first state to the second, and gives these bytes: none at the end, and none if it
    /// fails.
    ghost read_gives: { Self → Self → List ℕ → Type 0 };

    /// Reads the next bytes into the front of `buf`, which isn't empty. After `End` and after `Failed` the bytes that
    /// are left are as before.
    ///
    /// # Errors
    ///
    /// `Failed`: the fault counter rose. With every other answer it is unchanged.
    ///
    /// # Cost
    ///
    /// At most a look at each byte of `buf`; an adapter may wait for its stream.
    fn read(&mut self, buf: &mut [u8]) -> ReadStep
        requires { 0 < length buf.old }

        // What was given, and then what is left, is what was left.
        ensures bytes { left self.old ≡ and_left (gave result buf.new) (left self.new) }
        ensures size { FillsWithin result (length buf.old) }
        ensures end { result ≡ ReadStep.End → IfSome (left self.old) (λ bytes. bytes ≡ []) }
        ensures gives { read_gives self.old self.new (gave result buf.new) }

        ensures count { faults self.old ≤ faults self.new }
        ensures failed { result ≡ ReadStep.Failed → Rises (faults self.old) (faults self.new) }
        ensures steady { result ≢ ReadStep.Failed → faults self.new ≡ faults self.old };
}
