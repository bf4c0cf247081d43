// SPDX-License-Identifier: Apache-2.0 OR MIT
//! Takes bytes in pieces.
ghost use Rattle.std.specs.Prelude.{◌≡◌, ◌≢◌, ◌≤◌, ℕ, Option, length};
ghost use Rattle.cr_ports.specs.Count.{Rises};
ghost use Rattle.cr_ports.specs.Stream.{Taken, and_begun, taken_and, took, TakesWithin};

/// What one write did.
#[derive(Clone, Copy, PartialEq, Eq)]
pub enum WriteStep {
    /// So many bytes of the piece's front were taken: at least 1 of a piece that isn't empty.
    Took(usize),
    /// Nothing was taken: a fault, which was counted.
    Failed,
}

/// Takes bytes in pieces.
pub trait Sink {
    /// The bytes that were taken, how many answers were begun, and how many bytes had been taken when the last of
    /// these was begun, if the sink tells them.
    ghost taken: { Self → Option Taken };

    /// How often a write has failed.
    ghost faults: { Self → ℕ };

    /// Takes bytes from the front of `piece`, after those taken before. A sink that has room for no byte of a piece
    /// that isn't empty fails.
    ///
    /// # Errors
    ///
    /// `Failed`: the fault counter rose, and no byte was taken. With every other answer the counter is unchanged.
    ///
    /// # Cost
    ///
    /// At most a look at each byte of `piece`; an adapter may wait for its stream.
    fn write(&mut self, piece: &[u8]) -> WriteStep
        ensures bytes { taken self.new ≡ taken_and (taken self.old) (took result piece.now) }
        ensures size { TakesWithin result (length piece.now) }

        ensures count { faults self.old ≤ faults self.new }
        ensures failed { result ≡ WriteStep.Failed → Rises (faults self.old) (faults self.new) }
        ensures steady { result ≢ WriteStep.Failed → faults self.new ≡ faults self.old };

    /// Begins an answer: what is written from now on, up to the next such call, is one answer. A sink that gives each
    /// answer a time measures it from the first write after this call. Nothing is written, and nothing fails: one
    /// more answer is begun, after the bytes that were taken so far. Takes no memory.
    fn begin_answer(&mut self)
        ensures begun { taken self.new ≡ and_begun (taken self.old) }
        ensures steady { faults self.new ≡ faults self.old };
}
