// SPDX-License-Identifier: Apache-2.0 OR MIT
//! The trusted edge: std's readers and writers, which tell a port no content.
//!
//! What an adapter does to the bytes that its stream itself tells, as one in memory does, stands in
//! clauses of its own.
ghost use Rattle.std.specs.Prelude.{◌≡◌, ◌≢◌, ◌<◌, ◌≤◌, ℕ, List, ⊤, None, Option, length};
ghost use Rattle.std.specs.Io.KnownBytes.{Consumes, IsAtEnd};
ghost use Rattle.cr_ports.specs.Adapter.{Adapter, HasWritten};
ghost use Rattle.cr_ports.specs.Count.{Rises};
ghost use Rattle.cr_ports.specs.Stream.{and_left, gave, FillsWithin, Taken, and_begun, taken_and, took, TakesWithin};

use crate::{ReadStep, Sink, Source, WriteStep};
use std::io::{Read, Write};
use std::marker::Model;

/// A reader, such as standard input, as a source that doesn't tell its bytes.
///
/// # Model
///
/// The reader and the fault counter.
#[derive(Drop)]
pub struct ReadSource<R: Read> {
    reader: R,
    faults: u64,
}

impl<R: Read> Model for ReadSource<R> {
    ghost Value = { Adapter R };

    ghost view = { λ s. record { stream = s.reader; faults = s.faults } };
}

impl<R: Read> ReadSource<R> {
    /// Creates a source over `reader`, with no fault counted.
    pub fn new(reader: R) -> Self
        ensures reader { result.stream ≡ reader }
        ensures faults { result.faults ≡ 0 }
    {
        ReadSource { reader, faults: 0 }
    }
}

impl<R: Read> Source for ReadSource<R> {
    ghost left = { λ _. None };

    ghost faults = { λ s. s.faults };

    ghost read_gives = { λ s t piece. Consumes (R.remaining s.stream) (R.remaining t.stream) piece };

    /// Reads once: 0 bytes are the end, and each `Err` is a fault. A read that a signal interrupts is one too, since
    /// the program catches none.
    fn read(&mut self, buf: &mut [u8]) -> ReadStep
        requires { 0 < length buf.old }
        ensures bytes { ◌≡◌ {A = Option (List ℕ)} None (and_left (gave result buf.new) None) }
        ensures size { FillsWithin result (length buf.old) }
        ensures end { result ≡ ReadStep.End → ⊤ }
        ensures count { self.old.faults ≤ self.new.faults }
        ensures failed { result ≡ ReadStep.Failed → Rises self.old.faults self.new.faults }
        ensures steady { result ≢ ReadStep.Failed → self.new.faults ≡ self.old.faults }

        // What is given are the reader's next bytes, and the end is told only where it has no more.
        ensures gives { Consumes (R.remaining self.old.stream) (R.remaining self.new.stream) (gave result buf.new) }
        ensures ended { result ≡ ReadStep.End → IsAtEnd (R.remaining self.new.stream) }
    {
        match self.reader.read(buf) {
            Ok(0) => ReadStep::End,
            Ok(n) => ReadStep::Got(n),
            Err(_) => {
                self.faults = self.faults.saturating_add(1);
                ReadStep::Failed
            }
        }
    }
}

/// A writer, such as standard output, as a sink that doesn't tell its bytes.
///
/// # Model
///
/// The writer and the fault counter.
#[derive(Drop)]
pub struct WriteSink<W: Write> {
    writer: W,
    faults: u64,
}

impl<W: Write> Model for WriteSink<W> {
    ghost Value = { Adapter W };

    ghost view = { λ s. record { stream = s.writer; faults = s.faults } };
}

impl<W: Write> WriteSink<W> {
    /// Creates a sink over `writer`, with no fault counted.
    pub fn new(writer: W) -> Self
        ensures writer { result.stream ≡ writer }
        ensures faults { result.faults ≡ 0 }
    {
        WriteSink { writer, faults: 0 }
    }

    /// Counts a fault.
    fn failed(&mut self) -> WriteStep
        ensures step { result ≡ WriteStep.Failed }
        ensures count { self.old.faults ≤ self.new.faults }
        ensures failed { Rises self.old.faults self.new.faults }
        ensures stream { self.new.stream ≡ self.old.stream }
    {
        self.faults = self.faults.saturating_add(1);
        WriteStep::Failed
    }
}

impl<W: Write> Sink for WriteSink<W> {
    ghost taken = { λ _. None };

    ghost faults = { λ s. s.faults };

    /// Writes once, and then flushes, so that nothing that was taken waits in a buffer. Each `Err` of either is a
    /// fault, though the writer may have taken bytes whose flush fails. So is a write that takes nothing of a piece
    /// that isn't empty.
    fn write(&mut self, piece: &[u8]) -> WriteStep
        ensures bytes { ◌≡◌ {A = Option Taken} None (taken_and None (took result piece.now)) }
        ensures size { TakesWithin result (length piece.now) }
        ensures count { self.old.faults ≤ self.new.faults }
        ensures failed { result ≡ WriteStep.Failed → Rises self.old.faults self.new.faults }
        ensures steady { result ≢ WriteStep.Failed → self.new.faults ≡ self.old.faults }

        // The writer has what is told as taken behind what it had, and where that fails
        // at most the front of the piece.
        ensures written { HasWritten result (W.contents self.old.stream) (W.contents self.new.stream) piece.now }
    {
        match self.writer.write(piece) {
            Ok(0) if !piece.is_empty() => self.failed(),
            Ok(n) => {
                if self.writer.flush().is_err() {
                    return self.failed();
                }
                WriteStep::Took(n)
            }
            Err(_) => self.failed(),
        }
    }

    /// Does nothing: a writer has no time for each answer.
    fn begin_answer(&mut self)
        ensures begun { ◌≡◌ {A = Option Taken} None (and_begun None) }
        ensures steady { self.new.faults ≡ self.old.faults }
        ensures same { self.new ≡ self.old }
    {}
}
