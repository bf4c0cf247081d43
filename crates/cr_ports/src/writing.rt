// SPDX-License-Identifier: Apache-2.0 OR MIT
//! Writes all bytes of a text, piece by piece.
ghost use Rattle.std.specs.Prelude.{[], ◌∷◌, OnOk, OnErr};
ghost use Rattle.cr_ports.specs.Writing.{AnswerBreaksOff, BreaksOff, Writes, WritesAnswers, outlet_of};

use crate::sink::{Sink, WriteStep};

/// A write failed: a fault of the sink, which it counted.
#[derive(Clone, Copy, PartialEq, Eq)]
pub struct WriteFault;

/// Writes all the bytes, or a part of them up to a fault, after which nothing more is written. No answer is begun.
/// Takes no memory.
///
/// # Errors
///
/// `WriteFault`: the fault counter rose, and bytes are missing. Without it the counter is unchanged.
pub fn write_all<O: Sink>(sink: &mut O, bytes: &[u8]) -> Result<(), WriteFault>
    ensures whole { OnOk result
        (Writes bytes.now (outlet_of O.taken O.faults sink.old) (outlet_of O.taken O.faults sink.new)) }
    ensures failed { OnErr result
        (BreaksOff bytes.now (outlet_of O.taken O.faults sink.old) (outlet_of O.taken O.faults sink.new)) }
{
    let mut at = 0;
    'writing: while at < bytes.len() {
        match sink.write(&bytes[at..]) {
            WriteStep::Took(n) => at += n,
            WriteStep::Failed => return Err(WriteFault),
        }
    }
    Ok(())
}

/// Begins an answer, once and before its first byte, and writes all its bytes, or a part of them up to a fault. More
/// bytes that are then written by `write_all` belong to the same answer. Takes no memory.
///
/// # Errors
///
/// `WriteFault`: the fault counter rose, and bytes are missing. Without it the counter is unchanged.
pub fn write_answer<O: Sink>(sink: &mut O, text: &[u8]) -> Result<(), WriteFault>
    ensures whole { OnOk result
        (WritesAnswers (text.now ∷ []) (outlet_of O.taken O.faults sink.old) (outlet_of O.taken O.faults sink.new)) }
    ensures failed { OnErr result
        (AnswerBreaksOff [] text.now (outlet_of O.taken O.faults sink.old) (outlet_of O.taken O.faults sink.new)) }
{
    sink.begin_answer();
    write_all(sink, text)
}
