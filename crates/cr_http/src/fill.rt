// SPDX-License-Identifier: Apache-2.0 OR MIT
//! Reads on, until the buffer has what is wanted.
ghost use Rattle.std.specs.Prelude.{◌≡◌, ◌≤◌, ◌<◌, ◌≢◌, length, take};
ghost use Rattle.cr_ports.specs.Count.{Rises};
ghost use Rattle.cr_http.specs.Buffer.{text_of, HasRoomFor};
ghost use Rattle.cr_http.specs.Filling.{Moves, IsAtEnd, FindsHead, NeedsHead, ReadsWhile};
ghost use Rattle.cr_http.specs.HeadRange.{window};

use crate::buffer::{Buffer, Fill};
use crate::head_range::{HeadRange, Look, Search, WINDOW, look_on};
use cr_ports::Source;

/// How the search for a head ended.
#[derive(Clone, Copy, PartialEq, Eq)]
pub enum HeadFill {
    /// A head lies here.
    Found(HeadRange),
    /// As many bytes as may be looked at have none.
    Full,
    /// The stream has ended before.
    Ended,
    /// The source failed before.
    Failed,
    /// There is no room for more.
    OutOfMemory,
}

/// Returns the bytes that are looked at for a head.
fn window(text: &[u8]) -> &[u8]
    ensures { result.now ≡ window text.now }
{
    front(text, WINDOW)
}

/// Returns the first bytes, at most so many.
fn front(bytes: &[u8], most: usize) -> &[u8]
    ensures { result.now ≡ take most bytes.now }
{
    if bytes.len() > most {
        &bytes[..most]
    } else {
        bytes
    }
}

/// Reads on until a head ends in the buffer, or none can any more. It looks before each read, and
/// goes on looking where it stopped.
pub fn fill_head<S: Source>(source: &mut S, buffer: &mut Buffer) -> HeadFill
    ensures moves { Moves (S.left source.old) (S.left source.new) (text_of buffer.old) (text_of buffer.new) }
    ensures needed { ReadsWhile S.left S.read_gives NeedsHead source.old source.new
        (text_of buffer.old) (text_of buffer.new) }
    ensures finds { FindsHead result (text_of buffer.new) }
    ensures ended { result ≡ HeadFill.Ended → IsAtEnd (S.left source.new) }
    ensures count { S.faults source.old ≤ S.faults source.new }
    ensures failed { result ≡ HeadFill.Failed → Rises (S.faults source.old) (S.faults source.new) }
    ensures steady { result ≢ HeadFill.Failed → S.faults source.new ≡ S.faults source.old }
{
    let mut search = Search::Skipping(0);
    'reading: loop {
        match look_on(window(buffer.as_slice()), search) {
            Look::Found(range) => return HeadFill::Found(range),
            Look::NotYet(next) => search = next,
        }
        if buffer.len() >= WINDOW {
            return HeadFill::Full;
        }
        match buffer.read_more(source) {
            Fill::Grew => {}
            Fill::Ended => return HeadFill::Ended,
            Fill::Failed => return HeadFill::Failed,
            Fill::OutOfMemory => return HeadFill::OutOfMemory,
        }
    }
}

/// Reads on until the buffer has so many bytes.
#[tactic(auto, using(crate::proofs::Moving::moving))]
pub fn fill_to<S: Source>(source: &mut S, buffer: &mut Buffer, len: usize) -> Fill
    ensures moves { Moves (S.left source.old) (S.left source.new) (text_of buffer.old) (text_of buffer.new) }
    ensures needed { ReadsWhile S.left S.read_gives (λ text. length text < len) source.old source.new
        (text_of buffer.old) (text_of buffer.new) }
    ensures full { result ≡ Fill.Grew → len ≤ length (text_of buffer.new) }
    ensures ended { result ≡ Fill.Ended → IsAtEnd (S.left source.new) }
    ensures short { result ≢ Fill.Grew → length (text_of buffer.new) < len }
    ensures count { S.faults source.old ≤ S.faults source.new }
    ensures failed { result ≡ Fill.Failed → Rises (S.faults source.old) (S.faults source.new) }
    ensures steady { result ≢ Fill.Failed → S.faults source.new ≡ S.faults source.old }
{
    'reading: while buffer.len() < len {
        let step = buffer.read_more(source);
        if step != Fill::Grew {
            return step;
        }
    }
    Fill::Grew
}

/// Reads on until a buffer has so many bytes, for which it has room.
#[tactic(auto, using(crate::proofs::Moving::moving))]
pub fn fill_room<S: Source>(source: &mut S, buffer: &mut Buffer, len: usize) -> Fill
    requires { HasRoomFor len buffer.old }
    ensures moves { Moves (S.left source.old) (S.left source.new) (text_of buffer.old) (text_of buffer.new) }
    ensures needed { ReadsWhile S.left S.read_gives (λ text. length text < len) source.old source.new
        (text_of buffer.old) (text_of buffer.new) }
    ensures room { HasRoomFor len buffer.new }
    ensures full { result ≡ Fill.Grew → length (text_of buffer.new) ≡ len }
    ensures ended { result ≡ Fill.Ended → IsAtEnd (S.left source.new) }
    ensures short { result ≢ Fill.Grew → length (text_of buffer.new) < len }
    ensures count { S.faults source.old ≤ S.faults source.new }
    ensures failed { result ≡ Fill.Failed → Rises (S.faults source.old) (S.faults source.new) }
    ensures steady { result ≢ Fill.Failed → S.faults source.new ≡ S.faults source.old }
{
    'reading: while buffer.len() < len {
        let step = buffer.read_within(source, len);
        if step != Fill::Grew {
            return step;
        }
    }
    Fill::Grew
}
