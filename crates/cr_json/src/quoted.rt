// SPDX-License-Identifier: Apache-2.0 OR MIT
//! Strings of JSON (RFC 8259, section 7). A name is bytes here, and the writer of the crate `json` takes text.
ghost use Rattle.std.specs.Prelude.{◌≡◌, ◌<◌, ◌≤◌, ◌+◌, ◌-◌, ◌*◌, length, IfOk, IsOk};
ghost use Rattle.std.specs.Char.{digit_char};
ghost use Rattle.std.specs.List.{slice_range};
ghost use Rattle.json.specs.Print.{escape_letter, escape_byte, escape, quoted};
ghost use Rattle.cr_json.specs.Put.{Appends, HasRoom, Puts, Takes};

use crate::put::append;
use crate::runs::run_end;
use arrayvec::ArrayVec;
use std::alloc::AllocError;

// The letter of a byte's short escape, or 0 where it has none.
fn letter(byte: u8) -> u8
    ensures { result ≡ escape_letter byte }
{
    match byte {
        b'"' | b'\\' => byte,
        8 => b'b',
        12 => b'f',
        b'\n' => b'n',
        b'\r' => b'r',
        b'\t' => b't',
        _ => 0,
    }
}

fn hex(digit: u8) -> u8
    requires { digit < 16 }
    ensures { result ≡ digit_char digit }
{
    if digit < 10 {
        b'0' + digit
    } else {
        b'a' - 10 + digit
    }
}

/// Returns what is in a string for a byte, at most six bytes.
#[tactic(auto, unfolding(json::specs::Print::escape_byte))]
fn escaped(byte: u8) -> ArrayVec<u8, 6>
    ensures { result.items ≡ escape_byte byte }
{
    let mut text = ArrayVec::new();
    let letter = letter(byte);
    if letter > 0 {
        text.push(b'\\');
        text.push(letter);
        return text;
    }
    if byte < 0x20 {
        text.try_extend_from_slice(b"\\u00").unwrap();
        text.push(hex(byte / 16));
        text.push(hex(byte % 16));
        return text;
    }
    text.push(byte);
    text
}

/// Appends what is in a string for a text from `at` on, up to the next byte that needs an escape and with it: where
/// the rest begins.
fn append_run(into: &mut Vec<u8>, text: &[u8], at: usize) -> Result<usize, AllocError>
    requires { at < length text.now }
    ensures after { IfOk result (λ next. at < next) }
    ensures within { IfOk result (λ next. next ≤ length text.now) }
    ensures puts { IfOk result
        (λ next. Puts into.old into.new (escape (slice_range text.now at next)) (6 * (next - at))) }
    ensures sure { HasRoom into.old (6 * (length text.now - at)) → IsOk result }
{
    let end = run_end(text, at);
    append(into, &text[at..end])?;
    if end == text.len() {
        return Ok(end);
    }
    append(into, escaped(text[end]).as_slice())?;
    Ok(end + 1)
}

fn append_escaped(into: &mut Vec<u8>, text: &[u8]) -> Result<(), AllocError>
    ensures text { Appends result into.old into.new (escape text.now) }
    ensures room { Takes result into.old into.new (6 * length text.now) }
{
    let mut at = 0;
    'runs: while at < text.len() {
        at = append_run(into, text, at)?;
    }
    Ok(())
}

/// Appends a text as a JSON string, with the escapes that `serde_json` writes. What needs no escape is
/// copied in runs.
pub(crate) fn append_quoted(into: &mut Vec<u8>, text: &[u8]) -> Result<(), AllocError>
    ensures text { Appends result into.old into.new (quoted text.now) }
    ensures room { Takes result into.old into.new (6 * length text.now + 2) }
{
    append(into, b"\"")?;
    append_escaped(into, text)?;
    append(into, b"\"")?;
    Ok(())
}
