// SPDX-License-Identifier: Apache-2.0 OR MIT
//! Texts with escapes, as bodies, answers and raw bytes are written in a case.

use std::alloc::{AllocError, AllocFailed};

/// Why a line adds nothing to a case.
#[derive(Clone, Copy, PartialEq, Eq)]
pub enum LineError {
    /// It is none of the forms.
    NoForm,
    /// Out of memory.
    OutOfMemory,
}

impl From<AllocError> for LineError {
    fn from(_: AllocError) -> LineError {
        LineError::OutOfMemory
    }
}

impl<T: Drop> From<AllocFailed<T>> for LineError {
    fn from(_: AllocFailed<T>) -> LineError {
        LineError::OutOfMemory
    }
}

/// Adds the bytes that a text spells. A `\` begins an escape: `\r`, `\n` and `\\`, `\xHH` for a byte by its two
/// hexadecimal digits, and `\(N TEXT)` for N times a text that has no escape.
pub fn add_text(into: &mut Vec<u8>, text: &str) -> Result<(), LineError> {
    let mut is_plain = true;
    for part in text.split('\\') {
        if is_plain {
            into.extend_from_slice(part.as_bytes())?;
            is_plain = false;
        } else if part.is_empty() {
            into.push(b'\\')?;
            is_plain = true;
        } else {
            add_escaped(into, part)?;
        }
    }
    // The last part is plain where the text ends with an escaped `\`; after a lone one comes none.
    if is_plain {
        return Err(LineError::NoForm);
    }
    Ok(())
}

// Adds what the first letters of a part stand for, those after a `\`, and the rest unchanged.
fn add_escaped(into: &mut Vec<u8>, part: &str) -> Result<(), LineError> {
    let rest = if let Some(rest) = part.strip_prefix('r') {
        into.push(b'\r')?;
        rest
    } else if let Some(rest) = part.strip_prefix('n') {
        into.push(b'\n')?;
        rest
    } else if let Some(rest) = part.strip_prefix('x') {
        let (digits, rest) = rest.split_at_checked(2).ok_or(LineError::NoForm)?;
        into.push(byte_of(digits)?)?;
        rest
    } else {
        let (inside, rest) = part
            .strip_prefix('(')
            .and_then(|rest| rest.split_once(')'))
            .ok_or(LineError::NoForm)?;
        let (count, text) = inside.split_once(' ').ok_or(LineError::NoForm)?;
        add_times(into, count, text)?;
        rest
    };
    into.extend_from_slice(rest.as_bytes())?;
    Ok(())
}

/// Returns the byte that two hexadecimal digits tell.
pub fn byte_of(digits: &str) -> Result<u8, LineError> {
    u8::from_str_radix(digits, 16).map_err(|_| LineError::NoForm)
}

/// Returns the number that a text is in decimal.
pub fn read_number(text: &str) -> Result<usize, LineError> {
    match text.parse::<u32>() {
        Ok(number) => Ok(number as usize),
        Err(_) => Err(LineError::NoForm),
    }
}

/// Returns one less than the number, from 1, that a text is in decimal.
pub fn read_before(text: &str) -> Result<u64, LineError> {
    let number = read_number(text)?.checked_sub(1).ok_or(LineError::NoForm)?;
    Ok(number as u64)
}

// Adds a text so many times, as it is.
fn add_times(into: &mut Vec<u8>, count: &str, text: &str) -> Result<(), LineError> {
    for _ in 0..read_number(count)? {
        into.extend_from_slice(text.as_bytes())?;
    }
    Ok(())
}

/// Adds the bytes that a text with escapes spells, as often as a count says; once for an empty count.
pub fn add_raw(into: &mut Vec<u8>, count: &str, text: &str) -> Result<(), LineError> {
    let count = if count.is_empty() {
        1
    } else {
        read_number(count)?
    };
    for _ in 0..count {
        add_text(into, text)?;
    }
    Ok(())
}
