// SPDX-License-Identifier: Apache-2.0 OR MIT
//! Bytes cut at the first of a kind.
ghost use Rattle.std.specs.Prelude.{◌≡◌, ◌==◌, ◌≤◌, length};
ghost use Rattle.std.specs.List.{position, position_or_len, before_first as front, after_first as back};

/// Returns the index of the first such byte.
fn find(byte: u8, text: &[u8]) -> Option<usize>
    ensures { result ≡ position (λ b. b == byte) text.now }
{
    text.iter().position(|b| *b == byte)
}

/// Returns the index of the first such byte, or the length where there is none.
fn index_of(byte: u8, text: &[u8]) -> usize
    ensures value { result ≡ position_or_len (λ b. b == byte) text.now }
    ensures within { result ≤ length text.now }
{
    match find(byte, text) {
        Some(index) => index,
        None => text.len(),
    }
}

/// Returns the bytes in front of the first such byte, all of them where there is none.
///
/// # Cost
///
/// One walk up to the byte. Takes no memory.
pub fn before_first(byte: u8, text: &[u8]) -> &[u8]
    ensures { result.now ≡ front (λ b. b == byte) text.now }
{
    &text[..index_of(byte, text)]
}

/// Returns the bytes after the first such byte, none if there is none.
///
/// # Cost
///
/// One walk up to the byte. Takes no memory.
pub fn after_first(byte: u8, text: &[u8]) -> &[u8]
    ensures { result.now ≡ back (λ b. b == byte) text.now }
{
    let index = index_of(byte, text);
    if index < text.len() {
        &text[index + 1..]
    } else {
        &[]
    }
}
