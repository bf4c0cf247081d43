// SPDX-License-Identifier: Apache-2.0 OR MIT
//! How a text falls into runs.
ghost use Rattle.std.specs.Prelude.{◌≡◌, ◌<◌, ◌≤◌, false, length, drop, ◌∷◌};
ghost use Rattle.cr_search_parse.specs.Runs.{runs_of, run_length};
ghost use Rattle.cr_search_parse.specs.Cutting.{run_told, spaces_length, ends_chunk, chunk_length};

/// A run of a text.
#[derive(Drop)]
pub(crate) enum Run<'a> {
    /// So many spaces in a row.
    Spaces(usize),
    /// A parenthesis that opens.
    Opening,
    /// One that closes.
    Closing,
    /// The longest run of anything else.
    Chunk(&'a [u8]),
}

impl Run<'_> {
    /// Returns how many bytes it has.
    pub(crate) fn len(&self) -> usize
        ensures { result ≡ run_length (run_told self.now) }
    {
        match self {
            Run::Spaces(count) => *count,
            Run::Opening | Run::Closing => 1,
            Run::Chunk(bytes) => bytes.len(),
        }
    }
}

/// Returns how many spaces a text begins with.
fn spaces_len(text: &[u8]) -> usize
    ensures count { result ≡ spaces_length text.now }
    ensures within { result ≤ length text.now }
{
    for (i, byte) in text.iter().enumerate() {
        if *byte != b' ' {
            return i;
        }
    }
    text.len()
}

/// Returns whether a byte outside quotation marks ends a chunk.
fn ends_chunk(byte: u8) -> bool
    ensures { result ≡ ends_chunk byte }
{
    byte == b' ' || byte == b'(' || byte == b')'
}

/// Returns how many bytes the chunk has that a text begins with: a quotation mark takes in all up to the next such
/// mark, or to the end where none follows.
fn chunk_len(text: &[u8]) -> usize
    ensures count { result ≡ chunk_length false text.now }
    ensures within { result ≤ length text.now }
{
    let mut quoted = false;
    for (i, byte) in text.iter().enumerate() {
        if !quoted && ends_chunk(*byte) {
            return i;
        }
        if *byte == b'"' {
            quoted = !quoted;
        }
    }
    text.len()
}

/// Returns the run that a text begins with.
pub(crate) fn first_run(text: &[u8]) -> Run<'_>
    requires { 0 < length text.now }
    ensures first { runs_of text.now ≡ run_told result ∷ runs_of (drop (run_length (run_told result)) text.now) }
    ensures begins { 0 < run_length (run_told result) }
    ensures within { run_length (run_told result) ≤ length text.now }
{
    match text[0] {
        b' ' => Run::Spaces(spaces_len(text)),
        b'(' => Run::Opening,
        b')' => Run::Closing,
        _ => Run::Chunk(&text[..chunk_len(text)]),
    }
}
