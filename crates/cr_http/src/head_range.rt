// SPDX-License-Identifier: Apache-2.0 OR MIT
//! Where a head lies, found by a search that goes on where it stopped.
ghost use Rattle.std.specs.Prelude.{◌≡◌, ◌+◌, ◌<◌, ◌≤◌, length, take, drop};
ghost use Rattle.cr_http.specs.HeadRange.{blank_end_from, head_end_from};
ghost use Rattle.cr_http.specs.Search.{IsLine, Looks, reached};

/// How many bytes from the offset on are looked at for a head, the empty lines before it included.
pub const WINDOW: usize = 16_384;

/// Where a head begins and ends.
#[derive(Clone, Copy, PartialEq, Eq)]
pub struct HeadRange {
    /// The first byte after the empty lines at the front.
    pub start: usize,
    /// The first byte after the empty line that ends the head.
    pub end: usize,
}

/// How far the search for a head has come.
#[derive(Clone, Copy, PartialEq, Eq)]
pub enum Search {
    /// Up to here there are only empty lines.
    Skipping(usize),
    /// The head begins at `start` and doesn't end before an LF at `at` or later.
    InHead {
        /// The head's first byte.
        start: usize,
        /// The first byte to be looked at.
        at: usize,
    },
}

/// What a look for a head saw.
#[derive(Clone, Copy, PartialEq, Eq)]
pub enum Look {
    /// A whole head.
    Found(HeadRange),
    /// No end of a head yet: where to look on.
    NotYet(Search),
}

/// What begins at an offset.
#[derive(Clone, Copy, PartialEq, Eq)]
pub enum Line {
    /// An empty line of so many bytes, LF or CR LF.
    Empty(usize),
    /// Something else.
    Other,
    /// Too few bytes to tell.
    Open,
}

fn line_at(bytes: &[u8]) -> Line
    ensures { IsLine result bytes.now }
{
    match bytes {
        [] | [b'\r'] => Line::Open,
        [b'\n', ..] => Line::Empty(1),
        [b'\r', b'\n', ..] => Line::Empty(2),
        _ => Line::Other,
    }
}

/// Looks on for a head in the bytes, from where the search has come.
pub fn look_on(bytes: &[u8], search: Search) -> Look
    requires { reached search ≤ length bytes.now }
    ensures { Looks bytes.now search result }
{
    match search {
        Search::Skipping(at) => skip(bytes, at),
        Search::InHead { start, at } => look_in_head(bytes, start, at),
    }
}

/// Skips empty lines, and then looks for the head's end.
fn skip(bytes: &[u8], from: usize) -> Look
    requires { from ≤ length bytes.now }
    ensures { Looks bytes.now (Search.Skipping from) result }
{
    let mut at = from;
    'lines: loop {
        match line_at(&bytes[at..]) {
            Line::Empty(len) => at += len,
            Line::Other => return look_in_head(bytes, at, at),
            Line::Open => return Look::NotYet(Search::Skipping(at)),
        }
    }
}

/// Looks for an LF that an empty line follows.
fn look_in_head(bytes: &[u8], start: usize, from: usize) -> Look
    requires { from ≤ length bytes.now }
    ensures { Looks bytes.now (Search.InHead start from) result }
{
    let mut at = from;
    'bytes: while at < bytes.len() {
        if bytes[at] == b'\n' {
            match line_at(&bytes[at + 1..]) {
                Line::Empty(len) => {
                    let end = at + 1 + len;
                    return Look::Found(HeadRange { start, end });
                }
                Line::Other => {}
                Line::Open => return Look::NotYet(Search::InHead { start, at }),
            }
        }
        at += 1;
    }
    Look::NotYet(Search::InHead { start, at })
}

/// Returns where the empty lines at the front end.
#[tactic(auto, using(crate::proofs::Offsets::blank_behind))]
pub fn blank_end(bytes: &[u8]) -> usize
    ensures is { result ≡ blank_end_from 0 bytes.now }
    ensures within { result ≤ length bytes.now }
{
    let mut at = 0;
    'lines: loop {
        match line_at(&bytes[at..]) {
            Line::Empty(len) => at += len,
            _ => return at,
        }
    }
}
