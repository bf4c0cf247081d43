// SPDX-License-Identifier: Apache-2.0 OR MIT
//! From the text of a search to its tree.
ghost use Rattle.std.specs.Prelude.{◌≡◌, ◌≤◌, ℕ, length, Option, Err, IfOk};
ghost use Rattle.cr_base.specs.Search.{Tree, all_nodes, tree_of};
ghost use Rattle.cr_search_parse.specs.Outcome.{Parses};
ghost use Rattle.cr_search_parse.specs.Offsets.{most_bytes, Spells, IsBad};
ghost use Rattle.cr_search_parse.specs.Reading.{text_read};
ghost use Rattle.cr_search_parse.specs.Stopping.{IsFound, Reads, stopped_at};
ghost use Rattle.cr_search_parse.specs.declared.parsing.ParseError.TheVariants.{BadQuery};

use crate::reader::{Reader, Stop};
use crate::runs::first_run;
use cr_base::{Node, Search};
use std::alloc::Global;

/// How many bytes a query may have.
const MOST_BYTES: usize = 1_024;

/// Why a text is no search.
#[derive(Drop)]
pub enum ParseError {
    /// It is none.
    BadQuery {
        /// Up to here it could still have become a search, in bytes from its start: one of its ends, or where a
        /// parenthesis or a chunk, which is what comes between those and spaces, begins or ends. At most its length;
        /// of a text of more than 1,024 bytes always 1,024.
        offset: usize,
    },
    /// Memory ran out.
    OutOfMemory,
}

/// Returns the error of a reader that stops at an offset.
fn error_at(stop: Stop, offset: usize) -> ParseError
    ensures { result ≡ stopped_at stop offset }
{
    match stop {
        Stop::Misplaced => ParseError::BadQuery { offset },
        Stop::OutOfMemory => ParseError::OutOfMemory,
    }
}

/// Returns the nodes of a text, or where reading stops.
fn read_nodes(alloc: Global, text: &[u8]) -> Result<Vec<Node>, ParseError>
    requires { length text.now ≤ 1024 }
    ensures { Reads result text.now }
{
    let mut reader = Reader::new(alloc);
    let mut at = 0;
    while at < text.len() {
        let run = first_run(&text[at..]);
        match reader.read(&run) {
            Ok(()) => at += run.len(),
            Err(stop) => return Err(error_at(stop, at)),
        }
    }
    match reader.finish() {
        Ok(nodes) => Ok(nodes),
        Err(stop) => Err(error_at(stop, at)),
    }
}

/// Returns the search that a text is.
///
/// # Errors
///
/// - `BadQuery`: where the text stops being the beginning of a search. A text is none if it has more than 1,024 bytes
///   or 128 terms, or an item inside more than 64 of dashes, `NOT`s and parentheses.
/// - `OutOfMemory`: for any text of at most 1,024 bytes.
///
/// # Cost
///
/// A few looks at each byte, and none at those of a longer text. Takes memory only for the nodes, the terms and the
/// open parentheses.
pub fn parse(alloc: Global, text: &[u8]) -> Result<Search, ParseError>
    ensures found { IfOk result (λ search. Spells text.now (tree_of search)) }
    ensures only { (tree : Option Tree) → Spells text.now tree → IsFound result (all_nodes tree) }
    ensures bad { (offset : ℕ) → result ≡ Err (BadQuery offset) → IsBad text.now offset }
    // What the text comes to, as a function of it.
    ensures exact { Parses result (text_read text.now) }
{
    if text.len() > MOST_BYTES {
        return Err(ParseError::BadQuery { offset: MOST_BYTES });
    }
    match read_nodes(alloc, text) {
        Ok(nodes) => Ok(Search::from_nodes(nodes)),
        Err(error) => Err(error),
    }
}
