// SPDX-License-Identifier: Apache-2.0 OR MIT
//! What a history in memory begins with.
ghost use Rattle.std.specs.Prelude.{◌≡◌, [], IfOk};

use crate::book::Book;
use cr_ports::PlainKeeper;
use std::alloc::{AllocError, Global};

/// Creates a book without entries, which keeps its rows in memory.
///
/// # Errors
///
/// Only for lack of memory.
pub fn empty_book(alloc: Global) -> Result<Book<PlainKeeper>, AllocError>
    ensures { IfOk result (λ book. book.log ≡ []) }
{
    match Book::open(alloc, PlainKeeper::new(alloc)) {
        Ok(book) => Ok(book),
        Err(_) => Err(AllocError),
    }
}
