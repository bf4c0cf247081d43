// SPDX-License-Identifier: Apache-2.0 OR MIT
//! What was wrong with a store.
use std::fmt;

/// What a fault was. Its text is one line, without the path.
#[derive(Clone, Copy)]
pub enum Reason {
    /// A file of SQLite's format, or what it has.
    Database(cr_sqlite::Reason),
    /// The file of a journal couldn't be had, read or written.
    File(cr_files::Reason),
    /// A new journal couldn't be made, and what was made of it stayed.
    HalfMade(cr_files::Reason),
    /// The bytes of the file are no journal.
    NoJournal,
}

impl fmt::Display for Reason {
    fn fmt<W: fmt::Write>(&self, f: &mut fmt::Formatter<W>) -> fmt::Result {
        match self {
            Reason::Database(reason) => write!(f, "{reason}"),
            Reason::File(reason) => write!(f, "{reason}"),
            Reason::HalfMade(reason) => write!(
                f,
                "{reason}; a part of a new journal is left: remove the file ahead of the next start"
            ),
            Reason::NoJournal => f.write_str("the file is no journal"),
        }
    }
}
