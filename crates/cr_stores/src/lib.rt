// SPDX-License-Identifier: Apache-2.0 OR MIT
//! The program's shelf: a journal if the path ends in `.cj`, otherwise a SQLite file.
//!
//! # Proved
//!
//! - It is `EitherShelf` of cr_ports over journals in files and SQLite files, and begins with no fault counted:
//!   `file_shelf` (`journals`, `refused`, `databases`).
#![tactic(auto)]

ghost use Rattle.std.specs.Prelude.{◌≡◌};

mod fault;
mod notices;

use cr_files::FileDisks;
use cr_journal::JournalShelf;
use cr_ports::{EitherShelf, WatchedShelf, is_journal};
use cr_sqlite::SqliteShelf;
pub use fault::Reason;
pub use notices::StandardError;
use std::rt::HostRuntime;

/// Journals over files, of which standard error is told.
pub type FileJournals = WatchedShelf<JournalShelf<FileDisks>, StandardError>;

/// Opens files as journals where their names end in `.cj`, and else as databases.
pub type FileShelf = EitherShelf<FileJournals, SqliteShelf>;

/// Returns a shelf with no fault counted. It opens no file yet.
pub fn file_shelf(rt: &HostRuntime) -> FileShelf
    ensures journals { result.journals.disks ≡ 0 }
    ensures refused { result.journals.refused ≡ 0 }
    ensures databases { result.others ≡ 0 }
{
    let journals = JournalShelf::new(rt.alloc(), FileDisks::new(rt));
    EitherShelf::new(
        WatchedShelf::new(journals, StandardError::new(rt)),
        SqliteShelf::new(rt),
    )
}

/// Returns what the last fault at the path was; none where nothing has failed there that has a reason.
pub fn reason(shelf: &FileShelf, path: &str) -> Option<Reason> {
    if is_journal(path) {
        return reason_of_journal(shelf.journals().shelf());
    }
    shelf.others().reason().map(Reason::Database)
}

/// Returns what the last fault of the journals was; none where they had none that has a reason.
fn reason_of_journal(journals: &JournalShelf<FileDisks>) -> Option<Reason> {
    if journals.found_none() {
        return Some(Reason::NoJournal);
    }
    let reason = journals.disks().reason();
    if journals.left_half_made() {
        return reason.map(Reason::HalfMade);
    }
    reason.map(Reason::File)
}
