// SPDX-License-Identifier: Apache-2.0 OR MIT
//! The rows of a store, as lines of a case tell them.
ghost use Rattle.std.specs.Prelude.{◌≡◌};

use crate::text::{LineError, add_text, byte_of, read_number};
use cr_base::{Blob, Row};
use cr_disks::MemDisks;
use cr_journal::JournalShelf;
use cr_ports::{EitherShelf, Keeper, KeeperError, MemShelf, Shelf, Silent, WatchedShelf};
use std::alloc::{AllocError, Global};

/// The path of a case's rows, if its words name no journal.
const PATH: &str = "f";

/// The path of a case's rows, if its words name a journal.
const JOURNAL: &str = "f.cj";

/// How many bytes, and how many writes and syncs, a journal has room for.
const ROOM: usize = 1 << 20;

const CALLS: usize = 1 << 14;

/// The program's own shelf, over disks in memory and rows in memory, without an observer.
pub type MemoryShelf = EitherShelf<WatchedShelf<JournalShelf<MemDisks>, Silent>, MemShelf>;

/// Returns the path of the rows of a case with these words.
pub fn path_in(words: &[String]) -> &'static str {
    if words.iter().any(|word| word.as_str() == JOURNAL) {
        JOURNAL
    } else {
        PATH
    }
}

/// The rows that are in the store before a run, and which calls of shelf and keeper fail.
#[derive(Clone, Copy, Drop)]
pub struct Store<'a> {
    pub rows: &'a [Row],
    /// True if the store can't be opened.
    pub is_shut: bool,
    /// The numbers of the appends that fail, from 0; 0 only where no row is there ahead, since rows are put there so.
    pub appends: &'a [u64],
    /// The numbers of the keeper's other calls that fail, from 0.
    pub reads: &'a [u64],
}

impl Store<'_> {
    /// Returns a shelf with these rows at the path.
    pub fn shelf(&self, alloc: Global, path: &str) -> Result<MemoryShelf, AllocError> {
        let disks = MemDisks::new(alloc, ROOM, CALLS, Vec::new(alloc));
        let journals = WatchedShelf::new(JournalShelf::new(alloc, disks), Silent);
        let mut shelf = EitherShelf::new(journals, self.rows_shelf(alloc)?);
        match self.fill(&mut shelf, path) {
            Ok(()) => Ok(shelf),
            Err(_) => Err(AllocError),
        }
    }

    // A shelf of rows in memory, whose calls fail as they are listed.
    fn rows_shelf(&self, alloc: Global) -> Result<MemShelf, AllocError> {
        let mut opens = Vec::new(alloc);
        if self.is_shut {
            opens.push(u64::from(!self.rows.is_empty()))?;
        }
        Ok(MemShelf::new(
            alloc,
            opens,
            self.appends.to_vec(alloc)?,
            self.reads.to_vec(alloc)?,
        ))
    }

    // Puts the rows into the store, where there are some.
    fn fill<S: Shelf>(&self, shelf: &mut S, path: &str) -> Result<(), KeeperError> {
        if self.rows.is_empty() {
            return Ok(());
        }
        let mut keeper = shelf.open(path)?;
        let filled = keeper.append_all(self.rows);
        shelf.shut(path, keeper);
        filled
    }
}

// The row at a place, where there is one.
fn row_at<K: Keeper>(keeper: &mut K, at: u64) -> Option<Row>
    ensures { K.kind keeper.new ≡ K.kind keeper.old }
{
    if at >= keeper.len().ok()? {
        return None;
    }
    keeper.row(at).ok()
}

// All rows that a keeper has.
fn rows_of<K: Keeper>(alloc: Global, keeper: &mut K) -> Result<Vec<Row>, AllocError>
    ensures { K.kind keeper.new ≡ K.kind keeper.old }
{
    let mut rows = Vec::new(alloc);
    let count = keeper.len().unwrap_or(0);
    'rows: for at in 0..count {
        if let Some(row) = row_at(keeper, at) {
            rows.push(row)?;
        }
    }
    Ok(rows)
}

// The rows to which what is at the path opens.
fn opened_rows<S: Shelf>(alloc: Global, shelf: &mut S, path: &str) -> Result<Vec<Row>, AllocError> {
    let Ok(mut keeper) = shelf.open(path) else {
        return Ok(Vec::new(alloc));
    };
    let rows = rows_of(alloc, &mut keeper);
    shelf.shut(path, keeper);
    rows
}

/// Returns the rows that are at the path: of a journal those that it opens to.
pub fn rows_at(alloc: Global, shelf: &mut MemoryShelf, path: &str) -> Result<Vec<Row>, AllocError> {
    if path == JOURNAL {
        return opened_rows(alloc, shelf, path);
    }
    copied(alloc, shelf.others().rows_at(path))
}

// A number of a row.
fn number(word: Option<&str>) -> Result<u64, LineError> {
    match word.map(str::parse::<u64>) {
        Some(Ok(number)) => Ok(number),
        _ => Err(LineError::NoForm),
    }
}

// Adds the bytes that hexadecimal digits tell.
fn add_digits(into: &mut Vec<u8>, digits: &str) -> Result<(), LineError> {
    let mut rest = digits;
    for _ in 0..digits.len() / 2 {
        let (byte, behind) = rest.split_at_checked(2).ok_or(LineError::NoForm)?;
        into.push(byte_of(byte)?)?;
        rest = behind;
    }
    if rest.is_empty() {
        Ok(())
    } else {
        Err(LineError::NoForm)
    }
}

// The bytes of a row: none where there is `-`, by hexadecimal digits after a `#`, else a text.
fn bytes(alloc: Global, word: Option<&str>) -> Result<Blob, LineError> {
    let word = word.ok_or(LineError::NoForm)?;
    let mut bytes = Vec::new(alloc);
    if let Some(digits) = word.strip_prefix('#') {
        add_digits(&mut bytes, digits)?;
    } else if word != "-" {
        add_text(&mut bytes, word)?;
    }
    Ok(Blob::from_slice(alloc, bytes.as_slice())?)
}

/// Returns the row that `KIND MAKER MORE AT NUM MARK N1 N2 N3 N4 N5 B1 B2` tells, a space between any two of them.
pub fn read_row(alloc: Global, text: &str) -> Result<Row, LineError> {
    let mut words = text.split(' ');
    let mut stamp = [0u64; 5];
    for index in stamp.iter_mut() {
        *index = number(words.next())?;
    }
    let mark = bytes(alloc, words.next())?;
    let mut numbers = [0u64; 5];
    for index in numbers.iter_mut() {
        *index = number(words.next())?;
    }
    let b1 = bytes(alloc, words.next())?;
    let b2 = bytes(alloc, words.next())?;
    let [kind, maker, more, at, num] = stamp;
    let [n1, n2, n3, n4, n5] = numbers;
    Ok(Row {
        kind,
        maker,
        more,
        at,
        num,
        mark,
        n1,
        n2,
        n3,
        n4,
        n5,
        b1,
        b2,
    })
}

/// Adds the row that a line tells, `@ ROW`, or puts it in place of the row with a number, `@N ROW`.
pub fn add_row(rows: &mut Vec<Row>, index: &str, row: Row) -> Result<(), LineError> {
    if index.is_empty() {
        rows.push(row)?;
        return Ok(());
    }
    let index = read_number(index)?;
    match rows.get_mut(index) {
        Some(old) => {
            *old = row;
            Ok(())
        }
        None => Err(LineError::NoForm),
    }
}

/// Returns whether the row is one of these.
pub fn is_among(row: &Row, rows: &[Row]) -> bool {
    rows.iter().any(|other| other.is_same(row))
}

/// Returns whether these lists of rows are equal.
pub fn are_same(rows: &[Row], others: &[Row]) -> bool {
    rows.len() == others.len()
        && rows
            .iter()
            .zip(others.iter())
            .all(|(row, other)| row.is_same(other))
}

/// Returns the rows, copied.
pub fn copied(alloc: Global, rows: &[Row]) -> Result<Vec<Row>, AllocError> {
    let mut copies = Vec::new(alloc);
    for row in rows {
        copies.push(row.copy()?)?;
    }
    Ok(copies)
}
