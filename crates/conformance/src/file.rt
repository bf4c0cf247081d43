// SPDX-License-Identifier: Apache-2.0 OR MIT
//! A case file.

use crate::case::Case;
use crate::text::LineError;
use std::alloc::{AllocError, AllocFailed, Global};

/// Why a file has no cases.
#[derive(Clone, Copy, PartialEq, Eq)]
pub enum FileError {
    /// This line, from 1, is none of the forms.
    NoForm(usize),
    /// Out of memory.
    OutOfMemory,
}

impl From<AllocError> for FileError {
    fn from(_: AllocError) -> FileError {
        FileError::OutOfMemory
    }
}

impl<T: Drop> From<AllocFailed<T>> for FileError {
    fn from(_: AllocFailed<T>) -> FileError {
        FileError::OutOfMemory
    }
}

impl FileError {
    // Returns the error of the file for an error in the line of this number.
    fn at(error: LineError, number: usize) -> FileError {
        match error {
            LineError::NoForm => FileError::NoForm(number),
            LineError::OutOfMemory => FileError::OutOfMemory,
        }
    }
}

// Adds what these lines say, the first of which has this number in the file. Gives the number of the next.
fn add_lines(alloc: Global, case: &mut Case, first: usize, text: &str) -> Result<usize, FileError> {
    let mut number = first;
    for line in text.lines() {
        match case.add(alloc, number, line) {
            Ok(()) => {}
            Err(error) => return Err(FileError::at(error, number)),
        }
        number = number.saturating_add(1);
    }
    Ok(number)
}

// A case of this title, whose line has this number in the file.
fn begun(alloc: Global, number: usize, title: &str) -> Result<Case, FileError> {
    match Case::new(alloc, title) {
        Ok(case) => Ok(case),
        Err(error) => Err(FileError::at(error, number)),
    }
}

/// Returns the cases that a file's text tells. Each begins at a line `== TITLE`; what precedes the first of them, a
/// line at least, precedes each.
pub fn read_cases(alloc: Global, text: &str) -> Result<Vec<Case>, FileError> {
    let mut parts = text.split("\n== ");
    let shared = parts.next().unwrap_or("");
    let mut cases = Vec::new(alloc);
    let mut number = shared.lines().count().saturating_add(1);
    for part in parts {
        let (title, lines) = part.split_once('\n').unwrap_or((part, ""));
        let mut case = begun(alloc, number, title)?;
        add_lines(alloc, &mut case, 1, shared)?;
        number = add_lines(alloc, &mut case, number.saturating_add(1), lines)?;
        cases.push(case)?;
    }
    Ok(cases)
}
