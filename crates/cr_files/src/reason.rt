// SPDX-License-Identifier: Apache-2.0 OR MIT
//! What was wrong with a file.
use std::{fmt, io};

/// Why a file wasn't opened, or a call of its disk failed. Its text is one line, without the path.
#[derive(Clone, Copy)]
pub enum Reason {
    /// A call of the system failed.
    System(io::Error),
    /// Another process has the file open.
    Busy,
    /// What is at the path is no file.
    NoFile,
    /// It is longer than a disk may be, or would become so.
    TooLong,
}

impl fmt::Display for Reason {
    fn fmt<W: fmt::Write>(&self, f: &mut fmt::Formatter<W>) -> fmt::Result {
        match self {
            Reason::System(error) => write!(f, "{error}"),
            Reason::Busy => f.write_str("another process has the file open"),
            Reason::NoFile => f.write_str("it is no file"),
            Reason::TooLong => f.write_str("the file is too long"),
        }
    }
}
