// SPDX-License-Identifier: Apache-2.0 OR MIT
//! Why gates or doors failed.

use std::fmt;
use std::io::ErrorKind;

/// What a fault was. Its text is one line, without the address.
#[derive(Clone, Copy, PartialEq, Eq)]
pub enum Reason {
    /// The address is none of this machine's loopback addresses.
    NotLoopback,
    /// The address is none, or can't be listened at.
    Listening(ErrorKind),
    /// No thread could be made that looks who waits, or it had no clock.
    Watching,
    /// No further connection could be taken for a minute.
    Taking(ErrorKind),
}

impl fmt::Display for Reason {
    fn fmt<W: fmt::Write>(&self, f: &mut fmt::Formatter<W>) -> fmt::Result {
        match self {
            Reason::NotLoopback => f.write_str(
                "not a loopback address, and secrets must not cross a network in the clear",
            ),
            Reason::Listening(kind) => write!(f, "can't listen there: {kind}"),
            Reason::Watching => f.write_str("no thread could be made that looks who waits there"),
            Reason::Taking(kind) => write!(f, "no connection could be taken for a minute: {kind}"),
        }
    }
}
