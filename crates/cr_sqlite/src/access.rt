// SPDX-License-Identifier: Apache-2.0 OR MIT
//! Who may read a store's files.

use cr_notices::tell_if_open;
use std::fs::OpenOptions;
use std::io::{self, ErrorKind};
use std::os::unix::fs::OpenOptionsExt;

/// The mode of a file that is made: only its owner reads and writes it.
const OWNERS_ALONE: u32 = 0o600;

/// A name that the crate `sqlite` refuses, so no file is made for it.
const IN_MEMORY: &str = ":memory:";

/// Makes an empty file that only its owner may read and write, if nothing is at the path. The crate `sqlite` makes
/// its log with the mode of the file.
pub(crate) fn make_private(rt: &HostRuntime, path: &str) -> io::Result<()> {
    if path == IN_MEMORY {
        return Ok(());
    }
    match OpenOptions::new()
        .write(true)
        .create_new(true)
        .mode(OWNERS_ALONE)
        .open(rt, path)
    {
        Ok(_) => Ok(()),
        Err(error) if error.kind() == ErrorKind::AlreadyExists => Ok(()),
        Err(error) => Err(error),
    }
}

/// Writes a line to standard error for the file, and one for its log, if others than the owner may read it. Both keep
/// their modes.
pub(crate) fn tell_open_ones(rt: &HostRuntime, path: &str) {
    tell_if_open(rt, path);
    if let Ok(log) = format!(in rt.alloc(); "{path}-wal") {
        tell_if_open(rt, log.as_str());
    }
}
