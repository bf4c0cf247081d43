// SPDX-License-Identifier: Apache-2.0 OR MIT
//! Who may read a store's files.

use std::fs;
use std::os::unix::fs::PermissionsExt;

/// The bits of a mode by which a group, or everybody, may read.
const READ_BY_OTHERS: u32 = 0o044;

/// Writes a line about the file on standard error, if others than its owner may read it. The file isn't changed.
pub fn tell_if_open(rt: &HostRuntime, path: &str) {
    if is_open_to_others(rt, path) {
        let _ = eprintln!(rt; "confd: {path}: others on this machine may read this file");
    }
}

/// Returns whether others than its owner may read the file; not where that can't be found out.
fn is_open_to_others(rt: &HostRuntime, path: &str) -> bool {
    match fs::metadata(rt, path) {
        Ok(found) => found.permissions().mode() & READ_BY_OTHERS != 0,
        Err(_) => false,
    }
}
