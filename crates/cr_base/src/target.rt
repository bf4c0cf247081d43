// SPDX-License-Identifier: Apache-2.0 OR MIT
//! The user whom a command names.

use crate::words::Role;

/// What the rules ask about the user that a command names, if the name is registered.
#[derive(Clone, Copy, PartialEq, Eq)]
pub struct Target {
    /// The user's role.
    pub role: Role,
    /// True if the user is the caller.
    pub herself: bool,
    /// True if the user is an author of the paper named; false if none is.
    pub author: bool,
    /// True if the user is in conflict with the paper named, as each author is; false if none is.
    pub conflicted: bool,
    /// True if the user reviews the paper named; false if none is.
    pub reviewer: bool,
    /// True if the user is an external of the paper named; false if none is.
    pub external: bool,
}
