// SPDX-License-Identifier: Apache-2.0 OR MIT
//! Comments: what is kept of one, and how it is told.

use crate::items::Items;
use crate::numbers::{Ordinal, UserNo};
use crate::texts::{Short, Text};

/// What is kept of a comment on a paper.
#[derive(Drop)]
pub struct Comment {
    /// Its number among those on the paper, from 1.
    pub n: u64,
    /// The user who wrote it.
    pub writer: UserNo,
    /// The ordinal of the label under which the writer reviewed the paper then; `None` if they didn't.
    pub ordinal: Option<Ordinal>,
    /// Its text: UTF-8, 1 to 10,000 bytes.
    pub text: Text,
}

/// A comment as an answer has it: its writer by name, or by label if the caller may not be told the name.
#[derive(Drop)]
pub struct CommentLine {
    /// The ordinal of the label under which the writer reviewed the paper, if they did and the caller isn't told their
    /// name.
    pub label: Option<Ordinal>,
    /// Its number among those on the paper, from 1.
    pub n: u64,
    /// What was written.
    pub text: Text,
    /// The writer's name.
    pub user: Option<Short>,
}

/// Comments on a paper, by number.
pub type CommentLines = Items<CommentLine>;
