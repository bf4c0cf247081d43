// SPDX-License-Identifier: Apache-2.0 OR MIT
//! What a user is told of herself.

use crate::items::Items;
use crate::numbers::{PaperNo, UserNo};
use crate::texts::Short;
use crate::words::Role;

/// Papers by number.
pub type PaperNos = Items<PaperNo>;

/// What a user is told about themselves.
#[derive(Drop)]
pub struct Me {
    /// The papers that the user reviews.
    pub assigned: PaperNos,
    /// How many bytes the user has uploaded, in all versions of all papers: 0 to 67,108,864.
    pub bytes: u64,
    /// How many comments the user has written: 0 to 1,000.
    pub comments: u64,
    /// The papers with which the user is in conflict without being an author.
    pub conflicts: PaperNos,
    /// The papers of which the user is an external.
    pub invited: PaperNos,
    /// The user's name.
    pub name: Short,
    /// The papers of which the user is an author.
    pub papers: PaperNos,
    /// The user's role.
    pub role: Role,
    /// The user's number.
    pub user: UserNo,
}
