// SPDX-License-Identifier: Apache-2.0 OR MIT
//! Bulk assignment: the rows of a file, and what is wrong with them.
ghost use Rattle.std.specs.Prelude.{◌≡◌, ◌≤◌, [], length, IfOk};

use crate::entry::Stamped;
use crate::numbers::PaperNo;
use crate::reply::Rule;
use crate::tag::Tag;
use crate::texts::{Blob, Short};
use crate::words::Kind;
use std::alloc::{AllocError, Global};
use std::marker::Model;

/// The most rows that a bulk may have.
pub const MOST_ROWS: usize = 512;

/// One row of a bulk, each field as the file has it, in UTF-8.
#[derive(Drop)]
pub struct BulkRow {
    /// The paper, in decimal.
    pub paper: Blob,
    /// What is to be done: `primary`, `secondary`, `pcreview`, `clearreview`, `conflict`,
    /// `clearconflict`, `tag` or `cleartag`.
    pub action: Blob,
    /// The name of the user concerned; isn't read for a tag.
    pub user: Blob,
    /// The tag; isn't read where it is done of a user.
    pub tag: Blob,
}

/// The command of a row: one of the four that a row may tell.
#[derive(Drop)]
pub enum RowCommand {
    /// A [`Command::SetConflict`](crate::Command::SetConflict).
    Conflict {
        /// The paper; `None` if the request names no valid paper number.
        paper: Option<PaperNo>,
        /// The user's name; `None` if the request gives no valid name.
        user: Option<Short>,
        /// True if the user is in conflict from now on.
        on: bool,
    },
    /// A [`Command::Assign`](crate::Command::Assign).
    Assign {
        /// The paper; `None` if the request names no valid paper number.
        paper: Option<PaperNo>,
        /// The user's name; `None` if the request gives no valid name.
        user: Option<Short>,
        /// The kind of assignment.
        kind: Kind,
    },
    /// A [`Command::Unassign`](crate::Command::Unassign).
    Unassign {
        /// The paper; `None` if the request names no valid paper number.
        paper: Option<PaperNo>,
        /// The user's name; `None` if the request gives no valid name.
        user: Option<Short>,
    },
    /// A [`Command::Tag`](crate::Command::Tag).
    Tag {
        /// The paper; `None` if the request names no valid paper number.
        paper: Option<PaperNo>,
        /// The tag.
        tag: Tag,
        /// True if it is on.
        on: bool,
    },
}

/// The rows of a bulk in their order, at most 512, with room for an entry each: so judging them takes no memory.
///
/// # Model
///
/// The list of rows.
#[derive(Drop)]
pub struct BulkRows {
    rows: Vec<BulkRow>,
    entries: Vec<Stamped>,
}

impl Model for BulkRows {
    ghost use Rattle.std.specs.Prelude.{List, [], ◌≡◌, ◌≤◌, length};
    ghost use Rattle.cr_base.specs.declared.bulk.BulkRow.{BulkRow};

    ghost Value = { List BulkRow };

    ghost view = { λ b. b.rows.items };

    ghost invariant = { λ b. (length b.rows.items ≤ 512) × (b.entries.items ≡ [])
        × (length b.rows.items ≤ b.entries.cap) };
}

impl BulkRows {
    /// Returns the rows of a vector, at most 512. Room for their entries is taken.
    ///
    /// # Errors
    ///
    /// If memory runs out.
    pub fn from_vec(alloc: Global, rows: Vec<BulkRow>) -> Result<BulkRows, AllocError>
        requires { length rows.items ≤ 512 }
        ensures { IfOk result (λ b. b ≡ rows.items) }
    {
        let entries = Vec::with_capacity(alloc, rows.len())?;
        Ok(BulkRows { rows, entries })
    }

    /// Returns how many rows there are, 0 to 512.
    pub fn len(&self) -> usize
        ensures value { result ≡ length self.now }
        ensures few { result ≤ 512 }
    {
        self.rows.len()
    }

    /// Returns the rows.
    pub fn as_slice(&self) -> &[BulkRow]
        ensures value { result.now ≡ self.now }
        ensures few { length result.now ≤ 512 }
    {
        self.rows.as_slice()
    }

    /// Returns the rows, and an empty vector with room for an entry each.
    ///
    /// # Cost
    ///
    /// Takes no memory.
    pub fn into_parts(self) -> (Vec<BulkRow>, Vec<Stamped>)
        ensures rows { result.0.items ≡ self }
        ensures few { length self ≤ 512 }
        ensures room { (result.1.items ≡ []) × (length self ≤ result.1.cap) }
    {
        let BulkRows { rows, entries } = self;
        (rows, entries)
    }
}

/// What a bulk breaks.
#[derive(Clone, Copy, PartialEq, Eq)]
pub enum Broken {
    /// A rule on the bulk as a whole.
    Rule(Rule),
    /// A rule on one of its rows, on the state after the rows before it.
    Row {
        /// The first row that breaks one, 1 to 512.
        row: u64,
        /// The rule.
        rule: Rule,
    },
}
