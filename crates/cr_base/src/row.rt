// SPDX-License-Identifier: Apache-2.0 OR MIT
//! Rows: what a keeper keeps of entries.
ghost use Rattle.std.specs.Prelude.{◌≡◌, ◌↔◌, IsTrue, IfOk};
ghost use Rattle.cr_base.specs.Rows.{migrated};

use crate::texts::Blob;
use std::alloc::AllocError;

/// What a keeper keeps of one entry. It may have any numbers and bytes: `Stamped::from_row` says which rows are an
/// entry's.
#[derive(Drop, Debug)]
pub struct Row {
    /// The number of the entry's kind.
    pub kind: u64,
    /// The number of the user who made it.
    pub maker: u64,
    /// 1 on each entry of a command but its last one, which has 0.
    pub more: u64,
    /// The moment of the command's request, in seconds since 1970-01-01T00:00:00Z.
    pub at: u64,
    /// The number that its client gave the command; 0 where it gave none.
    pub num: u64,
    /// The mark of the command's request, 32 bytes; empty where it has no number.
    pub mark: Blob,
    /// The first number of the entry, by its kind; 0 where unused, as in the four others.
    pub n1: u64,
    /// The second number.
    pub n2: u64,
    /// The third number.
    pub n3: u64,
    /// The fourth number.
    pub n4: u64,
    /// The fifth number.
    pub n5: u64,
    /// The first bytes of the entry, by its kind; empty where unused.
    pub b1: Blob,
    /// The second bytes of the entry.
    pub b2: Blob,
}

impl Row {
    /// Returns an equal one, which shares its bytes.
    ///
    /// # Errors
    ///
    /// If memory runs out.
    pub fn copy(&self) -> Result<Row, AllocError>
        ensures { IfOk result (λ row. row ≡ self.now) }
    {
        Ok(Row {
            kind: self.kind,
            maker: self.maker,
            more: self.more,
            at: self.at,
            num: self.num,
            mark: self.mark.copy()?,
            n1: self.n1,
            n2: self.n2,
            n3: self.n3,
            n4: self.n4,
            n5: self.n5,
            b1: self.b1.copy()?,
            b2: self.b2.copy()?,
        })
    }

    /// Returns whether all fields of both are equal.
    ///
    /// # Cost
    ///
    /// At most one look at each byte. Takes no memory.
    pub fn is_same(&self, other: &Row) -> bool
        ensures { IsTrue result ↔ (self.now ≡ other.now) }
    {
        self.kind == other.kind
            && self.maker == other.maker
            && self.more == other.more
            && self.at == other.at
            && self.num == other.num
            && self.mark.is_same(&other.mark)
            && self.n1 == other.n1
            && self.n2 == other.n2
            && self.n3 == other.n3
            && self.n4 == other.n4
            && self.n5 == other.n5
            && self.b1.is_same(&other.b1)
            && self.b2.is_same(&other.b2)
    }
}

/// A version of stores from before this one, which is 3.
#[derive(Clone, Copy, PartialEq, Eq)]
pub enum OldVersion {
    /// Version 1, which kept no timestamps of requests.
    First,
    /// Version 2, which kept timestamps of requests, and no numbers of commands.
    Second,
}

/// Returns the row of a store of version 3 that a row of an older one gives: what the older one didn't keep is 0 or
/// empty, and every other field stays.
///
/// # Cost
///
/// Takes no memory.
pub fn migrate_row(from: OldVersion, row: Row) -> Row
    ensures { result ≡ migrated from row }
{
    let at = match from {
        OldVersion::First => 0,
        OldVersion::Second => row.at,
    };
    Row {
        at,
        num: 0,
        mark: Blob::empty(),
        ..row
    }
}
