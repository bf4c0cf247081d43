// SPDX-License-Identifier: Apache-2.0 OR MIT
//! What may stand in the fields of a row: ranges of numbers and grammars of bytes.
ghost use Rattle.std.specs.Prelude.{◌≡◌, ◌↔◌, [], IsTrue};
ghost use Rattle.cr_base.specs.Shapes.{FitsShape, FitsStamp, stamp_in, key_in, HasText};
ghost use Rattle.cr_base.specs.Shapes.{InRange, IsAtMost, IsWithin, is_in_gap};
ghost use Rattle.cr_base.specs.Keys.{IsKeyOrNone};

use crate::bid::HIGHEST_RAISED;
use crate::deadline::LAST_DEADLINE;
use crate::moment::LAST_MOMENT;
use crate::numbers::{HIGHEST_GRADE, LAST_NUMBER, MOST_LABELS};
use crate::retry::LAST_COMMAND_NUMBER;
use crate::row::Row;
use crate::tag::is_tag;
use crate::texts::{is_abstract, is_comment, is_content, is_name, is_review_text, is_title};

/// Numbers that a field may not hold, both ends among them.
#[derive(Clone, Copy)]
pub struct Gap {
    /// The first.
    pub first: u64,
    /// The last.
    pub last: u64,
}

/// The numbers that a field may hold, both ends among them.
#[derive(Clone, Copy)]
pub struct Range {
    /// The least.
    pub low: u64,
    /// The greatest, where there is one.
    pub high: Option<u64>,
    /// Those between that it may not hold, where there are some.
    pub gap: Option<Gap>,
}

/// The bytes that a field may hold.
#[derive(Clone, Copy)]
pub enum TextKind {
    /// No bytes: the field is unused.
    Nothing,
    /// A user's name.
    Name,
    /// A digest: 32 bytes.
    Digest,
    /// A paper's title.
    Title,
    /// A paper's abstract.
    Abstract,
    /// A paper's content.
    Content,
    /// A text of a review.
    ReviewText,
    /// A comment.
    CommentText,
    /// A tag.
    Tag,
}

/// What a row of one kind may have.
#[derive(Clone, Copy)]
pub struct Shape {
    /// The numbers of the field `n1`, and so on.
    pub n1: Range,
    /// The range of `n2`.
    pub n2: Range,
    /// The range of `n3`.
    pub n3: Range,
    /// The range of `n4`.
    pub n4: Range,
    /// The range of `n5`.
    pub n5: Range,
    /// The bytes of the field `b1`.
    pub b1: TextKind,
    /// The bytes of `b2`.
    pub b2: TextKind,
}

pub(crate) const USERS: Range = Range {
    low: 1,
    high: Some(LAST_NUMBER),
    gap: None,
};

pub(crate) const PAPERS: Range = Range {
    low: 1,
    high: Some(LAST_NUMBER),
    gap: None,
};

pub(crate) const PHASES: Range = Range {
    low: 0,
    high: Some(7),
    gap: None,
};

pub(crate) const MODES: Range = Range {
    low: 0,
    high: Some(2),
    gap: None,
};

pub(crate) const ROLES: Range = Range {
    low: 1,
    high: Some(2),
    gap: None,
};

pub(crate) const VERSIONS: Range = Range {
    low: 1,
    high: None,
    gap: None,
};

/// Bids, each plus 20.
pub(crate) const BIDS: Range = Range {
    low: 0,
    high: Some(HIGHEST_RAISED),
    gap: None,
};

pub(crate) const KINDS: Range = Range {
    low: 1,
    high: Some(3),
    gap: None,
};

pub(crate) const ORDINALS: Range = Range {
    low: 1,
    high: Some(MOST_LABELS),
    gap: None,
};

/// Ordinals, and 0 where there is none.
pub(crate) const SOME_ORDINALS: Range = Range {
    low: 0,
    high: Some(MOST_LABELS),
    gap: None,
};

/// Scores and confidences.
pub(crate) const GRADES: Range = Range {
    low: 1,
    high: Some(HIGHEST_GRADE),
    gap: None,
};

pub(crate) const DECISIONS: Range = Range {
    low: 1,
    high: Some(2),
    gap: None,
};

/// The phases that may have a deadline by their numbers in rows: submission to discussion, and the response, whose
/// number is greater than those of notification and closed, which may have none.
pub(crate) const DEADLINE_PHASES: Range = Range {
    low: 1,
    high: Some(7),
    gap: Some(Gap { first: 5, last: 6 }),
};

/// Deadlines, and 0 where there is none.
pub(crate) const SOME_DEADLINES: Range = Range {
    low: 0,
    high: Some(LAST_DEADLINE),
    gap: None,
};

pub(crate) const BIT: Range = Range {
    low: 0,
    high: Some(1),
    gap: None,
};

pub(crate) const UNUSED: Range = Range {
    low: 0,
    high: Some(0),
    gap: None,
};

/// Returns whether a number is no more than the greatest, where there is one.
fn is_at_most(high: Option<u64>, number: u64) -> bool
    ensures { IsTrue result ↔ IsAtMost high number }
{
    match high {
        Some(high) => number <= high,
        None => true,
    }
}

impl Gap {
    fn holds(self, number: u64) -> bool
        ensures { result ≡ is_in_gap self number }
    {
        self.first <= number && number <= self.last
    }
}

impl Range {
    /// Returns whether a number is between both ends.
    fn spans(self, number: u64) -> bool
        ensures { IsTrue result ↔ IsWithin self number }
    {
        self.low <= number && is_at_most(self.high, number)
    }

    fn holds(self, number: u64) -> bool
        ensures { IsTrue result ↔ InRange self number }
    {
        match self.gap {
            None => self.spans(number),
            Some(gap) => self.spans(number) && !gap.holds(number),
        }
    }
}

impl TextKind {
    fn holds(self, bytes: &[u8]) -> bool
        ensures { IsTrue result ↔ HasText self bytes.now }
    {
        match self {
            TextKind::Nothing => bytes.is_empty(),
            TextKind::Name => is_name(bytes),
            TextKind::Digest => bytes.len() == 32,
            TextKind::Title => is_title(bytes),
            TextKind::Abstract => is_abstract(bytes),
            TextKind::Content => is_content(bytes),
            TextKind::ReviewText => is_review_text(bytes),
            TextKind::CommentText => is_comment(bytes),
            TextKind::Tag => is_tag(bytes),
        }
    }
}

impl Shape {
    ghost use Rattle.cr_base.specs.Shapes.{shape, with_fourth, with_fifth};

    /// Returns the shape of rows that leave the last two numbers unused.
    pub(crate) fn of(n1: Range, n2: Range, n3: Range, b1: TextKind, b2: TextKind) -> Shape
        ensures { result ≡ shape n1 n2 n3 b1 b2 }
    {
        Shape {
            n1,
            n2,
            n3,
            n4: UNUSED,
            n5: UNUSED,
            b1,
            b2,
        }
    }

    /// Returns the shape of rows that leave the last two numbers unused and have no bytes.
    pub(crate) fn of_numbers(n1: Range, n2: Range, n3: Range) -> Shape
        ensures { result ≡ shape n1 n2 n3 TextKind.Nothing TextKind.Nothing }
    {
        Shape::of(n1, n2, n3, TextKind::Nothing, TextKind::Nothing)
    }

    /// Returns this shape with these numbers in the field `n4`.
    pub(crate) fn with_fourth(self, n4: Range) -> Shape
        ensures { result ≡ with_fourth n4 self }
    {
        Shape {
            n1: self.n1,
            n2: self.n2,
            n3: self.n3,
            n4,
            n5: self.n5,
            b1: self.b1,
            b2: self.b2,
        }
    }

    /// Returns this shape with these numbers in the field `n5`.
    pub(crate) fn with_fifth(self, n5: Range) -> Shape
        ensures { result ≡ with_fifth n5 self }
    {
        Shape {
            n1: self.n1,
            n2: self.n2,
            n3: self.n3,
            n4: self.n4,
            n5,
            b1: self.b1,
            b2: self.b2,
        }
    }

    /// Returns whether a row's metadata, request digest and fields are within this shape.
    pub(crate) fn fits(&self, row: &Row) -> bool
        ensures { IsTrue result ↔ FitsShape self.now row.now }
    {
        fits_stamp(row)
            && fits_mark(row)
            && BIT.holds(row.more)
            && self.n1.holds(row.n1)
            && self.n2.holds(row.n2)
            && self.n3.holds(row.n3)
            && self.n4.holds(row.n4)
            && self.n5.holds(row.n5)
            && self.b1.holds(row.b1.as_slice())
            && self.b2.holds(row.b2.as_slice())
    }
}

/// Returns whether the metadata of a row is within its bounds.
fn fits_stamp(row: &Row) -> bool
    ensures { IsTrue result ↔ FitsStamp (stamp_in row.now) }
{
    USERS.holds(row.maker) && row.at <= LAST_MOMENT && fits_key(row)
}

/// Returns whether a row has no command number, or one with a mark as they may be.
fn fits_key(row: &Row) -> bool
    ensures { IsTrue result ↔ IsKeyOrNone (key_in (row.now).num (row.now).mark) }
{
    row.num == 0 || (row.num <= LAST_COMMAND_NUMBER && row.mark.as_slice().len() == 32)
}

/// Returns whether a row without a command number has no mark.
fn fits_mark(row: &Row) -> bool
    ensures { IsTrue result ↔ ((row.now).num ≡ 0 → (row.now).mark ≡ []) }
{
    row.num != 0 || row.mark.as_slice().is_empty()
}
