// SPDX-License-Identifier: Apache-2.0 OR MIT
//! The row of an entry, and the entry of a row, kind by kind.
ghost use Rattle.std.specs.Prelude.{◌≡◌, ◌≢◌, ◌≤◌, [], length, IfOk, IfSome, IfNone, Some, IsTrue};
ghost use Rattle.cr_base.specs.Moments.{IsMoment};
ghost use Rattle.cr_base.specs.TagTexts.{is_tag};
ghost use Rattle.cr_base.specs.Shapes.{FitsShape, FitsStamp, key_in, stamp_in};
ghost use Rattle.cr_base.specs.Keys.{IsKeyOrNone};
ghost use Rattle.cr_base.specs.Rows.{kind_name, kind_number, shape_of, row_of, fields_of};
ghost use Rattle.cr_base.specs.Rows.{key_mark, key_number, label_number, label_numbered, until_number, until_numbered};
ghost use Rattle.cr_base.specs.Rows.{built, IsBoundedEntry};
ghost use Rattle.cr_base.specs.declared.entry.EntryKind.{EntryKind};
ghost use Rattle.cr_base.specs.declared.entry.Stamped.{Stamped};

use crate::bid::Bid;
use crate::deadline::Deadline;
use crate::entry::{Digest, Entry, EntryKind, Stamp, Stamped};
use crate::form::Form;
use crate::moment::Moment;
use crate::numbers::{Grade, Ordinal, PaperNo, UserNo};
use crate::retry::{CommandNumber, RetryKey};
use crate::row::Row;
use crate::shape::{
    BIDS, BIT, DEADLINE_PHASES, DECISIONS, GRADES, KINDS, MODES, ORDINALS, PAPERS, PHASES, ROLES,
    SOME_DEADLINES, SOME_ORDINALS, Shape, TextKind, UNUSED, USERS, VERSIONS,
};
use crate::tag::Tag;
use crate::texts::{Blob, Short, Text, TwoTexts};
use crate::words::{Decision, Kind, Mode, Phase, Role};
use std::alloc::{AllocError, Global};

impl EntryKind {
    /// Returns the number by which rows tell the kind.
    pub fn number(self) -> u64
        ensures { result ≡ kind_number self }
    {
        match self {
            EntryKind::Registered => 1,
            EntryKind::Named => 2,
            EntryKind::PhaseSet => 3,
            EntryKind::ModeSet => 4,
            EntryKind::Submitted => 5,
            EntryKind::Coauthor => 6,
            EntryKind::Revised => 7,
            EntryKind::Uploaded => 8,
            EntryKind::Withdrawn => 9,
            EntryKind::Conflict => 10,
            EntryKind::Bid => 11,
            EntryKind::Assigned => 12,
            EntryKind::Unassigned => 13,
            EntryKind::Reviewed => 14,
            EntryKind::Commented => 15,
            EntryKind::Tagged => 16,
            EntryKind::Decided => 17,
            EntryKind::DeadlineSet => 18,
            EntryKind::Dismissed => 19,
            EntryKind::Invited => 20,
            EntryKind::Uninvited => 21,
            EntryKind::Responded => 22,
        }
    }

    /// Returns the kind of that number, or `None` if no kind has it.
    pub fn from_number(number: u64) -> Option<EntryKind>
        ensures some { IfSome result (λ kind. kind_number kind ≡ number) }
        ensures only { IfSome result (λ kind. (other : EntryKind) → kind_number other ≡ number → other ≡ kind) }
        ensures none { IfNone result ((kind : EntryKind) → kind_number kind ≢ number) }
    {
        match number {
            1 => Some(EntryKind::Registered),
            2 => Some(EntryKind::Named),
            3 => Some(EntryKind::PhaseSet),
            4 => Some(EntryKind::ModeSet),
            5 => Some(EntryKind::Submitted),
            6 => Some(EntryKind::Coauthor),
            7 => Some(EntryKind::Revised),
            8 => Some(EntryKind::Uploaded),
            9 => Some(EntryKind::Withdrawn),
            10 => Some(EntryKind::Conflict),
            11 => Some(EntryKind::Bid),
            12 => Some(EntryKind::Assigned),
            13 => Some(EntryKind::Unassigned),
            14 => Some(EntryKind::Reviewed),
            15 => Some(EntryKind::Commented),
            16 => Some(EntryKind::Tagged),
            17 => Some(EntryKind::Decided),
            18 => Some(EntryKind::DeadlineSet),
            19 => Some(EntryKind::Dismissed),
            20 => Some(EntryKind::Invited),
            21 => Some(EntryKind::Uninvited),
            22 => Some(EntryKind::Responded),
            _ => None,
        }
    }

    /// Returns the word for it in the lines of a view.
    pub fn name(self) -> &'static str
        ensures { result.now ≡ kind_name self }
    {
        match self {
            EntryKind::Registered => "registered",
            EntryKind::Named => "named",
            EntryKind::PhaseSet => "phaseset",
            EntryKind::ModeSet => "modeset",
            EntryKind::Submitted => "submitted",
            EntryKind::Coauthor => "coauthor",
            EntryKind::Revised => "revised",
            EntryKind::Uploaded => "uploaded",
            EntryKind::Withdrawn => "withdrawn",
            EntryKind::Conflict => "conflict",
            EntryKind::Bid => "bid",
            EntryKind::Assigned => "assigned",
            EntryKind::Unassigned => "unassigned",
            EntryKind::Reviewed => "reviewed",
            EntryKind::Commented => "commented",
            EntryKind::Tagged => "tagged",
            EntryKind::Decided => "decided",
            EntryKind::DeadlineSet => "deadlineset",
            EntryKind::Dismissed => "dismissed",
            EntryKind::Invited => "invited",
            EntryKind::Uninvited => "uninvited",
            EntryKind::Responded => "responded",
        }
    }

    /// Returns what the rows of this kind may have.
    pub(crate) fn shape(self) -> Shape
        ensures { result ≡ shape_of self }
    {
        match self {
            EntryKind::Registered => {
                Shape::of(USERS, UNUSED, UNUSED, TextKind::Name, TextKind::Digest)
            }
            EntryKind::Named => Shape::of_numbers(USERS, ROLES, UNUSED),
            EntryKind::PhaseSet => Shape::of_numbers(PHASES, UNUSED, UNUSED),
            EntryKind::ModeSet => Shape::of_numbers(MODES, UNUSED, UNUSED),
            EntryKind::Submitted | EntryKind::Revised => {
                Shape::of(PAPERS, UNUSED, UNUSED, TextKind::Title, TextKind::Abstract)
            }
            EntryKind::Coauthor | EntryKind::Invited | EntryKind::Uninvited => {
                Shape::of_numbers(PAPERS, USERS, UNUSED)
            }
            EntryKind::Uploaded => Shape::of(
                PAPERS,
                VERSIONS,
                UNUSED,
                TextKind::Content,
                TextKind::Nothing,
            ),
            EntryKind::Withdrawn => Shape::of_numbers(PAPERS, UNUSED, UNUSED),
            EntryKind::Conflict => Shape::of_numbers(PAPERS, USERS, BIT),
            EntryKind::Bid => Shape::of_numbers(PAPERS, BIDS, UNUSED),
            EntryKind::Assigned => Shape::of_numbers(PAPERS, USERS, KINDS).with_fourth(ORDINALS),
            EntryKind::Unassigned => Shape::of_numbers(PAPERS, USERS, ORDINALS),
            EntryKind::Reviewed => Shape::of(
                PAPERS,
                ORDINALS,
                VERSIONS,
                TextKind::ReviewText,
                TextKind::ReviewText,
            )
            .with_fourth(GRADES)
            .with_fifth(GRADES),
            EntryKind::Commented => Shape::of(
                PAPERS,
                VERSIONS,
                SOME_ORDINALS,
                TextKind::CommentText,
                TextKind::Nothing,
            ),
            EntryKind::Tagged => Shape::of(PAPERS, BIT, UNUSED, TextKind::Tag, TextKind::Nothing),
            EntryKind::Decided => Shape::of_numbers(PAPERS, DECISIONS, UNUSED),
            EntryKind::DeadlineSet => Shape::of_numbers(DEADLINE_PHASES, SOME_DEADLINES, UNUSED),
            EntryKind::Dismissed => Shape::of_numbers(USERS, UNUSED, UNUSED),
            EntryKind::Responded => Shape::of(
                PAPERS,
                UNUSED,
                UNUSED,
                TextKind::CommentText,
                TextKind::Nothing,
            ),
        }
    }
}

impl Entry {
    /// Returns the row of an entry with this metadata; `more` says whether another entry of the same command follows.
    ///
    /// # Errors
    ///
    /// If memory runs out.
    pub fn to_row(&self, alloc: Global, stamp: Stamp, more: bool) -> Result<Row, AllocError>
        ensures { IfOk result (λ made. made ≡ row_of (record { stamp = stamp; more = more; entry = self.now })) }
    {
        let kind = self.kind().number();
        let numbers = self.row_numbers();
        let bytes = self.row_bytes(alloc)?;
        Ok(Row {
            kind,
            maker: stamp.maker.number(),
            more: u64::from(more),
            at: stamp.at.seconds(),
            num: number_of_key(&stamp.key),
            mark: mark_of_key(alloc, &stamp.key)?,
            n1: numbers.n1,
            n2: numbers.n2,
            n3: numbers.n3,
            n4: numbers.n4,
            n5: numbers.n5,
            b1: bytes.b1,
            b2: bytes.b2,
        })
    }

    /// Returns the numbers of its row.
    fn row_numbers(&self) -> RowNumbers
        ensures { result ≡ record {
          n1 = (fields_of self.now).n1;
          n2 = (fields_of self.now).n2;
          n3 = (fields_of self.now).n3;
          n4 = (fields_of self.now).n4;
          n5 = (fields_of self.now).n5;
        } }
    {
        match self {
            Entry::Registered { user, .. } => RowNumbers::of(user.number(), 0, 0),
            Entry::Named { user, role } => RowNumbers::of(user.number(), role.number(), 0),
            Entry::PhaseSet { phase } => RowNumbers::of(phase.number(), 0, 0),
            Entry::ModeSet { mode } => RowNumbers::of(mode.number(), 0, 0),
            Entry::Submitted { paper, .. } => RowNumbers::of(paper.number(), 0, 0),
            Entry::Coauthor { paper, user } => RowNumbers::of(paper.number(), user.number(), 0),
            Entry::Revised { paper, .. } => RowNumbers::of(paper.number(), 0, 0),
            Entry::Uploaded { paper, version, .. } => RowNumbers::of(paper.number(), *version, 0),
            Entry::Withdrawn { paper } => RowNumbers::of(paper.number(), 0, 0),
            Entry::Conflict { paper, user, on } => {
                RowNumbers::of(paper.number(), user.number(), u64::from(*on))
            }
            Entry::Bid { paper, value } => RowNumbers::of(paper.number(), value.raised(), 0),
            Entry::Assigned {
                paper,
                user,
                kind,
                ordinal,
            } => RowNumbers {
                n4: ordinal.number(),
                ..RowNumbers::of(paper.number(), user.number(), kind.number())
            },
            Entry::Unassigned {
                paper,
                user,
                ordinal,
            } => RowNumbers::of(paper.number(), user.number(), ordinal.number()),
            Entry::Reviewed {
                paper,
                ordinal,
                version,
                form,
            } => RowNumbers {
                n4: form.score.number(),
                n5: form.confidence.number(),
                ..RowNumbers::of(paper.number(), ordinal.number(), *version)
            },
            Entry::Commented {
                paper,
                n,
                ordinal,
                ..
            } => RowNumbers::of(paper.number(), *n, number_of_label(ordinal)),
            Entry::Tagged { paper, on, .. } => RowNumbers::of(paper.number(), u64::from(*on), 0),
            Entry::Decided { paper, decision } => {
                RowNumbers::of(paper.number(), decision.number(), 0)
            }
            Entry::DeadlineSet { phase, until } => {
                RowNumbers::of(phase.number(), number_of_until(until), 0)
            }
            Entry::Dismissed { user } => RowNumbers::of(user.number(), 0, 0),
            Entry::Invited { paper, user } => RowNumbers::of(paper.number(), user.number(), 0),
            Entry::Uninvited { paper, user } => RowNumbers::of(paper.number(), user.number(), 0),
            Entry::Responded { paper, .. } => RowNumbers::of(paper.number(), 0, 0),
        }
    }

    /// Returns the bytes of its row.
    ///
    /// # Errors
    ///
    /// If memory runs out.
    fn row_bytes(&self, alloc: Global) -> Result<RowBytes, AllocError>
        ensures { IfOk result (λ made. made ≡ record { b1 = (fields_of self.now).b1; b2 = (fields_of self.now).b2 }) }
    {
        match self {
            Entry::Registered { name, digest, .. } => {
                RowBytes::of_slices(alloc, name.as_slice(), digest)
            }
            Entry::Submitted {
                title,
                abstract_,
                ..
            } => RowBytes::of_texts(title, abstract_),
            Entry::Revised {
                title,
                abstract_,
                ..
            } => RowBytes::of_texts(title, abstract_),
            Entry::Uploaded { content, .. } => RowBytes::of_blob(content),
            Entry::Reviewed { form, .. } => RowBytes::of_texts(&form.to_authors, &form.to_pc),
            Entry::Commented { text, .. } => RowBytes::of_text(text),
            Entry::Responded { text, .. } => RowBytes::of_text(text),
            Entry::Tagged { tag, .. } => RowBytes::of_slice(alloc, tag.as_slice()),
            Entry::Named { .. }
            | Entry::PhaseSet { .. }
            | Entry::ModeSet { .. }
            | Entry::Coauthor { .. }
            | Entry::Withdrawn { .. }
            | Entry::Conflict { .. }
            | Entry::Bid { .. }
            | Entry::Assigned { .. }
            | Entry::Unassigned { .. }
            | Entry::Decided { .. }
            | Entry::DeadlineSet { .. }
            | Entry::Dismissed { .. }
            | Entry::Invited { .. }
            | Entry::Uninvited { .. } => Ok(RowBytes::none()),
        }
    }
}

/// The numbers of a row, by its entry's kind.
#[derive(Clone, Copy)]
struct RowNumbers {
    n1: u64,
    n2: u64,
    n3: u64,
    n4: u64,
    n5: u64,
}

impl RowNumbers {
    /// Returns these numbers in the first three fields; the others are unused.
    fn of(n1: u64, n2: u64, n3: u64) -> RowNumbers
        ensures { result ≡ record { n1 = n1; n2 = n2; n3 = n3; n4 = 0; n5 = 0 } }
    {
        RowNumbers {
            n1,
            n2,
            n3,
            n4: 0,
            n5: 0,
        }
    }
}

/// The bytes of a row, by its entry's kind.
#[derive(Drop)]
struct RowBytes {
    b1: Blob,
    b2: Blob,
}

impl RowBytes {
    /// Returns two unused fields.
    ///
    /// # Cost
    ///
    /// Takes no memory.
    fn none() -> RowBytes
        ensures { result ≡ record { b1 = []; b2 = [] } }
    {
        RowBytes {
            b1: Blob::empty(),
            b2: Blob::empty(),
        }
    }

    /// Returns a copy of these bytes in the first field.
    ///
    /// # Errors
    ///
    /// If memory runs out.
    fn of_slice(alloc: Global, first: &[u8]) -> Result<RowBytes, AllocError>
        ensures { IfOk result (λ made. made ≡ record { b1 = first.now; b2 = [] }) }
    {
        let b1 = Blob::from_slice(alloc, first)?;
        Ok(RowBytes {
            b1,
            b2: Blob::empty(),
        })
    }

    /// Copies of these bytes in both fields.
    fn of_slices(alloc: Global, first: &[u8], second: &[u8]) -> Result<RowBytes, AllocError>
        ensures { IfOk result (λ made. made ≡ record { b1 = first.now; b2 = second.now }) }
    {
        let b1 = Blob::from_slice(alloc, first)?;
        let b2 = Blob::from_slice(alloc, second)?;
        Ok(RowBytes { b1, b2 })
    }

    /// Returns these bytes in the first field, shared.
    ///
    /// # Errors
    ///
    /// If memory runs out.
    fn of_blob(first: &Blob) -> Result<RowBytes, AllocError>
        ensures { IfOk result (λ made. made ≡ record { b1 = first.now; b2 = [] }) }
    {
        let b1 = first.copy()?;
        Ok(RowBytes {
            b1,
            b2: Blob::empty(),
        })
    }

    /// Returns this text in the first field, shared.
    ///
    /// # Errors
    ///
    /// If memory runs out.
    fn of_text(first: &Text) -> Result<RowBytes, AllocError>
        ensures { IfOk result (λ made. made ≡ record { b1 = first.now; b2 = [] }) }
    {
        let b1 = first.to_blob()?;
        Ok(RowBytes {
            b1,
            b2: Blob::empty(),
        })
    }

    /// Returns these texts in both fields, shared.
    ///
    /// # Errors
    ///
    /// If memory runs out.
    fn of_texts(first: &Text, second: &Text) -> Result<RowBytes, AllocError>
        ensures { IfOk result (λ made. made ≡ record { b1 = first.now; b2 = second.now }) }
    {
        let b1 = first.to_blob()?;
        let b2 = second.to_blob()?;
        Ok(RowBytes { b1, b2 })
    }
}

/// Returns the number that rows tell of a label that may be none: its ordinal's, or 0.
fn number_of_label(ordinal: &Option<Ordinal>) -> u64
    ensures { result ≡ label_number ordinal.now }
{
    match ordinal {
        Some(ordinal) => ordinal.number(),
        None => 0,
    }
}

/// Returns the label of a number from 0 to 26: none for 0.
fn label_of_number(number: u64) -> Option<Ordinal>
    requires { number ≤ 26 }
    ensures { result ≡ label_numbered number }
{
    if number == 0 {
        None
    } else {
        Some(Ordinal::new(number))
    }
}

/// Returns the number that rows tell of a deadline that may be none: its seconds, or 0.
fn number_of_until(until: &Option<Deadline>) -> u64
    ensures { result ≡ until_number until.now }
{
    match until {
        Some(until) => until.seconds(),
        None => 0,
    }
}

/// Returns the deadline of a number from 0 to 253,402,207,200: none for 0.
fn until_of_number(number: u64) -> Option<Deadline>
    requires { number ≤ 253402207200 }
    ensures { result ≡ until_numbered number }
{
    Deadline::new(number)
}

/// Returns the number that rows tell of a command's key that may be none: its own, or 0.
fn number_of_key(key: &Option<RetryKey>) -> u64
    ensures { result ≡ key_number key.now }
{
    match key {
        Some(key) => key.number.number(),
        None => 0,
    }
}

/// Returns the mark that rows tell of a command's key that may be none.
///
/// # Errors
///
/// If memory runs out.
fn mark_of_key(alloc: Global, key: &Option<RetryKey>) -> Result<Blob, AllocError>
    ensures { IfOk result (λ mark. mark ≡ key_mark key.now) }
{
    match key {
        Some(key) => Blob::from_slice(alloc, &key.mark),
        None => Ok(Blob::empty()),
    }
}

/// Returns the key that the fields of a row spell.
fn key_of_row(row: &Row) -> Option<RetryKey>
    requires { IsKeyOrNone (key_in (row.now).num (row.now).mark) }
    ensures { result ≡ key_in (row.now).num (row.now).mark }
{
    let number = CommandNumber::new(row.num)?;
    Some(RetryKey {
        number,
        mark: digest_of(&row.mark),
    })
}

/// Returns the moment of so many seconds, where there is one.
fn moment_of_seconds(seconds: u64) -> Moment
    requires { IsMoment seconds }
    ensures { result ≡ seconds }
{
    match Moment::new(seconds) {
        Some(moment) => moment,
        None => unreachable!(),
    }
}

/// Returns the tag that bytes of a tag's grammar are.
fn tag_of(bytes: &Blob) -> Tag
    requires { IsTrue (is_tag bytes.now) }
    ensures { result ≡ bytes.now }
{
    match Tag::read(bytes.as_slice()) {
        Some(tag) => tag,
        None => unreachable!(),
    }
}

/// Returns the digest that 32 bytes are.
fn digest_of(bytes: &Blob) -> Digest
    requires { length bytes.now ≡ 32 }
    ensures { result ≡ bytes.now }
{
    let mut digest = [0u8; 32];
    digest.copy_from_slice(bytes.as_slice());
    digest
}

/// Returns the entry of a kind that the fields of a row spell, or `None` if a number is no word's.
fn entry_from(kind: EntryKind, row: &Row) -> Result<Option<Entry>, AllocError>
    requires { FitsShape (shape_of kind) row.now }
    ensures { IfOk result (λ found. found ≡ built kind row.now) }
{
    match kind {
        EntryKind::Registered => Ok(Some(Entry::Registered {
            user: UserNo::new(row.n1),
            name: Short::from_slice(row.b1.as_slice()),
            digest: digest_of(&row.b2),
        })),
        EntryKind::Named => {
            let user = UserNo::new(row.n1);
            Ok(Role::from_number(row.n2).map(|role| Entry::Named { user, role }))
        }
        EntryKind::PhaseSet => {
            Ok(Phase::from_number(row.n1).map(|phase| Entry::PhaseSet { phase }))
        }
        EntryKind::ModeSet => Ok(Mode::from_number(row.n1).map(|mode| Entry::ModeSet { mode })),
        EntryKind::Submitted => {
            let texts = TwoTexts::from_blobs(&row.b1, &row.b2)?;
            Ok(Some(Entry::Submitted {
                paper: PaperNo::new(row.n1),
                title: texts.first,
                abstract_: texts.second,
            }))
        }
        EntryKind::Coauthor => Ok(Some(Entry::Coauthor {
            paper: PaperNo::new(row.n1),
            user: UserNo::new(row.n2),
        })),
        EntryKind::Revised => {
            let texts = TwoTexts::from_blobs(&row.b1, &row.b2)?;
            Ok(Some(Entry::Revised {
                paper: PaperNo::new(row.n1),
                title: texts.first,
                abstract_: texts.second,
            }))
        }
        EntryKind::Uploaded => Ok(Some(Entry::Uploaded {
            paper: PaperNo::new(row.n1),
            version: row.n2,
            content: row.b1.copy()?,
        })),
        EntryKind::Withdrawn => Ok(Some(Entry::Withdrawn {
            paper: PaperNo::new(row.n1),
        })),
        EntryKind::Conflict => Ok(Some(Entry::Conflict {
            paper: PaperNo::new(row.n1),
            user: UserNo::new(row.n2),
            on: row.n3 == 1,
        })),
        EntryKind::Bid => Ok(Some(Entry::Bid {
            paper: PaperNo::new(row.n1),
            value: Bid::from_raised(row.n2),
        })),
        EntryKind::Assigned => {
            let paper = PaperNo::new(row.n1);
            let user = UserNo::new(row.n2);
            let ordinal = Ordinal::new(row.n4);
            Ok(Kind::from_number(row.n3).map(|kind| Entry::Assigned {
                paper,
                user,
                kind,
                ordinal,
            }))
        }
        EntryKind::Unassigned => Ok(Some(Entry::Unassigned {
            paper: PaperNo::new(row.n1),
            user: UserNo::new(row.n2),
            ordinal: Ordinal::new(row.n3),
        })),
        EntryKind::Reviewed => {
            let texts = TwoTexts::from_blobs(&row.b1, &row.b2)?;
            Ok(Some(Entry::Reviewed {
                paper: PaperNo::new(row.n1),
                ordinal: Ordinal::new(row.n2),
                version: row.n3,
                form: Form {
                    score: Grade::new(row.n4),
                    confidence: Grade::new(row.n5),
                    to_authors: texts.first,
                    to_pc: texts.second,
                },
            }))
        }
        EntryKind::Commented => Ok(Some(Entry::Commented {
            paper: PaperNo::new(row.n1),
            n: row.n2,
            ordinal: label_of_number(row.n3),
            text: Text::from_blob(&row.b1)?,
        })),
        EntryKind::Tagged => Ok(Some(Entry::Tagged {
            paper: PaperNo::new(row.n1),
            tag: tag_of(&row.b1),
            on: row.n2 == 1,
        })),
        EntryKind::Decided => {
            let paper = PaperNo::new(row.n1);
            Ok(Decision::from_number(row.n2).map(|decision| Entry::Decided { paper, decision }))
        }
        EntryKind::DeadlineSet => {
            let until = until_of_number(row.n2);
            Ok(Phase::from_number(row.n1).map(|phase| Entry::DeadlineSet { phase, until }))
        }
        EntryKind::Dismissed => Ok(Some(Entry::Dismissed {
            user: UserNo::new(row.n1),
        })),
        EntryKind::Invited => Ok(Some(Entry::Invited {
            paper: PaperNo::new(row.n1),
            user: UserNo::new(row.n2),
        })),
        EntryKind::Uninvited => Ok(Some(Entry::Uninvited {
            paper: PaperNo::new(row.n1),
            user: UserNo::new(row.n2),
        })),
        EntryKind::Responded => Ok(Some(Entry::Responded {
            paper: PaperNo::new(row.n1),
            text: Text::from_blob(&row.b1)?,
        })),
    }
}

impl Stamp {
    /// Returns the command's metadata that the fields of a row spell.
    fn of_row(row: &Row) -> Stamp
        requires { FitsStamp (stamp_in row.now) }
        ensures { result ≡ stamp_in row.now }
    {
        Stamp {
            maker: UserNo::new(row.maker),
            at: moment_of_seconds(row.at),
            key: key_of_row(row),
        }
    }
}

impl Stamped {
    /// Returns the entry of a row, with its metadata, or `None` exactly if the row is no entry's: no known kind, a
    /// number beyond what its kind allows, bytes out of their grammar, or an unused field that isn't empty.
    ///
    /// # Errors
    ///
    /// If memory runs out.
    pub fn from_row(row: &Row) -> Result<Option<Stamped>, AllocError>
        ensures spells { IfOk result (λ found. IfSome found (λ s. IsBoundedEntry s × (row_of s ≡ row.now))) }
        ensures every { IfOk result (λ found. (s : Stamped) → IsBoundedEntry s → row_of s ≡ row.now → found ≡ Some s) }
    {
        let Some(kind) = EntryKind::from_number(row.kind) else {
            return Ok(None);
        };
        if !kind.shape().fits(row) {
            return Ok(None);
        }
        let Some(entry) = entry_from(kind, row)? else {
            return Ok(None);
        };
        Ok(Some(Stamped {
            stamp: Stamp::of_row(row),
            more: row.more == 1,
            entry,
        }))
    }
}
