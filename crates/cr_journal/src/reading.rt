// SPDX-License-Identifier: Apache-2.0 OR MIT
//! Rows out of bytes.
ghost use Rattle.std.specs.Prelude.{◌≡◌, ◌++◌, List, ℕ, IfOk, IfSome, IsTrue, IsFalse};
ghost use Rattle.std.specs.Option.{IfNone};
ghost use Rattle.cr_base.specs.declared.row.Row.{Row};
ghost use Rattle.cr_journal.specs.Grammar.{row_text, payload, FitsRow, FitsGroup};
ghost use Rattle.cr_journal.specs.Reading.{Finds, number_at, front_of, field_at, numbers_at, row_at, row_of};

use cr_base::{Blob, Row};
use std::alloc::{AllocError, Global};

/// Reads a number. Returns it and the bytes after it.
#[tactic(auto, unfolding(crate::specs::Reading::number_at))]
pub(crate) fn number_at(bytes: &[u8]) -> Option<(u64, &[u8])>
    ensures { Finds (λ x. (x.0, x.1.now)) result (number_at bytes.now) }
{
    if bytes.len() < 8 {
        return None;
    }
    let (front, rest) = bytes.split_at(8);
    let number = u64::from_be_bytes([
        front[0], front[1], front[2], front[3], front[4], front[5], front[6], front[7],
    ]);
    Some((number, rest))
}

/// Splits so many bytes off the front. Returns them and the bytes after them.
fn front_of(n: u64, bytes: &[u8]) -> Option<(&[u8], &[u8])>
    ensures { Finds (λ x. (x.0.now, x.1.now)) result (front_of n bytes.now) }
{
    if (bytes.len() as u64) < n {
        return None;
    }
    Some(bytes.split_at(n as usize))
}

/// Reads bytes after their length. Returns them and the bytes after them.
#[tactic(auto, unfolding(crate::specs::Reading::field_at))]
fn field_at(bytes: &[u8]) -> Option<(&[u8], &[u8])>
    ensures { Finds (λ x. (x.0.now, x.1.now)) result (field_at bytes.now) }
{
    let (n, rest) = number_at(bytes)?;
    front_of(n, rest)
}

/// Reads the ten numbers of a row. Returns them and the bytes after them.
#[tactic(auto, unfolding(crate::specs::Reading::numbers_at))]
fn numbers_at(bytes: &[u8]) -> Option<([u64; 10], &[u8])>
    ensures { Finds (λ x. (x.0, x.1.now)) result (numbers_at 10 bytes.now) }
{
    let (kind, rest) = number_at(bytes)?;
    let (maker, rest) = number_at(rest)?;
    let (more, rest) = number_at(rest)?;
    let (at, rest) = number_at(rest)?;
    let (num, rest) = number_at(rest)?;
    let (n1, rest) = number_at(rest)?;
    let (n2, rest) = number_at(rest)?;
    let (n3, rest) = number_at(rest)?;
    let (n4, rest) = number_at(rest)?;
    let (n5, rest) = number_at(rest)?;
    Some(([kind, maker, more, at, num, n1, n2, n3, n4, n5], rest))
}

/// What a row is made of, and the bytes after it.
#[derive(Clone, Copy)]
struct Parts<'a> {
    numbers: [u64; 10],
    mark: &'a [u8],
    b1: &'a [u8],
    b2: &'a [u8],
    rest: &'a [u8],
}

/// Reads the parts of the row with which the bytes begin.
#[tactic(auto, unfolding(crate::specs::Reading::row_at))]
fn parts_at(bytes: &[u8]) -> Option<Parts<'_>>
    ensures { Finds (λ p. (row_of p.numbers p.mark.now p.b1.now p.b2.now, p.rest.now)) result (row_at bytes.now) }
{
    let (numbers, rest) = numbers_at(bytes)?;
    let (mark, rest) = field_at(rest)?;
    let (b1, rest) = field_at(rest)?;
    let (b2, rest) = field_at(rest)?;
    Some(Parts {
        numbers,
        mark,
        b1,
        b2,
        rest,
    })
}

/// Reads the parts of the row with which the bytes begin; `None` if they begin with no row.
fn next_row(bytes: &[u8]) -> Option<Parts<'_>>
    ensures found { IfSome result (λ p.
        (bytes.now ≡ row_text (row_of p.numbers p.mark.now p.b1.now p.b2.now) ++ p.rest.now)
        × FitsRow (row_of p.numbers p.mark.now p.b1.now p.b2.now)) }
    ensures none { IfNone result ((row : Row) (rest : List ℕ) → FitsRow row → bytes.now ≡ row_text row ++ rest → ⊥) }
{
    parts_at(bytes)
}

/// Copies these bytes into a blob, once.
///
/// # Errors
///
/// If memory runs out.
fn blob_of(alloc: Global, bytes: &[u8]) -> Result<Blob, AllocError>
    ensures { IfOk result (λ blob. blob ≡ bytes.now) }
{
    if bytes.is_empty() {
        return Ok(Blob::empty());
    }
    Blob::from_slice(alloc, bytes)
}

/// Makes the row of these parts.
///
/// # Errors
///
/// If memory runs out.
fn row_of(alloc: Global, parts: &Parts<'_>) -> Result<Row, AllocError>
    ensures { IfOk result (λ row. row ≡ row_of parts.now.numbers parts.now.mark.now parts.now.b1.now parts.now.b2.now) }
{
    let [kind, maker, more, at, num, n1, n2, n3, n4, n5] = parts.numbers;
    let mark = blob_of(alloc, parts.mark)?;
    let b1 = blob_of(alloc, parts.b1)?;
    let b2 = blob_of(alloc, parts.b2)?;
    Ok(Row {
        kind,
        maker,
        more,
        at,
        num,
        mark,
        n1,
        n2,
        n3,
        n4,
        n5,
        b1,
        b2,
    })
}

/// Adds the rows of a payload to those that are there. Returns whether the payload is that of a group.
///
/// # Errors
///
/// If memory runs out.
pub(crate) fn read_rows(
    alloc: Global,
    bytes: &[u8],
    rows: &mut Vec<Row>,
) -> Result<bool, AllocError>
    ensures read { IfOk result (λ all. IsTrue all → (group : List Row) × FitsGroup group × (bytes.now ≡ payload group)
        × (rows.new.items ≡ rows.old.items ++ group)) }
    ensures none { IfOk result (λ all. IsFalse all → (group : List Row) → FitsGroup group
        → bytes.now ≡ payload group → ⊥) }
{
    let mut rest = bytes;
    'rows: while !rest.is_empty() {
        let Some(parts) = next_row(rest) else {
            return Ok(false);
        };
        let row = row_of(alloc, &parts)?;
        rows.push(row)?;
        rest = parts.rest;
    }
    Ok(true)
}
