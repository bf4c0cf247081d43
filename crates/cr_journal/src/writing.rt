// SPDX-License-Identifier: Apache-2.0 OR MIT
//! The block of a group: its payload after its length, and a closed gate.
ghost use Rattle.std.specs.Prelude.{◌≡◌, ◌++◌, ◌<◌, ◌≤◌, ◌^◌, [], ◌∷◌, length, drop, IfOk, OnOk};
ghost use Rattle.std.specs.List.{flat_map};
ghost use Rattle.cr_journal.specs.Grammar.{number, field, row_text, payload, AreNumbers, FitsRow, FitsGroup};

use cr_base::Row;
use std::alloc::{AllocError, Global};

/// Appends a number, as eight bytes.
///
/// # Errors
///
/// If memory runs out.
#[tactic(auto, unfolding(crate::specs::Grammar::number))]
fn put_number(out: &mut Vec<u8>, n: u64) -> Result<(), AllocError>
    ensures { OnOk result (out.new.items ≡ out.old.items ++ number n) }
{
    out.extend_from_slice(&n.to_be_bytes())
}

/// Appends bytes after their length.
///
/// # Errors
///
/// If memory runs out.
fn put_field(out: &mut Vec<u8>, bytes: &[u8]) -> Result<(), AllocError>
    ensures put { OnOk result (out.new.items ≡ out.old.items ++ field bytes.now) }
    ensures sized { length bytes.now < 2 ^ 64 }
{
    put_number(out, bytes.len() as u64)?;
    out.extend_from_slice(bytes)
}

/// Appends the numbers, eight bytes each.
///
/// # Errors
///
/// If memory runs out.
fn put_numbers(out: &mut Vec<u8>, numbers: &[u64]) -> Result<(), AllocError>
    ensures put { OnOk result (out.new.items ≡ out.old.items ++ flat_map number numbers.now) }
    ensures fit { AreNumbers numbers.now }
{
    for n in numbers {
        put_number(out, *n)?;
    }
    Ok(())
}

/// Appends a row.
///
/// # Errors
///
/// If memory runs out.
fn put_row(out: &mut Vec<u8>, row: &Row) -> Result<(), AllocError>
    ensures put { OnOk result (out.new.items ≡ out.old.items ++ row_text row.now) }
    ensures fits { OnOk result (FitsRow row.now) }
{
    let numbers = [
        row.kind, row.maker, row.more, row.at, row.num, row.n1, row.n2, row.n3, row.n4, row.n5,
    ];
    put_numbers(out, &numbers)?;
    put_field(out, row.mark.as_slice())?;
    put_field(out, row.b1.as_slice())?;
    put_field(out, row.b2.as_slice())
}

/// Writes the rows of a group after 8 bytes, which are for their length.
///
/// # Errors
///
/// If memory runs out.
fn payload_behind(alloc: Global, rows: &[Row]) -> Result<Vec<u8>, AllocError>
    ensures put { IfOk result (λ bytes. bytes.items ≡ (0 ∷ 0 ∷ 0 ∷ 0 ∷ 0 ∷ 0 ∷ 0 ∷ 0 ∷ []) ++ payload rows.now) }
    ensures fits { IfOk result (λ bytes. FitsGroup rows.now) }
{
    let mut bytes = Vec::new(alloc);
    bytes.extend_from_slice(&[0; 8])?;
    for row in rows {
        put_row(&mut bytes, row)?;
    }
    Ok(bytes)
}

/// Writes the length of what follows the first 8 bytes into these.
fn put_length(bytes: &mut [u8])
    requires { 8 ≤ length bytes.old }
    ensures { bytes.new ≡ field (drop 8 bytes.old) }
{
    let len = (bytes.len() - 8) as u64;
    bytes[..8].copy_from_slice(&len.to_be_bytes());
}

/// Makes the block of a group: its payload after its length, and a closed gate.
///
/// # Errors
///
/// If memory runs out.
pub(crate) fn block_of(alloc: Global, rows: &[Row]) -> Result<Vec<u8>, AllocError>
    ensures block { IfOk result (λ block. block.items ≡ field (payload rows.now) ++ 0 ∷ []) }
    ensures fits { IfOk result (λ block. FitsGroup rows.now × (length (payload rows.now) < 2 ^ 64)) }
{
    let mut block = payload_behind(alloc, rows)?;
    put_length(&mut block);
    block.push(0)?;
    Ok(block)
}
