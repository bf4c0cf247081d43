// SPDX-License-Identifier: Apache-2.0 OR MIT
//! Rows that are kept and looked for.

use cr_base::{Blob, LAST_COMMAND_NUMBER, Row};
use std::alloc::{AllocError, Global};

/// The digest of alice's secret, as SHA-256's authors publish it for this text; also the mark of a command.
const DIGEST: [u8; 32] = [
    0x24, 0x8d, 0x6a, 0x61, 0xd2, 0x06, 0x38, 0xb8, 0xe5, 0xc0, 0x26, 0x93, 0x0c, 0x3e, 0x60, 0x39,
    0xa3, 0x3c, 0xe4, 0x59, 0x64, 0xff, 0x21, 0x67, 0xf6, 0xec, 0xed, 0xd4, 0x19, 0xdb, 0x06, 0xc1,
];

/// 1994-11-06T08:49:37Z, the moment of the dates in RFC 9110.
const MOMENT: u64 = 784_111_777;

/// 9999-12-31T23:59:59Z, the last moment.
const LAST_MOMENT: u64 = 253_402_300_799;

/// Returns the row that registers Alice as user 1.
fn registered(alloc: Global) -> Result<Row, AllocError> {
    let b1 = Blob::from_slice(alloc, b"alice".as_slice())?;
    let b2 = Blob::from_slice(alloc, DIGEST.as_slice())?;
    Ok(Row {
        kind: 1,
        maker: 1,
        more: 1,
        at: MOMENT,
        num: 0,
        mark: Blob::empty(),
        n1: 1,
        n2: 0,
        n3: 0,
        n4: 0,
        n5: 0,
        b1,
        b2,
    })
}

/// Returns the row that appoints Alice a chair.
fn named() -> Row {
    Row {
        kind: 2,
        maker: 1,
        more: 0,
        at: MOMENT,
        num: 0,
        mark: Blob::empty(),
        n1: 1,
        n2: 2,
        n3: 0,
        n4: 0,
        n5: 0,
        b1: Blob::empty(),
        b2: Blob::empty(),
    }
}

/// Returns a row of this kind, with numbers that tell its fields apart, of a command without a number.
pub(crate) fn of_kind(kind: u64) -> Row {
    Row {
        kind,
        maker: 1,
        more: 0,
        at: moment_for(kind),
        num: 0,
        mark: Blob::empty(),
        n1: 10,
        n2: 9999,
        n3: 30,
        n4: 40,
        n5: 50,
        b1: Blob::empty(),
        b2: Blob::empty(),
    }
}

/// Returns the first moment, the last, or one between them.
fn moment_for(kind: u64) -> u64 {
    match kind % 3 {
        0 => 0,
        1 => MOMENT,
        _ => LAST_MOMENT,
    }
}

/// Returns no command number, the first, the last, or one that no command has, each with its mark. A store keeps them
/// all.
fn key_for(alloc: Global, kind: u64) -> Result<(u64, Blob), AllocError> {
    match kind % 4 {
        0 => Ok((0, Blob::empty())),
        1 => Ok((1, Blob::from_slice(alloc, DIGEST.as_slice())?)),
        2 => Ok((
            LAST_COMMAND_NUMBER,
            Blob::from_slice(alloc, DIGEST.as_slice())?,
        )),
        _ => Ok((
            LAST_COMMAND_NUMBER + 1,
            Blob::from_slice(alloc, b"short".as_slice())?,
        )),
    }
}

/// Returns a row of this kind, with numbers that tell its fields apart, of a command that may have a number.
fn of_command(alloc: Global, kind: u64) -> Result<Row, AllocError> {
    let (num, mark) = key_for(alloc, kind)?;
    Ok(Row {
        num,
        mark,
        ..of_kind(kind)
    })
}

/// Adds the rows of a first registration, and a row of each kind before `end`, the last one first.
fn add_each_kind(alloc: Global, rows: &mut Vec<Row>, end: u64) -> Result<(), AllocError> {
    rows.push(registered(alloc)?)?;
    rows.push(named())?;
    for kind in (1..end).rev() {
        rows.push(of_command(alloc, kind)?)?;
    }
    Ok(())
}

/// Returns the rows of a first registration, and a row of each kind before `end`, the last one first. A store takes
/// the kinds before 23; one of version 2 took those before 19, one of version 1 those before 18.
pub(crate) fn of_each_kind(alloc: Global, end: u64) -> Result<Vec<Row>, AllocError> {
    let mut rows = Vec::new(alloc);
    add_each_kind(alloc, &mut rows, end)?;
    Ok(rows)
}
