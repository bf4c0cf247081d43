// SPDX-License-Identifier: Apache-2.0 OR MIT
//! Rows for tests.
use cr_base::{Blob, Row};
use std::alloc::{AllocError, Global};

/// Returns the row of a phase that was set by user 1 at moment 0.
pub fn phase_set(phase: u64) -> Row {
    Row {
        kind: 3,
        maker: 1,
        more: 0,
        at: 0,
        num: 0,
        mark: Blob::empty(),
        n1: phase,
        n2: 0,
        n3: 0,
        n4: 0,
        n5: 0,
        b1: Blob::empty(),
        b2: Blob::empty(),
    }
}

/// Returns a row with three texts of bytes.
pub fn with_texts(alloc: Global, number: u64) -> Result<Row, AllocError> {
    Ok(Row {
        kind: 14,
        maker: number,
        more: 1,
        at: u64::MAX,
        num: 1,
        mark: Blob::from_slice(alloc, &[1; 32])?,
        n1: 1,
        n2: 2,
        n3: 3,
        n4: 4,
        n5: 5,
        b1: Blob::from_slice(alloc, b"to the authors")?,
        b2: Blob::from_slice(alloc, b"CONFDJ01")?,
    })
}
