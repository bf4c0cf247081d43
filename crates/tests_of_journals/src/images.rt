// SPDX-License-Identifier: Apache-2.0 OR MIT
//! What a stop may leave of a disk in memory, by the model that disks have: until a sync any bytes may stand in the
//! range of a write, and the file may end anywhere behind its old end.
use cr_disks::{DiskCall, MemDisk};
use std::alloc::{AllocError, Global};

/// What is in the ranges that weren't synced.
#[derive(Clone, Copy)]
pub enum Torn {
    /// What was written.
    Written,
    /// What was there before, and the old end.
    Untouched,
    /// These bytes, again and again.
    Filled([u8; 8]),
    /// The first half of what was written, and then these bytes.
    HalfFilled([u8; 8]),
    /// These bytes, and the end after the first half of the range.
    Short([u8; 8]),
}

/// The bytes with which the ranges are filled.
pub const PATTERNS: [[u8; 8]; 8] = [
    [0, 0, 0, 0, 0, 0, 0, 0],
    [1, 1, 1, 1, 1, 1, 1, 1],
    [255, 255, 255, 255, 255, 255, 255, 255],
    [1, 0, 0, 0, 0, 0, 0, 0],
    [0, 0, 0, 0, 0, 0, 0, 1],
    [1, 0, 0, 0, 0, 0, 0, 104],
    [0, 1, 2, 3, 4, 5, 6, 7],
    *b"CONFDJ01",
];

/// Returns the bytes with one byte at an offset, or after the last where the offset is that.
fn set(bytes: &mut Vec<u8>, at: usize, value: u8) -> Result<(), AllocError> {
    if let Some(byte) = bytes.get_mut(at) {
        *byte = value;
        return Ok(());
    }
    bytes.push(value)?;
    Ok(())
}

/// Puts over an offset what a torn write leaves there: of so many bytes, with those that it was to put.
fn tear(
    image: &mut Vec<u8>,
    at: usize,
    written: &[u8],
    len: usize,
    torn: Torn,
) -> Result<(), AllocError> {
    for i in 0..len {
        let put = written.get(i).copied();
        let value = match torn {
            Torn::Untouched => None,
            Torn::Written => put,
            Torn::Filled(pattern) => Some(pattern[i % 8]),
            Torn::HalfFilled(_) if i < len / 2 => put,
            Torn::HalfFilled(pattern) => Some(pattern[i % 8]),
            Torn::Short(_) if i >= len / 2 => None,
            Torn::Short(pattern) => Some(pattern[i % 8]),
        };
        if let Some(value) = value {
            set(image, at.saturating_add(i), value)?;
        }
    }
    Ok(())
}

/// Returns what a stop leaves after the first calls of a disk, so many of them.
pub fn image_behind(
    alloc: Global,
    disk: &MemDisk,
    calls: usize,
    torn: Torn,
) -> Result<Vec<u8>, AllocError> {
    let mut seen = disk.first().to_vec(alloc)?;
    let mut image = disk.first().to_vec(alloc)?;
    let mut behind = disk.put();
    for call in disk.calls().iter().take(calls) {
        match *call {
            DiskCall::Wrote { at, put, len } => {
                let (written, rest) = behind.split_at(put.min(behind.len()));
                tear(
                    &mut seen,
                    at as usize,
                    written,
                    written.len(),
                    Torn::Written,
                )?;
                tear(&mut image, at as usize, written, len, torn)?;
                behind = rest;
            }
            DiskCall::Synced => image = seen.to_vec(alloc)?,
            DiskCall::SyncFailed => {}
        }
    }
    Ok(image)
}
