// SPDX-License-Identifier: Apache-2.0 OR MIT
//! Bytes that are given a piece at a time.
ghost use Rattle.std.specs.Prelude.{◌≡◌, ◌≤◌, ◌++◌, ℕ, List, length, take, drop, vec_len, IfOk};

use std::alloc::AllocError;
use std::marker::Model;

/// What a source in memory holds.
///
/// # Model
///
/// The bytes that were not given yet.
#[derive(Drop)]
pub(crate) struct Unread {
    bytes: Vec<u8>,
    at: usize,
}

impl Model for Unread {
    ghost Value = { List ℕ };

    ghost view = { λ u. drop u.at u.bytes.items };

    ghost invariant = { λ u. u.at ≤ vec_len u.bytes };
}

/// Copies the first `n` bytes of `left` to the front of `buf`.
fn copy_front(left: &[u8], buf: &mut [u8], n: usize)
    requires has { n ≤ length left.now }
    requires fits { n ≤ length buf.old }
    ensures { take n buf.new ≡ take n left.now }
{
    buf[..n].copy_from_slice(&left[..n]);
}

impl Unread {
    /// Holds all of these bytes; none was given yet.
    pub(crate) fn new(bytes: Vec<u8>) -> Self
        ensures { result ≡ bytes.items }
    {
        Unread { bytes, at: 0 }
    }

    /// Copies the bytes that were not given yet.
    ///
    /// # Errors
    ///
    /// If memory runs out.
    pub(crate) fn copy(&self) -> Result<Self, AllocError>
        ensures { IfOk result (λ copy. copy ≡ self.now) }
    {
        let bytes = self.bytes.clone()?;
        Ok(Unread { bytes, at: self.at })
    }

    /// Lends the bytes that were not given yet.
    pub(crate) fn as_slice(&self) -> &[u8]
        ensures { result.now ≡ self.now }
    {
        &self.bytes[self.at..]
    }

    /// Returns how many bytes were not given yet.
    pub(crate) fn len(&self) -> usize
        ensures { result ≡ length self.now }
    {
        self.bytes.len() - self.at
    }

    /// Moves the first `n` of the bytes to the front of `buf`.
    pub(crate) fn give(&mut self, buf: &mut [u8], n: usize)
        requires has { n ≤ length self.old }
        requires fits { n ≤ length buf.old }
        ensures bytes { self.old ≡ take n buf.new ++ self.new }
        ensures size { length (take n buf.new) ≡ n }
    {
        copy_front(&self.bytes[self.at..], buf, n);
        self.at += n;
    }
}
