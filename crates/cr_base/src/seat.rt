// SPDX-License-Identifier: Apache-2.0 OR MIT
//! What is kept of an assignment.

use crate::numbers::Ordinal;
use crate::words::Kind;

/// A reviewer's assignment to a paper, current or ended. It is kept when the reviewer leaves, since its label isn't
/// used again.
#[derive(Clone, Copy, PartialEq, Eq)]
pub struct Seat {
    /// The kind of assignment.
    pub kind: Kind,
    /// The ordinal of the reviewer's label.
    pub ordinal: Ordinal,
    /// True if the reviewer has left it.
    pub vacated: bool,
}
