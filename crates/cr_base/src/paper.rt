// SPDX-License-Identifier: Apache-2.0 OR MIT
//! What is kept of a paper.
use crate::texts::Text;

/// What is kept of a submitted paper, except its authors, which are among the ties, and its uploads.
#[derive(Drop)]
pub struct Paper {
    /// Its title.
    pub title: Text,
    /// Its abstract.
    pub abstract_: Text,
    /// True if it was withdrawn.
    pub withdrawn: bool,
}
