// SPDX-License-Identifier: Apache-2.0 OR MIT
//! Which callers are shown the names of authors, reviewers and commenters.
//!
//! # Proved
//!
//! - They are those of the defined tests: `shows_author`, `shows_reviewer`, `shows_writer`. A label is the letter of
//!   its ordinal: `letter`.
#![tactic(auto)]

mod label;
mod shown;

pub use label::letter;
pub use shown::{shows_author, shows_reviewer, shows_writer};
