// SPDX-License-Identifier: Apache-2.0 OR MIT
//! Ordered maps from a paper and a user to what is kept of the two (a *tie*), by paper or by user.
//!
//! # Proved
//!
//! - Whether a pair is there, its value, and the lists by paper and by user are exact: `contains`, `value`,
//!   `of_paper`; `of_user`, `papers`. A look-up takes at most the steps of a binary search, a list one for each:
//!   `steps`.
//! - A tie goes in, and a pair out, as defined, without memory once there is room: `insert`, `remove` (`ties`), `room`
//!   (`same`). The pairs by user are those by paper: the types' invariants.
#![tactic(auto)]

mod indexed_pairs;
mod pair_map;
mod pair_rows;
mod papers;

pub use indexed_pairs::IndexedPairs;
pub use pair_rows::PairRows;
pub use papers::papers_of;
