// SPDX-License-Identifier: Apache-2.0 OR MIT
//! The table of relations that bar a user from a paper, or bear on it: its authors, conflicts and bids.
//!
//! # Proved
//!
//! - [What every table proves](../../cr_rooms/src/lib.rt), of authors, conflicts, conflicts that authors declared, and
//!   bids. `is_declared` and `bid_of` take at most the steps of a binary search: `steps`.
#![tactic(auto)]

mod earlier;
mod judging;
mod ties;
mod told;

pub use ties::Ties;
