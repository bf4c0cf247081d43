// SPDX-License-Identifier: Apache-2.0 OR MIT
//! The table of tags: which are on at which papers, and whose the private ones are.
//!
//! # Proved
//!
//! - [What every table proves](../../cr_rooms/src/lib.rt), of a paper's tags for a user, unless memory runs out.
#![tactic(auto)]

mod order;
mod tags;

pub use cr_base::Tag;
pub use tags::Tags;
