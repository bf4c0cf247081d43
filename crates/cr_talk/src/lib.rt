// SPDX-License-Identifier: Apache-2.0 OR MIT
//! The table of comments and of authors' responses, by paper, and how many comments each user has written.
//!
//! # Proved
//!
//! - [What every table proves](../../cr_rooms/src/lib.rt).
#![tactic(auto)]

mod talk;

pub use talk::{MOST_OWN_COMMENTS, Talk};
