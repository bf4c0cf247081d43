// SPDX-License-Identifier: Apache-2.0 OR MIT
//! What an entry shows a user, found in the tables, and the lines of a view, made without a view in memory. Of any
//! history, legal or not.
//!
//! # Proved
//!
//! - What an entry shows is what the policy says, also to its actor: `sight`. The view is written line by line: whole,
//!   or up to a failed write or lack of memory: `write_view`; `view_len`.
//!
//! # Tested
//!
//! - The length of a view: tests_of_books.
#![tactic(auto)]

mod by_kind;
mod decisions;
mod invites;
mod line;
mod members;
mod papers;
mod places;
mod position;
mod positions;
mod public;
mod reviews;
mod seats;
mod series;
mod sighting;
mod tags;
mod talk;
mod ties;
mod walk;

pub use by_kind::sight;
pub use position::Position;
pub use sighting::Sighting;
pub use walk::{ViewError, view_len, write_view};
