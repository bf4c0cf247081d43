// SPDX-License-Identifier: Apache-2.0 OR MIT
//! The table of papers: what was submitted, revised, uploaded and withdrawn, and how much of it is each user's.
//!
//! # Proved
//!
//! - [What every table proves](../../cr_rooms/src/lib.rt), of titles, abstracts, versions, contents, withdrawals, and
//!   a user's count of papers and bytes.
#![tactic(auto)]

mod papers;
mod uploads;

pub use papers::{MOST_OWN_BYTES, MOST_OWN_PAPERS, Papers};
