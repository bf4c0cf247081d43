// SPDX-License-Identifier: Apache-2.0 OR MIT
//! The table of decisions: what the committee decided of papers.
//!
//! # Proved
//!
//! - [What every table proves](../../cr_rooms/src/lib.rt), of a paper's last decision.
#![tactic(auto)]

mod decisions;

pub use decisions::Decisions;
