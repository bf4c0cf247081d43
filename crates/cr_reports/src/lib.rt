// SPDX-License-Identifier: Apache-2.0 OR MIT
//! The committee's reports, and letters to authors, as plain text.
//!
//! # Proved
//!
//! - Unless memory runs out, a report is the defined text of what the tables have for the caller, or the first broken
//!   rule: `answer`; `papers`, `scores`, `load`, `decisions`, `letter`. A refusal takes no memory.
//!
//! # Assumed
//!
//! - A report is one pass over what it lists.
#![tactic(auto)]

mod columns;
mod counting;
mod counts;
mod decision_lines;
mod letter_lines;
mod listed;
mod load_lines;
mod mean;
mod paper_lines;
mod put;
mod reports;
mod score_lines;
mod tally;
mod told;

pub use reports::answer;
pub use told::{decisions, letter, load, papers, scores};
