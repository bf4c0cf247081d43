// SPDX-License-Identifier: Apache-2.0 OR MIT
//! The table of reviews: the forms that reviewers have written, by paper, each with its label and the phase in which
//! it was written.
//!
//! # Proved
//!
//! - [What every table proves](../../cr_rooms/src/lib.rt), of a paper's forms, the last under a label, and before a
//!   phase, and the labels that have one.
#![tactic(auto)]

mod forms;
mod labels;
mod reviews;

pub use labels::Labels;
pub use reviews::Reviews;
