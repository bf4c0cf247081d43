// SPDX-License-Identifier: Apache-2.0 OR MIT
//! Plans of who might review what, by what members bid: from the tables to a problem of cr_match, and from its
//! solution to the text that a bulk reads.
//!
//! # Proved
//!
//! - Unless memory runs out, the answer is the first broken rule, which takes no memory, or the defined text: of all
//!   plans with the greatest sum, the first (`best_plan`). If the other rules hold, `NoPlan` means that there is no
//!   plan. If there is none, the answer is `NoPlan` or lack of memory: `answer`.
#![tactic(auto)]

mod planned;
mod plans;
mod put;
mod solving;
mod text;

pub use plans::answer;
