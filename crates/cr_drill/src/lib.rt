// SPDX-License-Identifier: Apache-2.0 OR MIT
//! A drill: commands made up from a seed, given to a book in memory, and the four lines that say what they come to.
//! `Dice` and `Cast` in specs say which commands are made up, `Drill` what their history and summary are.
//!
//! # Proved
//!
//! - Unless memory runs out, the [summary](../../../docs/API.md#appendix-drills) is that of the history to which the
//!   defined commands of the seed lead: `run_drill` (`drilled`, `summary`).
//!
//! # Tested
//!
//! - The same commands given to a reference model: `checks/drills.py`.
#![tactic(auto)]

mod dice;
mod drill_commands;
mod drill_summary;
mod drilling;

pub use dice::{Dice, Roll};
pub use drill_commands::Operation;
pub use drilling::run_drill;
