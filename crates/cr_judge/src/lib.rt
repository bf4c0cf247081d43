// SPDX-License-Identifier: Apache-2.0 OR MIT
//! Judgement by the tables: what a command comes to, or the first rule that it breaks, and so for each row of a bulk.
//! No table changes.
//!
//! # Proved
//!
//! - Each user that a command names is that name's number among the accounts, or `None`: `resolve_call`,
//!   `resolve_row`.
//! - A judgement is that by checks on the tables: the first broken rule, or what is drawn, which fits the tables in
//!   its turn: `judge` (`drawn`, `fits`). Its receipt and group are exact; only the group takes memory:
//!   `Effect::receipt`, `Effect::group`. The receipt is a function of the first entry: `receipt_of`.
//! - A bulk's row is judged by the tables followed by the entries of the rows before it: `judge_row` (`judged`,
//!   `fits`, `next`), `may_bulk`. Whether a user is there: `is_there`.
#![tactic(auto)]

mod assigning;
mod coauthors;
mod commands;
mod effect;
mod named;
mod resolving;
mod rows;
mod writing;

pub use coauthors::is_there;
pub use commands::judge;
pub use effect::{Effect, receipt_of};
pub use resolving::{resolve_call, resolve_row};
pub use rows::{judge_row, may_bulk};
