// SPDX-License-Identifier: Apache-2.0 OR MIT
//! Which papers a search finds, by the tables. A term is tried on the field that it names, as the caller is told it; a
//! paper without a title for the caller is passed over before any term.
//!
//! # Proved
//!
//! - A search finds a paper exactly if the caller is told its title and the search holds by what they are told of it:
//!   `matches`.
//! - It finds all such papers, by number, with titles, unless memory runs out: `search`, `found`. The count is their
//!   number, without memory: `count`.
//!
//! # Tested
//!
//! - Each term by every caller in each phase and mode (cases); random searches beside a reference model:
//!   `checks/random_runs.py`.
//!
//! # Assumed
//!
//! - A term reads only what it names; no term is tried after one that decides.
#![tactic(auto)]

mod asked;
mod evaluate;
mod papers;
mod terms;
mod text;

pub use papers::{answer, count, found, matches, search};
