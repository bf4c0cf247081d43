// SPDX-License-Identifier: Apache-2.0 OR MIT
//! Reserved capacity of the tables: for how many more values of each paper and user there is room. It depends on a
//! group of entries, since these name the papers and users. The definitions and lemmas that every table cites are here
//! (`HasRoom`, `IsNoLess`, `IsOneLess`), and no code.
//!
//! # What every table proves
//!
//! In cr_accounts, cr_papers, cr_conflicts, cr_assign, cr_reviews, cr_talk, cr_tags and cr_decisions:
//!
//! - An entry changes the table as defined, without memory once there is room: `apply` (`after`).
//! - Making room makes it for the group, and changes nothing else: `room` (`ok`, `same`).
//! - Commands are judged exactly, each by the first broken rule of its list, conflicts and reviewers after the earlier
//!   entries of the same bulk: functions that begin with `judge_`.
//! - What is kept by user agrees with what is kept by paper: the types' invariants.
//! - Listing or searching a paper's records takes a step for each of their kind; a single record takes at most one,
//!   and one if it is there: `steps`, `told`.
#![tactic(auto)]
