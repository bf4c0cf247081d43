// SPDX-License-Identifier: Apache-2.0 OR MIT
//! One value, one history, many threads.
//!
//! A [`HistoryLock`] owns a value whose model is a list that only grows, its history (see [`Stands`]). Threads take
//! [turns](HistoryLock::turn) with it, each by a [`Pass`] of its own. What a value remembers of its beginning, its
//! root, no turn changes.
//!
//! # Proved
//!
//! - A turn is at one place of the one history: the pass had seen a beginning of it, what the act promises holds, and
//!   the pass gains a turn. That has the place, the group added, how much the fault counter grew, a mark if it rose,
//!   and the value as it was found and left: `turn` (`turn`).
//! - A pass with the whole share that was never split finds the value that its last turn left: `turn` (`IsAsLeft`).
//! - A pass is split and joined without loss: `split`, `join` (`both`, `agree`).
//! - At the end every entry is in exactly one group of one turn, and the root is unchanged. The counter rose by what
//!   it rose in the turns: by at least one a mark, its maximum aside: `close`.
//! - Turns lead from the first value to the last: each found what another left. So what holds of the first, and each
//!   turn keeps, holds of the last: `close`, `Reached`.
//!
//! # Tested
//!
//! - Making and splitting with ample memory; 64 threads of 250 turns each, which all end: tests_of_ports.
//!
//! # Assumed
//!
//! - A waiting thread sleeps and is woken: std's `Mutex`.
//!
//! # Not claimed
//!
//! - Fairness, progress, freedom from deadlock. A turn promises what it promises if it returns: an act that never
//!   returns, or waits for another turn of the same lock, stops all.
#![tactic(auto)]

mod lock;
mod pass;
mod pass_state;
mod rule;
mod stands;
mod steps;

pub use lock::HistoryLock;
pub use pass::Pass;
pub use pass_state::Turn;
pub use stands::Stands;
