// SPDX-License-Identifier: Apache-2.0 OR MIT
//! Phase and mode of the conference, whether the response was opened, and each phase's deadline.
//!
//! # Proved
//!
//! - Changes are judged exactly, each by the first broken rule of its list: `Stage::judge_phase`, `judge_mode`,
//!   `judge_deadline`. An entry changes the stage as defined, and takes no memory: `Stage::apply`. What is read is
//!   exact.
#![tactic(auto)]

mod stage;

pub use stage::Stage;
