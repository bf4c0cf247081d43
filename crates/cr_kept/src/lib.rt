// SPDX-License-Identifier: Apache-2.0 OR MIT
//! What several tables are made of: values kept by paper, and a sum for each user.
//!
//! # Proved
//!
//! - A paper's values are those that came, in order, as changed, put in or taken out: `Cabinet::of_paper`; `file`
//!   (`files`), `change`, `insert` (`values`), `remove`. A sum is each user's: `Sums::of`, `add` (`sums`).
//! - All of it takes no memory once there is room for the paper: `room`, `make_room` (`same`). A look-up takes a step
//!   for each value that it gives: `of_paper` (`steps`); `get`, `last` (`told`, `steps`).
//!
//! # Assumed
//!
//! - Adding a value moves no other.
#![tactic(auto)]

mod cabinet;
mod drawer;
mod sums;

pub use cabinet::Cabinet;
pub use drawer::Drawer;
pub use sums::Sums;
