// SPDX-License-Identifier: Apache-2.0 OR MIT
//! The text of a search, and the one tree that it spells.
//!
//! # Proved
//!
//! - Unless memory runs out, what is read is spelled so by the grammar, and what is spelled so is read: `parse`
//!   (`found`, `only`). A text is refused exactly if it spells no search within the limits: `parse` (`bad`).
//! - A text spells at most one tree: `law_one_tree`. One function of the text says all of this, with no run and no
//!   memory: `parse` (`exact`, `text_read`), `law_reading`.
//!
//! # Tested
//!
//! - All texts of up to four tokens of a small alphabet, against a search through the grammar:
//!   `checks/search_texts.py`.
#![tactic(auto)]

mod laws;
mod parsing;
mod reader;
mod runs;
mod terms;

pub use laws::{law_one_tree, law_reading};
pub use parsing::{ParseError, parse};
