// SPDX-License-Identifier: Apache-2.0 OR MIT
//! Bulk assignment: the rows of a file, and the command that each tells. What a record is, `csv` defines.
//!
//! # Proved
//!
//! - Unless memory runs out, the rows read are those that the text spells, and it is refused exactly if it spells
//!   none: `read_rows` (`told`, `bounded`). A row's command is exactly the defined one: `row_command`.
#![tactic(auto)]

mod action;
mod command;
mod header;
mod record;
mod rows;

pub use command::row_command;
pub use rows::read_rows;
