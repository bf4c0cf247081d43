// SPDX-License-Identifier: Apache-2.0 OR MIT
//! One writer of JSON: objects, lists, and the values of cr_base in them, appended to a buffer.
//!
//! # Proved
//!
//! - Unless memory runs out, each call appends exactly the defined text of its member, or nothing if it is absent:
//!   `Object::number`, `Object::string` (`adds`), and so on. A deadline has the digits of `jiff`'s civil time in UTC:
//!   `add_deadline` (`adds`); six times are written out: `law_times_written_out`.
//! - Short members take at most the bytes that `room` says, and memory only if that room is missing: `Takes`.
#![tactic(auto)]

mod accepted;
mod accounts;
mod comments;
mod deadlines;
mod found;
mod laws;
mod list;
mod object;
mod put;
mod quoted;
mod reviewers;
mod reviews;
mod runs;
mod time;
mod value;

pub use deadlines::add_deadline;
pub use laws::law_times_written_out;
pub use object::{Object, append_list_alone};
pub use value::Value;
