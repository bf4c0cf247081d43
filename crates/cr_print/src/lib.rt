// SPDX-License-Identifier: Apache-2.0 OR MIT
//! The bytes of every answer, appended to a buffer whole or not at all.
//!
//! # Proved
//!
//! - With 512 bytes of room, refusals and receipts can't fail, and are the defined bytes: `print_refusal`,
//!   `print_receipt`. The text for lack of memory takes none: `no_memory_text`.
//! - A reply is printed whole or not at all: `print_reply` (`prints`). Of a content or a report the front is printed
//!   and the rest lent; both together are the defined bytes: `block`.
//! - An answer's first field is the date of its timestamp, by `httpdate`: `date_line`, `Date::of`, `renewed`,
//!   `law_dates_written_out`.
//!
//! # Tested
//!
//! - The answer for lack of memory: tests_of_books.
#![tactic(auto)]

mod brief;
mod conference;
mod date;
mod found;
mod head;
mod laws;
mod me;
mod no_memory;
mod page;
mod put;
mod receipt;
mod refused;
mod reply;
mod response;
mod sending;
mod status;

pub use brief::ANSWER_ROOM;
pub use date::Date;
pub use laws::law_dates_written_out;
pub use no_memory::{NoMemoryText, no_memory_text};
pub use receipt::print_receipt;
pub use refused::{Refused, print_refusal};
pub use reply::{block, print_reply};
pub use sending::Sending;
