// SPDX-License-Identifier: Apache-2.0 OR MIT
//! The history as its entries, with an index from a user's command number to what was added under it.
//!
//! # Proved
//!
//! - The log has the entries, and finds what a user's numbered command added: `entries`, `len`, `find`. Entries are
//!   appended without memory once there is room: `append`, `room` (`ok`, `same`).
//!
//! # Assumed
//!
//! - Finding is one look-up, if the numbers weren't chosen against the hash.
#![tactic(auto)]

mod given;
mod log;

pub use log::{KeptEntries, Log};
