// SPDX-License-Identifier: Apache-2.0 OR MIT
//! The table of accounts: who is registered, under which name, with which digest and in which role.
//!
//! # Proved
//!
//! With [what every table proves](../../cr_rooms/src/lib.rt):
//!
//! - Users are found by number, by name, and by name with digest, exactly if they are there: `name_of`, `number_of`,
//!   `caller`, `standing_for`. A registration is checked exactly: `register_check`.
#![tactic(auto)]

mod accounts;

pub use accounts::Accounts;
