// SPDX-License-Identifier: Apache-2.0 OR MIT
//! From a request to its wish: what it asks, by which credentials, and when.
//!
//! # Proved
//!
//! - Unless memory runs out, the wish of a request is exactly the defined one, and a command in it within its bounds:
//!   `wish_of` (`told`, `bounded`). Memory runs out only if a body, or the query of a search or a plan, is looked at:
//!   `wish_of` (`sure`).
//! - The resource and method decide whether authentication is required, and whether credentials and `Command-Number`
//!   are read: `What::wants_login`. No body or query changes that: `law_one_ask`.
//! - A text spells one list of wishes, except their timestamps: `law_one_list_of_wishes`.
#![tactic(auto)]

mod asked;
mod connection;
mod laws;
mod number;
mod numbered;
mod paper;
mod query;
mod what;
mod wish;

pub use laws::{law_one_ask, law_one_list_of_wishes};
pub use what::{What, Wish};
pub use wish::wish_of;
