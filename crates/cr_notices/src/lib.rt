// SPDX-License-Identifier: Apache-2.0 OR MIT
//! The lines on standard error about a store while the program runs: when appends begin to be refused and are taken
//! again, and which files others may read. Nothing is proved of them; `checks/store.py` tests them.
#![tactic(auto)]

mod access;
mod appends;

pub use access::tell_if_open;
pub use appends::Notices;
