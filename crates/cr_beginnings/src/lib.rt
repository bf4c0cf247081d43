// SPDX-License-Identifier: Apache-2.0 OR MIT
//! Beginnings of what commands and bulks add: which entry may follow those that a group has so far.
//!
//! # Proved
//!
//! - Entries that are due after a legal history are exactly those that some allowed command or bulk adds first. They
//!   are all that it adds exactly if no entry is to follow the last: `law_beginnings`.
#![tactic(auto)]

ghost use Rattle.cr_beginnings.specs.Beginnings.{Beginnings};

/// Entries that are due after a legal history are exactly those that an allowed command or bulk adds first.
///
/// *Scope:* every legal history.
pub fn law_beginnings()
    ensures begins { Beginnings }
{}
