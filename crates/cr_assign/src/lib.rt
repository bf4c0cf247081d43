// SPDX-License-Identifier: Apache-2.0 OR MIT
//! The table of seats: who is assigned to which paper, under which label, and who has left; and who is invited to
//! review which paper from outside the committee.
//!
//! # Proved
//!
//! - [What every table proves](../../cr_rooms/src/lib.rt), of seats, labels, a user's ordinal and papers, invitations
//!   and externals.
#![tactic(auto)]

mod earlier;
mod judging;
mod seats;
mod told;

pub use seats::Seats;
