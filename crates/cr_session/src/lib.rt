// SPDX-License-Identifier: Apache-2.0 OR MIT
//! One connection, bytes to bytes: a request is read, judged in one turn, and answered. All claims are of
//! `serve_connection` (`connection`, `ConnectionInHistory`), unless another clause is named.
//!
//! # Proved
//!
//! - The requests judged are those that the whole text of the source spells, in order, each in one turn of the pass
//!   (`TakesTurns`). Each has the timestamp of one call of the clock: `read_wish` (`reads`, `clock`).
//! - Each was answered with the bytes defined on its caller's view at its turn's place, or with the one 401
//!   (`answers`, `told`).
//! - Each ending says what the sink took and what the clock gave, one timestamp an answer, in order (`EndsAs`,
//!   `GivesAnswers`). Each counter rises only if its fault is answered, or the note that memory ran out fails
//!   (`counts`).
//! - No read is made, and no request judged, after a refusal, after what closes, or after a failed write (`needed`,
//!   `EndsAs`). If the clock failed, nothing was judged or answered (`ClockFails`).
//! - The history at a turn begins with all that the pass had seen, and the turn adds the request's group to it, once
//!   (`TakesTurn`). The pass takes no other turn, except one in which memory ran out, which adds and tries nothing
//!   (`TurnsInVain`); at most 2^20 in all: `serve_connection` (`own`, `turns`).
//! - A pass with the whole share finds the book that its last turn left (`tried`, `as_left`). On a closed lock with
//!   one pass the requests lead from the first history to the last (`ConnectionBytes`).
//! - A 503 is only the answer to an accepted command or bulk whose rows were not kept, in a turn that is marked and
//!   adds nothing (`Turned`, `CountsLoss`). At most as many are lost as the pass has marks more, and as the keeper's
//!   counter rose by, its maximum aside: `law_marked_losses`, `law_counted_faults`.
//! - Memory runs out only for more bytes, a body, a search, a plan, an accepted command or bulk, or a query that only
//!   `no_plan` may refuse: `MayLackMemory`, `MayWantMemory`.
//! - A 507 has its request's timestamp, or one of its own (`TellsWantOfMemory`), and no content exactly if the head
//!   at hand was read and its method is HEAD (`IsToHead`).
//!
//! Theorems over runs: [two runs, and commands sent again](../../../docs/CLAIMS.md#the-main-claims): `law_two_runs`,
//! `law_repeats`.
//!
//! # Tested
//!
//! - Two passes of which one adds, and which are joined: tests_of_books.
//!
//! # Not claimed
//!
//! - Which of a read and a write came first; that a connection gets its turn.
#![tactic(auto)]

mod laws;
mod reading;
mod serve;
mod server;
mod turn;

pub use laws::{law_counted_faults, law_marked_losses, law_repeats, law_two_runs};
pub use reading::{RoutedInbox, WishRead, read_wish};
pub use serve::{Ending, Why, note_no_memory, serve_connection};
pub use server::Server;
