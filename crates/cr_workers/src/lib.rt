// SPDX-License-Identifier: Apache-2.0 OR MIT
//! Many connections on one history: each worker has a door that gives it connections, one after another, and a pass
//! for its turns with the book. All claims are of `serve_book` (`ServesHistory`).
//!
//! # Proved
//!
//! - However turns interleave, there is one history, from the book's to the last book's (`begins`). Each further
//!   entry is in exactly one group of one turn of one connection (`once`).
//! - Each connection was served as `serve_connection` says, on histories that begin with the first and with which the
//!   last begins. Its turns are those that its worker's pass has more, each with its group at its place (`served`,
//!   `IsServed`, `IsServedWithin`).
//! - Turns of the connections lead from the first book to the last one, each from what another left: `serve_book`
//!   (`serves`), `Reached` of cr_lock. In each a wish of its connection was judged; or memory ran out, and nothing was
//!   added or tried: `IsServed`, `IsTurnOf` of cr_session.
//! - The keeper's counter rose by what it rose in these turns, so by as many as are marked at least, its maximum
//!   aside (`counted`, `marked`). The doors come back in order, each with the connections that it gave (`before`,
//!   `after`).
//! - `Done`: each door gave its share, and no connection ended for lack of memory. `DoorFailed`: each did or failed,
//!   and one failed. `OutOfMemory`: a door may not have been asked (`Worked`, `cause`, `each`).
//! - Premises: at most 64 doors, one a share of the lock, and 2^20 connections, whose turns are at most 2^40.
//!
//! # Tested
//!
//! - Two workers, one held inside its request until the other's answer has gone: tests_of_books.
//!
//! # Not claimed
//!
//! - That two connections are served at once, that any is served, or how soon.
#![tactic(auto)]

mod doors;
mod history;
mod worked;
mod worker;

pub use history::serve_book;
pub use worked::Worked;
pub use worker::Last;
