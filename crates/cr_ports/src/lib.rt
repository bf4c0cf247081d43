// SPDX-License-Identifier: Apache-2.0 OR MIT
//! The outside as traits: streams, keepers of rows and the shelves that open them, clocks, and gates that give
//! connections. Implementations in memory, and adapters.
//!
//! Each has a model, which is optional: in memory it is the content, and an adapter over a real stream has none.
//! Clauses on content hold where there is one. Each also has a fault counter. *The counter rose* means that it
//! increased, or is at its maximum, 2^64 - 1. *Stops* are crashes of the machine.
//!
//! # Proved
//!
//! Of every implementation:
//!
//! - A call fails only if its counter rose, and otherwise leaves it; no counter falls. Lack of memory isn't counted:
//!   `failed`, `cause`, `steady`, `count`.
//! - A source gives the next bytes of what it has left; a sink takes a prefix of each piece: `Source::read` (`bytes`,
//!   `gives`), `Sink::write` (`bytes`, `size`). Only `begin_answer` counts an answer, with its place.
//! - A keeper keeps all rows of a call, or none: `Keeper::append_all` (`kept`, `refused`). No call changes its kind,
//!   which says whether it tells rows, and stops: `Keeper::append_all` (`alike`), `tells_alike`, `rows_alike`.
//! - What a stop leaves at any moment of an append opens to the rows from before, or to these and one whole group. It
//!   is the appended one, or one that failed since the last success: `Keeper::append_all` (`stops`, `tried`,
//!   `between`), of keepers that tell stops (`tells_stops`). If memory ran out, nothing was tried: `append_all`
//!   (`untried`).
//! - A shelf opens a keeper with the rows at the path and a counter of 0, and says whether it tells stops:
//!   `Shelf::open` (`found`, `fresh`, `telling`). Opening changes no rows, but may leave a file half made at such a
//!   path: `Shelf::open` (`same`). A keeper that is shut leaves its rows there, perhaps with a group that failed, and
//!   every other path unchanged: `Shelf::shut` (`kept`, `others`, `count`).
//! - A clock gives the timestamps to come, in order; after a failure they stay: `Clock::now` (`moments`).
//! - Gates open one door a worker, whose shares add up to all connections: `Gates::open` (`shares`), `law_shares`. A
//!   door gives its share one at a time, says `Done` exactly when it has given it all, and loses none by a fault:
//!   `Door::next` (`left`). Logs say what came, in order: `next`, `give_back` (`log`); `Gates::shut` (`told`,
//!   `count`).
//!
//! Of what is here:
//!
//! - `EitherShelf` opens by its first shelf exactly the paths that end in `.cj`, and by its second all others:
//!   `is_journal`, `EitherShelf::open` (`opened`, `found`), `shut` (`kept`). An observer changes nothing of keeper or
//!   shelf: `WatchedKeeper`, `WatchedShelf`.
//! - Implementations in memory fail exactly at the listed calls; a sink also if its room is used up, a clock past its
//!   last timestamp.
//! - An adapter over a reader gives its next bytes, and an end only if the reader is at its end: `ReadSource::read`
//!   (`gives`, `ended`). One over a writer has added exactly what it says it took, or failed after a prefix:
//!   `WriteSink::write` (`written`). `SystemClock` takes the whole seconds, or fails: `system_step`.
//! - `write_all` writes everything, or a prefix if the counter rose: `write_all` (`whole`, `failed`). `write_answer`
//!   also begins its answer once, before the first byte: `write_answer` (`WritesAnswers`, `AnswerBreaksOff`).
//!
//! # Tested
//!
//! - Calls that take memory, with ample memory; failing readers, writers and flushes, and full writers:
//!   tests_of_ports.
//!
//! # Assumed
//!
//! - What a real stream holds. `SystemClock` looks once at the clock, and answers with that.
//! - No door is shut while a connection is out: a premise of `Gates::shut`.
#![tactic(auto)]

mod calls;
mod clock;
mod clocks;
mod door;
mod doors;
mod either;
mod either_shelf;
mod gates;
mod gates_in_memory;
mod keeper;
mod keepers;
mod script;
mod shares;
mod shelf;
mod shelves;
mod sink;
mod sinks;
mod source;
mod sources;
mod streams;
mod system_clock;
mod unread;
mod watched;
mod writing;

pub use calls::Calls;
pub use clock::{Clock, ClockStep};
pub use clocks::{MemClock, PlainClock};
pub use door::{Door, DoorAnswer, NextConnection, Served};
pub use doors::MemDoor;
pub use either::EitherKeeper;
pub use either_shelf::{EitherShelf, is_journal};
pub use gates::{Gates, Opened};
pub use gates_in_memory::MemGates;
pub use keeper::{Keeper, KeeperError};
pub use keepers::{MemKeeper, PlainKeeper};
pub use script::Script;
pub use shares::{law_shares, share};
pub use shelf::Shelf;
pub use shelves::MemShelf;
pub use sink::{Sink, WriteStep};
pub use sinks::MemSink;
pub use source::{ReadStep, Source};
pub use sources::{MemSource, PlainSource};
pub use streams::{ReadSource, WriteSink};
pub use system_clock::SystemClock;
pub use watched::{Observer, Silent, WatchedKeeper, WatchedShelf};
pub use writing::{WriteFault, write_all, write_answer};
