// SPDX-License-Identifier: Apache-2.0 OR MIT
//! The top call: a command line, an input, an output, a shelf, gates and a clock, and the exit that they come to.
//!
//! # Proved
//!
//! - `top` does the job that its arguments name, over any source, sink, shelf, gates and clock, unless memory ran out
//!   before anything was read: `top` (`does`). If they are refused, nothing is read or opened, and the usage line is
//!   written; the exit is 2 only then: `top` (`refuses`, `usage`, `passes`).
//! - `pipe` serves one connection from the empty history, or from the one that the rows at the path spell. It returns
//!   the rows of the last history, which is legal: `pipe` (`pipes`, `answers`), `ServesStore`.
//! - `serve` asks the gates for doors once, at the address named. Each connection of each door is served on
//!   beginnings of one history, from the one that the rows spell. Its further entries are exactly the groups of the
//!   connections' turns, each once: `serve_store` (`serves`, `ServesMany`, `asked`, `leaves`).
//! - `view` writes the lines of the user's view, or finds no such user (`ViewsStore`); `drill` the summary of
//!   `run_drill`, and reads nothing: `drill` (`tells`), `TellsDrill`. Output ends early only at a fault or lack of
//!   memory.
//! - Suppose no call fails, a store has a legal history's rows, and memory doesn't run out. Then every wish of the
//!   input is answered on the history of those before it, and then its end. `serve` and `drill` end with 0: `top`
//!   (`answers`).
//!
//! Stores:
//!
//! - A store that doesn't open leaves input, output and rows unchanged, except a file half made; the gates aren't
//!   asked. The exit says why (`StaysShut`).
//! - At the end the rows at the path are those of the last history, if the shelf tells them and its counter didn't
//!   rise (`LeavesRows`, `law_exact_rows`). Of `pipe --store` and `serve` they are those and no more if no command or
//!   bulk was lost: `ServesStore` (`exact`), `ServesMany` (`exact`).
//! - At most as many were lost as the shelf's counter rose by, its maximum aside; each was answered 503 as far as its
//!   write went: `ServesStore` (`lost`), `ServesMany` (`lost`).
//! - A stop at any moment since the opening leaves at the path the rows of the first history, then of whole groups of
//!   the last one, in order. Those of one more allowed command or bulk may follow, at the end only if the shelf's
//!   counter rose: `KeepsStore` (`stops`, `kept`), `IsGroupInVain`, of paths whose keepers tell stops.
//! - Of `pipe --store` these are the groups of its first wishes, up to some. The one more is of a wish that was
//!   answered 503; at the end, of one answered so on the last history: `ServesStore` (`wishes`), `KeepsWishesThere`,
//!   `CrashKeepsWishes`, `OpensBehind`.
//! - Of `serve` the one more at the end is of a wish of one of the connections. That was lost on the last history, in
//!   a turn that is marked: `ServesMany` (`behind`), `StandOrOneLost`, `JudgesOneOf` of cr_session.
//!
//! Exits:
//!
//! - With 0 and 5 each door gave its share and said `Done` last; with 7, if the gates opened, each said `Done` or
//!   failed. With 0, 5 and 7 no connection ended for lack of memory (`all`, `told`, `none_lacked`).
//! - 4, 5, 6, 7 and 10 mean that the counter of input, output, shelf, gates or clock rose; each exit has its number:
//!   `top` (`counted`, `IsCounted`), `Exit::code`.
//!
//! # Tested
//!
//! - Allocations refused in turn, in every job, each of them once (`checks/memory.py`, `--all`): the store has what
//!   was answered, and at most one command more. Calls of a store refused in turn, then a restart and a power cut:
//!   `checks/sync.py`. Clock, sockets, threads and sizes at their limits: `checks/edge.py`.
//!
//! # Not claimed
//!
//! - Of `serve`: of a stop before the end, whose the one group more is. At which moment which rows are there, except
//!   within a turn.
#![tactic(auto)]

mod drilled;
mod exit;
mod laws;
mod piping;
mod run;
mod serve;
mod storing;
mod viewing;

pub use drilled::drill;
pub use exit::{Exit, exit_of};
pub use laws::law_exact_rows;
pub use piping::pipe;
pub use run::top;
pub use serve::{Address, serve_store};
pub use storing::pipe_store;
pub use viewing::view_store;
