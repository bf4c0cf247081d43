// SPDX-License-Identifier: Apache-2.0 OR MIT
//! The history of a conference with its tables and its keeper: commands and bulks are judged, kept and applied, and
//! queries answered.
//!
//! # Proved
//!
//! - The history is legal, the tables are the history's, and the keeper's rows are the history's if contracts see
//!   them: the type's invariant; `close` (`kept`, `legal`). The keeper that is given back is of the kind that was
//!   opened, and what it tried in vain since then was counted: `close` (`alike`, `counted`).
//!
//! Commands and bulks:
//!
//! - An accepted command adds exactly the group that the judgement on its caller's view draws, with its receipt:
//!   `command` (`accepted`). A bulk adds one entry for each row, in one append: `bulk` (`accepted`).
//! - A repeat is answered by what the first one left, and changes nothing: `repeats`, `repeat_stays` of `command`,
//!   `bulk`.
//! - A rule is answered exactly if the judgement or the look-up (`number_used`) gives it, whatever memory there is,
//!   and nothing changes: `command` (`rule`, `only_rule`, `rule_stays`), `bulk` (`broken`, `only_broken`,
//!   `broken_stays`).
//! - The other errors leave history and rows: `command` (`memory`, `lost`, `log_stays`, `rows_stay`). `KeeperFault`
//!   means that the keeper's counter rose; with every other answer it stays: `command` (`fault`, `steady`).
//!
//! Queries:
//!
//! - An answer is the one on the caller's view. Lack of memory is returned only if no rule is broken, or in place of
//!   `NoPlan`: `answer` (`answered`, `sure`). The lines of a view are those of the defined view: `view_lines`,
//!   `view_len`.
//!
//! Opening, of keepers whose rows contracts see:
//!
//! - An opened book's history is the one legal history that has these rows. `BadStore` is returned only if none has.
//!   If none has, opening fails, but a keeper fault or lack of memory may be returned instead: `open` (`exact`).
//! - It names the first row that encodes no entry, or with which the rows begin no legal history; else the last:
//!   `open` (`exact`, `IsBadAt`).
//! - No row changes, and with each error the keeper comes back: `open` (`cause`, `same`, `given_back`).
//!
//! Crashes, of keepers that tell stops:
//!
//! - A stop at any moment of a command or bulk leaves the history's rows, or these and one whole group. It is what
//!   the judgement draws, or one that failed since the last success: `command`, `bulk` (`stops`). Nothing is tried if
//!   memory ran out, or at an opening: `untried`; `open` (`between`).
//! - A stop at any moment since the opening leaves the rows of a beginning of the history that has all that was there
//!   at the opening. One allowed command's or bulk's rows may follow, whole: `close` (`stops`).
#![tactic(auto)]

mod beginnings;
mod book;
mod earlier;
mod empty;
mod judging;
mod kinds;
mod laws;
mod opening;
mod reading;
mod rows;

pub use book::{Book, BookError};
pub use cr_sights::ViewError;
pub use cr_view::AnswerError;
pub use empty::empty_book;
pub use laws::law_standing_by_tables;
pub use opening::OpenError;
