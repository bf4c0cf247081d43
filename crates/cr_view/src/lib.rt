// SPDX-License-Identifier: Apache-2.0 OR MIT
//! All tables of a conference as one: a caller's phase, mode, role and relations, answers to queries, and what entries
//! change. No view is made. cr_search_eval, cr_reports and cr_plans answer searches, reports and plans.
//!
//! # Proved
//!
//! - Applying an entry that fits gives the tables of the longer history, without memory once there is room: `apply`
//!   (`after`, `room`), `room` (`ok`, `keeps`), `RoomFor`.
//! - A query is answered by the reply that is due, or by the broken rule. Lack of memory is returned only if no rule
//!   is broken: `answer` (`answered`). The first broken rule is exact, without memory; `no_plan` is found with the
//!   plan: `may`.
//! - Each field that a search term names is the page's or the answer's, without memory: `title_told`, `tells_tag` and
//!   so on.
//! - Facts of a paper for one caller take at most four steps, and one for each author, seat, conflict and invitation:
//!   `facts` (`facts`, `steps`). A page takes at most 16 steps, and twice as many as any history with these tables has
//!   entries on the paper: `show` (`steps`, `TakesFew`).
#![tactic(auto)]

mod accepted;
mod asking;
mod comments;
mod content;
mod facts;
mod fields;
mod lists;
mod live;
mod me;
mod page;
mod page_lists;
mod plans;
mod queries;
mod reports;
mod responses;
mod reviewing;
mod reviews;

pub use facts::PaperFacts;
pub use live::Live;
pub use queries::AnswerError;
pub use reports::ScoreSum;
