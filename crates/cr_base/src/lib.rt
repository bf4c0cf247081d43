// SPDX-License-Identifier: Apache-2.0 OR MIT
//! What every crate of the server speaks of: entries and their rows, commands, queries, rules and replies. Its specs
//! define histories, tables, rules and answers.
//!
//! # Proved
//!
//! - A row is read as the entry within bounds that has this row, and refused if there is none, unless memory runs out:
//!   `Stamped::from_row` (`spells`, `every`). An entry is written as its row: `Entry::to_row`. A row of an older store
//!   is brought to the current version: `migrate_row`.
//! - A `UserNo` and a `PaperNo` are 1 to 9,999, a `Moment` 0 to 253,402,300,799, a `Deadline` 1 to 253,402,207,200:
//!   the types. Names, digits and words are exact: `is_name` (`name`, `test`), `all_digits`, `decimal_value`, `name`.
//! - Each command and query says what it asks for, and by that whether authentication is required and credentials are
//!   read: `Command::ask`, `Query::ask`, `Ask::traits`, `wants_login`.
//! - Reading a record in a `Kept` takes one step; a caller sees as many steps as are ticked: `get` (`steps`),
//!   `Steps::ticks`.
//!
//! # Assumed
//!
//! - Copies share their bytes, by the `Arc` of std. The definitions say what is meant. Counted code reads nothing
//!   uncounted.
#![tactic(auto)]

mod accepted;
mod ask;
mod bid;
mod bulk;
mod command;
mod comment;
mod deadline;
mod decode;
mod digits;
mod entry;
mod filed;
mod form;
mod found;
mod items;
mod kept;
mod me;
mod moment;
mod numbers;
mod page;
mod pairs;
mod paper;
mod parse;
mod phases;
mod plan;
mod reply;
mod report;
mod resolved;
mod retry;
mod review;
mod row;
mod row_codec;
mod search;
mod seat;
mod shape;
mod standing;
mod steps;
mod tag;
mod target;
mod texts;
mod told;
mod words;

pub use accepted::AcceptedPaper;
pub use accepted::AcceptedPapers;
pub use ask::Ask;
pub use ask::Carrier;
pub use ask::Question;
pub use ask::Task;
pub use ask::Traits;
pub use bid::Bid;
pub use bulk::Broken;
pub use bulk::BulkRow;
pub use bulk::BulkRows;
pub use bulk::MOST_ROWS;
pub use bulk::RowCommand;
pub use command::Call;
pub use command::Command;
pub use command::Query;
pub use comment::Comment;
pub use comment::CommentLine;
pub use comment::CommentLines;
pub use deadline::Deadline;
pub use deadline::Deadlines;
pub use deadline::PhaseDeadline;
pub use deadline::PhaseDeadlines;
pub use decode::DecodeError;
pub use digits::all_digits;
pub use digits::decimal_value;
pub use entry::Account;
pub use entry::Digest;
pub use entry::Entry;
pub use entry::EntryKind;
pub use entry::Stamp;
pub use entry::Stamped;
pub use filed::Filed;
pub use form::Form;
pub use found::FoundPaper;
pub use found::FoundPapers;
pub use items::Items;
pub use kept::Kept;
pub use me::Me;
pub use me::PaperNos;
pub use moment::Moment;
pub use numbers::Grade;
pub use numbers::HIGHEST_GRADE;
pub use numbers::LAST_NUMBER;
pub use numbers::MOST_LABELS;
pub use numbers::Ordinal;
pub use numbers::PaperNo;
pub use numbers::UserNo;
pub use page::Bidder;
pub use page::Bids;
pub use page::Names;
pub use page::Page;
pub use page::Reviewer;
pub use page::Reviewers;
pub use page::TagList;
pub use page::Versions;
pub use pairs::Order;
pub use pairs::Pair;
pub use pairs::Tie;
pub use paper::Paper;
pub use parse::parse_name;
pub use parse::parse_paper;
pub use phases::COMMITTEE_READS_FROM;
pub use plan::MOST_LOAD;
pub use plan::PerPaper;
pub use plan::PlanLoad;
pub use reply::AccountLine;
pub use reply::AccountLines;
pub use reply::Conference;
pub use reply::Receipt;
pub use reply::Reply;
pub use reply::Rule;
pub use report::Report;
pub use report::ReportKind;
pub use resolved::ResolvedCall;
pub use resolved::ResolvedCommand;
pub use resolved::ResolvedRow;
pub use retry::CommandNumber;
pub use retry::LAST_COMMAND_NUMBER;
pub use retry::RetryKey;
pub use review::ReviewLine;
pub use review::ReviewLines;
pub use review::WrittenForm;
pub use row::OldVersion;
pub use row::Row;
pub use row::migrate_row;
pub use search::Feature;
pub use search::Node;
pub use search::Search;
pub use search::Status;
pub use search::Term;
pub use seat::Seat;
pub use standing::Standing;
pub use steps::Steps;
pub use steps::Uncounted;
pub use tag::SetTag;
pub use tag::Tag;
pub use target::Target;
pub use texts::Blob;
pub use texts::Short;
pub use texts::Text;
pub use texts::is_abstract;
pub use texts::is_comment;
pub use texts::is_content;
pub use texts::is_name;
pub use texts::is_review_text;
pub use texts::is_text;
pub use texts::is_title;
pub use told::Coauthors;
pub use told::MOST_COAUTHORS;
pub use told::ToldNames;
pub use words::Decision;
pub use words::Kind;
pub use words::Mode;
pub use words::Phase;
pub use words::Role;
