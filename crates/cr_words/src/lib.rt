// SPDX-License-Identifier: Apache-2.0 OR MIT
//! The words of the command line, read by `clap`.
//!
//! # Proved
//!
//! - The arguments are refused exactly if `clap` refuses them, unless memory runs out. Otherwise they name the job,
//!   with the values of its options, numbers within their ranges: `read_words` (`taken`, `refused`, `passes`, `job`,
//!   `ranges`). The usage line is the defined one: `usage_text`.
//! - By the definitions, the arguments of each job are taken and name it (`AreTakenFor`), whatever values that don't
//!   begin with a hyphen: the theorems `law_pipe` to `law_taken_words`.
#![tactic(auto)]

mod build;
mod laws;
mod read;
mod usage;

pub use build::{GREATEST_SEED, MOST_STEPS};
pub use laws::{
    law_attached, law_drill, law_drill_attached, law_pipe, law_pipe_store, law_serve,
    law_serve_attached, law_taken_words, law_view,
};
pub use read::{Job, WordsError, read_words};
pub use usage::usage_text;
