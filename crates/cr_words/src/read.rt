// SPDX-License-Identifier: Apache-2.0 OR MIT
//! What the words ask for.
ghost use Rattle.std.specs.Prelude.{◌≡◌, ◌≢◌, Some, [], IfOk, true, map, string_bytes, option_map};
ghost use Rattle.std.specs.Option.{option_and_then};
ghost use Rattle.clap.specs.Words.{takes, fault_of, first_of, found_of, rows_of, subcommand_rows_of};
ghost use Rattle.cr_words.specs.Words.{confd_words};
ghost use Rattle.cr_words.specs.Numbers.{number_of};
ghost use Rattle.cr_words.specs.Job.{IsInRange, drill_named, job_named, job_of};
ghost use Rattle.cr_words.specs.Job.{job_seen, number_at, serve_named, view_named};

use crate::build::confd_command;
use clap::ArgMatches;
use clap::error::ErrorKind;
use std::alloc::Global;

/// What the program is asked to do. Its texts are lent from the words, and may be empty.
#[derive(Clone, Copy, PartialEq, Eq)]
pub enum Job<'a> {
    /// One connection over standard input and standard output.
    Pipe {
        /// Where the records are kept, if anywhere.
        store: Option<&'a str>,
    },
    /// Many connections to one address.
    Serve {
        /// The address that is listened at, as the words have it.
        listen: &'a str,
        /// How many connections are served at once, from 1 to 64.
        workers: u32,
        /// How many connections are served before the program ends, from 1 to 65,536.
        connections: u32,
        /// Where the records are kept.
        store: &'a str,
    },
    /// What one user may see of the history that a store keeps.
    View {
        /// Where the records are kept.
        store: &'a str,
        /// The user's name.
        user: &'a str,
    },
    /// Commands that are made up, and what they come to.
    Drill {
        /// What the choices begin with, from 0 to `GREATEST_SEED`.
        seed: u32,
        /// How many steps are made, from 1 to `MOST_STEPS`.
        steps: u32,
    },
}

/// Why the words name no job.
#[derive(Clone, Copy, PartialEq, Eq)]
pub enum WordsError {
    /// The words are refused. A call for help counts as refused.
    Usage,
    /// Memory ran out.
    OutOfMemory,
}

/// Returns the value of the option `--id`, if it was given.
fn option_value<'a>(options: &ArgMatches<'a>, id: &str) -> Option<&'a str>
    ensures { option_map (λ s. s.now) result ≡ first_of id.now (rows_of (found_of options.now)) }
{
    options.get_str(id)
}

/// Returns the number that a text spells.
fn number_of(text: &str) -> Option<u32>
    ensures { result ≡ number_of text.now }
{
    text.parse::<u32>().ok()
}

/// Returns the number of the option `--id`, if it was given.
fn number_at(options: &ArgMatches, id: &str) -> Option<u32>
    ensures { result ≡ number_at id.now (rows_of (found_of options.now)) }
{
    number_of(option_value(options, id)?)
}

/// Returns the job of `serve`, whose options are all there.
fn serve_job<'a>(options: &ArgMatches<'a>) -> Option<Job<'a>>
    ensures { option_map job_seen result ≡ serve_named (rows_of (found_of options.now)) }
{
    let listen = option_value(options, "listen")?;
    let workers = number_at(options, "workers")?;
    let connections = number_at(options, "connections")?;
    let store = option_value(options, "store")?;
    Some(Job::Serve {
        listen,
        workers,
        connections,
        store,
    })
}

/// Returns the job of `view`, whose options are both there.
fn view_job<'a>(options: &ArgMatches<'a>) -> Option<Job<'a>>
    ensures { option_map job_seen result ≡ view_named (rows_of (found_of options.now)) }
{
    Some(Job::View {
        store: option_value(options, "store")?,
        user: option_value(options, "user")?,
    })
}

/// Returns the job of `drill`, whose options are both there.
fn drill_job<'a>(options: &ArgMatches<'a>) -> Option<Job<'a>>
    ensures { option_map job_seen result ≡ drill_named (rows_of (found_of options.now)) }
{
    Some(Job::Drill {
        seed: number_at(options, "seed")?,
        steps: number_at(options, "steps")?,
    })
}

/// Returns the job of the subcommand that was used.
fn named_job<'a>(matches: &ArgMatches<'a>) -> Option<Job<'a>>
    ensures { option_map job_seen result ≡ option_and_then job_named (subcommand_rows_of matches.now) }
{
    let (name, options) = matches.subcommand()?;
    match name {
        "pipe" => Some(Job::Pipe {
            store: option_value(options, "store"),
        }),
        "serve" => serve_job(options),
        "view" => view_job(options),
        "drill" => drill_job(options),
        _ => None,
    }
}

/// Returns the job that the words name, the first of which is the program's name. Its numbers lie within their ranges.
///
/// `Usage` comes exactly if `clap` refuses the words by `confd_words`, a call for help included. `OutOfMemory` comes
/// only where memory ran out. What was taken for the reading is given back.
pub fn read_words<'a>(alloc: Global, words: &'a [String]) -> Result<Job<'a>, WordsError>
    ensures job { IfOk result (λ job. job_of (map string_bytes words.entry.now) ≡ Some (job_seen job)) }
    ensures ranges { IfOk result (λ job. IsInRange (job_seen job)) }
    ensures taken { IfOk result (λ _. fault_of confd_words (map string_bytes words.entry.now) ≡ []) }
    ensures refused { result ≡ Err WordsError.Usage → fault_of confd_words (map string_bytes words.entry.now) ≢ [] }
    ensures passes { takes confd_words (map string_bytes words.entry.now) ≡ true → result ≢ Err WordsError.Usage }
{
    let Ok(command) = confd_command(alloc) else {
        return Err(WordsError::OutOfMemory);
    };
    match command.try_get_matches_from(words) {
        Ok(matches) => named_job(&matches).ok_or(WordsError::Usage),
        Err(error) => match error.kind() {
            ErrorKind::OutOfMemory => Err(WordsError::OutOfMemory),
            _ => Err(WordsError::Usage),
        },
    }
}
