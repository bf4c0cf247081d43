// SPDX-License-Identifier: Apache-2.0 OR MIT
//! The command that the words are read by.
ghost use Rattle.std.specs.Prelude.{◌≡◌, IfOk, false};
ghost use Rattle.clap.specs.Words.{app_of, rule_of};
ghost use Rattle.clap.specs.declared.Command.TheViews.{out-Command as fields_of};
ghost use Rattle.cr_words.specs.Words.{text_option, number_option, pipe, serve, view, drill, confd_words};

use clap::builder::ValueParser;
use clap::{Arg, Command};
use std::alloc::{AllocError, Global};

/// The greatest number that a drill's choices begin with.
pub const GREATEST_SEED: u64 = 2_147_483_647;

/// How many steps a drill may have.
pub const MOST_STEPS: u64 = 100_000;

/// Returns the option `--id VALUE`, where VALUE is any text.
fn text_arg<'a>(alloc: Global, id: &'a str, is_required: bool) -> Arg<'a>
    ensures rule { rule_of result ≡ text_option id.entry.now is_required }
    ensures local { result.global ≡ false }
{
    Arg::new(alloc, id).long(id).required(is_required)
}

/// Returns the option `--id NUMBER`, where NUMBER lies between the two, both included, and has to be there.
fn number_arg<'a>(alloc: Global, id: &'a str, low: u64, high: u64) -> Arg<'a>
    ensures rule { rule_of result ≡ number_option id.entry.now low high }
    ensures local { result.global ≡ false }
{
    text_arg(alloc, id, true).value_parser(ValueParser::unsigned(low, high))
}

#[tactic(auto, unfolding(crate::specs::Words::pipe))]
fn pipe_command<'a>(alloc: Global) -> Result<Command<'a>, AllocError>
    ensures shape { IfOk result (λ c. app_of c ≡ pipe) }
    ensures local { IfOk result (λ c. (fields_of c).has_globals ≡ false) }
{
    Command::new(alloc, "pipe").arg(text_arg(alloc, "store", false))
}

#[tactic(auto, unfolding(crate::specs::Words::serve))]
fn serve_command<'a>(alloc: Global) -> Result<Command<'a>, AllocError>
    ensures shape { IfOk result (λ c. app_of c ≡ serve) }
    ensures local { IfOk result (λ c. (fields_of c).has_globals ≡ false) }
{
    Command::new(alloc, "serve")
        .arg(text_arg(alloc, "listen", true))?
        .arg(number_arg(alloc, "workers", 1, 64))?
        .arg(number_arg(alloc, "connections", 1, 65_536))?
        .arg(text_arg(alloc, "store", true))
}

#[tactic(auto, unfolding(crate::specs::Words::view))]
fn view_command<'a>(alloc: Global) -> Result<Command<'a>, AllocError>
    ensures shape { IfOk result (λ c. app_of c ≡ view) }
    ensures local { IfOk result (λ c. (fields_of c).has_globals ≡ false) }
{
    Command::new(alloc, "view")
        .arg(text_arg(alloc, "store", true))?
        .arg(text_arg(alloc, "user", true))
}

#[tactic(auto, unfolding(crate::specs::Words::drill))]
fn drill_command<'a>(alloc: Global) -> Result<Command<'a>, AllocError>
    ensures shape { IfOk result (λ c. app_of c ≡ drill) }
    ensures local { IfOk result (λ c. (fields_of c).has_globals ≡ false) }
{
    Command::new(alloc, "drill")
        .arg(number_arg(alloc, "seed", 0, GREATEST_SEED))?
        .arg(number_arg(alloc, "steps", 1, MOST_STEPS))
}

/// Returns the program with its subcommands.
///
/// # Errors
///
/// If memory runs out.
pub(crate) fn confd_command<'a>(alloc: Global) -> Result<Command<'a>, AllocError>
    ensures { IfOk result (λ c. app_of c ≡ confd_words) }
{
    Command::new(alloc, "confd")
        .subcommand_required(true)
        .disable_help_subcommand(true)
        .subcommand(pipe_command(alloc)?)?
        .subcommand(serve_command(alloc)?)?
        .subcommand(view_command(alloc)?)?
        .subcommand(drill_command(alloc)?)
}
