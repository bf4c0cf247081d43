// SPDX-License-Identifier: Apache-2.0 OR MIT
//! The JSON body of a command.
//!
//! A body is a JSON object (RFC 8259) with the members that its request must have. Of equal keys the last counts, and
//! other keys are ignored.
ghost use Rattle.std.specs.Prelude.{◌≡◌, IfOk, None};
ghost use Rattle.cr_base.specs.Bounds.{IsBoundedCommand};
ghost use Rattle.cr_base.specs.Decoding.{Decodes, DecodesSeen};
ghost use Rattle.serde_json.specs.View.{view};
ghost use Rattle.cr_bodies.specs.Json.{json_of};
ghost use Rattle.cr_bodies.specs.Bodies.{command_in as command_in_text, command_read};

use crate::field::{
    Grammar, bid, decision, digest, flag, grade, kind, mode, name, names, phase, role, tested, user,
};
use crate::until::{deadline_phase, until};
use cr_base::{Command, DecodeError, Form, PaperNo, Task, Text};
use serde_json::Value;
use std::alloc::Global;

/// Returns the JSON value of a body.
fn read_json(alloc: Global, body: &[u8]) -> Result<Value, DecodeError>
    ensures { DecodesSeen view result (json_of body.now) }
{
    match Value::from_slice(alloc, body) {
        Ok(value) => Ok(value),
        Err(error) if error.is_memory() => Err(DecodeError::OutOfMemory),
        Err(_) => Err(DecodeError::Malformed),
    }
}

/// Returns the registration that a JSON value tells.
fn registration(body: &Value) -> Result<Command, DecodeError>
    ensures told { Decodes result (command_in_text Task.Register None (view body.now)) }
    ensures bounded { IfOk result IsBoundedCommand }
{
    let name = name(body, "name")?;
    let digest = digest(body, "secret")?;
    Ok(Command::Register { name, digest })
}

/// Returns the naming of a member or a chair that a JSON value tells.
fn naming(body: &Value) -> Result<Command, DecodeError>
    ensures told { Decodes result (command_in_text Task.Name None (view body.now)) }
    ensures bounded { IfOk result IsBoundedCommand }
{
    let user = user(body, "name")?;
    let role = role(body, "role")?;
    Ok(Command::Name { user, role })
}

/// Returns the deadline that a JSON value tells.
fn deadline(body: &Value) -> Result<Command, DecodeError>
    ensures told { Decodes result (command_in_text Task.SetDeadline None (view body.now)) }
    ensures bounded { IfOk result IsBoundedCommand }
{
    let phase = deadline_phase(body, "phase")?;
    let until = until(body, "until")?;
    Ok(Command::SetDeadline { phase, until })
}

/// Returns the submission that a JSON value tells.
fn submission(alloc: Global, body: &Value) -> Result<Command, DecodeError>
    ensures told { Decodes result (command_in_text Task.Submit None (view body.now)) }
    ensures bounded { IfOk result IsBoundedCommand }
{
    let title = tested(body, "title", Grammar::Title)?;
    let text = tested(body, "abstract", Grammar::Abstract)?;
    let authors = names(alloc, body, "authors")?;
    let title = Text::from_str(alloc, title)?;
    let abstract_ = Text::from_str(alloc, text)?;
    Ok(Command::Submit {
        title,
        abstract_,
        authors,
    })
}

/// Returns the revision that a JSON value tells.
fn revision(alloc: Global, paper: Option<PaperNo>, body: &Value) -> Result<Command, DecodeError>
    ensures told { Decodes result (command_in_text Task.Revise paper (view body.now)) }
    ensures bounded { IfOk result IsBoundedCommand }
{
    let title = tested(body, "title", Grammar::Title)?;
    let text = tested(body, "abstract", Grammar::Abstract)?;
    let title = Text::from_str(alloc, title)?;
    let abstract_ = Text::from_str(alloc, text)?;
    Ok(Command::Revise {
        paper,
        title,
        abstract_,
    })
}

/// Returns the conflict that a JSON value tells.
fn conflict(paper: Option<PaperNo>, body: &Value) -> Result<Command, DecodeError>
    ensures told { Decodes result (command_in_text Task.SetConflict paper (view body.now)) }
    ensures bounded { IfOk result IsBoundedCommand }
{
    let on = flag(body, "on")?;
    let user = user(body, "user")?;
    Ok(Command::SetConflict { paper, user, on })
}

/// Returns the bid that a JSON value tells.
fn bidding(paper: Option<PaperNo>, body: &Value) -> Result<Command, DecodeError>
    ensures told { Decodes result (command_in_text Task.Bid paper (view body.now)) }
    ensures bounded { IfOk result IsBoundedCommand }
{
    let value = bid(body, "bid")?;
    Ok(Command::Bid { paper, value })
}

/// Returns the assignment that a JSON value tells.
fn assignment(paper: Option<PaperNo>, body: &Value) -> Result<Command, DecodeError>
    ensures told { Decodes result (command_in_text Task.Assign paper (view body.now)) }
    ensures bounded { IfOk result IsBoundedCommand }
{
    let kind = kind(body, "kind")?;
    let user = user(body, "user")?;
    Ok(Command::Assign { paper, user, kind })
}

/// Returns the invitation that a JSON value tells.
fn invitation(paper: Option<PaperNo>, body: &Value) -> Result<Command, DecodeError>
    ensures told { Decodes result (command_in_text Task.Invite paper (view body.now)) }
    ensures bounded { IfOk result IsBoundedCommand }
{
    let user = user(body, "user")?;
    Ok(Command::Invite { paper, user })
}

/// Returns the review that a JSON value tells.
fn review(alloc: Global, paper: Option<PaperNo>, body: &Value) -> Result<Command, DecodeError>
    ensures told { Decodes result (command_in_text Task.Review paper (view body.now)) }
    ensures bounded { IfOk result IsBoundedCommand }
{
    let score = grade(body, "score")?;
    let confidence = grade(body, "confidence")?;
    let to_authors = tested(body, "to_authors", Grammar::ReviewText)?;
    let to_pc = tested(body, "to_pc", Grammar::ReviewText)?;
    let to_authors = Text::from_str(alloc, to_authors)?;
    let to_pc = Text::from_str(alloc, to_pc)?;
    Ok(Command::Review {
        paper,
        form: Form {
            score,
            confidence,
            to_authors,
            to_pc,
        },
    })
}

/// Returns the response that a JSON value tells.
fn response(alloc: Global, paper: Option<PaperNo>, body: &Value) -> Result<Command, DecodeError>
    ensures told { Decodes result (command_in_text Task.Respond paper (view body.now)) }
    ensures bounded { IfOk result IsBoundedCommand }
{
    let text = tested(body, "text", Grammar::CommentText)?;
    let text = Text::from_str(alloc, text)?;
    Ok(Command::Respond { paper, text })
}

/// Returns the comment that a JSON value tells.
fn comment(alloc: Global, paper: Option<PaperNo>, body: &Value) -> Result<Command, DecodeError>
    ensures told { Decodes result (command_in_text Task.Comment paper (view body.now)) }
    ensures bounded { IfOk result IsBoundedCommand }
{
    let text = tested(body, "text", Grammar::CommentText)?;
    let text = Text::from_str(alloc, text)?;
    Ok(Command::Comment { paper, text })
}

/// Returns the command that a JSON value tells a request: the table of what each body must have, a key and a kind of
/// value a member. Only texts take memory, and the names of a submission's other authors.
fn command_in(
    alloc: Global,
    task: Task,
    paper: Option<PaperNo>,
    body: &Value,
) -> Result<Command, DecodeError>
    ensures told { Decodes result (command_in_text task paper (view body.now)) }
    ensures bounded { IfOk result IsBoundedCommand }
{
    match task {
        Task::Register => registration(body),
        Task::Name => naming(body),
        Task::SetMode => {
            let mode = mode(body, "mode")?;
            Ok(Command::SetMode { mode })
        }
        Task::SetPhase => {
            let phase = phase(body, "phase")?;
            Ok(Command::SetPhase { phase })
        }
        Task::SetDeadline => deadline(body),
        Task::Submit => submission(alloc, body),
        Task::Revise => revision(alloc, paper, body),
        Task::SetConflict => conflict(paper, body),
        Task::Bid => bidding(paper, body),
        Task::Assign => assignment(paper, body),
        Task::Invite => invitation(paper, body),
        Task::Review => review(alloc, paper, body),
        Task::Respond => response(alloc, paper, body),
        Task::Comment => comment(alloc, paper, body),
        Task::Decide => {
            let decision = decision(body, "decision")?;
            Ok(Command::Decide { paper, decision })
        }
        _ => Err(DecodeError::Malformed),
    }
}

/// Returns the command that the JSON body of a request tells, with the paper of its path, if the command is about one.
///
/// # Errors
///
/// - `Malformed`: exactly if the body is no JSON object with the members that such a request must have, unless memory
///   runs out. So it is for tasks without a JSON body: an upload, a withdrawal, a dismissal, an unassignment, an
///   uninvitation, a tag.
/// - Lack of memory.
///
/// # Cost
///
/// Reads the body once.
pub fn read_command(
    alloc: Global,
    task: Task,
    paper: Option<PaperNo>,
    body: &[u8],
) -> Result<Command, DecodeError>
    ensures told { Decodes result (command_read task paper body.now) }
    ensures bounded { IfOk result IsBoundedCommand }
{
    let value = read_json(alloc, body)?;
    command_in(alloc, task, paper, &value)
}
