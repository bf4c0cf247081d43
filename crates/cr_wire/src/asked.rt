// SPDX-License-Identifier: Apache-2.0 OR MIT
//! From a path, a method, a number, and a query string or a body to what is wished.
ghost use Rattle.std.specs.Prelude.{◌≡◌, option_and_then, option_map, IfOk, IfSome, IsTrue, OnErr, Some};
ghost use Rattle.cr_base.specs.Bounds.{IsBoundedCommand};
ghost use Rattle.cr_base.specs.Decoding.{Decodes};
ghost use Rattle.cr_base.specs.Keys.{IsKeyOrNone};
ghost use Rattle.cr_base.specs.Traits.{ask_wants_login, looks_behind, question_traits, task_traits};
ghost use Rattle.cr_bulk.specs.Rows.{parse_rows};
ghost use Rattle.cr_routes.specs.Asks.{ask_at as ask_of_resource};
ghost use Rattle.cr_routes.specs.Methods.{method_of};
ghost use Rattle.cr_routes.specs.Parts.{seen};
ghost use Rattle.cr_wire.specs.Asked as spec;
ghost use Rattle.cr_wire.specs.Asked.{asked_by};
ghost use Rattle.cr_wire.specs.Bounds.{IsBoundedWhat, IsKeyFor};
ghost use Rattle.cr_wire.specs.Number.{own_key};
ghost use Rattle.cr_wire.specs.Outcome.{Gives, RunsOutOnlyIf};
ghost use Rattle.cr_wire.specs.Target.{query_of};

use crate::number::number_for;
use crate::numbered::Numbered;
use crate::paper::{member_of, paper_of, tag_of, user_of, version_of};
use crate::query::{plan_in, search_in};
use crate::what::What;
use cr_base::{Ask, Carrier, Command, DecodeError, PaperNo, Query, Question, Task};
use cr_bodies::{before_first, read_command};
use cr_bulk::read_rows;
use cr_http::{Body, Head};
use cr_routes::{Matched, Method, Resource, Routes};
use std::alloc::{AllocError, Global};
use std::str::from_utf8;

/// Returns what a path is found to be, which is text.
fn find<'p>(routes: &Routes, path: &'p [u8]) -> Option<Matched<'p>>
    ensures { option_map seen result ≡ spec.find_at path.now }
{
    match from_utf8(path) {
        Ok(text) => routes.find(text),
        Err(_) => None,
    }
}

/// Returns what a method asks for at a resource.
fn ask_at(resource: Resource, method: &[u8]) -> Option<Ask>
    ensures { result ≡ option_and_then (ask_of_resource resource) (method_of method.now) }
{
    resource.ask(Method::read(method)?)
}

/// Returns that a tag is on or off, which only the path tells.
fn tagged(found: Matched<'_>, on: bool) -> Option<Command>
    ensures told { result ≡ spec.tagged (seen found.entry) on }
    ensures bounded { IfSome result IsBoundedCommand }
{
    let tag = tag_of(found)?;
    Some(Command::Tag {
        paper: paper_of(found),
        tag,
        on,
    })
}

/// Returns the command that only a path tells.
fn command_at(task: Task, found: Matched<'_>) -> Option<Command>
    ensures told { result ≡ spec.command_at task (seen found.entry) }
    ensures bounded { IfSome result IsBoundedCommand }
{
    let paper = paper_of(found);
    match task {
        Task::Withdraw => Some(Command::Withdraw { paper }),
        Task::Dismiss => {
            let user = member_of(found);
            Some(Command::Dismiss { user })
        }
        Task::Unassign => {
            let user = user_of(found);
            Some(Command::Unassign { paper, user })
        }
        Task::Uninvite => {
            let user = user_of(found);
            Some(Command::Uninvite { paper, user })
        }
        Task::Tag => tagged(found, true),
        Task::Untag => tagged(found, false),
        _ => None,
    }
}

/// Returns an upload, whose content is the body as it is.
fn upload(alloc: Global, paper: Option<PaperNo>, body: &Body<'_>) -> Result<Command, DecodeError>
    ensures told { Decodes result (Some (Command.Upload paper body.now)) }
    ensures bounded { IfOk result IsBoundedCommand }
{
    let content = body.to_blob(alloc)?;
    Ok(Command::Upload { paper, content })
}

/// Returns the command that a request tells, by what carries the rest of it.
fn command_told(
    alloc: Global,
    task: Task,
    found: Matched<'_>,
    body: &Body<'_>,
) -> Result<Command, DecodeError>
    ensures told { Decodes result (spec.command_told task (seen found.entry) body.now) }
    ensures bounded { IfOk result IsBoundedCommand }
    ensures sure { RunsOutOnlyIf result (IsTrue (looks_behind (task_traits task).carrier)) }
{
    match task.traits().carrier {
        Carrier::Json => read_command(alloc, task, paper_of(found), body.as_slice()),
        Carrier::Content => upload(alloc, paper_of(found), body),
        Carrier::Path | Carrier::Rows | Carrier::QueryString => match command_at(task, found) {
            Some(command) => Ok(command),
            None => Err(DecodeError::Malformed),
        },
    }
}

/// Returns what is wished by a request that something be changed by one command.
fn commanded(
    alloc: Global,
    task: Task,
    found: Matched<'_>,
    request: &Numbered<'_>,
) -> Result<What, AllocError>
    requires key { IsKeyFor (ask_wants_login (Ask.Give task)) (own_key request.now) }
    ensures told { Gives result (spec.command_of task (own_key request.now)
        (spec.command_told task (seen found.entry) (request.now).body.now)) }
    ensures bounded { IfOk result IsBoundedWhat }
    ensures sure { OnErr result (spec.LooksBehindPath (spec.command_of task (own_key request.now)
        (spec.command_told task (seen found.entry) (request.now).body.now))) }
{
    match command_told(alloc, task, found, request.body) {
        Ok(command) => Ok(request.giving(command)),
        Err(DecodeError::Malformed) => Ok(What::BadBody(Ask::Give(task))),
        Err(DecodeError::OutOfMemory) => Err(AllocError),
    }
}

/// Returns what is wished by a request to be told something: its path tells it, and of a search and a plan the query
/// string.
fn questioned(
    alloc: Global,
    question: Question,
    found: Matched<'_>,
    target: &[u8],
) -> Result<What, AllocError>
    ensures told { Gives result (spec.questioned question (seen found.entry) (query_of target.now)) }
    ensures bounded { IfOk result IsBoundedWhat }
    ensures sure { OnErr result (IsTrue (looks_behind (question_traits question).carrier)) }
{
    let paper = paper_of(found);
    match question {
        Question::Me => Ok(What::Query(Query::Me)),
        Question::Accounts => Ok(What::Query(Query::Accounts)),
        Question::Phase => Ok(What::Query(Query::Phase)),
        Question::Deadlines => Ok(What::Query(Query::Deadlines)),
        Question::AcceptedPapers => Ok(What::Query(Query::AcceptedPapers)),
        Question::Page => Ok(What::Query(Query::Page { paper })),
        Question::Content => Ok(What::Query(Query::Content { paper })),
        Question::Version => Ok(What::Query(Query::Version {
            paper,
            version: version_of(found),
        })),
        Question::Reviews => Ok(What::Query(Query::Reviews { paper })),
        Question::Comments => Ok(What::Query(Query::Comments { paper })),
        Question::Response => Ok(What::Query(Query::Response { paper })),
        Question::Search => search_in(alloc, target),
        Question::Plan => plan_in(alloc, target),
    }
}

/// Returns a bulk, whose rows the body spells.
fn bulk(alloc: Global, request: &Numbered<'_>) -> Result<What, AllocError>
    requires key { IsKeyOrNone (own_key request.now) }
    ensures told { Gives result
        (spec.bulk_of (own_key request.now) (parse_rows (request.now).body.now)) }
    ensures bounded { IfOk result IsBoundedWhat }
    ensures sure { OnErr result
        (spec.LooksBehindPath (spec.bulk_of (own_key request.now) (parse_rows (request.now).body.now))) }
{
    match read_rows(alloc, request.body.as_slice()) {
        Ok(rows) => Ok(What::Bulk {
            key: request.key(),
            rows,
        }),
        Err(DecodeError::Malformed) => Ok(What::BadBody(Ask::Bulk)),
        Err(DecodeError::OutOfMemory) => Err(AllocError),
    }
}

/// Returns what is asked for, by its path, and by its query string or its body.
fn asked(
    alloc: Global,
    ask: Ask,
    found: Matched<'_>,
    request: &Numbered<'_>,
) -> Result<What, AllocError>
    requires key { IsKeyFor (ask_wants_login ask) (own_key request.now) }
    ensures told { Gives result (asked_by ask (seen found.entry) request.now) }
    ensures bounded { IfOk result IsBoundedWhat }
    ensures sure { OnErr result (spec.LooksBehindPath (asked_by ask (seen found.entry) request.now)) }
{
    match ask {
        Ask::Give(task) => commanded(alloc, task, found, request),
        Ask::Tell(question) => questioned(alloc, question, found, request.head.target()),
        Ask::Report(kind) => Ok(What::Query(Query::Report {
            report: kind.on(paper_of(found)),
        })),
        Ask::Bulk => bulk(alloc, request),
    }
}

/// Returns what a request of this head and this body asks. A bad number is reported before the body is looked at.
///
/// # Errors
///
/// If memory runs out. Only a JSON body, the rows of a bulk, a search, a plan and an upload take memory.
pub(crate) fn what_of(
    alloc: Global,
    routes: &Routes,
    head: &Head<'_>,
    body: &Body<'_>,
) -> Result<What, AllocError>
    ensures told { Gives result (spec.what_of (record { head = head.now; body = body.now })) }
    ensures bounded { IfOk result IsBoundedWhat }
    ensures sure { OnErr result
        (spec.LooksBehindPath (spec.what_of (record { head = head.now; body = body.now }))) }
{
    let Some(found) = find(routes, before_first(b'?', head.target())) else {
        return Ok(What::NoRoute);
    };
    let Some(ask) = ask_at(found.resource, head.method()) else {
        return Ok(What::WrongMethod(found.resource));
    };
    let Ok(number) = number_for(ask, head) else {
        return Ok(What::BadNumber(ask));
    };
    asked(alloc, ask, found, &Numbered { number, head, body })
}
