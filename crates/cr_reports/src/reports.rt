// SPDX-License-Identifier: Apache-2.0 OR MIT
//! What a query of a report is answered.
ghost use Rattle.std.specs.Prelude.{IsSome};
ghost use Rattle.cr_base.specs.Answering.{answer_by_role};
ghost use Rattle.cr_base.specs.declared.command.Query.TheVariants as queries;
ghost use Rattle.cr_reports.specs.ReportLines.{report_due};
ghost use Rattle.cr_view.specs.Replies.{AnswersAsDue, ShowsAsDue};

use crate::told::{decisions, letter, load, papers, scores};
use cr_base::{Blob, Reply, Report, UserNo};
use cr_view::{AnswerError, Live};
use std::alloc::Global;

/// Returns what a caller is answered to their query of a report.
///
/// # Errors
///
/// The first broken rule, whatever memory there is. If none is broken, that memory runs out.
///
/// # Cost
///
/// What `papers`, `scores`, `load`, `decisions` or `letter` costs.
pub fn answer(
    alloc: Global,
    live: &Live,
    caller: &Option<UserNo>,
    report: &Report,
) -> Result<Reply, AnswerError>
    requires { IsSome caller.now }
    ensures { AnswersAsDue result (answer_by_role live.now.tables caller.now (queries.Report report.now)) }
{
    let Some(user) = caller else {
        unreachable!();
    };
    match told(alloc, live, *user, report) {
        Ok(text) => Ok(Reply::Report(text)),
        Err(error) => Err(error),
    }
}

/// Returns the report, or the first broken rule.
fn told(alloc: Global, live: &Live, user: UserNo, report: &Report) -> Result<Blob, AnswerError>
    ensures { ShowsAsDue result (report_due live.now.tables user report.now) }
{
    match report {
        Report::Papers => papers(alloc, live, user),
        Report::Scores => scores(alloc, live, user),
        Report::Load => load(alloc, live, user),
        Report::Decisions => decisions(alloc, live, user),
        Report::Letter { paper } => letter(alloc, live, user, paper),
    }
}
