// SPDX-License-Identifier: Apache-2.0 OR MIT
//! The five reports, each told or refused by the first broken rule, which takes no memory. An error says that memory
//! ran out only if no rule is broken. A title costs its bytes.
ghost use Rattle.std.specs.Prelude.{◌≡◌, IfOk, Some};
ghost use Rattle.cr_base.specs.Reports.{report_told};
ghost use Rattle.cr_base.specs.Sources.{facts_of_tables, shown_in_tables};
ghost use Rattle.cr_base.specs.declared.report.Report.TheVariants as reports;
ghost use Rattle.cr_reports.specs.ReportLines.{report_due};
ghost use Rattle.cr_view.specs.Replies.{ShowsAsDue};

use crate::decision_lines::append_decisions;
use crate::letter_lines::append_letter;
use crate::load_lines::append_loads;
use crate::paper_lines::append_papers;
use crate::score_lines::append_scores;
use cr_base::{Blob, PaperNo, Report, Rule, UserNo};
use cr_view::{AnswerError, Live};
use std::alloc::{AllocError, Global};

/// Returns all papers by number, a line each, and how many there are: a paper's number, whether it is withdrawn, else
/// whether the user is in conflict with it, and its title.
///
/// # Errors
///
/// The first broken rule: `NotMember`; `WrongPhase` before the bidding. If none is broken, that memory runs out.
///
/// # Cost
///
/// One pass over all papers: of each what `facts` of `Live` costs, once.
pub fn papers(alloc: Global, live: &Live, user: UserNo) -> Result<Blob, AnswerError>
    ensures { ShowsAsDue result (report_due live.now.tables user reports.Papers) }
{
    match live.may_have(&Some(user), &Report::Papers) {
        Ok(()) => {}
        Err(rule) => return Err(AnswerError::Rule(rule)),
    }
    Ok(papers_text(alloc, live, user)?)
}

/// Returns the text of the report of all papers.
///
/// # Errors
///
/// If memory runs out.
fn papers_text(alloc: Global, live: &Live, user: UserNo) -> Result<Blob, AllocError>
    ensures { IfOk result (λ text. text
        ≡ report_told (facts_of_tables live.now.tables (Some user)) (shown_in_tables live.now.tables) reports.Papers) }
{
    let mut text = Vec::new(alloc);
    append_papers(&mut text, live, user)?;
    Ok(Blob::from_vec(text)?)
}

/// Returns the scores of each paper that isn't withdrawn, has a form and isn't in conflict with the user, a line each:
/// its number, how many labels have a form, the mean of their last scores, and its title.
///
/// # Errors
///
/// The first broken rule: `NotMember`; `WrongPhase` before the discussion. If none is broken, that memory runs out.
///
/// # Cost
///
/// One pass over all papers: of each what `facts` of `Live` costs, once, and of those that are told what `scores` of
/// `Live` costs.
pub fn scores(alloc: Global, live: &Live, user: UserNo) -> Result<Blob, AnswerError>
    ensures { ShowsAsDue result (report_due live.now.tables user reports.Scores) }
{
    match live.may_have(&Some(user), &Report::Scores) {
        Ok(()) => {}
        Err(rule) => return Err(AnswerError::Rule(rule)),
    }
    Ok(scores_text(alloc, live, user)?)
}

/// Returns the text of the report of the scores.
///
/// # Errors
///
/// If memory runs out.
fn scores_text(alloc: Global, live: &Live, user: UserNo) -> Result<Blob, AllocError>
    ensures { IfOk result (λ text. text
        ≡ report_told (facts_of_tables live.now.tables (Some user)) (shown_in_tables live.now.tables) reports.Scores) }
{
    let mut text = Vec::new(alloc);
    append_scores(&mut text, live, user)?;
    Ok(Blob::from_vec(text)?)
}

/// Returns how much each member reviews of the papers that the user is in no conflict with, a line each by user number:
/// the member's name, how many as primary, as secondary and as other reviewer, and of how many of them a form is
/// written. Withdrawn papers count.
///
/// # Errors
///
/// The first broken rule: `NotChair`; `WrongPhase` before the bidding. If none is broken, that memory runs out.
///
/// # Cost
///
/// One pass over all papers, of each whether the user is in conflict with it, and of the others over their seats, with
/// a walk over the paper's forms for each seat; and one over the accounts.
pub fn load(alloc: Global, live: &Live, user: UserNo) -> Result<Blob, AnswerError>
    ensures { ShowsAsDue result (report_due live.now.tables user reports.Load) }
{
    match live.may_have(&Some(user), &Report::Load) {
        Ok(()) => {}
        Err(rule) => return Err(AnswerError::Rule(rule)),
    }
    Ok(load_text(alloc, live, user)?)
}

/// Returns the text of the report of how much members review.
///
/// # Errors
///
/// If memory runs out.
fn load_text(alloc: Global, live: &Live, user: UserNo) -> Result<Blob, AllocError>
    ensures { IfOk result (λ text. text
        ≡ report_told (facts_of_tables live.now.tables (Some user)) (shown_in_tables live.now.tables) reports.Load) }
{
    let mut text = Vec::new(alloc);
    append_loads(&mut text, alloc, live, user)?;
    Ok(Blob::from_vec(text)?)
}

/// Returns the decision on each paper that isn't withdrawn and isn't in conflict with the user, a line each: its
/// number, the decision and its title; and how many papers there are of each decision.
///
/// # Errors
///
/// The first broken rule: `NotMember`; `WrongPhase` before the discussion. If none is broken, that memory runs out.
///
/// # Cost
///
/// One pass over all papers: of each what `facts` of `Live` costs, once.
pub fn decisions(alloc: Global, live: &Live, user: UserNo) -> Result<Blob, AnswerError>
    ensures { ShowsAsDue result (report_due live.now.tables user reports.Decisions) }
{
    match live.may_have(&Some(user), &Report::Decisions) {
        Ok(()) => {}
        Err(rule) => return Err(AnswerError::Rule(rule)),
    }
    Ok(decisions_text(alloc, live, user)?)
}

/// Returns the text of the report of the decisions.
///
/// # Errors
///
/// If memory runs out.
fn decisions_text(alloc: Global, live: &Live, user: UserNo) -> Result<Blob, AllocError>
    ensures { IfOk result (λ text. text
        ≡ report_told (facts_of_tables live.now.tables (Some user)) (shown_in_tables live.now.tables)
        reports.Decisions) }
{
    let mut text = Vec::new(alloc);
    append_decisions(&mut text, live, user)?;
    Ok(Blob::from_vec(text)?)
}

/// Returns the letter to the authors of a paper: its number and title, the decision, and the last form under each label
/// as authors are told it, with its writer's name if authors are told that.
///
/// # Errors
///
/// The first broken rule: `NoPaper` if there is no such paper, or none is named; `NotAuthor`; `WrongPhase` before the
/// notification. If none is broken, that memory runs out.
///
/// # Cost
///
/// The paper's facts, once, and a walk over its forms for each label, of which there are 26 at most.
pub fn letter(
    alloc: Global,
    live: &Live,
    user: UserNo,
    paper: &Option<PaperNo>,
) -> Result<Blob, AnswerError>
    ensures { ShowsAsDue result (report_due live.now.tables user (reports.Letter paper.now)) }
{
    let Some(paper) = paper else {
        return Err(AnswerError::Rule(Rule::NoPaper));
    };
    letter_on(alloc, live, user, *paper)
}

/// Returns the letter to the authors of the paper of this number, or the first broken rule.
fn letter_on(alloc: Global, live: &Live, user: UserNo, paper: PaperNo) -> Result<Blob, AnswerError>
    ensures { ShowsAsDue result (report_due live.now.tables user (reports.Letter (Some paper))) }
{
    match live.may_have(&Some(user), &Report::Letter { paper: Some(paper) }) {
        Ok(()) => {}
        Err(rule) => return Err(AnswerError::Rule(rule)),
    }
    Ok(letter_text(alloc, live, user, paper)?)
}

/// Returns the text of the letter.
///
/// # Errors
///
/// If memory runs out.
fn letter_text(alloc: Global, live: &Live, user: UserNo, paper: PaperNo) -> Result<Blob, AllocError>
    ensures { IfOk result (λ text. text
        ≡ report_told (facts_of_tables live.now.tables (Some user)) (shown_in_tables live.now.tables)
        (reports.Letter (Some paper))) }
{
    let mut text = Vec::new(alloc);
    append_letter(&mut text, live, user, paper)?;
    Ok(Blob::from_vec(text)?)
}
