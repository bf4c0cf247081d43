// SPDX-License-Identifier: Apache-2.0 OR MIT
//! The report of scores.
ghost use Rattle.std.specs.Prelude.{◌≡◌, ◌≤◌, ◌*◌, ◌++◌, OnOk, Some, if◌then◌else◌, []};
ghost use Rattle.cr_base.specs.Reports.{scores_told};
ghost use Rattle.cr_base.specs.Sources.{facts_of_tables, shown_in_tables};
ghost use Rattle.cr_reports.specs.ReportLines.{is_open_seen, is_open_to, scored_line, scores_line_at};
ghost use Rattle.cr_reports.specs.ReportLines.{scores_line_seen};

use crate::columns::{append_in_four, append_in_two};
use crate::listed::{is_open, title};
use crate::mean::{append_two_decimals, hundredths};
use crate::put::{append, append_space, end_line};
use cr_base::{PaperNo, Steps, UserNo};
use cr_view::{Live, PaperFacts, ScoreSum};
use std::alloc::AllocError;

/// Appends the line of a paper with these scores, of which there are some.
fn append_scored(
    into: &mut Vec<u8>,
    paper: PaperNo,
    scores: &ScoreSum,
    title: &[u8],
) -> Result<(), AllocError>
    requires some { 1 ≤ scores.now.count }
    requires few { scores.now.count ≤ 26 }
    requires low { scores.now.sum ≤ 5 * scores.now.count }
    ensures { OnOk result (into.new.items ≡ into.old.items ++ scored_line paper scores.now title.now) }
{
    append_in_four(into, paper.number())?;
    append_space(into)?;
    append_in_two(into, scores.count)?;
    append_space(into)?;
    append_two_decimals(into, hundredths(scores.sum, scores.count))?;
    append_space(into)?;
    append(into, title)?;
    end_line(into)
}

/// Appends the line of a paper of which these are the facts, if it has scores.
#[tactic(auto, using(crate::proofs::OpenLaws::scores_some, crate::proofs::OpenLaws::scores_none))]
fn append_line(into: &mut Vec<u8>, live: &Live, facts: &PaperFacts<'_>) -> Result<(), AllocError>
    ensures { OnOk result (into.new.items
        ≡ into.old.items ++ scores_line_seen live.now.tables facts.now) }
{
    let scores = live.scores(facts.paper());
    if scores.count == 0 {
        return Ok(());
    }
    append_scored(into, facts.paper(), &scores, title(facts))
}

/// Appends the line of a paper of which these are the facts, if it is told to the user and has scores. Scores are read
/// of no other paper.
fn append_open(into: &mut Vec<u8>, live: &Live, facts: &PaperFacts<'_>) -> Result<(), AllocError>
    ensures { OnOk result (into.new.items
        ≡ into.old.items ++ (if is_open_seen facts.now
        then scores_line_seen live.now.tables facts.now else [])) }
{
    if !is_open(facts) {
        return Ok(());
    }
    append_line(into, live, facts)
}

/// Appends the line of a paper, if it is told to the user and has scores. Its facts are read once.
fn append_paper(
    into: &mut Vec<u8>,
    live: &Live,
    user: UserNo,
    paper: PaperNo,
) -> Result<(), AllocError>
    ensures { OnOk result (into.new.items
        ≡ into.old.items ++ (if is_open_to live.now.tables user paper
        then scores_line_at live.now.tables paper else [])) }
{
    let facts = live.facts(&Some(user), paper, &mut Steps::uncounted());
    append_open(into, live, &facts)
}

/// Appends the line of each paper that is told and has scores.
pub(crate) fn append_scores(into: &mut Vec<u8>, live: &Live, user: UserNo) -> Result<(), AllocError>
    ensures { OnOk result (into.new.items
        ≡ into.old.items ++ scores_told (facts_of_tables live.now.tables (Some user))
        (shown_in_tables live.now.tables)) }
{
    for before in 0..live.paper_count() {
        append_paper(into, live, user, PaperNo::new(before + 1))?;
    }
    Ok(())
}
