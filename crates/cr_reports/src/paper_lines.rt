// SPDX-License-Identifier: Apache-2.0 OR MIT
//! The report of all papers.
ghost use Rattle.std.specs.Prelude.{◌≡◌, ◌++◌, OnOk, Some};
ghost use Rattle.cr_base.specs.Reports.{paper_line, paper_mark, papers_end, papers_told};
ghost use Rattle.cr_base.specs.Sources.{facts_of_tables, shown_in_tables};
ghost use Rattle.cr_reports.specs.ReportLines.{paper_line_seen};

use crate::columns::append_in_four;
use crate::listed::title;
use crate::put::{append, append_number, append_space, end_line};
use cr_base::{PaperNo, Steps, UserNo};
use cr_view::{Live, PaperFacts};
use std::alloc::AllocError;

/// Returns the mark of a paper that is withdrawn or isn't, and with which the caller is in conflict or isn't.
#[tactic(auto, unfolding(cr_base::specs::Reports::paper_mark))]
fn mark(withdrawn: bool, conflicted: bool) -> &'static str
    ensures { result.now ≡ paper_mark withdrawn conflicted }
{
    if withdrawn {
        return "W";
    }
    if conflicted {
        return "C";
    }
    "-"
}

/// Appends the line of a paper of which these are the facts.
fn append_line(into: &mut Vec<u8>, facts: &PaperFacts<'_>) -> Result<(), AllocError>
    ensures { OnOk result (into.new.items ≡ into.old.items ++ paper_line_seen facts.now) }
{
    let mark = mark(facts.is_withdrawn(), facts.by().conflicted);
    append_in_four(into, facts.paper().number())?;
    append_space(into)?;
    append(into, mark.as_bytes())?;
    append_space(into)?;
    append(into, title(facts))?;
    end_line(into)
}

/// Appends the line of a paper. Its facts are read once.
fn append_paper(
    into: &mut Vec<u8>,
    live: &Live,
    user: UserNo,
    paper: PaperNo,
) -> Result<(), AllocError>
    ensures { OnOk result (into.new.items
        ≡ into.old.items ++ paper_line (facts_of_tables live.now.tables (Some user))
        (shown_in_tables live.now.tables) paper) }
{
    let facts = live.facts(&Some(user), paper, &mut Steps::uncounted());
    append_line(into, &facts)
}

/// Appends the last line, of how many papers there are.
#[tactic(auto, unfolding(cr_base::specs::Reports::papers_end))]
fn append_end(into: &mut Vec<u8>, count: u64) -> Result<(), AllocError>
    ensures { OnOk result (into.new.items ≡ into.old.items ++ papers_end count) }
{
    append_number(into, count)?;
    append(into, b" papers")?;
    end_line(into)
}

/// Appends the line of each paper, and how many there are.
pub(crate) fn append_papers(into: &mut Vec<u8>, live: &Live, user: UserNo) -> Result<(), AllocError>
    ensures { OnOk result (into.new.items
        ≡ into.old.items ++ papers_told (facts_of_tables live.now.tables (Some user))
        (shown_in_tables live.now.tables)) }
{
    for before in 0..live.paper_count() {
        append_paper(into, live, user, PaperNo::new(before + 1))?;
    }
    append_end(into, live.paper_count())
}
