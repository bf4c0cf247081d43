// SPDX-License-Identifier: Apache-2.0 OR MIT
//! The report of decisions.
ghost use Rattle.std.specs.Prelude.{◌≡◌, ◌++◌, ◌+◌, ◌<◌, ◌^◌, OnOk, Some, if◌then◌else◌, []};
ghost use Rattle.cr_base.specs.Reports.{decision_word, decisions_end, decisions_told};
ghost use Rattle.cr_base.specs.Reports.{is_accepting, is_undecided, is_rejecting};
ghost use Rattle.cr_base.specs.Sources.{facts_of_tables, shown_in_tables};
ghost use Rattle.cr_reports.specs.ReportLines.{counted, counted_seen, decision_line_at, decision_line_seen};
ghost use Rattle.cr_reports.specs.ReportLines.{is_open_seen, is_open_to};

use crate::columns::{append_in_four, append_left};
use crate::listed::{is_open, title};
use crate::put::{append, append_number, append_space, end_line};
use crate::tally::Tally;
use cr_base::{Decision, PaperNo, Steps, UserNo};
use cr_view::{Live, PaperFacts};
use std::alloc::AllocError;

/// Returns a decision's word, or the one for none if nothing was decided.
pub(crate) fn decision_word(decision: &Option<Decision>) -> &'static str
    ensures { result.now ≡ decision_word decision.now }
{
    match decision {
        Some(decision) => decision.name(),
        None => "none",
    }
}

/// Appends the line of a paper of which these are the facts.
fn append_line(into: &mut Vec<u8>, facts: &PaperFacts<'_>) -> Result<(), AllocError>
    ensures { OnOk result (into.new.items ≡ into.old.items ++ decision_line_seen facts.now) }
{
    append_in_four(into, facts.paper().number())?;
    append_space(into)?;
    append_left(into, 6, decision_word(&facts.decision()).as_bytes())?;
    append_space(into)?;
    append(into, title(facts))?;
    end_line(into)
}

/// Appends the line of a paper of which these are the facts, and counts it, if it is told to the user.
fn append_open(
    into: &mut Vec<u8>,
    tally: &mut Tally,
    facts: &PaperFacts<'_>,
) -> Result<(), AllocError>
    requires accepted { tally.old.accepted < 2 ^ 32 }
    requires rejected { tally.old.rejected < 2 ^ 32 }
    requires undecided { tally.old.undecided < 2 ^ 32 }
    ensures text { OnOk result (into.new.items
        ≡ into.old.items ++ (if is_open_seen facts.now then decision_line_seen facts.now else [])) }
    ensures accepted { OnOk result (tally.new.accepted
        ≡ tally.old.accepted + counted_seen is_accepting facts.now) }
    ensures rejected { OnOk result (tally.new.rejected
        ≡ tally.old.rejected + counted_seen is_rejecting facts.now) }
    ensures undecided { OnOk result (tally.new.undecided
        ≡ tally.old.undecided + counted_seen is_undecided facts.now) }
{
    if !is_open(facts) {
        return Ok(());
    }
    append_line(into, facts)?;
    tally.add(&facts.decision());
    Ok(())
}

/// Appends the line of a paper, and counts it, if it is told to the user. Its facts are read once.
fn append_paper(
    into: &mut Vec<u8>,
    tally: &mut Tally,
    live: &Live,
    user: UserNo,
    paper: PaperNo,
) -> Result<(), AllocError>
    requires accepted { tally.old.accepted < 2 ^ 32 }
    requires rejected { tally.old.rejected < 2 ^ 32 }
    requires undecided { tally.old.undecided < 2 ^ 32 }
    ensures text { OnOk result (into.new.items
        ≡ into.old.items ++ (if is_open_to live.now.tables user paper
        then decision_line_at live.now.tables paper else [])) }
    ensures accepted { OnOk result (tally.new.accepted
        ≡ tally.old.accepted + counted live.now.tables user is_accepting paper) }
    ensures rejected { OnOk result (tally.new.rejected
        ≡ tally.old.rejected + counted live.now.tables user is_rejecting paper) }
    ensures undecided { OnOk result (tally.new.undecided
        ≡ tally.old.undecided + counted live.now.tables user is_undecided paper) }
{
    let facts = live.facts(&Some(user), paper, &mut Steps::uncounted());
    append_open(into, tally, &facts)
}

/// Appends the last line, of how many papers were decided which way.
#[tactic(auto, unfolding(cr_base::specs::Reports::decisions_end))]
fn append_end(into: &mut Vec<u8>, tally: &Tally) -> Result<(), AllocError>
    ensures { OnOk result (into.new.items ≡ into.old.items
        ++ decisions_end tally.now.accepted tally.now.rejected tally.now.undecided) }
{
    append(into, b"accept ")?;
    append_number(into, tally.accepted)?;
    append(into, b", reject ")?;
    append_number(into, tally.rejected)?;
    append(into, b", none ")?;
    append_number(into, tally.undecided)?;
    end_line(into)
}

/// Appends the line of each paper that is told, and how many there are of each decision.
pub(crate) fn append_decisions(
    into: &mut Vec<u8>,
    live: &Live,
    user: UserNo,
) -> Result<(), AllocError>
    ensures { OnOk result (into.new.items
        ≡ into.old.items ++ decisions_told (facts_of_tables live.now.tables (Some user))
        (shown_in_tables live.now.tables)) }
{
    let mut tally = Tally {
        accepted: 0,
        rejected: 0,
        undecided: 0,
    };
    for before in 0..live.paper_count() {
        append_paper(into, &mut tally, live, user, PaperNo::new(before + 1))?;
    }
    append_end(into, &tally)
}
