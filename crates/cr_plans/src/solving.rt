// SPDX-License-Identifier: Apache-2.0 OR MIT
//! The best plan: a problem of `cr_match` made of what is planned, and solved.
ghost use Rattle.std.specs.Prelude.{◌≡◌, ◌≤◌, ◌*◌, IfOk, length};
ghost use Rattle.cr_base.specs.Plans.{planned_members, planned_papers};
ghost use Rattle.cr_base.specs.Sources.{facts_of_tables, shown_in_tables};
ghost use Rattle.cr_plans.specs.Pairing.{IsProblemOf, MayPlan, plan_due};

use crate::planned::{members, pairs, papers};
use crate::text::text;
use cr_base::{AccountLine, Blob, PaperNo, PerPaper, PlanLoad, UserNo};
use cr_match::{Problem, Solved, first_best};
use cr_view::Live;
use std::alloc::{AllocError, Global};

/// Returns a number as a problem has it.
fn narrow(number: u64) -> u32
    requires { number ≤ 9999 }
    ensures { result ≡ number }
{
    number as u32
}

/// Returns the problem of these papers and members.
///
/// # Errors
///
/// If memory runs out.
fn problem(
    alloc: Global,
    live: &Live,
    papers: &[PaperNo],
    members: &[AccountLine],
    per_paper: PerPaper,
    load: PlanLoad,
) -> Result<Problem, AllocError>
    requires members { length members.now ≤ 9999 }
    requires places { per_paper * length papers.now ≤ 512 }
    requires grid { length papers.now * length members.now ≤ 4096 }
    ensures { IfOk result
        (λ problem. IsProblemOf live.now.tables papers.now members.now per_paper load problem) }
{
    let places = per_paper.number();
    let most = load.number();
    let pairs = pairs(alloc, live, papers, members)?;
    let paper_count = narrow(papers.len() as u64);
    let member_count = narrow(members.len() as u64);
    match Problem::new(
        paper_count,
        member_count,
        narrow(places),
        narrow(most),
        pairs,
    ) {
        Some(problem) => Ok(problem),
        None => unreachable!(),
    }
}

/// Returns the text of the best plan of these papers and members, or `None` if there is no plan.
///
/// # Errors
///
/// If memory runs out.
fn solved(
    alloc: Global,
    live: &Live,
    user: &Option<UserNo>,
    papers: &[PaperNo],
    members: &[AccountLine],
    per_paper: PerPaper,
    load: PlanLoad,
) -> Result<Option<Blob>, AllocError>
    requires may { MayPlan live.now.tables user.now per_paper }
    requires papers { papers.now
        ≡ planned_papers (facts_of_tables live.now.tables user.now) (shown_in_tables live.now.tables) per_paper }
    requires members { members.now ≡ planned_members (facts_of_tables live.now.tables user.now) }
    requires few { length members.now ≤ 9999 }
    ensures { IfOk result (λ text. text ≡ plan_due live.now.tables user.now per_paper load) }
{
    let problem = problem(alloc, live, papers, members, per_paper, load)?;
    match first_best(&problem) {
        Solved::Best { pairs, .. } => Ok(Some(text(alloc, papers, members, &pairs)?)),
        Solved::NoPlan { .. } => Ok(None),
        Solved::OutOfMemory => Err(AllocError),
    }
}

/// Returns the text of the best plan, or `None` if there is no plan.
///
/// # Errors
///
/// If memory runs out.
pub(crate) fn best(
    alloc: Global,
    live: &Live,
    user: &Option<UserNo>,
    per_paper: PerPaper,
    load: PlanLoad,
) -> Result<Option<Blob>, AllocError>
    requires { MayPlan live.now.tables user.now per_paper }
    ensures { IfOk result (λ text. text ≡ plan_due live.now.tables user.now per_paper load) }
{
    let papers = papers(alloc, live, user, per_paper)?;
    let members = members(alloc, live, user)?;
    solved(alloc, live, user, &papers, &members, per_paper, load)
}
