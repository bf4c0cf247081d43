// SPDX-License-Identifier: Apache-2.0 OR MIT
//! What a query of a plan is answered.
ghost use Rattle.cr_base.specs.Answering.{answer_by_role};
ghost use Rattle.cr_base.specs.declared.command.Query.TheVariants as queries;
ghost use Rattle.cr_view.specs.Replies.{AnswersOrPlans};

use crate::solving::best;
use cr_base::{PerPaper, PlanLoad, Reply, Rule, UserNo};
use cr_view::{AnswerError, Live};
use std::alloc::Global;

/// Returns what a caller is answered to their query of a plan: so many more members for each paper, at most so many
/// papers for a member. The papers are those that the caller is in no conflict with, that aren't withdrawn and have
/// labels left for so many; the members are all, chairs among them; a member is given no paper that they are in
/// conflict with or review. Of all such plans the one whose bids have the greatest sum, and of these the first, by
/// paper, then user number, is told as the rows of a bulk.
///
/// `NotChair`; `WrongPhase` except from the bidding to the discussion; `PlanTooLarge` where there are more than 512
/// places or papers times members passes 4,096: these come whatever memory there is. `NoPlan` where there is no plan,
/// which takes memory to find. An error for lack of memory only where it may come, or no rule is broken.
///
/// A walk over all papers and one over the accounts, twice; for each of the papers and members `is_free_for` of `Live`
/// and a look-up; and what `first_best` of `cr_match` takes (docs/PERFORMANCE.md).
pub fn answer(
    alloc: Global,
    live: &Live,
    caller: &Option<UserNo>,
    per_paper: PerPaper,
    load: PlanLoad,
) -> Result<Reply, AnswerError>
    ensures { AnswersOrPlans result (answer_by_role live.now.tables caller.now (queries.Plan per_paper load)) }
{
    match live.may_plan(caller, per_paper) {
        Ok(()) => {}
        Err(rule) => return Err(AnswerError::Rule(rule)),
    }
    let plan = best(alloc, live, caller, per_paper, load)?;
    match plan {
        Some(text) => Ok(Reply::Report(text)),
        None => Err(AnswerError::Rule(Rule::NoPlan)),
    }
}
