// SPDX-License-Identifier: Apache-2.0 OR MIT
//! What is planned: papers, members, and which of them may be joined. Each call has an error only for lack of memory.
ghost use Rattle.std.specs.Prelude.{◌≡◌, ◌++◌, ◌≤◌, ◌<◌, ◌≤ℤ◌, pos, negsuc, IfOk, OnOk, length};
ghost use Rattle.cr_base.specs.Lists.{given};
ghost use Rattle.cr_base.specs.Plans.{planned_members, planned_papers};
ghost use Rattle.cr_base.specs.Sources.{facts_of_tables, shown_in_tables};
ghost use Rattle.cr_base.specs.Words.{is_member};
ghost use Rattle.cr_plans.specs.Pairing.{AllWeigh, pair_at, pairs_at, pairs_of_place, weight_of};

use cr_base::{AccountLine, Bid, PaperNo, PerPaper, UserNo};
use cr_match::Pair;
use cr_view::Live;
use std::alloc::{AllocError, Global};

/// Adds the paper, if it is planned.
fn push_paper(papers: &mut Vec<PaperNo>, planned: bool, paper: PaperNo) -> Result<(), AllocError>
    ensures { OnOk result (papers.new.items ≡ papers.old.items ++ given planned paper) }
{
    if planned {
        papers.push(paper)?;
    }
    Ok(())
}

/// Returns the papers, by number.
///
/// # Cost
///
/// One pass over all, of each what `is_planned` of `Live` costs.
pub(crate) fn papers(
    alloc: Global,
    live: &Live,
    user: &Option<UserNo>,
    per_paper: PerPaper,
) -> Result<Vec<PaperNo>, AllocError>
    ensures { IfOk result (λ papers. papers.items
        ≡ planned_papers (facts_of_tables live.now.tables user.now) (shown_in_tables live.now.tables) per_paper) }
{
    let mut papers = Vec::new(alloc);
    for before in 0..live.paper_count() {
        let paper = PaperNo::new(before + 1);
        push_paper(&mut papers, live.is_planned(user, paper, per_paper), paper)?;
    }
    Ok(papers)
}

/// Adds the account, if it is a member's.
fn push_member(members: &mut Vec<AccountLine>, line: &AccountLine) -> Result<(), AllocError>
    ensures { OnOk result (members.new.items ≡ members.old.items ++ given (is_member line.now.role) line.now) }
{
    if line.role.is_member() {
        members.push(*line)?;
    }
    Ok(())
}

/// Returns the members, chairs among them, by user number. Takes memory for all accounts besides.
pub(crate) fn members(
    alloc: Global,
    live: &Live,
    user: &Option<UserNo>,
) -> Result<Vec<AccountLine>, AllocError>
    ensures members { IfOk result
        (λ members. members.items ≡ planned_members (facts_of_tables live.now.tables user.now)) }
    ensures few { IfOk result (λ members. length members.items ≤ 9999) }
{
    let count = live.account_table().member_count();
    let accounts = live.accounts(alloc)?;
    let mut members = Vec::with_capacity(alloc, count as usize)?;
    let lines = accounts.as_slice();
    for line in lines {
        push_member(&mut members, line)?;
    }
    Ok(members)
}

/// Returns a bid as a weight.
fn weight(bid: Bid) -> i32
    ensures value { result ≡ weight_of bid }
    ensures low { negsuc 19 ≤ℤ result }
    ensures high { result ≤ℤ pos 20 }
{
    bid.raised() as i32 - 20
}

/// Adds the pair of the paper and the member at these places, if the member may be assigned to it.
fn push_pair(
    pairs: &mut Vec<Pair>,
    live: &Live,
    place: usize,
    paper: PaperNo,
    member_place: usize,
    member: UserNo,
) -> Result<(), AllocError>
    requires place { place < 10000 }
    requires member_place { member_place < 10000 }
    ensures pairs { OnOk result (pairs.new.items
        ≡ pairs.old.items ++ pair_at live.now.tables place paper member_place member) }
    ensures weights { OnOk result (AllWeigh (pair_at live.now.tables place paper member_place member)) }
{
    if live.is_free_for(paper, member) {
        pairs.push(Pair {
            paper: place as u32,
            member: member_place as u32,
            weight: weight(live.bid_by(paper, member)),
        })?;
    }
    Ok(())
}

/// Adds the pairs of the paper at a place.
fn push_pairs(
    pairs: &mut Vec<Pair>,
    live: &Live,
    place: usize,
    paper: PaperNo,
    members: &[AccountLine],
) -> Result<(), AllocError>
    requires place { place < 10000 }
    requires few { length members.now ≤ 9999 }
    ensures pairs { OnOk result (pairs.new.items
        ≡ pairs.old.items ++ pairs_of_place live.now.tables place paper 0 members.now) }
    ensures weights { OnOk result (AllWeigh (pairs_of_place live.now.tables place paper 0 members.now)) }
{
    for i in 0..members.len() {
        push_pair(pairs, live, place, paper, i, members[i].user)?;
    }
    Ok(())
}

/// Returns all pairs, by paper, then member: each of the places of its paper and its member, and their bid. For each
/// paper and each member what `is_free_for` of `Live` costs, and one look-up more where the member is.
pub(crate) fn pairs(
    alloc: Global,
    live: &Live,
    papers: &[PaperNo],
    members: &[AccountLine],
) -> Result<Vec<Pair>, AllocError>
    requires papers { length papers.now ≤ 9999 }
    requires members { length members.now ≤ 9999 }
    ensures pairs { IfOk result (λ pairs. pairs.items ≡ pairs_at live.now.tables 0 papers.now members.now) }
    ensures weights { IfOk result (λ pairs. AllWeigh pairs.items) }
{
    let mut pairs = Vec::new(alloc);
    for i in 0..papers.len() {
        push_pairs(&mut pairs, live, i, papers[i], members)?;
    }
    Ok(pairs)
}
