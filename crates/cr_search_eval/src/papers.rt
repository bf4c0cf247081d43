// SPDX-License-Identifier: Apache-2.0 OR MIT
//! The papers that a search finds.
ghost use Rattle.std.specs.Prelude.{◌≡◌, ◌≤◌, ◌++◌, IfOk, OnOk, IsSome, Some, length};
ghost use Rattle.cr_base.specs.Answering.{found_by, search_told};
ghost use Rattle.cr_base.specs.Lists.{given};
ghost use Rattle.cr_base.specs.Searching.{is_found};
ghost use Rattle.cr_base.specs.Sources.{facts_of_tables, shown_in_tables};
ghost use Rattle.cr_search_eval.specs.Found.{papers_found, titled, told_to};

use crate::asked::Asked;
use crate::evaluate::search_holds;
use cr_base::{FoundPaper, FoundPapers, PaperNo, Reply, Search, UserNo};
use cr_view::Live;
use std::alloc::{AllocError, Global};

/// Returns whether the search finds the paper for the user: the user is told its title, and the search holds of what
/// they are told of it. Without a title no term is tried. Takes no memory.
///
/// # Cost
///
/// What `facts` of `Live` costs, and for each term that is tried what its field costs.
pub fn matches(live: &Live, user: UserNo, search: &Search, paper: PaperNo) -> bool
    ensures { result ≡ is_found (told_to live.now.tables user paper) search.now }
{
    let asked = Asked::new(live, user, paper);
    match asked.facts.title_told() {
        Some(_) => search_holds(live, &asked, search),
        None => false,
    }
}

/// Returns the papers that the search finds for the user, by number.
///
/// # Errors
///
/// If memory runs out.
///
/// # Cost
///
/// A walk over all papers, each of which costs what `matches` does.
pub fn search(
    alloc: Global,
    live: &Live,
    user: UserNo,
    search: &Search,
) -> Result<Vec<PaperNo>, AllocError>
    ensures { IfOk result (λ papers. papers.items ≡ papers_found live.now.tables user search.now) }
{
    let mut papers = Vec::new(alloc);
    for before in 0..live.paper_count() {
        push_found(&mut papers, live, user, search, PaperNo::new(before + 1))?;
    }
    Ok(papers)
}

/// Adds the paper, if it is found.
///
/// # Errors
///
/// If memory runs out.
fn push_found(
    papers: &mut Vec<PaperNo>,
    live: &Live,
    user: UserNo,
    search: &Search,
    paper: PaperNo,
) -> Result<(), AllocError>
    ensures { OnOk result (papers.new.items
        ≡ papers.old.items ++ given (is_found (told_to live.now.tables user paper) search.now) paper) }
{
    if matches(live, user, search, paper) {
        papers.push(paper)?;
    }
    Ok(())
}

/// Returns 1 if the paper is found, else 0.
fn count_one(live: &Live, user: UserNo, search: &Search, paper: PaperNo) -> u64
    ensures value { result ≡ length (given (is_found (told_to live.now.tables user paper) search.now) paper) }
    ensures few { result ≤ 1 }
{
    if matches(live, user, search, paper) {
        return 1;
    }
    0
}

/// Returns how many papers the search finds for the user. Takes no memory.
///
/// # Cost
///
/// A walk over all papers, each of which costs what `matches` does.
pub fn count(live: &Live, user: UserNo, search: &Search) -> u64
    ensures { result ≡ length (papers_found live.now.tables user search.now) }
{
    let mut count = 0;
    for before in 0..live.paper_count() {
        count += count_one(live, user, search, PaperNo::new(before + 1));
    }
    count
}

/// Returns the papers that the search finds for the user, by number, each with its last title. Shares the titles, and
/// takes no memory except the numbers and the answer.
///
/// # Errors
///
/// If memory runs out.
///
/// # Cost
///
/// What `search` costs, and one look-up for each paper that is found.
pub fn found(
    alloc: Global,
    live: &Live,
    user: UserNo,
    sought: &Search,
) -> Result<FoundPapers, AllocError>
    ensures { IfOk result (λ found. found
        ≡ found_by (facts_of_tables live.now.tables (Some user)) (shown_in_tables live.now.tables)
        (Some user) sought.now) }
{
    let papers = search(alloc, live, user, sought)?;
    let mut found = Vec::with_capacity(alloc, papers.len())?;
    for paper in &papers {
        found.push(with_title(alloc, live, *paper)?)?;
    }
    Ok(FoundPapers::from_vec(found))
}

/// Returns the paper with its last title.
///
/// # Errors
///
/// If memory runs out.
fn with_title(alloc: Global, live: &Live, paper: PaperNo) -> Result<FoundPaper, AllocError>
    ensures { IfOk result (λ found. found ≡ titled live.now.tables paper) }
{
    let title = live.title_of(alloc, paper)?;
    Ok(FoundPaper { paper, title })
}

/// Returns what a caller is answered to a search: the papers, or how many there are.
///
/// # Errors
///
/// If memory runs out.
pub fn answer(
    alloc: Global,
    live: &Live,
    caller: &Option<UserNo>,
    search: &Search,
    only_count: bool,
) -> Result<Reply, AllocError>
    requires { IsSome caller.now }
    ensures { IfOk result (λ reply. reply
        ≡ search_told (facts_of_tables live.now.tables caller.now)
        (shown_in_tables live.now.tables) caller.now search.now only_count) }
{
    let Some(user) = caller else {
        unreachable!();
    };
    if only_count {
        return Ok(Reply::Count(count(live, *user, search)));
    }
    Ok(Reply::Found(found(alloc, live, *user, search)?))
}
