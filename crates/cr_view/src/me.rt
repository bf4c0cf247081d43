// SPDX-License-Identifier: Apache-2.0 OR MIT
//! What a user is told of themselves.
ghost use Rattle.std.specs.Prelude.{◌≡◌, ◌++◌, [], IfOk, OnOk, Some, filter, map, not, unwrap_or};
ghost use Rattle.std.specs.Option.{option_map};
ghost use Rattle.cr_base.specs.Accounts.{account_at};
ghost use Rattle.cr_base.specs.Answering.{me_by};
ghost use Rattle.cr_base.specs.Sources.{facts_of_tables, is_external_in};
ghost use Rattle.cr_base.specs.Lists.{given};
ghost use Rattle.cr_base.specs.Papers.{paper_numbers};
ghost use Rattle.cr_base.specs.Ties.{is_author_in};

use crate::live::Live;
use cr_base::{Me, PaperNo, PaperNos, Short, Steps, Tie, UserNo};
use std::alloc::{AllocError, Global};

impl Live {
    /// Returns what a user is told of themselves. A few look-ups by number, and a walk over their own papers, over
    /// those with which the user is declared in conflict, each of which costs one over its authors, over those that
    /// the user reviews and over those to which the user is invited.
    ///
    /// # Errors
    ///
    /// If memory runs out.
    pub fn me(&self, alloc: Global, user: UserNo) -> Result<Me, AllocError>
        ensures { IfOk result (λ me. me ≡ me_by (facts_of_tables self.now.tables (Some user)) user) }
    {
        self.law_within();
        let papers = papers_of(alloc, self.ties.authored(user, &mut Steps::uncounted()))?;
        let conflicts = self.others(
            alloc,
            user,
            self.ties.conflicting(user, &mut Steps::uncounted()),
        )?;
        let assigned = papers_of(alloc, self.seats.reviewed(user, &mut Steps::uncounted()))?;
        let invited = self.invited(alloc, user)?;
        Ok(Me {
            assigned,
            bytes: self.papers.bytes_of_user(user),
            comments: self.talk.count_of_user(user),
            conflicts,
            invited,
            name: self.own_name(user),
            papers,
            role: self.accounts.standing_for(&Some(user)),
            user,
        })
    }

    /// Returns the papers of which the user is an external: none of a member's, else those to which the user is
    /// invited.
    fn invited(&self, alloc: Global, user: UserNo) -> Result<PaperNos, AllocError>
        ensures { IfOk result (λ papers. papers
            ≡ filter (λ p. is_external_in self.now.tables (Some user) p) (paper_numbers self.now.tables.papers)) }
    {
        self.law_within();
        let role = self.accounts.standing_for(&Some(user));
        if role.is_member() {
            let none = Vec::new(alloc);
            return Ok(PaperNos::from_vec(none));
        }
        let papers = papers_of(alloc, self.seats.inviting(user, &mut Steps::uncounted()))?;
        Ok(papers)
    }

    /// Returns the user's name; no bytes if no user has that number.
    fn own_name(&self, user: UserNo) -> Short
        ensures { result ≡ unwrap_or (option_map (λ a. a.name) (account_at self.now.tables.accounts user)) [] }
    {
        match self.accounts.name_of(user) {
            Some(name) => name,
            None => Short::from_slice(b""),
        }
    }

    /// Returns the papers of these ties, without those whose author the user is.
    fn others(&self, alloc: Global, user: UserNo, ties: &[Tie<()>]) -> Result<PaperNos, AllocError>
        ensures { IfOk result (λ papers. papers
            ≡ filter (λ paper. not (is_author_in self.now.tables.ties (Some user) paper))
            (map (λ tie. tie.pair.paper) ties.now)) }
    {
        let mut papers = Vec::with_capacity(alloc, ties.len())?;
        for tie in ties {
            let other = !self
                .ties
                .is_author(user, tie.pair.paper, &mut Steps::uncounted());
            push_where(&mut papers, other, tie.pair.paper)?;
        }
        Ok(PaperNos::from_vec(papers))
    }
}

/// Adds a paper, if it is told.
///
/// # Errors
///
/// If memory runs out.
fn push_where(papers: &mut Vec<PaperNo>, told: bool, paper: PaperNo) -> Result<(), AllocError>
    ensures { OnOk result (papers.new.items ≡ papers.old.items ++ given told paper) }
{
    if told {
        papers.push(paper)?;
    }
    Ok(())
}

/// Returns the papers of these ties.
///
/// # Errors
///
/// If memory runs out.
fn papers_of<V>(alloc: Global, ties: &[Tie<V>]) -> Result<PaperNos, AllocError>
    ensures { IfOk result (λ papers. papers ≡ map (λ tie. tie.pair.paper) ties.now) }
{
    let mut papers = Vec::with_capacity(alloc, ties.len())?;
    for tie in ties {
        papers.push(tie.pair.paper)?;
    }
    Ok(PaperNos::from_vec(papers))
}
