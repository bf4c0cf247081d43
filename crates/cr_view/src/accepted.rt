// SPDX-License-Identifier: Apache-2.0 OR MIT
//! Which papers are accepted, who may ask for them, and what everyone is told of them.
ghost use Rattle.std.specs.Prelude.{◌≡◌, ◌++◌, [], IfOk, None, OnOk, unwrap_or};
ghost use Rattle.cr_base.specs.Answering.{accepted_by, accepted_paper, login_wanted};
ghost use Rattle.cr_base.specs.Decisions.{is_accepted_when, is_published};
ghost use Rattle.cr_base.specs.Lists.{at_some, given};
ghost use Rattle.cr_base.specs.Papers.{title_at};
ghost use Rattle.cr_base.specs.Sources.{facts_of_tables, shown_in_tables, is_accepted_in};

use crate::live::Live;
use cr_base::{AcceptedPaper, AcceptedPapers, Decision, PaperNo, Phase, Query, Steps, Text};
use std::alloc::{AllocError, Global};

/// Returns whether a paper that is withdrawn or isn't, and of which this was decided last, is accepted in this phase:
/// it was decided to accept it, it isn't withdrawn, and its authors are told, which they are from the notification on.
pub(crate) fn is_accepted_when(phase: Phase, withdrawn: bool, decision: Option<Decision>) -> bool
    ensures { result ≡ is_accepted_when phase withdrawn decision }
{
    match decision {
        Some(Decision::Accept) => !withdrawn && phase.papers_may_be_accepted(),
        _ => false,
    }
}

/// Which papers are accepted.
impl Live {
    /// Returns whether the paper is accepted, as `is_accepted_when` tells it; false if there is no such paper.
    ///
    /// # Cost
    ///
    /// Three reads by number. Takes no memory.
    pub fn is_accepted(&self, paper: PaperNo) -> bool
        ensures { result ≡ is_accepted_in self.now.tables paper }
    {
        is_accepted_when(
            self.stage.phase(&mut Steps::uncounted()),
            self.papers.is_withdrawn(paper, &mut Steps::uncounted()),
            self.decisions.last(paper, &mut Steps::uncounted()),
        )
    }

    /// Returns whether a paper is named, and is accepted.
    pub(crate) fn has_accepted(&self, paper: &Option<PaperNo>) -> bool
        ensures { result ≡ at_some (is_accepted_in self.now.tables) paper.now }
    {
        match paper {
            Some(paper) => self.is_accepted(*paper),
            None => false,
        }
    }

    /// Returns whether a paper is named, and everyone is served it: it is accepted, and the conference is closed.
    pub(crate) fn has_published(&self, paper: &Option<PaperNo>) -> bool
        ensures { result ≡ is_published self.now.tables.stage.phase
            (at_some (is_accepted_in self.now.tables) paper.now) }
    {
        self.stage
            .phase(&mut Steps::uncounted())
            .publishes(self.has_accepted(paper))
    }

    /// Returns whether the query requires authentication: its request does, and it isn't for the page or the content
    /// of a published paper.
    ///
    /// # Cost
    ///
    /// What `is_accepted` does.
    pub fn needs_login(&self, query: &Query) -> bool
        ensures { result ≡ login_wanted (facts_of_tables self.now.tables None) query.now }
    {
        match query {
            Query::Page { paper } => !self.has_published(paper),
            Query::Content { paper } => !self.has_published(paper),
            Query::Version { paper, .. } => !self.has_published(paper),
            other => other.wants_login(),
        }
    }
}

/// What everyone is told of them.
impl Live {
    /// Returns the accepted papers, by number, each with its last title and the names of its authors, the submitter
    /// first. A walk over all papers, which costs each what `is_accepted` does; of those that are accepted two more,
    /// and a look-up for each author. Shares the titles, and takes no memory except the answer.
    ///
    /// # Errors
    ///
    /// If memory runs out.
    pub fn accepted(&self, alloc: Global) -> Result<AcceptedPapers, AllocError>
        ensures { IfOk result (λ papers. papers
            ≡ accepted_by (facts_of_tables self.now.tables None) (shown_in_tables self.now.tables)) }
    {
        let mut papers = Vec::new(alloc);
        for before in 0..self.papers.count() {
            self.push_accepted(&mut papers, alloc, PaperNo::new(before + 1))?;
        }
        Ok(AcceptedPapers::from_vec(papers))
    }

    /// Adds what is told of the paper, if it is accepted.
    ///
    /// # Errors
    ///
    /// If memory runs out.
    fn push_accepted(
        &self,
        papers: &mut Vec<AcceptedPaper>,
        alloc: Global,
        paper: PaperNo,
    ) -> Result<(), AllocError>
        ensures { OnOk result (papers.new.items ≡ papers.old.items
            ++ given (is_accepted_in self.now.tables paper)
            (accepted_paper (facts_of_tables self.now.tables None) (shown_in_tables self.now.tables) paper)) }
    {
        if self.is_accepted(paper) {
            papers.push(self.accepted_paper(alloc, paper)?)?;
        }
        Ok(())
    }

    /// Returns what is told of the paper.
    ///
    /// # Errors
    ///
    /// If memory runs out.
    fn accepted_paper(&self, alloc: Global, paper: PaperNo) -> Result<AcceptedPaper, AllocError>
        ensures { IfOk result (λ told. told
            ≡ accepted_paper (facts_of_tables self.now.tables None) (shown_in_tables self.now.tables) paper) }
    {
        let authors = self.names(alloc, self.ties.authors(paper, &mut Steps::uncounted()))?;
        let title = self.title_of(alloc, paper)?;
        Ok(AcceptedPaper {
            authors,
            paper,
            title,
        })
    }

    /// Returns the paper's last title, shared; no bytes if there is no such paper.
    ///
    /// # Errors
    ///
    /// If memory runs out.
    pub fn title_of(&self, alloc: Global, paper: PaperNo) -> Result<Text, AllocError>
        ensures { IfOk result (λ title. title ≡ unwrap_or (title_at self.now.tables.papers paper) []) }
    {
        match self.papers.last_title(paper, &mut Steps::uncounted()) {
            Some(title) => title.copy(),
            None => Text::from_str(alloc, ""),
        }
    }
}
