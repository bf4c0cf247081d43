// SPDX-License-Identifier: Apache-2.0 OR MIT
//! What is asked of one paper for one caller, read once: pages, searches and reports are functions of it.
ghost use Rattle.std.specs.Prelude.{◌≡◌, Some};
ghost use Rattle.std.specs.Option.{option_copied};
ghost use Rattle.cr_base.specs.Page.{gets_title, gets_abstract, gets_conflict, gets_decision};
ghost use Rattle.cr_base.specs.Page.{gets_label, gets_withdrawn, where_told};
ghost use Rattle.cr_base.specs.Sources.{standing_at};
ghost use Rattle.cr_base.specs.Steps.{TakesAtMost};
ghost use Rattle.cr_view.specs.PaperSeen.{paper_seen_at, stance_at, tie_at, tie_reads, facts_reads};
ghost use Rattle.cr_view.specs.PaperSeen.{title_seen, abstract_seen, withdrawn_seen, accepted_seen, decision_seen};

use crate::accepted::is_accepted_when;
use crate::live::Live;
use crate::page::{
    conflict_told, gets_abstract, gets_decision, gets_label, gets_title, withdrawn_told,
};
use cr_base::{Decision, Ordinal, Paper, PaperNo, Standing, Steps, Text, Uncounted, UserNo};
use std::marker::Model;
use std::sync::ledger::Ledger;

/// What a user, or an unauthenticated caller, is to a paper.
#[derive(Drop)]
pub(crate) struct PaperTie {
    /// True if the user is an author of it.
    author: bool,
    /// True if the user is in conflict with it, as each author is.
    conflicted: bool,
    /// The ordinal of the label under which the user reviews it, if the user does.
    label: Option<Ordinal>,
    /// True if the user is an external of it.
    external: bool,
}

/// What is asked of one paper for one caller: the caller's standing at it, the label under which the user reviews it,
/// the last decision on it, its texts and whether it is withdrawn. It is lent by the tables; lists are no part of it,
/// since they are read if they are told.
///
/// # Model
///
/// These.
#[derive(Drop)]
pub struct PaperFacts<'a> {
    paper: PaperNo,
    by: Standing,
    label: Option<Ordinal>,
    decision: Option<Decision>,
    kept: Option<&'a Paper>,
}

impl<'a> Model for PaperFacts<'a> {
    ghost use Rattle.std.specs.Option.{option_copied};
    ghost use Rattle.cr_view.specs.PaperSeen.{PaperSeen};

    ghost Value = { PaperSeen };

    ghost view = { λ f. record {
      paper = f.paper;
      by = f.by;
      label = f.label;
      decision = f.decision;
      kept = option_copied f.kept;
    } };
}

/// What they are. No call takes memory, or reads the tables.
impl<'a> PaperFacts<'a> {
    /// Returns the paper's number.
    pub fn paper(&self) -> PaperNo
        ensures { result ≡ self.now.paper }
    {
        self.paper
    }

    /// Returns the caller's standing at it.
    pub fn by(&self) -> &Standing
        ensures { result.now ≡ self.now.by }
    {
        &self.by
    }

    /// Returns the ordinal of the label under which the user reviews it, if the user does.
    pub fn label(&self) -> Option<Ordinal>
        ensures { result ≡ self.now.label }
    {
        self.label
    }

    /// Returns whether it is withdrawn; false if there is no such paper.
    pub fn is_withdrawn(&self) -> bool
        ensures { result ≡ withdrawn_seen self.now }
    {
        match self.kept {
            Some(paper) => paper.withdrawn,
            None => false,
        }
    }

    /// Returns whether it is accepted.
    pub fn is_accepted(&self) -> bool
        ensures { result ≡ accepted_seen self.now }
    {
        is_accepted_when(self.by.phase, self.is_withdrawn(), self.decision)
    }

    /// Returns what was decided of it last: to accept it, if it is accepted.
    pub fn decision(&self) -> Option<Decision>
        ensures { result ≡ decision_seen self.now }
    {
        if self.is_accepted() {
            return Some(Decision::Accept);
        }
        self.decision
    }

    /// Returns its last title, or `None` if there is no such paper.
    pub fn title(&self) -> Option<&'a Text>
        ensures { option_copied result ≡ title_seen self.now }
    {
        match self.kept {
            Some(paper) => Some(&paper.title),
            None => None,
        }
    }

    /// Returns its last abstract, or `None` if there is no such paper.
    fn abstract_text(&self) -> Option<&'a Text>
        ensures { option_copied result ≡ abstract_seen self.now }
    {
        match self.kept {
            Some(paper) => Some(&paper.abstract_),
            None => None,
        }
    }
}

/// What the caller is told of them.
impl<'a> PaperFacts<'a> {
    /// Returns the title, if it is told.
    pub fn title_told(&self) -> Option<&'a Text>
        ensures { option_copied result ≡ where_told (gets_title self.now.by (accepted_seen self.now))
            (title_seen self.now) }
    {
        if !gets_title(&self.by, self.is_accepted()) {
            return None;
        }
        self.title()
    }

    /// Returns the abstract, if it is told.
    pub fn abstract_told(&self) -> Option<&'a Text>
        ensures { option_copied result ≡ where_told (gets_abstract self.now.by (accepted_seen self.now))
            (abstract_seen self.now) }
    {
        if !gets_abstract(&self.by, self.is_accepted()) {
            return None;
        }
        self.abstract_text()
    }

    /// Returns what was decided of the paper, if it is told.
    pub fn decision_told(&self) -> Option<Option<Decision>>
        ensures { result ≡ where_told (gets_decision self.now.by (accepted_seen self.now))
            (Some (decision_seen self.now)) }
    {
        if !gets_decision(&self.by, self.is_accepted()) {
            return None;
        }
        Some(self.decision())
    }

    /// Returns whether the paper is withdrawn, if that is told.
    pub fn withdrawal_told(&self) -> Option<bool>
        ensures { result ≡ where_told (gets_withdrawn self.now.by) (Some (withdrawn_seen self.now)) }
    {
        withdrawn_told(&self.by, self.is_withdrawn())
    }

    /// Returns whether the user is in conflict with it, if that is told.
    pub(crate) fn conflict_told(&self) -> Option<bool>
        ensures { result ≡ where_told (gets_conflict self.now.by) (Some self.now.by.conflicted) }
    {
        conflict_told(&self.by)
    }

    /// Returns the ordinal of their label, if the user is told it.
    pub fn label_told(&self) -> Option<Ordinal>
        ensures { result ≡ where_told (gets_label self.now.by) self.now.label }
    {
        if !gets_label(&self.by) {
            return None;
        }
        self.label
    }
}

/// How they are read.
impl Live {
    /// Returns what a user, or an unauthenticated caller, is to the paper: a step for each of its authors and its
    /// seats at most, and those of a search among the users declared in conflict with it, and of one among those
    /// invited to it.
    fn tie_to<L: Ledger>(
        &self,
        user: &Option<UserNo>,
        paper: PaperNo,
        steps: &mut Steps<L>,
    ) -> PaperTie
        ensures tie { result ≡ tie_at self.now.tables user.now paper }
        ensures steps { TakesAtMost (tie_reads self.now.tables paper) steps.old steps.new }
    {
        match user {
            Some(user) => self.tie_of(*user, paper, steps),
            None => PaperTie {
                author: false,
                conflicted: false,
                label: None,
                external: false,
            },
        }
    }

    /// Returns what a user is to the paper.
    fn tie_of<L: Ledger>(&self, user: UserNo, paper: PaperNo, steps: &mut Steps<L>) -> PaperTie
        ensures tie { result ≡ tie_at self.now.tables (Some user) paper }
        ensures steps { TakesAtMost (tie_reads self.now.tables paper) steps.old steps.new }
    {
        let author = self.ties.is_author(user, paper, steps);
        let declared = self.ties.is_declared(user, paper, steps);
        let label = self.seats.ordinal_of(user, paper, steps);
        let role = self.accounts.standing_for(&Some(user));
        let external = self.seats.is_external(user, paper, role, steps);
        PaperTie {
            author,
            conflicted: author || declared,
            label,
            external,
        }
    }

    /// Returns what a user, or an unauthenticated caller, is to the conference, and to a paper to which the user has
    /// this tie.
    ///
    /// # Cost
    ///
    /// Two steps.
    fn stance<L: Ledger>(
        &self,
        user: &Option<UserNo>,
        tie: &PaperTie,
        steps: &mut Steps<L>,
    ) -> Standing
        ensures standing { result ≡ stance_at self.now.tables user.now tie.now }
        ensures steps { TakesAtMost 2 steps.old steps.new }
    {
        let phase = self.stage.phase(steps);
        let mode = self.stage.mode(steps);
        Standing {
            phase,
            mode,
            role: self.accounts.standing_for(user),
            author: tie.author,
            conflicted: tie.conflicted,
            reviewer: tie.label.is_some(),
            external: tie.external,
        }
    }

    /// Returns the facts of the paper for a user, or an unauthenticated caller; they don't depend on the number if
    /// there is no such paper.
    ///
    /// # Cost
    ///
    /// Takes no memory. Found by number: a step for each of its authors and its seats at most, those of a search among
    /// the users declared in conflict with it, of one among those invited to it, and four.
    pub fn facts<L: Ledger>(
        &self,
        user: &Option<UserNo>,
        paper: PaperNo,
        steps: &mut Steps<L>,
    ) -> PaperFacts<'_>
        ensures facts { result ≡ paper_seen_at self.now.tables user.now paper }
        ensures steps { TakesAtMost (facts_reads self.now.tables paper) steps.old steps.new }
    {
        let tie = self.tie_to(user, paper, steps);
        let by = self.stance(user, &tie, steps);
        let decision = self.decisions.last(paper, steps);
        let kept = self.papers.paper_of(paper, steps);
        PaperFacts {
            paper,
            by,
            label: tie.label,
            decision,
            kept,
        }
    }

    /// Returns the standing of a user, or an unauthenticated caller, at the conference and at a paper, if one is
    /// named. An unauthenticated caller is an `Account` without ties.
    ///
    /// # Cost
    ///
    /// Takes no memory. Of the paper it reads the authors, the seats and, by a search each, the conflicts and the
    /// invitations.
    pub fn standing(&self, user: &Option<UserNo>, paper: &Option<PaperNo>) -> Standing
        ensures { result ≡ standing_at self.now.tables user.now paper.now }
    {
        let steps = &mut Steps::uncounted();
        let tie = self.tie_where(user, paper, steps);
        self.stance(user, &tie, steps)
    }

    /// Returns what a user, or an unauthenticated caller, is to a paper, where one is named; nothing where none is.
    fn tie_where(
        &self,
        user: &Option<UserNo>,
        paper: &Option<PaperNo>,
        steps: &mut Steps<Uncounted>,
    ) -> PaperTie
        ensures { (standing_at self.now.tables user.now paper.now) ≡ stance_at self.now.tables user.now result }
    {
        match paper {
            Some(paper) => self.tie_to(user, *paper, steps),
            None => PaperTie {
                author: false,
                conflicted: false,
                label: None,
                external: false,
            },
        }
    }
}
