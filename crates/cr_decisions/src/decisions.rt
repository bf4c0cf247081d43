// SPDX-License-Identifier: Apache-2.0 OR MIT
//! The decisions on papers.
ghost use Rattle.std.specs.Prelude.{◌≡◌, [], ◌∷◌, OnOk, IfOk, is_some};
ghost use Rattle.std.specs.List.{filter_map};
ghost use Rattle.std.specs.Option.{IfSome};
ghost use Rattle.cr_base.specs.Checks.{judged, decide_checks};
ghost use Rattle.cr_base.specs.Decisions.{no_decisions, decisions_after, decision_in};
ghost use Rattle.cr_base.specs.History.{History};
ghost use Rattle.cr_base.specs.Steps.{Takes, TakesAtMost};
ghost use Rattle.cr_decisions.specs.Room.{paper_decided, DecisionsHaveRoom};

use cr_base::{Decision, Entry, PaperNo, Rule, Stamped, Standing, Steps};
use cr_kept::Cabinet;
use std::alloc::{AllocError, Global};
use std::marker::Model;
use std::sync::ledger::Ledger;

/// What was decided of papers: all decisions on each, in the order in which they came. The last one counts.
///
/// # Model
///
/// The decisions paper by paper, and for how many more on each there is room.
#[derive(Drop)]
pub struct Decisions {
    alloc: Global,
    decisions: Cabinet<Decision>,
}

impl Model for Decisions {
    ghost use Rattle.cr_decisions.specs.Seen.{SeenDecisions};

    ghost Value = { SeenDecisions };

    ghost view = { λ d. record { decisions = d.decisions.files; rooms = d.decisions.rooms } };
}

/// What is read.
impl Decisions {
    /// Creates one without decisions.
    ///
    /// # Cost
    ///
    /// Takes no memory.
    pub fn new(alloc: Global) -> Decisions
        ensures { result.decisions ≡ no_decisions }
    {
        Decisions {
            alloc,
            decisions: Cabinet::new(alloc),
        }
    }

    /// Returns the last decision on the paper, or `None` if there is none or no such paper.
    ///
    /// # Cost
    ///
    /// Found by number; a step where there is one. Takes no memory.
    pub fn last<L: Ledger>(&self, paper: PaperNo, steps: &mut Steps<L>) -> Option<Decision>
        ensures value { result ≡ decision_in self.now.decisions paper }
        ensures steps { TakesAtMost 1 steps.old steps.new }
        ensures told { IfSome result (λ value. Takes 1 steps.old steps.new) }
    {
        self.decisions.last(paper, steps).copied()
    }

    /// Checks whether the caller may decide on this paper. `by` is the caller's standing at the paper; `paper` is none
    /// if there is no such paper. Whether it is withdrawn is in none of the decisions, and no rule asks what was
    /// decided before.
    ///
    /// # Errors
    ///
    /// The first broken rule, in this order: `NoPaper`, `NotChair`, `Conflict` if the caller is in conflict with the
    /// paper, `WrongPhase` if it isn't the discussion, `Withdrawn`.
    ///
    /// # Cost
    ///
    /// Takes no search and no memory.
    pub fn judge_decide(
        &self,
        by: &Standing,
        paper: &Option<PaperNo>,
        withdrawn: bool,
    ) -> Result<(), Rule>
        ensures { result
            ≡ judged (decide_checks by.now (record { there = is_some paper.now; withdrawn = withdrawn })) tt }
    {
        if paper.is_none() {
            return Err(Rule::NoPaper);
        }
        if !by.role.is_chair() {
            return Err(Rule::NotChair);
        }
        if by.conflicted {
            return Err(Rule::Conflict);
        }
        if !by.phase.decisions_are_made() {
            return Err(Rule::WrongPhase);
        }
        if withdrawn {
            return Err(Rule::Withdrawn);
        }
        Ok(())
    }
}

/// What entries make of it.
impl Decisions {
    /// Takes the memory that the entries of one command need. The decisions don't change.
    ///
    /// # Errors
    ///
    /// If memory runs out.
    ///
    /// # Cost
    ///
    /// Each paper on which they decide is compared with those before it.
    pub fn room(&mut self, group: &[Stamped]) -> Result<(), AllocError>
        ensures ok { OnOk result (DecisionsHaveRoom group.now self.new.rooms) }
        ensures same { self.new.decisions ≡ self.old.decisions }
        ensures keeps { (any : History) → DecisionsHaveRoom any self.old.rooms → DecisionsHaveRoom any self.new.rooms }
    {
        let papers = papers_decided(self.alloc, group)?;
        self.decisions.room(&papers)
    }

    /// Applies one more entry, for which there is room.
    ///
    /// # Cost
    ///
    /// A decision costs one read by number, and moves none of the others. Takes no memory.
    pub fn apply(&mut self, stamped: &Stamped)
        requires { DecisionsHaveRoom (stamped.now ∷ []) self.old.rooms }
        ensures after { self.new.decisions ≡ decisions_after self.old.decisions stamped.now.entry }
        ensures room { (rest : History)
            → DecisionsHaveRoom (stamped.now ∷ rest) self.old.rooms → DecisionsHaveRoom rest self.new.rooms }
    {
        match &stamped.entry {
            Entry::Decided { paper, decision } => self.decisions.file(*paper, *decision),
            _ => {}
        }
    }
}

/// Returns the paper on which the entry decides, if it does.
fn paper_decided(stamped: &Stamped) -> Option<PaperNo>
    ensures { result ≡ paper_decided stamped.now }
{
    match &stamped.entry {
        Entry::Decided { paper, .. } => Some(*paper),
        _ => None,
    }
}

/// Returns the papers on which the entries decide, as often as they do.
fn papers_decided(alloc: Global, group: &[Stamped]) -> Result<Vec<PaperNo>, AllocError>
    ensures { IfOk result (λ papers. papers.items ≡ filter_map paper_decided group.now) }
{
    group
        .iter()
        .filter_map(|stamped| paper_decided(stamped))
        .collect(alloc)
}
