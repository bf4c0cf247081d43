// SPDX-License-Identifier: Apache-2.0 OR MIT
//! The phase, the mode and the deadlines of a history.
ghost use Rattle.std.specs.Prelude.{◌≡◌, ◌∷◌, [], not, ◌||◌};
ghost use Rattle.cr_base.specs.Checks.{judged, ◌breaks◌, phase_checks, deadline_checks, mode_checks};
ghost use Rattle.cr_base.specs.Deadlines.{deadline_in, with_deadline};
ghost use Rattle.cr_base.specs.Phases.{is_phase};
ghost use Rattle.cr_base.specs.Words.{is_chair};
ghost use Rattle.cr_base.specs.Stage.{first_stage, stage_after, is_late_in};
ghost use Rattle.cr_base.specs.Steps.{Takes};
ghost use Rattle.cr_base.specs.declared.words.Phase.TheVariants.{Response};

use cr_base::{
    Deadline, Deadlines, Entry, Kept, Mode, Moment, Phase, Rule, Stamped, Standing, Steps,
};
use std::marker::Model;
use std::sync::ledger::Ledger;

/// The phase and the mode of the conference, the deadlines of its phases, and whether the response was opened. Of
/// fixed size: no call takes memory, and none fails for lack of it.
///
/// # Model
///
/// All four.
#[derive(Drop)]
pub struct Stage {
    phase: Kept<Phase>,
    mode: Kept<Mode>,
    deadlines: Kept<Deadlines>,
    had_response: Kept<bool>,
}

impl Model for Stage {
    ghost use Rattle.cr_base.specs.Stage.{StageState};

    ghost Value = { StageState };

    ghost view = { λ s. record {
      phase = s.phase;
      mode = s.mode;
      deadlines = s.deadlines;
      had_response = s.had_response;
    } };
}

/// Checks whether the caller is a chair.
///
/// # Errors
///
/// `NotChair` if not.
fn chairs_only(by: &Standing) -> Result<(), Rule>
    ensures { result ≡ judged (not (is_chair by.now.role) breaks Rule.NotChair ∷ []) tt }
{
    if !by.role.is_chair() {
        return Err(Rule::NotChair);
    }
    Ok(())
}

impl Stage {
    /// Returns the stage of the empty history: setup, the mode is blind, no phase has a deadline, and no response was
    /// opened.
    pub fn new() -> Stage
        ensures { result ≡ first_stage }
    {
        Stage {
            phase: Kept::new(Phase::Setup),
            mode: Kept::new(Mode::Blind),
            deadlines: Kept::new(Deadlines::none()),
            had_response: Kept::new(false),
        }
    }

    /// Returns the phase.
    ///
    /// # Cost
    ///
    /// One step.
    pub fn phase<L: Ledger>(&self, steps: &mut Steps<L>) -> Phase
        ensures value { result ≡ self.now.phase }
        ensures steps { Takes 1 steps.old steps.new }
    {
        *self.phase.get(steps)
    }

    /// Returns the mode.
    ///
    /// # Cost
    ///
    /// One step.
    pub fn mode<L: Ledger>(&self, steps: &mut Steps<L>) -> Mode
        ensures value { result ≡ self.now.mode }
        ensures steps { Takes 1 steps.old steps.new }
    {
        *self.mode.get(steps)
    }

    /// Returns the deadline of a phase, or `None` if it has none: none was set, or it was taken away.
    pub fn deadline(&self, phase: Phase) -> Option<Deadline>
        ensures { result ≡ deadline_in self.now.deadlines phase }
    {
        self.deadlines.get(&mut Steps::uncounted()).of(phase)
    }

    /// Returns whether the response was opened: a conference may have skipped it.
    pub fn had_response(&self) -> bool
        ensures { result ≡ self.now.had_response }
    {
        *self.had_response.get(&mut Steps::uncounted())
    }

    /// Returns whether it is too late, at that moment, for what the phase opens: the phase that the conference is in
    /// has a deadline, and the moment is later. At the very second of the deadline it isn't.
    pub fn is_late(&self, at: Moment) -> bool
        ensures { result ≡ is_late_in self.now at }
    {
        match self.deadline(self.phase(&mut Steps::uncounted())) {
            Some(until) => until.is_past(at),
            None => false,
        }
    }

    /// Checks whether the caller may set this phase. `by` is the caller's standing, where no paper is named.
    ///
    /// # Errors
    ///
    /// The first broken rule: `NotChair` if the caller is no chair, else `WrongPhase` if the phase may not follow the
    /// one that the conference is in: from the reviewing both the response and the discussion may.
    pub fn judge_phase(&self, by: &Standing, to: Phase) -> Result<(), Rule>
        ensures { result ≡ judged (phase_checks by.now self.now.phase to) tt }
    {
        chairs_only(by)?;
        if !self.phase(&mut Steps::uncounted()).is_before(to) {
            return Err(Rule::WrongPhase);
        }
        Ok(())
    }

    /// Checks whether the caller may set a mode. `by` is the caller's standing, where no paper is named.
    ///
    /// # Errors
    ///
    /// The first broken rule: `NotChair` if the caller is no chair, else `WrongPhase` if the conference has left
    /// setup.
    pub fn judge_mode(&self, by: &Standing) -> Result<(), Rule>
        ensures { result ≡ judged (mode_checks by.now self.now.phase) tt }
    {
        chairs_only(by)?;
        if !self.phase(&mut Steps::uncounted()).mode_may_be_set() {
            return Err(Rule::WrongPhase);
        }
        Ok(())
    }

    /// Checks whether the caller may set a deadline of this phase, or clear it. `by` is the caller's standing, where
    /// no paper is named.
    ///
    /// # Errors
    ///
    /// The first broken rule: `NotChair` if the caller is no chair, else `WrongPhase` if the phase is over.
    pub fn judge_deadline(&self, by: &Standing, phase: Phase) -> Result<(), Rule>
        ensures { result ≡ judged (deadline_checks by.now self.now.phase phase) tt }
    {
        chairs_only(by)?;
        if !phase.is_from(self.phase(&mut Steps::uncounted())) {
            return Err(Rule::WrongPhase);
        }
        Ok(())
    }

    /// Applies one more entry. Needs no room, and any entry fits.
    pub fn apply(&mut self, stamped: &Stamped)
        ensures { self.new ≡ stage_after self.old stamped.now.entry }
    {
        match &stamped.entry {
            Entry::PhaseSet { phase } => self.set_phase(*phase),
            Entry::ModeSet { mode } => self.mode.set(*mode),
            Entry::DeadlineSet { phase, until } => self.set_deadline(*phase, *until),
            _ => {}
        }
    }

    /// Sets the phase; the response is opened with its phase.
    fn set_phase(&mut self, phase: Phase)
        ensures { self.new ≡ record self.old {
          phase = phase;
          had_response = is_phase phase Response || self.old.had_response;
        } }
    {
        self.phase.set(phase);
        if phase.is(Phase::Response) {
            self.had_response.set(true);
        }
    }

    /// Sets the deadline of this phase, or clears it.
    fn set_deadline(&mut self, phase: Phase, until: Option<Deadline>)
        ensures { self.new ≡ record self.old { deadlines = with_deadline phase until self.old.deadlines } }
    {
        let mut deadlines = *self.deadlines.get(&mut Steps::uncounted());
        deadlines.set(phase, until);
        self.deadlines.set(deadlines);
    }
}
