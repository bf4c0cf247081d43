// SPDX-License-Identifier: Apache-2.0 OR MIT
//! The forms that reviewers have written of papers.
ghost use Rattle.std.specs.Prelude.{◌≡◌, ℕ, ◌<◌, ◌+◌, ◌^◌, [], ◌∷◌, OnOk, IfOk, length, is_some, unwrap_or};
ghost use Rattle.std.specs.List.{filter_map};
ghost use Rattle.std.specs.Option.{option_copied};
ghost use Rattle.cr_base.specs.Checks.{judged, review_checks};
ghost use Rattle.cr_base.specs.Filed.{filed_of};
ghost use Rattle.cr_base.specs.History.{History};
ghost use Rattle.cr_base.specs.Lists.{last};
ghost use Rattle.cr_base.specs.Reviews.{no_reviews, reviews_after, last_form_in};
ghost use Rattle.cr_base.specs.Reviews.{last_form_before, forms_from, is_written_in};
ghost use Rattle.cr_base.specs.Steps.{Takes};
ghost use Rattle.cr_reviews.specs.Labels.{has_label};
ghost use Rattle.cr_reviews.specs.Room.{paper_reviewed, ReviewsHaveRoom};
ghost use Rattle.cr_reviews.specs.Under.{forms_by};

use crate::forms::{Written, count_under, has_under, labels_of, last_of};
use crate::labels::Labels;
use cr_base::{Entry, Ordinal, PaperNo, Phase, Rule, Stamped, Standing, Steps, WrittenForm};
use cr_kept::Cabinet;
use std::alloc::{AllocError, Global};
use std::marker::Model;
use std::sync::ledger::Ledger;

/// The forms of each paper in the order in which they were written, all of them; and the phase, which each form takes
/// over when it is written.
///
/// # Model
///
/// The phase and the forms paper by paper, and for how many more forms of each paper there is room.
#[derive(Drop)]
pub struct Reviews {
    alloc: Global,
    phase: Phase,
    forms: Cabinet<WrittenForm>,
}

impl Model for Reviews {
    ghost use Rattle.cr_reviews.specs.Seen.{SeenReviews};

    ghost Value = { SeenReviews };

    ghost view = { λ t. record {
      reviews = record { phase = t.phase; forms = t.forms.files };
      rooms = t.forms.rooms;
    } };
}

/// What is read.
impl Reviews {
    /// Creates one without forms, in the first phase.
    ///
    /// # Cost
    ///
    /// Takes no memory.
    pub fn new(alloc: Global) -> Reviews
        ensures { result.reviews ≡ no_reviews }
    {
        Reviews {
            alloc,
            phase: Phase::Setup,
            forms: Cabinet::new(alloc),
        }
    }

    /// Returns the forms of the paper, under all labels, in the order in which they were written; none if there is no
    /// such paper.
    ///
    /// # Cost
    ///
    /// Found by number, to be read: a step for each. Takes no memory.
    pub fn forms<L: Ledger>(&self, paper: PaperNo, steps: &mut Steps<L>) -> &[WrittenForm]
        ensures forms { result.now ≡ filed_of paper self.now.reviews.forms }
        ensures steps { Takes (length (filed_of paper self.now.reviews.forms)) steps.old steps.new }
    {
        self.forms.of_paper(paper, steps)
    }

    /// Returns the last form under the paper's label of this ordinal, or `None` if there is none.
    ///
    /// # Cost
    ///
    /// Found by number, and a walk over the paper's forms: a step for each of them.
    pub fn last<L: Ledger>(
        &self,
        paper: PaperNo,
        ordinal: Ordinal,
        steps: &mut Steps<L>,
    ) -> Option<&WrittenForm>
        ensures value { option_copied result ≡ last_form_in self.now.reviews paper ordinal }
        ensures steps { Takes (length (filed_of paper self.now.reviews.forms)) steps.old steps.new }
    {
        last_of(self.forms(paper, steps), ordinal, Written::Ever)
    }

    /// Returns the last of them that was written before the phase began, or `None` if there is none.
    ///
    /// # Cost
    ///
    /// That of `last`.
    pub fn last_before<L: Ledger>(
        &self,
        paper: PaperNo,
        ordinal: Ordinal,
        phase: Phase,
        steps: &mut Steps<L>,
    ) -> Option<&WrittenForm>
        ensures value { option_copied result ≡ last_form_before self.now.reviews paper ordinal phase }
        ensures steps { Takes (length (filed_of paper self.now.reviews.forms)) steps.old steps.new }
    {
        last_of(self.forms(paper, steps), ordinal, Written::Before(phase))
    }

    /// Returns the last of them that was written in the phase or later, or `None` if there is none.
    ///
    /// # Cost
    ///
    /// That of `last`.
    pub fn last_since<L: Ledger>(
        &self,
        paper: PaperNo,
        ordinal: Ordinal,
        phase: Phase,
        steps: &mut Steps<L>,
    ) -> Option<&WrittenForm>
        ensures value { option_copied result ≡ last (forms_from self.now.reviews paper ordinal phase) }
        ensures steps { Takes (length (filed_of paper self.now.reviews.forms)) steps.old steps.new }
    {
        last_of(self.forms(paper, steps), ordinal, Written::Since(phase))
    }

    /// Returns whether there is a form under the paper's label of this ordinal.
    ///
    /// # Cost
    ///
    /// Found by number, and a walk over the paper's forms: a step for each of them.
    pub fn has_form<L: Ledger>(
        &self,
        paper: PaperNo,
        ordinal: Ordinal,
        steps: &mut Steps<L>,
    ) -> bool
        ensures value { result ≡ is_written_in self.now.reviews paper ordinal }
        ensures steps { Takes (length (filed_of paper self.now.reviews.forms)) steps.old steps.new }
    {
        has_under(self.forms(paper, steps), ordinal)
    }

    /// Returns the labels of the paper under which there is a form.
    ///
    /// # Cost
    ///
    /// Found by number, and one walk over the paper's forms: a step for each of them.
    pub fn labels<L: Ledger>(&self, paper: PaperNo, steps: &mut Steps<L>) -> Labels
        ensures value { (o : ℕ) → has_label result o ≡ is_written_in self.now.reviews paper o }
        ensures steps { Takes (length (filed_of paper self.now.reviews.forms)) steps.old steps.new }
    {
        labels_of(self.forms(paper, steps), Written::Ever)
    }

    /// Returns those of them under which there is one that was written before the phase began.
    ///
    /// # Cost
    ///
    /// That of `labels`.
    pub fn labels_before<L: Ledger>(
        &self,
        paper: PaperNo,
        phase: Phase,
        steps: &mut Steps<L>,
    ) -> Labels
        ensures value { (o : ℕ)
            → has_label result o ≡ is_some (last_form_before self.now.reviews paper o phase) }
        ensures steps { Takes (length (filed_of paper self.now.reviews.forms)) steps.old steps.new }
    {
        labels_of(self.forms(paper, steps), Written::Before(phase))
    }

    /// Returns the version that a form under this label of this paper would be now, the count of forms under the label
    /// plus 1. `by` is the caller's standing at the paper, `ordinal` that of the label under which the caller reviews
    /// it, if the caller does; `paper` is none if there is no such paper. Whether it is withdrawn is in none of the
    /// forms. `late` is what `Stage::is_late` says at the request's moment.
    ///
    /// # Errors
    ///
    /// The first broken rule, in this order: `NoPaper`, `NotMember` if the caller is no external of the paper either,
    /// `Conflict`, `NotReviewer` if the caller doesn't review the paper, `WrongPhase` if it is neither the reviewing
    /// nor the discussion, `Late` if it is too late, `Withdrawn`.
    ///
    /// # Cost
    ///
    /// One read by number, and a walk over the paper's forms; takes no memory.
    pub fn judge_review(
        &self,
        by: &Standing,
        paper: &Option<PaperNo>,
        ordinal: &Option<Ordinal>,
        withdrawn: bool,
        late: bool,
    ) -> Result<u64, Rule>
        ensures { result ≡ judged
            (review_checks by.now (record { there = is_some paper.now; withdrawn = withdrawn }) late)
            (length (forms_by self.now.reviews (unwrap_or paper.now 0) ordinal.now) + 1) }
    {
        let Some(paper) = paper else {
            return Err(Rule::NoPaper);
        };
        if !by.is_admitted() {
            return Err(Rule::NotMember);
        }
        if by.conflicted {
            return Err(Rule::Conflict);
        }
        if !by.reviewer {
            return Err(Rule::NotReviewer);
        }
        if !by.phase.reviews_are_written() {
            return Err(Rule::WrongPhase);
        }
        if late {
            return Err(Rule::Late);
        }
        if withdrawn {
            return Err(Rule::Withdrawn);
        }
        Ok(self.count_by(*paper, ordinal) + 1)
    }

    /// Returns how many forms there are under the paper's label of this ordinal, and 0 where none is told.
    fn count_by(&self, paper: PaperNo, ordinal: &Option<Ordinal>) -> u64
        ensures value { result ≡ length (forms_by self.now.reviews paper ordinal.now) }
        ensures few { result < 2 ^ 63 }
    {
        match ordinal {
            Some(ordinal) => {
                count_under(self.forms(paper, &mut Steps::uncounted()), *ordinal) as u64
            }
            None => 0,
        }
    }
}

/// What entries make of it.
impl Reviews {
    /// Takes the memory that the entries of one command need. The forms don't change.
    ///
    /// # Errors
    ///
    /// If memory runs out.
    ///
    /// # Cost
    ///
    /// Each paper of which they are reviews is compared with those before it.
    pub fn room(&mut self, group: &[Stamped]) -> Result<(), AllocError>
        ensures ok { OnOk result (ReviewsHaveRoom group.now self.new.rooms) }
        ensures same { self.new.reviews ≡ self.old.reviews }
        ensures keeps { (any : History) → ReviewsHaveRoom any self.old.rooms → ReviewsHaveRoom any self.new.rooms }
    {
        let papers = papers_reviewed(self.alloc, group)?;
        self.forms.room(&papers)
    }

    /// Applies one more entry, for which there is room. It is taken whole, since a form's texts are kept.
    ///
    /// # Cost
    ///
    /// A form costs one read by number, and moves none of the others. Takes no memory.
    pub fn apply(&mut self, stamped: Stamped)
        requires { ReviewsHaveRoom (stamped ∷ []) self.old.rooms }
        ensures after { self.new.reviews ≡ reviews_after self.old.reviews stamped.entry }
        ensures room { (rest : History)
            → ReviewsHaveRoom (stamped ∷ rest) self.old.rooms → ReviewsHaveRoom rest self.new.rooms }
    {
        let Stamped { entry, .. } = stamped;
        match entry {
            Entry::PhaseSet { phase } => self.phase = phase,
            Entry::Reviewed {
                paper,
                ordinal,
                version,
                form,
            } => {
                let phase = self.phase;
                self.forms.file(
                    paper,
                    WrittenForm {
                        ordinal,
                        version,
                        phase,
                        form,
                    },
                );
            }
            _ => {}
        }
    }
}

/// Returns the paper of which the entry is a review, if it is one.
fn paper_reviewed(stamped: &Stamped) -> Option<PaperNo>
    ensures { result ≡ paper_reviewed stamped.now }
{
    match &stamped.entry {
        Entry::Reviewed { paper, .. } => Some(*paper),
        _ => None,
    }
}

/// Returns the papers of the entries that are reviews, each as often as it is named.
fn papers_reviewed(alloc: Global, group: &[Stamped]) -> Result<Vec<PaperNo>, AllocError>
    ensures { IfOk result (λ papers. papers.items ≡ filter_map paper_reviewed group.now) }
{
    group
        .iter()
        .filter_map(|stamped| paper_reviewed(stamped))
        .collect(alloc)
}
