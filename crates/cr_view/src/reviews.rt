// SPDX-License-Identifier: Apache-2.0 OR MIT
//! What is answered of a paper's reviews.
ghost use Rattle.std.specs.Prelude.{◌≡◌, ◌++◌, ◌==◌, IfOk, OnOk, map, find};
ghost use Rattle.std.specs.Option.{option_map, option_copied};
ghost use Rattle.cr_base.specs.declared.command.Query.TheVariants as queries;
ghost use Rattle.cr_base.specs.Answering.{answer_by_role, authors_form};
ghost use Rattle.cr_base.specs.Labels.{by_labels, most_labels};
ghost use Rattle.cr_base.specs.Checks.{judged, of_there, reviews_checks};
ghost use Rattle.cr_base.specs.Lists.{listed};
ghost use Rattle.cr_base.specs.Page.{shows_reviewer};
ghost use Rattle.cr_base.specs.Reviews.{written_told};
ghost use Rattle.cr_base.specs.Sources.{shown_in_tables};
ghost use Rattle.cr_view.specs.Replies.{AnswersAsDue, ShowsAsDue, reader_at};
ghost use Rattle.cr_view.specs.Reviews.{review_line, forms_under, form_under, label_name};
ghost use Rattle.cr_view.specs.Reviews.{label_reviews, own_reviews, reviews_at, reviews_due};

use crate::live::Live;
use crate::page::shared_where;
use crate::queries::AnswerError;
use cr_anonymity::shows_reviewer;
use cr_base::{
    COMMITTEE_READS_FROM, MOST_LABELS, Ordinal, PaperNo, Phase, Reply, ReviewLine, ReviewLines,
    Rule, Seat, Short, Standing, Steps, Tie, UserNo, WrittenForm,
};
use std::alloc::{AllocError, Global};

/// A label under which reviews are told.
#[derive(Clone, Copy)]
pub(crate) struct Heading {
    /// True if they are told to an author of the paper.
    pub(crate) to_author: bool,
    /// The label's ordinal.
    pub(crate) label: Ordinal,
    /// The reviewer's name, if it is told.
    pub(crate) user: Option<Short>,
}

/// Returns what is told of a form under a label. Shares the texts.
///
/// # Errors
///
/// If memory runs out.
fn review_line(heading: &Heading, written: &WrittenForm) -> Result<ReviewLine, AllocError>
    ensures { IfOk result (λ line. line ≡ review_line heading.now (written_told written.now)) }
{
    let form = &written.form;
    let to_authors = form.to_authors.copy()?;
    let to_pc = shared_where(!heading.to_author, Some(&form.to_pc))?;
    Ok(ReviewLine {
        confidence: form.confidence,
        label: heading.label,
        score: form.score,
        to_authors,
        to_pc,
        user: heading.user,
        version: version_told(heading, written),
    })
}

/// Returns the number of a form, if it is told.
fn version_told(heading: &Heading, written: &WrittenForm) -> Option<u64>
    ensures { result ≡ (review_line heading.now (written_told written.now)).version }
{
    if heading.to_author {
        return None;
    }
    Some(written.version)
}

/// Adds what is told of a form, where there is one.
///
/// # Errors
///
/// If memory runs out.
fn push_form(
    lines: &mut Vec<ReviewLine>,
    heading: &Heading,
    written: Option<&WrittenForm>,
) -> Result<(), AllocError>
    ensures { OnOk result (lines.new.items
        ≡ lines.old.items ++ map (review_line heading.now) (map written_told (listed (option_copied written.entry)))) }
{
    if let Some(written) = written {
        lines.push(review_line(heading, written)?)?;
    }
    Ok(())
}

/// Returns the form, if it is under the label and was written in the phase or later.
fn form_under(written: &WrittenForm, label: Ordinal, phase: Phase) -> Option<&WrittenForm>
    ensures { option_copied result ≡ form_under label phase written.now }
{
    if written.is_under(label) && written.phase.is_from(phase) {
        Some(written)
    } else {
        None
    }
}

/// Adds what is told of those of the forms that are under the label and were written in the phase or later.
///
/// # Errors
///
/// If memory runs out.
///
/// # Cost
///
/// A walk over the forms.
fn push_forms(
    lines: &mut Vec<ReviewLine>,
    heading: &Heading,
    forms: &[WrittenForm],
    phase: Phase,
) -> Result<(), AllocError>
    ensures { OnOk result (lines.new.items
        ≡ lines.old.items ++ map (review_line heading.now)
        (map written_told (forms_under heading.now.label phase forms.now))) }
{
    for written in forms {
        push_form(lines, heading, form_under(written, heading.label, phase))?;
    }
    Ok(())
}

/// Returns who was assigned under the label, whether the user has left since or not.
///
/// # Cost
///
/// A walk over the seats.
fn user_under(seats: &[Tie<Seat>], label: Ordinal) -> Option<UserNo>
    ensures { result ≡ option_map (λ seat. seat.pair.user) (find (λ seat. seat.value.ordinal == label) seats.now) }
{
    let seat = seats.iter().find(|seat| seat.value.ordinal == label)?;
    Some(seat.pair.user)
}

/// Checks whether a caller with this standing at a paper, which is there or isn't, may ask for its reviews, if the
/// response was opened or wasn't.
///
/// # Errors
///
/// The first broken rule.
pub(crate) fn reviews_rule(by: &Standing, opened: bool, there: bool) -> Result<(), Rule>
    ensures { result ≡ judged (reviews_checks by.now opened (of_there there)) tt }
{
    if !there {
        return Err(Rule::NoPaper);
    }
    if by.author {
        if !by.phase.authors_read_reviews() && !opened {
            return Err(Rule::WrongPhase);
        }
        return Ok(());
    }
    if !by.is_admitted() {
        return Err(Rule::NotMember);
    }
    if by.conflicted {
        return Err(Rule::Conflict);
    }
    if by.reads_all_forms() {
        return Ok(());
    }
    if !by.reads_own_forms() {
        return Err(Rule::WrongPhase);
    }
    Ok(())
}

/// Who may read reviews.
impl Live {
    /// Returns the reviews of a paper as a user, or an unauthenticated caller, is told them. Fails for lack of memory
    /// only if no rule is broken. Shares the texts that are told, and no others. Authors, and members from the
    /// discussion on, cost a walk over the paper's forms, and two more at most for each label under which there is
    /// one; a reviewer before it costs one.
    ///
    /// # Errors
    ///
    /// The first broken rule: `NoPaper` if there is no such paper; of its authors `WrongPhase` before the
    /// notification, unless the response was opened; of others `NotMember`, else `Conflict` if the user is in conflict
    /// with it, else `WrongPhase`: of a member before the discussion, unless the reviewing has begun and the user
    /// reviews it; of an external who doesn't review it, or before the reviewing.
    pub fn reviews_for(
        &self,
        alloc: Global,
        user: &Option<UserNo>,
        paper: &Option<PaperNo>,
    ) -> Result<ReviewLines, AnswerError>
        ensures { ShowsAsDue result (reviews_due self.now.tables user.now paper.now) }
    {
        let by = match self.reviews_reader(user, paper) {
            Ok(by) => by,
            Err(rule) => return Err(AnswerError::Rule(rule)),
        };
        match paper {
            Some(paper) => Ok(self.reviews(alloc, user, &by, *paper)?),
            None => unreachable!(),
        }
    }

    /// Returns this as a reply.
    pub(crate) fn reviews_reply(
        &self,
        alloc: Global,
        user: &Option<UserNo>,
        paper: &Option<PaperNo>,
    ) -> Result<Reply, AnswerError>
        ensures { AnswersAsDue result (answer_by_role self.now.tables user.now (queries.Reviews paper.now)) }
    {
        match self.reviews_for(alloc, user, paper) {
            Ok(lines) => Ok(Reply::Reviews(lines)),
            Err(error) => Err(error),
        }
    }

    /// Returns the caller's standing at the paper whose reviews the user may ask for.
    ///
    /// # Errors
    ///
    /// The first broken rule.
    pub(crate) fn reviews_reader(
        &self,
        user: &Option<UserNo>,
        paper: &Option<PaperNo>,
    ) -> Result<Standing, Rule>
        ensures { result ≡ reader_at queries.Reviews self.now.tables user.now paper.now }
    {
        let by = self.standing(user, paper);
        match reviews_rule(&by, self.stage.had_response(), self.has_paper(paper)) {
            Ok(()) => Ok(by),
            Err(rule) => Err(rule),
        }
    }
}

/// What is told.
impl Live {
    /// Returns the reviews that a caller with this standing at the paper is told.
    fn reviews(
        &self,
        alloc: Global,
        user: &Option<UserNo>,
        by: &Standing,
        paper: PaperNo,
    ) -> Result<ReviewLines, AllocError>
        ensures { IfOk result (λ lines. lines ≡ reviews_at self.now.tables user.now by.now paper) }
    {
        if by.author || by.reads_all_forms() {
            return self.all_reviews(alloc, by, paper);
        }
        self.own_reviews(alloc, user, by, paper)
    }

    /// Returns the forms of every label that are told, by label, those of a label by version.
    fn all_reviews(
        &self,
        alloc: Global,
        by: &Standing,
        paper: PaperNo,
    ) -> Result<ReviewLines, AllocError>
        ensures { IfOk result (λ lines. lines ≡ by_labels (label_reviews self.now.tables by.now paper) most_labels) }
    {
        let written = self.reviews.labels(paper, &mut Steps::uncounted());
        let mut lines = Vec::new(alloc);
        for before in 0..MOST_LABELS {
            let label = Ordinal::new(before + 1);
            if written.has(label) {
                self.push_label(&mut lines, by, paper, label)?;
            }
        }
        Ok(ReviewLines::from_vec(lines))
    }

    /// Adds the forms of a label that are told: to authors one; to others the last that was written before the
    /// discussion, and all later ones.
    fn push_label(
        &self,
        lines: &mut Vec<ReviewLine>,
        by: &Standing,
        paper: PaperNo,
        label: Ordinal,
    ) -> Result<(), AllocError>
        ensures { OnOk result (lines.new.items ≡ lines.old.items ++ label_reviews self.now.tables by.now paper label) }
    {
        let heading = Heading {
            to_author: by.author,
            label,
            user: self.label_name(by, paper, label),
        };
        if by.author {
            return push_form(lines, &heading, self.authors_form(by, paper, label));
        }
        let before = self.reviews.last_before(
            paper,
            label,
            COMMITTEE_READS_FROM,
            &mut Steps::uncounted(),
        );
        push_form(lines, &heading, before)?;
        let forms = self.reviews.forms(paper, &mut Steps::uncounted());
        push_forms(lines, &heading, forms, COMMITTEE_READS_FROM)
    }

    /// Returns the form of a label that its paper's authors are told: from the notification on the last; and before it
    /// the last that was written before the response, if that was opened.
    fn authors_form(&self, by: &Standing, paper: PaperNo, label: Ordinal) -> Option<&WrittenForm>
        ensures { option_map written_told (option_copied result)
            ≡ authors_form (shown_in_tables self.now.tables) by.now paper label }
    {
        let steps = &mut Steps::uncounted();
        if by.phase.authors_read_reviews() {
            return self.reviews.last(paper, label, steps);
        }
        if !self.stage.had_response() {
            return None;
        }
        self.reviews
            .last_before(paper, label, Phase::Response, steps)
    }

    /// Returns the name of a user who was assigned under the label, if it is told.
    ///
    /// # Cost
    ///
    /// Found by number: a walk over the paper's seats and one read by number, if it is.
    pub fn label_name(&self, by: &Standing, paper: PaperNo, label: Ordinal) -> Option<Short>
        ensures { result ≡ label_name self.now.tables (shows_reviewer by.now) paper label }
    {
        if !shows_reviewer(by) {
            return None;
        }
        let user = user_under(self.seats.seats(paper, &mut Steps::uncounted()), label)?;
        self.accounts.name_of(user)
    }

    /// Returns the user's own forms, without their name; none if the user doesn't review the paper.
    fn own_reviews(
        &self,
        alloc: Global,
        user: &Option<UserNo>,
        by: &Standing,
        paper: PaperNo,
    ) -> Result<ReviewLines, AllocError>
        ensures { IfOk result (λ lines. lines ≡ own_reviews self.now.tables user.now by.now paper) }
    {
        let mut lines = Vec::new(alloc);
        let Some(label) = self.ordinal_of(user, paper) else {
            return Ok(ReviewLines::from_vec(lines));
        };
        let heading = Heading {
            to_author: by.author,
            label,
            user: None,
        };
        push_forms(
            &mut lines,
            &heading,
            self.reviews.forms(paper, &mut Steps::uncounted()),
            Phase::Setup,
        )?;
        Ok(ReviewLines::from_vec(lines))
    }
}
