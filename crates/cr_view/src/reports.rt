// SPDX-License-Identifier: Apache-2.0 OR MIT
//! What reports ask of the tables: who may have one, and single facts of a paper, each read alone. None takes memory.
ghost use Rattle.std.specs.Prelude.{◌≡◌, ◌≤◌, ◌+◌, ◌*◌, ℕ, None, Some, length};
ghost use Rattle.std.specs.Option.{option_copied, option_map};
ghost use Rattle.cr_base.specs.Checks.{judged};
ghost use Rattle.cr_base.specs.Lists.{listed, total};
ghost use Rattle.cr_base.specs.Pairs.{ties_of};
ghost use Rattle.cr_base.specs.Reports.{chairs_report, last_scores, letter_checks};
ghost use Rattle.cr_base.specs.Reports.{members_report, report_checks};
ghost use Rattle.cr_base.specs.Reviews.{is_written_in, last_form_in, written_told};
ghost use Rattle.cr_base.specs.Sources.{facts_of_tables, shown_in_tables};
ghost use Rattle.cr_base.specs.declared.pairs.Order.TheVariants.{ByPaper};
ghost use Rattle.cr_reviews.specs.Labels.{has_label};
ghost use Rattle.cr_view.specs.Reports.{last_discussed, score_sum, score_under};

use crate::live::Live;
use cr_base::{
    COMMITTEE_READS_FROM, Grade, MOST_LABELS, Ordinal, PaperNo, Report, Rule, Seat, Standing,
    Steps, Tie, UserNo, WrittenForm,
};
use cr_reviews::Labels;

/// Checks whether a caller with this standing may have a report for members; `seen` says whether members see by now
/// what it tells.
///
/// # Errors
///
/// The first broken rule.
fn members_report(by: &Standing, seen: bool) -> Result<(), Rule>
    ensures { result ≡ judged (members_report by.now seen) tt }
{
    if !by.role.is_member() {
        return Err(Rule::NotMember);
    }
    if !seen {
        return Err(Rule::WrongPhase);
    }
    Ok(())
}

/// Checks whether a caller with this standing may have a report for chairs; `seen` says whether they see by now what
/// it tells.
///
/// # Errors
///
/// The first broken rule.
fn chairs_report(by: &Standing, seen: bool) -> Result<(), Rule>
    ensures { result ≡ judged (chairs_report by.now seen) tt }
{
    if !by.role.is_chair() {
        return Err(Rule::NotChair);
    }
    if !seen {
        return Err(Rule::WrongPhase);
    }
    Ok(())
}

/// Checks whether a caller with this standing at a paper, which is there or isn't, may have the letter on it.
///
/// # Errors
///
/// The first broken rule.
fn letter_rule(by: &Standing, there: bool) -> Result<(), Rule>
    ensures { result ≡ judged (letter_checks by.now there) tt }
{
    if !there {
        return Err(Rule::NoPaper);
    }
    if !by.author {
        return Err(Rule::NotAuthor);
    }
    if !by.phase.letters_are_sent() {
        return Err(Rule::WrongPhase);
    }
    Ok(())
}

/// Who may have a report.
impl Live {
    /// Checks whether a user, or an unauthenticated caller, may have the report. A few reads by number.
    ///
    /// # Errors
    ///
    /// The first broken rule: `NotMember` or, of the load, `NotChair`, of a letter `NoPaper` and then `NotAuthor`, and
    /// last `WrongPhase`.
    pub fn may_have(&self, user: &Option<UserNo>, report: &Report) -> Result<(), Rule>
        ensures { result ≡ judged (report_checks (facts_of_tables self.now.tables user.now) report.now) tt }
    {
        let by = self.standing(user, &None);
        match report {
            Report::Papers => members_report(&by, by.phase.members_see_papers()),
            Report::Scores => members_report(&by, by.phase.members_read_reviews()),
            Report::Load => chairs_report(&by, by.phase.chairs_see_reviewers()),
            Report::Decisions => members_report(&by, by.phase.members_read_decisions()),
            Report::Letter { paper } => {
                letter_rule(&self.standing(user, paper), self.has_paper(paper))
            }
        }
    }
}

/// Its reviewers, and whether they have written.
impl Live {
    /// Returns the seats of all who were ever assigned to it, at most 26, those that somebody has left among them.
    ///
    /// # Cost
    ///
    /// Found by number.
    pub fn seats(&self, paper: PaperNo) -> &[Tie<Seat>]
        ensures ties { result.now ≡ ties_of ByPaper paper self.now.tables.seats }
        ensures few { length result.now ≤ 26 }
    {
        self.seats.seats(paper, &mut Steps::uncounted())
    }

    /// Returns whether there is a form under its label of this ordinal.
    ///
    /// # Cost
    ///
    /// Found by number, and a walk over its forms up to the first.
    pub fn is_written(&self, paper: PaperNo, label: Ordinal) -> bool
        ensures { result ≡ is_written_in self.now.tables.reviews paper label }
    {
        self.reviews.has_form(paper, label, &mut Steps::uncounted())
    }

    /// Returns the last form under the label.
    ///
    /// # Cost
    ///
    /// Found by number, and a walk over its forms back to it.
    pub fn last_form(&self, paper: PaperNo, label: Ordinal) -> Option<&WrittenForm>
        ensures { option_copied result ≡ last_form_in self.now.tables.reviews paper label }
    {
        self.reviews.last(paper, label, &mut Steps::uncounted())
    }
}

/// How many scores a paper has, and their sum.
#[derive(Clone, Copy)]
pub struct ScoreSum {
    /// How many there are: 0 to 26.
    pub count: u64,
    /// Their sum, at most 130.
    pub sum: u64,
}

impl ScoreSum {
    /// Returns the sum with one more score, if there is one.
    fn with(self, score: Option<Grade>) -> ScoreSum
        requires count { self.count ≤ 26 }
        requires sum { self.sum ≤ 5 * self.count }
        ensures count { result.count ≡ self.count + length (listed score) }
        ensures sum { result.sum ≡ self.sum + total (listed score) }
        ensures low { result.sum ≤ 5 * result.count }
    {
        match score {
            Some(score) => ScoreSum {
                count: self.count + 1,
                sum: self.sum + score.number(),
            },
            None => self,
        }
    }
}

/// Its scores.
impl Live {
    /// Returns the scores of the last forms under its labels that the committee discusses, counted and summed.
    ///
    /// # Cost
    ///
    /// A walk over its forms, and for each label under which there is one two more at most.
    pub fn scores(&self, paper: PaperNo) -> ScoreSum
        ensures value { result ≡ score_sum (last_scores (shown_in_tables self.now.tables) paper) }
        ensures count { result.count ≤ 26 }
        ensures sum { result.sum ≤ 5 * result.count }
    {
        let written = self.reviews.labels(paper, &mut Steps::uncounted());
        let mut scores = ScoreSum { count: 0, sum: 0 };
        for before in 0..MOST_LABELS {
            scores = scores.with(self.score_under(&written, paper, Ordinal::new(before + 1)));
        }
        scores
    }

    /// Returns the score of the last form under the label that the committee discusses, where there is one under it.
    fn score_under(&self, written: &Labels, paper: PaperNo, label: Ordinal) -> Option<Grade>
        requires { (o : ℕ) → has_label written.now o ≡ is_written_in self.now.tables.reviews paper o }
        ensures { listed result ≡ score_under self.now.tables paper label }
    {
        if !written.has(label) {
            return None;
        }
        let form = self.last_discussed(paper, label)?;
        Some(form.form.score)
    }

    /// Returns the last form under the label that the committee discusses.
    fn last_discussed(&self, paper: PaperNo, label: Ordinal) -> Option<&WrittenForm>
        ensures { option_map written_told (option_copied result) ≡ last_discussed self.now.tables paper label }
    {
        match self.reviews.last_since(paper, label, COMMITTEE_READS_FROM, &mut Steps::uncounted()) {
            Some(form) => Some(form),
            None => self.reviews.last_before(
                paper,
                label,
                COMMITTEE_READS_FROM,
                &mut Steps::uncounted(),
            ),
        }
    }
}
