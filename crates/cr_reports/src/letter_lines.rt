// SPDX-License-Identifier: Apache-2.0 OR MIT
//! The letter to a paper's authors.
ghost use Rattle.std.specs.Prelude.{◌≡◌, ◌++◌, OnOk, Some};
ghost use Rattle.cr_base.specs.Labels.{by_labels, most_labels};
ghost use Rattle.cr_base.specs.Reports.{decision_named_line, letter_form, letter_told, paper_named_line, writer_named};
ghost use Rattle.cr_base.specs.Reviews.{written_told};
ghost use Rattle.cr_base.specs.Sources.{facts_of_tables, shown_in_tables};
ghost use Rattle.cr_reports.specs.ReportLines.{form_grades, form_heading, forms_under};

use crate::decision_lines::decision_word;
use crate::listed::title;
use crate::put::{append, append_number, end_line};
use cr_anonymity::letter;
use cr_base::{MOST_LABELS, Ordinal, PaperNo, Short, Standing, Steps, UserNo, WrittenForm};
use cr_view::Live;
use std::alloc::AllocError;

/// Appends who wrote a review, if that is told.
#[tactic(auto, unfolding(cr_base::specs::Reports::writer_named))]
fn append_writer(into: &mut Vec<u8>, writer: &Option<Short>) -> Result<(), AllocError>
    ensures { OnOk result (into.new.items ≡ into.old.items ++ writer_named writer.now) }
{
    let Some(name) = writer else {
        return Ok(());
    };
    append(into, b" by ")?;
    append(into, name.as_slice())
}

/// Appends an empty line, and a form's label with its writer, if told.
#[tactic(auto, unfolding(crate::specs::ReportLines::form_heading))]
fn append_heading(
    into: &mut Vec<u8>,
    label: Ordinal,
    writer: &Option<Short>,
) -> Result<(), AllocError>
    ensures { OnOk result (into.new.items ≡ into.old.items ++ form_heading label writer.now) }
{
    end_line(into)?;
    append(into, b"Review ")?;
    into.push(letter(label))?;
    append_writer(into, writer)?;
    end_line(into)
}

/// Appends a form's grades.
#[tactic(auto, unfolding(crate::specs::ReportLines::form_grades))]
fn append_grades(into: &mut Vec<u8>, written: &WrittenForm) -> Result<(), AllocError>
    ensures { OnOk result (into.new.items ≡ into.old.items ++ form_grades (written_told written.now)) }
{
    append(into, b"Score ")?;
    append_number(into, written.form.score.number())?;
    append(into, b", confidence ")?;
    append_number(into, written.form.confidence.number())?;
    end_line(into)
}

/// Appends a form: its label with its writer, if told, its grades, and what it tells authors.
fn append_form(
    into: &mut Vec<u8>,
    label: Ordinal,
    writer: &Option<Short>,
    written: &WrittenForm,
) -> Result<(), AllocError>
    ensures { OnOk result (into.new.items ≡ into.old.items
        ++ letter_form label writer.now (written_told written.now)) }
{
    append_heading(into, label, writer)?;
    append_grades(into, written)?;
    append(into, written.form.to_authors.as_str().as_bytes())?;
    end_line(into)
}

/// Appends the last form under the label, if there is one.
fn append_label(
    into: &mut Vec<u8>,
    live: &Live,
    by: &Standing,
    paper: PaperNo,
    label: Ordinal,
) -> Result<(), AllocError>
    ensures { OnOk result (into.new.items ≡ into.old.items ++ forms_under live.now.tables by.now paper label) }
{
    let Some(written) = live.last_form(paper, label) else {
        return Ok(());
    };
    append_form(into, label, &live.label_name(by, paper, label), written)
}

/// Appends the last form under each label.
fn append_forms(
    into: &mut Vec<u8>,
    live: &Live,
    by: &Standing,
    paper: PaperNo,
) -> Result<(), AllocError>
    ensures { OnOk result (into.new.items ≡ into.old.items
        ++ by_labels (forms_under live.now.tables by.now paper) most_labels) }
{
    for before in 0..MOST_LABELS {
        append_label(into, live, by, paper, Ordinal::new(before + 1))?;
    }
    Ok(())
}

/// Appends the first line, of the paper.
#[tactic(auto, unfolding(cr_base::specs::Reports::paper_named_line))]
fn append_named(into: &mut Vec<u8>, paper: PaperNo, title: &[u8]) -> Result<(), AllocError>
    ensures { OnOk result (into.new.items ≡ into.old.items ++ paper_named_line paper title.now) }
{
    append(into, b"Paper ")?;
    append_number(into, paper.number())?;
    append(into, b": ")?;
    append(into, title)?;
    end_line(into)
}

/// Appends the second line, of what was decided.
#[tactic(auto, unfolding(cr_base::specs::Reports::decision_named_line))]
fn append_decided(into: &mut Vec<u8>, word: &str) -> Result<(), AllocError>
    ensures { OnOk result (into.new.items ≡ into.old.items ++ decision_named_line word.now) }
{
    append(into, b"Decision: ")?;
    append(into, word.as_bytes())?;
    end_line(into)
}

/// Appends the letter on a paper. Its facts are read once.
pub(crate) fn append_letter(
    into: &mut Vec<u8>,
    live: &Live,
    user: UserNo,
    paper: PaperNo,
) -> Result<(), AllocError>
    ensures { OnOk result (into.new.items
        ≡ into.old.items ++ letter_told (facts_of_tables live.now.tables (Some user))
        (shown_in_tables live.now.tables) paper) }
{
    let facts = live.facts(&Some(user), paper, &mut Steps::uncounted());
    append_named(into, paper, title(&facts))?;
    append_decided(into, decision_word(&facts.decision()))?;
    append_forms(into, live, facts.by(), paper)
}
