// SPDX-License-Identifier: Apache-2.0 OR MIT
//! The forms of a paper that were written under a label, of all forms of the paper in the order in which
//! they were written.
ghost use Rattle.std.specs.Prelude.{◌≡◌, ◌||◌, ℕ, count_by};
ghost use Rattle.std.specs.List.{list_any};
ghost use Rattle.std.specs.Option.{option_copied};
ghost use Rattle.cr_reviews.specs.Labels.{has_label};
ghost use Rattle.cr_reviews.specs.Under.{is_under, is_written, last_that};

use crate::labels::Labels;
use cr_base::{Ordinal, Phase, WrittenForm};

/// When a form was written.
#[derive(Clone, Copy)]
pub(crate) enum Written {
    /// At any time.
    Ever,
    /// Before the phase began.
    Before(Phase),
    /// In the phase or later.
    Since(Phase),
}

/// Returns whether the form was written under the label, and then.
fn is_written(form: &WrittenForm, ordinal: Ordinal, when: Written) -> bool
    ensures { result ≡ is_written ordinal when form.now }
{
    match when {
        Written::Ever => form.is_under(ordinal),
        Written::Before(phase) => form.is_under(ordinal) && !form.phase.is_from(phase),
        Written::Since(phase) => form.is_under(ordinal) && form.phase.is_from(phase),
    }
}

/// Returns how many there are.
///
/// # Cost
///
/// A walk over all forms.
pub(crate) fn count_under(forms: &[WrittenForm], ordinal: Ordinal) -> usize
    ensures { result ≡ count_by (is_under ordinal) forms.now }
{
    forms.iter().filter(|form| form.is_under(ordinal)).count()
}

/// Returns whether there is one.
///
/// # Cost
///
/// A walk up to the first.
pub(crate) fn has_under(forms: &[WrittenForm], ordinal: Ordinal) -> bool
    ensures { result ≡ list_any (is_under ordinal) forms.now }
{
    forms.iter().any(|form| form.is_under(ordinal))
}

/// Returns the last of them that was written then.
///
/// # Cost
///
/// A walk back to it.
pub(crate) fn last_of(
    forms: &[WrittenForm],
    ordinal: Ordinal,
    when: Written,
) -> Option<&WrittenForm>
    ensures { option_copied result ≡ last_that (is_written ordinal when) forms.now }
{
    forms
        .iter()
        .rev()
        .find(|form| is_written(form, ordinal, when))
}

/// Adds the form's label, if it was written then.
fn add_written(labels: &mut Labels, form: &WrittenForm, when: Written)
    ensures { (o : ℕ) → has_label labels.new o ≡ (is_written o when form.now || has_label labels.old o) }
{
    if is_written(form, form.ordinal, when) {
        labels.add(form.ordinal);
    }
}

/// Returns the labels under which there is one that was written then.
///
/// # Cost
///
/// One walk.
pub(crate) fn labels_of(forms: &[WrittenForm], when: Written) -> Labels
    ensures { (o : ℕ) → has_label result o ≡ list_any (is_written o when) forms.now }
{
    let mut labels = Labels::none();
    for form in forms {
        add_written(&mut labels, form, when);
    }
    labels
}
