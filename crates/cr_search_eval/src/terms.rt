// SPDX-License-Identifier: Apache-2.0 OR MIT
//! One term of a search at one paper.
ghost use Rattle.std.specs.Prelude.{◌≡◌, false, if◌then◌else◌, is_some, not};
ghost use Rattle.std.specs.List.{list_any};
ghost use Rattle.std.specs.Option.{option_copied, option_map, option_map_or};
ghost use Rattle.cr_base.specs.Accounts.{account_at};
ghost use Rattle.cr_base.specs.Searching.{has_decision, has_feature, name_has, number_decided};
ghost use Rattle.cr_base.specs.Searching.{reviewer_has, stands_so, term_holds, text_has};
ghost use Rattle.cr_base.specs.Tables.{Tables};
ghost use Rattle.cr_search_eval.specs.Asked.{IsAsked, told_at};
ghost use Rattle.cr_search_eval.specs.Asked.{abstract_told, decision_told, title_told};
ghost use Rattle.cr_view.specs.Replies.{holder_name};

use crate::asked::Asked;
use crate::text::contains;
use cr_base::{Blob, Decision, Feature, Seat, Short, Standing, Status, Term, Text, Tie};
use cr_view::Live;

/// Returns whether the term holds of the paper. Takes no memory.
///
/// # Cost
///
/// The one read that the field which it names costs, if it does (see `Live`), and a look at each byte of the texts that
/// it looks into.
pub(crate) fn term_holds(live: &Live, asked: &Asked<'_>, term: &Term) -> bool
    requires { IsAsked live.now.tables asked.now }
    ensures { result ≡ term_holds (told_at live.now.tables asked.now) term.now }
{
    match term {
        Term::Plain(value) => in_title(asked, value) || in_abstract(asked, value),
        Term::Title(value) => in_title(asked, value),
        Term::Abstract(value) => in_abstract(asked, value),
        Term::Author(value) => in_author(live, asked, value),
        Term::Reviewer(value) => in_reviewer(live, asked, value),
        Term::Tag(tag) => live.tells_tag(asked.user, &asked.facts, tag),
        Term::Decision(decision) => is_decided(asked, decision),
        Term::Status(status) => stands_so(asked, *status),
        Term::Has(feature) => has_feature(live, asked, *feature),
    }
}

/// Returns whether the title has the value.
fn in_title(asked: &Asked<'_>, value: &Blob) -> bool
    ensures { result ≡ text_has value.now (title_told asked.now.facts) }
{
    text_has(value, asked.facts.title_told())
}

/// Returns whether the abstract has the value.
fn in_abstract(asked: &Asked<'_>, value: &Blob) -> bool
    ensures { result ≡ text_has value.now (abstract_told asked.now.facts) }
{
    text_has(value, asked.facts.abstract_told())
}

/// Returns whether the name of an author has the value.
fn in_author(live: &Live, asked: &Asked<'_>, value: &Blob) -> bool
    ensures { result ≡ name_has value.now (told_at live.now.tables asked.now).page.authors }
{
    let ties = live.authors_told(&asked.facts);
    some_tied_has(live, value, ties)
}

/// Returns whether the name of a reviewer has the value.
fn in_reviewer(live: &Live, asked: &Asked<'_>, value: &Blob) -> bool
    ensures { result ≡ reviewer_has value.now (told_at live.now.tables asked.now).page.reviewers }
{
    let seats = live.seats_told(&asked.facts);
    some_seated_has(live, asked.facts.by(), value, seats)
}

/// Returns whether a text that is there has the value.
fn text_has(value: &Blob, text: Option<&Text>) -> bool
    ensures { result ≡ text_has value.now (option_copied text.entry) }
{
    match text {
        Some(text) => contains(value.as_slice(), text.as_str().as_bytes()),
        None => false,
    }
}

/// Returns whether a name that is there has the value.
fn name_has(value: &Blob, name: &Option<Short>) -> bool
    ensures { result ≡ text_has value.now name.now }
{
    match name {
        Some(name) => contains(value.as_slice(), name.as_slice()),
        None => false,
    }
}

/// Returns whether the name of the user who is tied so has the value. A read by number.
fn tied_has(live: &Live, value: &Blob, tie: &Tie<()>) -> bool
    ensures { result ≡ text_has value.now
        (option_map (λ a. a.name) (account_at live.now.tables.accounts tie.now.pair.user)) }
{
    name_has(value, &live.name_of(tie.pair.user))
}

/// Returns whether one of the names of the users who are tied so has the value. A read by number for each.
fn some_tied_has(live: &Live, value: &Blob, ties: &[Tie<()>]) -> bool
    ensures { result
        ≡ list_any (λ tie. text_has value.now
        (option_map (λ a. a.name) (account_at live.now.tables.accounts tie.pair.user))) ties.now }
{
    ties.iter().any(|tie| tied_has(live, value, tie))
}

/// Returns whether the name of the user who has the seat has the value, if it is told. A read by number.
fn seated_has(live: &Live, by: &Standing, value: &Blob, seat: &Tie<Seat>) -> bool
    ensures { result ≡ text_has value.now (holder_name live.now.tables by.now seat.now) }
{
    name_has(value, &live.reviewer_name(by, seat))
}

/// Returns whether one of the names of the users who have these seats has the value, if it is told. A read by number
/// for each.
fn some_seated_has(live: &Live, by: &Standing, value: &Blob, seats: &[Tie<Seat>]) -> bool
    ensures { result ≡ list_any (λ seat. text_has value.now (holder_name live.now.tables by.now seat)) seats.now }
{
    seats.iter().any(|seat| seated_has(live, by, value, seat))
}

/// Returns whether a decision is told, and is this one; none stands for a paper of which nothing was decided.
fn is_decided(asked: &Asked<'_>, decision: &Option<Decision>) -> bool
    ensures { result ≡ has_decision decision.now (decision_told asked.now.facts) }
{
    match asked.facts.decision_told() {
        Some(told) => number_decided(&told) == number_decided(decision),
        None => false,
    }
}

/// Returns its number in rows, and 0 if none was made.
fn number_decided(decision: &Option<Decision>) -> u64
    ensures { result ≡ number_decided decision.now }
{
    match decision {
        Some(decision) => decision.number(),
        None => 0,
    }
}

/// Returns whether the paper has that status.
fn stands_so(asked: &Asked<'_>, status: Status) -> bool
    ensures { (t : Tables) → result ≡ stands_so status (told_at t asked.now) }
{
    match status {
        Status::Active => is_told(asked.facts.withdrawal_told(), false),
        Status::Withdrawn => is_told(asked.facts.withdrawal_told(), true),
        Status::Accepted => asked.facts.is_accepted(),
    }
}

/// Returns whether it is told, and is so.
fn is_told(told: Option<bool>, so: bool) -> bool
    ensures { result ≡ option_map_or (λ b. if so then b else not b) told false }
{
    match told {
        Some(told) => told == so,
        None => false,
    }
}

/// Returns whether the paper has that feature.
fn has_feature(live: &Live, asked: &Asked<'_>, feature: Feature) -> bool
    requires { IsAsked live.now.tables asked.now }
    ensures { result ≡ has_feature feature (told_at live.now.tables asked.now) }
{
    match feature {
        Feature::Content => live.tells_version(&asked.facts),
        Feature::Review => live.tells_review(&Some(asked.user), &asked.facts),
        Feature::Comment => live.tells_comment(&asked.facts),
        Feature::Response => live.tells_response(&asked.facts),
        Feature::Decision => tells_decision(asked),
        Feature::Conflict => asked.facts.by().conflicted,
        Feature::Mine => asked.facts.label_told().is_some(),
    }
}

/// Returns whether a decision is told.
fn tells_decision(asked: &Asked<'_>) -> bool
    ensures { result ≡ option_map_or (λ d. is_some d) (decision_told asked.now.facts) false }
{
    match asked.facts.decision_told() {
        Some(told) => told.is_some(),
        None => false,
    }
}
