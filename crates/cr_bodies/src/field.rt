// SPDX-License-Identifier: Apache-2.0 OR MIT
//! The members of a JSON object, each by its key and the kind of its value.
ghost use Rattle.std.specs.Prelude.{◌≡◌, ◌≤◌, length, IfOk, IsTrue};
ghost use Rattle.cr_base.specs.Bounds.{IsGrade};
ghost use Rattle.cr_base.specs.Decoding.{Decodes};
ghost use Rattle.cr_base.specs.Texts.{IsName};
ghost use Rattle.cr_base.specs.Words.{is_member};
ghost use Rattle.cr_bodies.specs.Field.{IsOf, admits as admits_text, bid_under};
ghost use Rattle.cr_bodies.specs.Field.{decision_under, digest_under, flag_under, grade_under};
ghost use Rattle.cr_bodies.specs.Field.{kind_under, mode_under, name_under, names_of};
ghost use Rattle.cr_bodies.specs.Field.{names_under, phase_under, role_under};
ghost use Rattle.cr_bodies.specs.Field.{text_under, tested_under, user_under};
ghost use Rattle.cr_bodies.specs.Outcome.{Tells, TellsSeen};
ghost use Rattle.serde_json.specs.Data.{array};
ghost use Rattle.serde_json.specs.View.{items_view, view};

use crate::secret::{digest_of, is_secret};
use cr_base::{
    Bid, Decision, DecodeError, Digest, Grade, Kind, MOST_COAUTHORS, Mode, Phase, Role, Short,
    ToldNames, is_abstract, is_comment, is_name, is_review_text, is_title, parse_name,
};
use serde_json::Value;
use std::alloc::Global;

/// What a text has to be.
#[derive(Clone, Copy)]
pub(crate) enum Grammar {
    /// A user's name: 1 to 32 of `a-z0-9-`.
    Name,
    /// A secret: 16 to 64 of `A-Za-z0-9_~+-`.
    Secret,
    /// A title: 1 to 200 bytes of UTF-8 without characters below U+0020 and without U+007F.
    Title,
    /// An abstract: at most 5,000 bytes of UTF-8.
    Abstract,
    /// A text of a review: at most 20,000 bytes of UTF-8.
    ReviewText,
    /// A comment or a response: 1 to 10,000 bytes of UTF-8.
    CommentText,
}

impl Grammar {
    /// Returns whether a text is of this grammar.
    ///
    /// # Cost
    ///
    /// One walk over at most as many bytes as the grammar allows.
    fn admits(self, text: &[u8]) -> bool
        ensures test { result ≡ admits_text self text.now }
        ensures valid { IsTrue result → IsOf self text.now }
    {
        match self {
            Grammar::Name => is_name(text),
            Grammar::Secret => is_secret(text),
            Grammar::Title => is_title(text),
            Grammar::Abstract => is_abstract(text),
            Grammar::ReviewText => is_review_text(text),
            Grammar::CommentText => is_comment(text),
        }
    }
}

/// Returns the text under a key.
fn text<'a>(body: &'a Value, key: &str) -> Result<&'a str, DecodeError>
    ensures { TellsSeen (λ t. t.now) result (text_under key.now (view body.now)) }
{
    match body.get(key).and_then(Value::as_str) {
        Some(text) => Ok(text),
        None => Err(DecodeError::Malformed),
    }
}

/// Returns the text under a key, if it is of a grammar.
pub(crate) fn tested<'a>(
    body: &'a Value,
    key: &str,
    grammar: Grammar,
) -> Result<&'a str, DecodeError>
    ensures told { TellsSeen (λ t. t.now) result (tested_under grammar key.now (view body.now)) }
    ensures valid { IfOk result (λ t. IsOf grammar t.now) }
{
    let text = text(body, key)?;
    if grammar.admits(text.as_bytes()) {
        Ok(text)
    } else {
        Err(DecodeError::Malformed)
    }
}

/// Returns the name under a key.
pub(crate) fn name(body: &Value, key: &str) -> Result<Short, DecodeError>
    ensures told { Tells result (name_under key.now (view body.now)) }
    ensures valid { IfOk result IsName }
{
    let text = tested(body, key, Grammar::Name)?;
    Ok(Short::from_slice(text.as_bytes()))
}

/// Returns the digest of the secret under a key.
pub(crate) fn digest(body: &Value, key: &str) -> Result<Digest, DecodeError>
    ensures { Tells result (digest_under key.now (view body.now)) }
{
    let text = tested(body, key, Grammar::Secret)?;
    Ok(digest_of(text.as_bytes()))
}

/// Returns the user whose name is told by the text under a key: `None` if the text is no name.
pub(crate) fn user(body: &Value, key: &str) -> Result<Option<Short>, DecodeError>
    ensures { Tells result (user_under key.now (view body.now)) }
{
    let text = text(body, key)?;
    Ok(parse_name(text.as_bytes()))
}

/// Returns the names that a list tells, each `None` if its text is no name.
fn names_in(alloc: Global, items: &[Value]) -> Result<ToldNames, DecodeError>
    ensures told { Decodes result (names_of (Some (array (items_view items.now)))) }
    ensures few { IfOk result (λ names. length names ≤ 19) }
{
    if items.len() > MOST_COAUTHORS {
        return Err(DecodeError::Malformed);
    }
    let mut names = Vec::with_capacity(alloc, items.len())?;
    'elements: for item in items {
        let Some(text) = item.as_str() else {
            return Err(DecodeError::Malformed);
        };
        names.push_reserved(parse_name(text.as_bytes()));
    }
    Ok(ToldNames::from_vec(names))
}

/// Returns the names that the list under a key tells, at most 19 and each `None` if its text is no name; `None` if the
/// key isn't there. One vector is taken for them.
pub(crate) fn names(alloc: Global, body: &Value, key: &str) -> Result<ToldNames, DecodeError>
    ensures told { Decodes result (names_under key.now (view body.now)) }
    ensures few { IfOk result (λ names. length names ≤ 19) }
{
    let Some(list) = body.get(key) else {
        return Ok(ToldNames::from_vec(Vec::new(alloc)));
    };
    match list.as_array() {
        Some(items) => names_in(alloc, items.as_slice()),
        None => Err(DecodeError::Malformed),
    }
}

/// Returns what is true or false under a key.
pub(crate) fn flag(body: &Value, key: &str) -> Result<bool, DecodeError>
    ensures { Tells result (flag_under key.now (view body.now)) }
{
    match body.get(key).and_then(Value::as_bool) {
        Some(flag) => Ok(flag),
        None => Err(DecodeError::Malformed),
    }
}

/// Returns the bid under a key: a whole number from -20 to 20, written without a fraction and without an exponent. -0
/// is none.
pub(crate) fn bid(body: &Value, key: &str) -> Result<Bid, DecodeError>
    ensures told { Tells result (bid_under key.now (view body.now)) }
    ensures high { IfOk result (λ bid. bid ≤ 40) }
{
    let number = body.get(key).and_then(Value::as_i64);
    match number.and_then(Bid::from_value) {
        Some(bid) => Ok(bid),
        None => Err(DecodeError::Malformed),
    }
}

/// Returns the score or the confidence under a key: a whole number from 1 to 5, written as a bid is.
pub(crate) fn grade(body: &Value, key: &str) -> Result<Grade, DecodeError>
    ensures told { Tells result (grade_under key.now (view body.now)) }
    ensures valid { IfOk result IsGrade }
{
    let number = body.get(key).and_then(Value::as_i64);
    match number.and_then(Grade::from_value) {
        Some(grade) => Ok(grade),
        None => Err(DecodeError::Malformed),
    }
}

/// Returns the phase named under a key.
pub(crate) fn phase(body: &Value, key: &str) -> Result<Phase, DecodeError>
    ensures { Tells result (phase_under key.now (view body.now)) }
{
    match Phase::from_name(text(body, key)?) {
        Some(phase) => Ok(phase),
        None => Err(DecodeError::Malformed),
    }
}

/// Returns the mode named under a key.
pub(crate) fn mode(body: &Value, key: &str) -> Result<Mode, DecodeError>
    ensures { Tells result (mode_under key.now (view body.now)) }
{
    match Mode::from_name(text(body, key)?) {
        Some(mode) => Ok(mode),
        None => Err(DecodeError::Malformed),
    }
}

/// Returns the kind of assignment named under a key.
pub(crate) fn kind(body: &Value, key: &str) -> Result<Kind, DecodeError>
    ensures { Tells result (kind_under key.now (view body.now)) }
{
    match Kind::from_name(text(body, key)?) {
        Some(kind) => Ok(kind),
        None => Err(DecodeError::Malformed),
    }
}

/// Returns the decision named under a key.
pub(crate) fn decision(body: &Value, key: &str) -> Result<Decision, DecodeError>
    ensures { Tells result (decision_under key.now (view body.now)) }
{
    match Decision::from_name(text(body, key)?) {
        Some(decision) => Ok(decision),
        None => Err(DecodeError::Malformed),
    }
}

/// Returns the role named under a key to which a user may be appointed: member or chair.
pub(crate) fn role(body: &Value, key: &str) -> Result<Role, DecodeError>
    ensures told { Tells result (role_under key.now (view body.now)) }
    ensures member { IfOk result (λ role. IsTrue (is_member role)) }
{
    match Role::from_name(text(body, key)?) {
        Some(role) => Ok(role),
        None => Err(DecodeError::Malformed),
    }
}
