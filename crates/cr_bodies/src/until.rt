// SPDX-License-Identifier: Apache-2.0 OR MIT
//! The phase of a deadline, and until when something may be done in it, as a body tells them.
ghost use Rattle.std.specs.Prelude.{◌≡◌, IfOk, IsTrue};
ghost use Rattle.cr_base.specs.Deadlines.{IsDeadlineOrNone};
ghost use Rattle.cr_base.specs.Phases.{may_have_deadline};
ghost use Rattle.cr_bodies.specs.Outcome.{Tells};
ghost use Rattle.cr_bodies.specs.Until.{deadline_at as deadline_of_nanos, deadline_phase_under, deadline_in_text};
ghost use Rattle.cr_bodies.specs.Until.{until_under};
ghost use Rattle.serde_json.specs.View.{view};

use crate::field::phase;
use cr_base::{Deadline, DecodeError, Phase};
use jiff::Timestamp;
use serde_json::Value;

/// Returns the phase named under a key, if it may have a deadline: submission, bidding, reviewing, response or
/// discussion.
pub(crate) fn deadline_phase(body: &Value, key: &str) -> Result<Phase, DecodeError>
    ensures told { Tells result (deadline_phase_under key.now (view body.now)) }
    ensures valid { IfOk result (λ phase. IsTrue (may_have_deadline phase)) }
{
    let phase = phase(body, key)?;
    if phase.may_have_deadline() {
        Ok(phase)
    } else {
        Err(DecodeError::Malformed)
    }
}

/// Returns the deadline of an instant: `None` if it isn't of whole seconds, or no deadline has so many.
fn deadline_at(instant: Timestamp) -> Option<Deadline>
    ensures { result ≡ deadline_of_nanos instant.nanosecond }
{
    if instant.subsec_nanosecond() != 0 {
        return None;
    }
    match u64::try_from(instant.as_second()) {
        Ok(seconds) => Deadline::new(seconds),
        Err(_) => None,
    }
}

/// Returns the deadline that a text tells, as `jiff` reads a timestamp (RFC 3339, with what RFC 9557 adds): `None` if
/// it reads none, and where that is no deadline.
fn parse_deadline(text: &str) -> Option<Deadline>
    ensures { result ≡ deadline_in_text text.now }
{
    match text.parse::<Timestamp>() {
        Ok(instant) => deadline_at(instant),
        Err(_) => None,
    }
}

/// Returns the deadline under a key that must be there: `None` for null, and else that of a text.
pub(crate) fn until(body: &Value, key: &str) -> Result<Option<Deadline>, DecodeError>
    ensures told { Tells result (until_under key.now (view body.now)) }
    ensures valid { IfOk result IsDeadlineOrNone }
{
    let Some(value) = body.get(key) else {
        return Err(DecodeError::Malformed);
    };
    if value.is_null() {
        return Ok(None);
    }
    match value.as_str().and_then(parse_deadline) {
        Some(until) => Ok(Some(until)),
        None => Err(DecodeError::Malformed),
    }
}
