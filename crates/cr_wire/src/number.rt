// SPDX-License-Identifier: Apache-2.0 OR MIT
//! The number that a client gives a command.
ghost use Rattle.std.specs.Prelude.{◌≡◌};
ghost use Rattle.cr_wire.specs.Number as spec;

use crate::paper::is_number;
use cr_base::{Ask, CommandNumber, decimal_value};
use cr_http::{Head, Values};

/// The field Command-Number is there and tells no number, or is there more than once.
#[derive(Clone, Copy, PartialEq, Eq)]
pub(crate) struct BadCommandNumber;

/// Returns whether a text is a number in decimal of at most 18 digits.
fn is_command_number(value: &[u8]) -> bool
    ensures { result ≡ spec.is_command_number value.now }
{
    value.len() <= 18 && is_number(value)
}

/// Returns the number that a field's value is.
fn number_of(value: &[u8]) -> Result<Option<CommandNumber>, BadCommandNumber>
    ensures { result ≡ spec.number_of value.now }
{
    if !is_command_number(value) {
        return Err(BadCommandNumber);
    }
    Ok(CommandNumber::new(decimal_value(value)))
}

/// Returns the number that a request for this gives its command; `None` if there is no field Command-Number, or where
/// the request doesn't read it. An error where it reads it and there is more than one, or one that isn't 1 to 18
/// digits, the first not 0, the spaces and tabs around them aside.
///
/// # Cost
///
/// Looks at each field's name and at 18 bytes of the value at most. Takes no memory.
pub(crate) fn number_for(
    ask: Ask,
    head: &Head<'_>,
) -> Result<Option<CommandNumber>, BadCommandNumber>
    ensures { result ≡ spec.number_for ask head.now.fields }
{
    if !ask.reads_number() {
        return Ok(None);
    }
    match head.values_of(b"command-number") {
        Values::None => Ok(None),
        Values::One(value) => number_of(value),
        Values::Many => Err(BadCommandNumber),
    }
}
