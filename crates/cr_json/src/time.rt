// SPDX-License-Identifier: Apache-2.0 OR MIT
//! Times in UTC, as RFC 3339 (section 5.6) writes them, to the second.
ghost use Rattle.std.specs.Prelude.{◌≡◌, length};
ghost use Rattle.cr_json.specs.Put.{Appends, Takes};
ghost use Rattle.cr_json.specs.Times.{civil_of as civil_time, civil_parts, civil_text, last_digit};
ghost use Rattle.cr_json.specs.Times.{time_text as text_at, until_text};

use crate::put::append;
use crate::quoted::append_quoted;
use cr_base::Deadline;
use jiff::Timestamp;
use jiff::civil::DateTime;
use jiff::tz::Offset;
use std::alloc::AllocError;

/// The bytes of a time's text.
const TIME_TEXT: usize = 20;

/// Returns the day and the time of a deadline in UTC.
fn civil_of(deadline: Deadline) -> DateTime
    ensures { civil_parts result ≡ civil_time deadline }
{
    let instant = Timestamp::from_second(deadline.seconds() as i64).unwrap();
    Offset::UTC.to_datetime(instant)
}

/// Returns the last digit of a number in decimal.
fn digit(number: u16) -> u8
    ensures { result ≡ last_digit number }
{
    b'0' + (number % 10) as u8
}

/// Returns the text of a day and a time.
fn text_of(civil: DateTime) -> [u8; TIME_TEXT]
    ensures value { result ≡ civil_text (civil_parts civil) }
    ensures whole { length result ≡ 20 }
{
    let civil = civil.to_plain();
    let year = civil.date.year.unsigned_abs();
    let month = civil.date.month as u16;
    let day = civil.date.day as u16;
    let hour = civil.time.hour as u16;
    let minute = civil.time.minute as u16;
    let second = civil.time.second as u16;
    [
        digit(year / 100 / 10),
        digit(year / 100),
        digit(year / 10),
        digit(year),
        b'-',
        digit(month / 10),
        digit(month),
        b'-',
        digit(day / 10),
        digit(day),
        b'T',
        digit(hour / 10),
        digit(hour),
        b':',
        digit(minute / 10),
        digit(minute),
        b':',
        digit(second / 10),
        digit(second),
        b'Z',
    ]
}

/// Returns the text of a deadline.
fn time_text(deadline: Deadline) -> [u8; TIME_TEXT]
    ensures value { result ≡ text_at deadline }
    ensures whole { length result ≡ 20 }
{
    text_of(civil_of(deadline))
}

/// Appends a deadline as a string, or null where there is none; the buffer grows where it has to.
#[tactic(auto, unfolding(crate::specs::Times::until_text))]
pub(crate) fn append_until(into: &mut Vec<u8>, until: Option<Deadline>) -> Result<(), AllocError>
    ensures text { Appends result into.old into.new (until_text until) }
    ensures room { Takes result into.old into.new 122 }
{
    match until {
        Some(deadline) => append_quoted(into, time_text(deadline).as_slice()),
        None => append(into, b"null"),
    }
}
