// SPDX-License-Identifier: Apache-2.0 OR MIT
//! The date of an answer (RFC 9110, section 6.6.1).
ghost use Rattle.std.specs.Prelude.{◌≡◌, length};
ghost use Rattle.cr_print.specs.Dates.{date_text};

use cr_base::Moment;
use httpdate::HttpDate;
use std::marker::Model;

/// How many bytes a date's text has.
pub(crate) const DATE_TEXT: usize = 29;

/// A moment with its text as an IMF-fixdate (RFC 9110, section 5.6.7), like `Sun, 06 Nov 1994 08:49:37 GMT`, so that
/// answers within one second have it written once.
///
/// # Model
///
/// The moment.
#[derive(Clone, Copy)]
pub struct Date {
    at: Moment,
    text: [u8; DATE_TEXT],
}

impl Model for Date {
    ghost use Rattle.std.specs.Prelude.{◌≡◌, ℕ, length};
    ghost use Rattle.cr_print.specs.Dates.{date_text};

    ghost Value = { ℕ };

    ghost view = { λ d. d.at };

    ghost invariant = { λ d. (d.text ≡ date_text d.at) × (length d.text ≡ 29) };

    ghost inverse = { λ n. record { at = n; text = date_text n } };
}

impl Date {
    /// Returns the date of a moment, whose text is written now.
    pub fn of(at: Moment) -> Date
        ensures { result ≡ at }
    {
        let date = HttpDate::from_unix_secs(at.seconds()).unwrap();
        Date {
            at,
            text: date.to_bytes(),
        }
    }

    /// Returns the date of a moment: this one if it is of that second, otherwise a new one, whose text is written now.
    pub fn renewed(self, at: Moment) -> Date
        ensures { result ≡ at }
    {
        if at == self.at {
            return self;
        }
        Date::of(at)
    }

    /// Returns its text, 29 bytes.
    pub(crate) fn as_bytes(&self) -> &[u8]
        ensures value { result.now ≡ date_text self.now }
        ensures whole { length result.now ≡ 29 }
    {
        self.text.as_slice()
    }
}
