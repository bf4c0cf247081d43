// SPDX-License-Identifier: Apache-2.0 OR MIT
//! Theorems over the definitions.
ghost use Rattle.std.specs.Prelude.{◌≡◌, codes};
ghost use Rattle.cr_print.specs.Dates.{date_text};

/// Dates written out: the example of RFC 9110, section 5.6.7, the first moment that there is, a leap day, and the last
/// moment.
pub fn law_dates_written_out()
    ensures example { date_text 784111777 ≡ codes "Sun, 06 Nov 1994 08:49:37 GMT" }
    ensures first { date_text 0 ≡ codes "Thu, 01 Jan 1970 00:00:00 GMT" }
    ensures leap_day { date_text 1709210096 ≡ codes "Thu, 29 Feb 2024 12:34:56 GMT" }
    ensures last { date_text 253402300799 ≡ codes "Fri, 31 Dec 9999 23:59:59 GMT" }
{}
