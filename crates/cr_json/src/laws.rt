// SPDX-License-Identifier: Apache-2.0 OR MIT
//! Theorems over the definitions.
ghost use Rattle.std.specs.Prelude.{◌≡◌, codes};
ghost use Rattle.cr_json.specs.Times.{time_text};

/// Times written out: that of the example of RFC 9110, section 5.6.7, the first moment that there is, a leap day, the
/// first second of a month and of a year, and the last deadline.
#[tactic(auto, unfolding(crate::specs::Times::falls_in, crate::specs::Times::civil_of, crate::specs::Times::time_text))]
pub fn law_times_written_out()
    ensures example { time_text 784111777 ≡ codes "1994-11-06T08:49:37Z" }
    ensures first { time_text 0 ≡ codes "1970-01-01T00:00:00Z" }
    ensures leap_day { time_text 1709210096 ≡ codes "2024-02-29T12:34:56Z" }
    ensures month { time_text 951868800 ≡ codes "2000-03-01T00:00:00Z" }
    ensures year { time_text 4102444800 ≡ codes "2100-01-01T00:00:00Z" }
    ensures last { time_text 253402207200 ≡ codes "9999-12-30T22:00:00Z" }
{}
