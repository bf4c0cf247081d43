// SPDX-License-Identifier: Apache-2.0 OR MIT
//! Theorems over the definitions.
ghost use Rattle.std.specs.Prelude.{◌≡◌, Some, None, codes};
ghost use Rattle.cr_bodies.specs.Until.{deadline_in_text};

/// Deadlines that texts tell: that of the example of RFC 9110, section 5.6.7, also written at an offset, the first and
/// the last. Texts that tell none: the second before the first, the one after the last, with half a second more, and
/// without an offset.
#[tactic(auto, unfolding(jiff::proofs::OnLiterals::jiff_on_literals, crate::specs::Until::deadline_at))]
pub fn law_deadlines_read()
    ensures example { deadline_in_text (codes "1994-11-06T08:49:37Z") ≡ Some 784111777 }
    ensures offset { deadline_in_text (codes "1994-11-06T09:49:37+01:00") ≡ Some 784111777 }
    ensures first { deadline_in_text (codes "1970-01-01T00:00:01Z") ≡ Some 1 }
    ensures last { deadline_in_text (codes "9999-12-30T22:00:00Z") ≡ Some 253402207200 }
    ensures before { deadline_in_text (codes "1970-01-01T00:00:00Z") ≡ None }
    ensures behind { deadline_in_text (codes "9999-12-30T22:00:01Z") ≡ None }
    ensures fraction { deadline_in_text (codes "1994-11-06T08:49:37.5Z") ≡ None }
    ensures no_offset { deadline_in_text (codes "1994-11-06T08:49:37") ≡ None }
{}
