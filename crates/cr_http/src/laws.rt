// SPDX-License-Identifier: Apache-2.0 OR MIT
//! Theorems over the definitions, for the crates above.
ghost use Rattle.std.specs.Prelude.{◌≡◌, ◌++◌, ℕ, List, Bool};
ghost use Rattle.cr_http.specs.Found.{Found, IsFinal, StandsAt, found_and};
ghost use Rattle.cr_http.specs.Requests.{RequestText, End, SpellsFrom};

/// Proves that a text spells one list of requests, and has one end.
pub fn law_one_reading()
    ensures { (closes : ℕ → RequestText → Bool) (n : ℕ) (text : List ℕ) (rs qs : List RequestText) (one other : End)
        → SpellsFrom closes n text rs one → SpellsFrom closes n text qs other → (rs ≡ qs) × (one ≡ other) }
{}

/// Proves that a whole request or a refusal at the front of a text stays there however the text goes on.
pub fn law_final_stays()
    ensures { (text more : List ℕ) (found : Found) → IsFinal found → StandsAt text found
        → StandsAt (text ++ more) (found_and found more) }
{}
