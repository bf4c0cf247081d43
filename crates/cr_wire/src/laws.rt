// SPDX-License-Identifier: Apache-2.0 OR MIT
//! Theorems over the definitions.
ghost use Rattle.std.specs.Prelude.{◌≡◌, ℕ, List, Option, Result, Some, length};
ghost use Rattle.cr_http.specs.Requests.{End, RequestText};
ghost use Rattle.cr_base.specs.declared.ask.Ask.{Ask};
ghost use Rattle.cr_wire.specs.Asked.{with_number};
ghost use Rattle.cr_routes.specs.Parts.{FoundPath};
ghost use Rattle.cr_wire.specs.Caller.{ask_of};
ghost use Rattle.cr_wire.specs.Wishes.{Wishes, moments_of};
ghost use Rattle.cr_wire.specs.declared.number.BadCommandNumber.{BadCommandNumber};
ghost use Rattle.cr_wire.specs.declared.what.Wish.{Wish};

use cr_http::law_one_reading;

/// Proves that what a wish asks for follows from path and method: no body, query string or number, good or bad,
/// changes it. So none changes whether authentication is required or whether the field Authorization is read.
pub fn law_one_ask()
    ensures { (ask : Ask) (found : FoundPath) (told : Result (Option ℕ) BadCommandNumber) (r : RequestText)
        → ask_of (with_number ask found told r) ≡ Some ask }
{}

/// Proves that a text has one end, and spells one list of wishes, whose parts the text determines, except the
/// timestamps.
pub fn law_one_list_of_wishes()
    ensures { (bytes : List ℕ) (ws vs : List Wish) (one other : End)
        → Wishes bytes ws one → Wishes bytes vs other
        → (one ≡ other) × (length ws ≡ length vs) × (moments_of ws ≡ moments_of vs → ws ≡ vs) }
{
    law_one_reading();
}
