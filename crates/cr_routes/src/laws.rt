// SPDX-License-Identifier: Apache-2.0 OR MIT
//! Laws of the paths.
ghost use Rattle.std.specs.Prelude.{◌≡◌, ◌≢◌, [], ◌∷◌, ℕ, IsTrue, List, map, option_map};
ghost use Rattle.std.specs.List.{list_all};
ghost use Rattle.cr_base.specs.declared.ask.Ask.{Ask};
ghost use Rattle.cr_routes.specs.Asks.{HasRoute};
ghost use Rattle.cr_routes.specs.Parts.{found_at, has_few_parameters};
ghost use Rattle.cr_routes.specs.Paths.{paths};

/// Proves that each listed path has its own resource, and at most two parameters, so that none of them is lost. No
/// path has a resource that doesn't begin with a slash, nor has the empty path. All that can be asked for is asked by
/// some method at some path.
pub fn law_paths()
    ensures listed { map (λ line. option_map (λ found. found.resource) (found_at line.0)) paths
        ≡ map (λ line. Some line.1) paths }
    ensures few { IsTrue (list_all (λ line. has_few_parameters line.0) paths) }
    ensures rooted { (byte : ℕ) (path : List ℕ) → byte ≢ 47 → found_at (byte ∷ path) ≡ None }
    ensures empty { found_at [] ≡ None }
    ensures asked { (ask : Ask) → HasRoute ask }
{}
