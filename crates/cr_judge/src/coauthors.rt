// SPDX-License-Identifier: Apache-2.0 OR MIT
//! The co-authors that a submission tells.
ghost use Rattle.std.specs.Prelude.{◌≡◌, ◌≤◌, ◌<◌, ◌∷◌, ◌++◌, ◌==◌, length, not};
ghost use Rattle.std.specs.List.{list_any};
ghost use Rattle.std.specs.Option.{option_and_then};
ghost use Rattle.cr_base.specs.Accounts.{lines_of};
ghost use Rattle.cr_base.specs.Lists.{given};
ghost use Rattle.cr_base.specs.Sources.{is_there};
ghost use Rattle.cr_judge.specs.Targets.{coauthors_of};

use cr_base::{Coauthors, UserNo};
use cr_view::Live;

/// Returns these users, in their order and each once, without the maker; `None` if one of them isn't there.
///
/// # Cost
///
/// Takes no memory; one read by number each.
pub(crate) fn coauthors(live: &Live, maker: UserNo, told: &Option<Coauthors>) -> Option<Coauthors>
    ensures { result ≡ option_and_then (coauthors_of live.now.tables maker) told.now }
{
    match told {
        Some(told) => coauthors_among(live, maker, told.as_slice()),
        None => None,
    }
}

/// Returns those of the users told, as `coauthors` says.
fn coauthors_among(live: &Live, maker: UserNo, users: &[UserNo]) -> Option<Coauthors>
    requires { length users.now ≤ 19 }
    ensures { result ≡ coauthors_of live.now.tables maker users.now }
{
    let mut coauthors = Coauthors::none();
    'users: for user in users {
        if !is_there(live, *user) {
            return None;
        }
        push_once(&mut coauthors, maker, *user);
    }
    Some(coauthors)
}

/// Returns whether the user has registered.
///
/// # Cost
///
/// One read by number.
pub fn is_there(live: &Live, user: UserNo) -> bool
    ensures { result ≡ is_there (lines_of live.now.tables.accounts) user }
{
    live.account_table().role_given(user).is_some()
}

/// Adds a user, unless the user is the maker or was told before.
fn push_once(coauthors: &mut Coauthors, maker: UserNo, user: UserNo)
    requires { length coauthors.old < 19 }
    ensures { coauthors.new ≡ coauthors.old ++ given (not (list_any (λ v. v == user) (maker ∷ coauthors.old))) user }
{
    if maker == user || is_among(coauthors.as_slice(), user) {
        return;
    }
    coauthors.push(user);
}

/// Returns whether the user is one of these.
fn is_among(users: &[UserNo], user: UserNo) -> bool
    ensures { result ≡ list_any (λ v. v == user) users.now }
{
    users.iter().any(|other| *other == user)
}
