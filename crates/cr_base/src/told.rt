// SPDX-License-Identifier: Apache-2.0 OR MIT
//! Names that a command tells, and the users that they are found to be.
ghost use Rattle.std.specs.Prelude.{◌≡◌, ◌<◌, ◌≤◌, ◌∷◌, ◌++◌, [], length};

use crate::numbers::UserNo;
use crate::texts::Short;
use std::marker::Model;

/// Names as they were told, in their order; `None` if what was told is no name.
///
/// # Model
///
/// The list.
#[derive(Drop)]
pub struct ToldNames {
    names: Vec<Option<Short>>,
}

impl Model for ToldNames {
    ghost use Rattle.std.specs.Prelude.{List, ℕ, Option};

    ghost Value = { List (Option (List ℕ)) };

    ghost view = { λ t. t.names.items };
}

impl ToldNames {
    /// Returns the names of a vector.
    ///
    /// # Cost
    ///
    /// Takes no memory.
    pub fn from_vec(names: Vec<Option<Short>>) -> ToldNames
        ensures { result ≡ names.items }
    {
        ToldNames { names }
    }

    /// Returns the names.
    pub fn as_slice(&self) -> &[Option<Short>]
        ensures { result.now ≡ self.now }
    {
        self.names.as_slice()
    }
}

/// The most co-authors that a submission may tell.
pub const MOST_COAUTHORS: usize = 19;

/// A paper's co-authors, at most 19, kept in place: no memory is taken for them.
///
/// # Model
///
/// The list.
#[derive(Drop)]
pub struct Coauthors {
    users: [UserNo; MOST_COAUTHORS],
    count: usize,
}

impl Model for Coauthors {
    ghost use Rattle.std.specs.Prelude.{List, ℕ, ◌≡◌, ◌≤◌, length, take};

    ghost Value = { List ℕ };

    ghost view = { λ c. take c.count c.users };

    ghost invariant = { λ c. (length c.users ≡ 19) × (c.count ≤ 19) };
}

impl Coauthors {
    /// Returns no co-authors.
    pub fn none() -> Coauthors
        ensures { result ≡ [] }
    {
        Coauthors {
            users: [UserNo::new(1); MOST_COAUTHORS],
            count: 0,
        }
    }

    /// Returns their numbers, at most 19, in the order of the request.
    pub fn as_slice(&self) -> &[UserNo]
        ensures value { result.now ≡ self.now }
        ensures few { length result.now ≤ 19 }
    {
        &self.users[..self.count]
    }

    /// Adds one more after the others.
    pub fn push(&mut self, user: UserNo)
        requires { length self.old < 19 }
        ensures { self.new ≡ self.old ++ user ∷ [] }
    {
        self.users[self.count] = user;
        self.count += 1;
    }
}
