// SPDX-License-Identifier: Apache-2.0 OR MIT
//! What a row does.
ghost use Rattle.std.specs.Prelude.{◌≡◌, option_map};
ghost use Rattle.cr_base.specs.Bulk.{action_of};
ghost use Rattle.cr_bulk.specs.Actions.{seen};

use cr_base::Kind;

/// What a row does, by the word in its column `action`.
#[derive(Clone, Copy, PartialEq, Eq)]
pub(crate) enum Action {
    /// A user becomes a reviewer of this kind.
    Assign(Kind),
    /// A user is no reviewer any more.
    Unassign,
    /// A user is in conflict from now on, or no longer.
    TurnConflict(bool),
    /// A tag is on from now on, or no longer.
    TurnTag(bool),
}

impl Action {
    /// Returns the action of a word; `None` if it is none.
    ///
    /// # Cost
    ///
    /// Takes no memory.
    pub(crate) fn read(word: &[u8]) -> Option<Action>
        ensures { option_map seen result ≡ action_of word.now }
    {
        if word == b"primary".as_slice() {
            return Some(Action::Assign(Kind::Primary));
        }
        if word == b"secondary".as_slice() {
            return Some(Action::Assign(Kind::Secondary));
        }
        if word == b"pcreview".as_slice() {
            return Some(Action::Assign(Kind::Pc));
        }
        if word == b"clearreview".as_slice() {
            return Some(Action::Unassign);
        }
        if word == b"conflict".as_slice() {
            return Some(Action::TurnConflict(true));
        }
        if word == b"clearconflict".as_slice() {
            return Some(Action::TurnConflict(false));
        }
        if word == b"tag".as_slice() {
            return Some(Action::TurnTag(true));
        }
        if word == b"cleartag".as_slice() {
            return Some(Action::TurnTag(false));
        }
        None
    }
}
