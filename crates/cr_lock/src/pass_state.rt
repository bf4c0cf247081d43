// SPDX-License-Identifier: Apache-2.0 OR MIT
//! What a pass knows of the history. Only contracts speak of these: no value of them is ever made.
use std::collections::LinkedList;

/// One turn of a pass.
pub struct Turn<T, E> {
    /// The length of the history when the turn began.
    pub place: u64,
    /// What the turn added, in order; empty where it added nothing.
    pub group: LinkedList<E>,
    /// By how much the value's fault counter rose in the turn.
    pub rise: u64,
    /// True if it rose, or is at its maximum.
    pub marked: bool,
    /// The value as the turn found it.
    pub found: T,
    /// The value as the turn left it.
    pub left: T,
}

/// What a pass is doing.
pub enum Activity<T, E> {
    /// It is between turns.
    Idle,
    /// It has drawn a ticket that isn't served yet, or it hasn't looked since.
    Waiting {
        /// The ticket that it drew.
        ticket: u64,
    },
    /// Its ticket is served, and it has the value.
    Holding {
        /// The ticket that it drew.
        ticket: u64,
        /// The value: before its turn is noted as the turn found it, then as the turn leaves it.
        value: T,
    },
    /// It was just made of two passes, and has not looked yet what the two had in common.
    Joined {
        /// What the first one had seen.
        one_seen: LinkedList<E>,
        /// What the second one had seen.
        other_seen: LinkedList<E>,
        /// The turns of the first one.
        one_mine: LinkedList<Turn<T, E>>,
        /// The turns of the second one.
        other_mine: LinkedList<Turn<T, E>>,
    },
}

/// What one pass knows, and what it is doing.
pub struct PassState<T, E> {
    /// How many of the 64 parts of the right to the whole history it has.
    pub share: u64,
    /// At least how many turns it has made; after a join the greater count of the two.
    pub turns: u64,
    /// The history as it last saw it.
    pub seen: LinkedList<E>,
    /// Its turns, in the order of their places.
    pub mine: LinkedList<Turn<T, E>>,
    /// The value as it left it in its last turn, or as the lock was made with it; none since it was split or joined.
    pub left: Option<T>,
    /// What it is doing.
    pub activity: Activity<T, E>,
}
