// SPDX-License-Identifier: Apache-2.0 OR MIT
//! The kinds of step on the lock's table. Each says what it tells the pass that makes it.
ghost use Rattle.cr_lock.specs.PassStates.{left_half, right_half, joining, spent_state};
ghost use Rattle.cr_lock.specs.Steps.{Drew, Looked, Noted, WentOn, LookedAfterJoin};

use crate::pass_state::PassState;
use crate::stands::Stands;
use atomic_table::{Join, Play, Split};
use std::marker::PhantomData;

/// Draws a ticket: `fetch_add` on the tickets.
pub(crate) struct DrawTicket;

impl<T, E> Play<Option<T>, PassState<T, E>> for DrawTicket {
    ghost then = { Drew };
}

/// Looks which ticket is served: a load of that word. Where it is the pass's own, the value is the pass's.
pub(crate) struct LookForTurn<T> {
    of: PhantomData<T>,
}

impl<T: Stands> Play<Option<T>, PassState<T, T::Entry>> for LookForTurn<T> {
    ghost then = { Looked T.list };
}

/// Notes what the turn added: `fetch_add` on the count of entries. The history grows here and nowhere else.
pub(crate) struct Note<T> {
    of: PhantomData<T>,
}

impl<T: Stands> Play<Option<T>, PassState<T, T::Entry>> for Note<T> {
    ghost then = { Noted T.list T.faults };
}

/// Serves the next ticket: `fetch_add` on the ticket that is served.
pub(crate) struct Next;

impl<T, E> Play<Option<T>, PassState<T, E>> for Next {
    ghost then = { WentOn };
}

/// Looks after a join: a load, by which the pass learns what the two had in common.
pub(crate) struct LookAfterJoin;

impl<T, E> Play<Option<T>, PassState<T, E>> for LookAfterJoin {
    ghost then = { LookedAfterJoin };
}

/// Cuts a pass in two.
pub(crate) struct Halve;

impl<T, E> Split<PassState<T, E>> for Halve {
    ghost left = { left_half };

    ghost right = { right_half };
}

/// Makes two passes one.
pub(crate) struct Unite;

impl<T, E> Join<PassState<T, E>> for Unite {
    ghost both = { joining };

    ghost spent = { spent_state };
}
