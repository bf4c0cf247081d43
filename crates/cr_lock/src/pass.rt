// SPDX-License-Identifier: Apache-2.0 OR MIT
//! The right to turns.
use crate::pass_state::PassState;
use crate::stands::Stands;
use atomic_table::Seat;
use std::marker::Model;

/// The right to turns of one lock, for one thread at a time. A pass that is dropped takes its share along, so the lock
/// can no longer be closed.
///
/// # Model
///
/// The `lock` that it is of; its `share` of 64, which `split` halves and `join` adds up; how many `turns` it has made;
/// the history as it last saw it, `seen`; and its own turns in that history, `mine`, each with its place, the group
/// that it added, a mark if the fault counter rose, and the value as it found it and as it left it. Only two counts
/// exist at run time.
#[derive(Drop)]
pub struct Pass<T: Stands> {
    pub(crate) seat: Seat<Option<T>, PassState<T, T::Entry>>,
    pub(crate) share: u64,
    pub(crate) turns: u64,
}

impl<T: Stands> Model for Pass<T> {
    ghost use Rattle.cr_lock.specs.Steps.{Rests};
    ghost use Rattle.cr_lock.specs.Passes.{Known, known_of};

    ghost Value = { Known T T.Entry };

    ghost view = { λ p. known_of p.seat };

    ghost invariant = { λ p. Rests p.seat p.share p.turns };
}
