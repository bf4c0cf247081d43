// SPDX-License-Identifier: Apache-2.0 OR MIT
//! The rule of the lock's table.
use crate::pass_state::PassState;
use crate::stands::Stands;
use atomic_table::TableRule;
use std::marker::PhantomData;
use std::snapshot::Snapshot;

/// There is one history, of which each pass has seen a beginning and which has its turns. It holds between any two
/// steps. Its key is the value that the lock was made with.
pub(crate) struct HistoryRule<T> {
    of: PhantomData<T>,
}

impl<T: Stands> TableRule<Option<T>, PassState<T, T::Entry>, Snapshot<T>> for HistoryRule<T> {
    ghost use Rattle.cr_lock.specs.PassStates.{first_state};
    ghost use Rattle.cr_lock.specs.Rule.{OneHistory};

    ghost holds = { λ key. OneHistory T.list T.faults T.root key.value };

    ghost first = { λ key. first_state key.value (T.list key.value) };
}
