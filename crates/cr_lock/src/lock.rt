// SPDX-License-Identifier: Apache-2.0 OR MIT
//! The lock.
//!
//! # A turn, step by step
//!
//! The mutex is empty: it is the door at which passes wait. Of the atomic table ([`atomic_table`]), `ticket` is the
//! next ticket to be drawn, `serving` the one served, `count` the history's length. The slot has the value, or nothing
//! while a turn has it.
//!
//! 1. **wait** for the mutex, and lock it. The pass has drawn nothing yet, so no other waits for it to run.
//! 2. **draw**: add 1 to `ticket`. The pass holds the ticket that it found, which no other ever will.
//! 3. **look**: load `serving` until it is the pass's ticket. The value is then the pass's: it has seen the whole
//!    history. Tickets are drawn under the mutex, and the turn before served this one before it unlocked, so the first
//!    look finds it.
//! 4. **take**: exchange the slot for an empty one.
//! 5. **act**: what the caller does with the value. It may append to the list and let the fault counter rise.
//! 6. **give**: exchange the slot for the value, before any pass learns of the turn.
//! 7. **note**: add the number of new entries to `count`. At this one step the history grows. It comes before the
//!    next, since the next pass must see the history with this group.
//! 8. **next**: add 1 to `serving`. From here on the pass may not touch slot or count.
//! 9. **unlock** the mutex. A running thread that comes to it goes on, or a sleeping one is woken.
//!
//! The proofs use only the table: they would hold without the mutex, which is there for speed. Without it a pass that
//! drew a ticket and then slept would keep all others from the value; with it a ticket is served as soon as it is
//! drawn. A waiting pass looks at the mutex a few times, then sleeps; one that slept twice asks to go first, which
//! makes long waits rare.
//!
//! Splitting or joining passes is one step on `ticket`, which doesn't change: one pass's knowledge is copied, or that
//! of two is put together.
ghost use Rattle.std.specs.Prelude.{◌≡◌, ℕ, Some, None, ◌+◌, ◌-◌, ◌/◌, ◌^◌, ◌<◌, ◌≤◌};
ghost use Rattle.std.specs.Prelude.{◌⊎◌, [], ◌∷◌, List, length, IfOk, IfErr, IfSome, MatchResult};
ghost use Rattle.std.specs.Fn.{FnOnceReturnsAtMut, FnOnceTakesAtMut};
ghost use mathlib.Core.List.{IsPrefix};
ghost use Rattle.cr_lock.specs.declared.pass_state.Activity.TheVariants.{Idle, Holding};
ghost use Rattle.cr_lock.specs.Steps.{state};
ghost use Rattle.cr_lock.specs.Passes.{first_pass, larger_half, smaller_half, united, after_turn};
ghost use Rattle.cr_lock.specs.Passes.{Agree, IsAsLeft, Stand};
ghost use Rattle.cr_lock.specs.Closing.{Closes};

use crate::pass::Pass;
use crate::pass_state::PassState;
use crate::rule::HistoryRule;
use crate::stands::Stands;
use crate::steps::{DrawTicket, Halve, LookAfterJoin, LookForTurn, Next, Note, Unite};
use atomic_table::{Refused, Seat, Shared, Table};
use std::alloc::{AllocError, AllocFailed, Global};
use std::marker::Model;
use std::snapshot::Snapshot;
use std::sync::{Mutex, MutexGuard, Wait};
use std::thread;

/// The word with the next ticket to be drawn.
const TICKET: usize = 0;

/// The word with the ticket that is served.
const SERVING: usize = 1;

/// The word with the length of the history.
const COUNT: usize = 2;

/// The slot of the value.
const VALUE: usize = 0;

/// The share of the first pass, and so of all passes together.
const WHOLE: u64 = 64;

/// How often a pass that finds the gate shut lets other threads run, before it sleeps there.
const LOOKS: u32 = 64;

/// The words and the slot, as the passes step on them.
type Board<T> = Shared<Option<T>, PassState<T, <T as Stands>::Entry>, Snapshot<T>, HistoryRule<T>>;

/// One value, with which passes take turns.
///
/// # Model
///
/// Which `lock` it is, and the value that it was made with, `first`. Threads share it by reference; what each of them
/// knows is in its [`Pass`]. The crate's page tells a turn step by step.
#[derive(Drop)]
pub struct HistoryLock<T: Stands> {
    table: Table<Option<T>, PassState<T, T::Entry>, Snapshot<T>, HistoryRule<T>, Global>,
    // Where passes wait. Who has it draws a ticket and makes the turn, so each ticket is
    // served as soon as it is drawn.
    gate: Mutex<()>,
}

impl<T: Stands> Model for HistoryLock<T> {
    ghost use Rattle.std.specs.Prelude.{◌≡◌};
    ghost use Rattle.cr_lock.specs.Passes.{Origin};

    ghost Value = { Origin T };

    ghost view = { λ l. record { lock = l.table.shared.table_id; first = l.table.shared.key.value } };

    ghost invariant = { λ l. (l.table.shared.table_id.words ≡ 3) × (l.table.shared.table_id.slots ≡ 1) };
}

/// Returns the table's one slot, with the value in it; or, without memory, the value.
fn one_slot<T>(alloc: Global, value: T) -> Result<Vec<Option<T>, Global>, T>
    ensures ok { IfOk result (λ v. v.items ≡ Some value ∷ []) }
    ensures err { IfErr result (λ x. x ≡ value) }
{
    let mut slots = Vec::new(alloc);
    match slots.push(Some(value)) {
        Ok(()) => Ok(slots),
        Err(AllocFailed { value }) => {
            slots.destroy_empty();
            Err(value.unwrap())
        }
    }
}

/// Draws a ticket, looks until it is served, and takes the value. The pass has then seen its history.
///
/// Under the mutex the first look finds the ticket served. The proof knows nothing of the mutex, so it looks again.
fn wait_and_take<T: Stands, R: Wait>(
    rt: &R,
    shared: &Board<T>,
    seat: &mut Seat<Option<T>, PassState<T, T::Entry>>,
) -> T
    requires own { (seat.old.table_id ≡ shared.now.table_id) × (seat.old.me.1 ≡ []) × (shared.now.table_id.words ≡ 3) }
    requires rests { ((state seat.old).activity ≡ Idle) × (0 < (state seat.old).share)
        × ((state seat.old).turns < 2 ^ 40) }
    ensures seat { (seat.new.table_id ≡ seat.old.table_id) × (seat.new.me.1 ≡ (0, None) ∷ []) }
    ensures state { (t : ℕ) × (state seat.new ≡ record (state seat.old) {
      turns = (state seat.old).turns + 1;
      seen = T.list result;
      activity = Holding t result;
    }) }
    ensures seen { IsPrefix (state seat.old).seen (T.list result) }
    ensures as_left { (state seat.old).share ≡ 64 → IfSome (state seat.old).left (λ value. result ≡ value) }
{
    let ticket = shared.fetch_add::<DrawTicket>(seat, TICKET, 1);
    for _ in rt.forever() {
        let serving = shared.load::<LookForTurn<T>>(seat, SERVING);
        if serving == ticket {
            return shared.exchange(seat, VALUE, None).unwrap();
        }
        thread::yield_now();
    }
    unreachable!()
}

impl<T: Stands> HistoryLock<T> {
    /// Returns a lock round the value, and its first pass. That pass has share 64, no turns, and has seen the value's
    /// history.
    ///
    /// # Errors
    ///
    /// The value, if memory runs out.
    pub fn new(alloc: Global, value: T) -> Result<(HistoryLock<T>, Pass<T>), (AllocError, T)>
        ensures { MatchResult result
            (λ made. (made.0.first ≡ value) × (made.1 ≡ first_pass made.0.lock value (T.list value)))
            (λ refused. refused.1 ≡ value) }
    {
        let about = Snapshot::of(&value);
        let words = [0, 0, value.entries()];
        let slots = match one_slot(alloc, value) {
            Ok(slots) => slots,
            Err(value) => return Err((AllocError, value)),
        };
        match Table::new(alloc, &words, slots, &about) {
            Ok((table, seat)) => Ok((
                HistoryLock {
                    table,
                    gate: Mutex::new(()),
                },
                Pass {
                    seat,
                    share: WHOLE,
                    turns: 0,
                },
            )),
            Err(Refused { mut slots }) => {
                let only = slots.pop().unwrap();
                slots.destroy_empty();
                Err((AllocError, only.unwrap()))
            }
        }
    }

    /// Returns how many turns the pass has made; of a joined one the greater count of the two.
    ///
    /// # Cost
    ///
    /// It reads one number.
    pub fn turns(&self, pass: &Pass<T>) -> u64
        requires { pass.now.lock ≡ self.now.lock }
        ensures { result ≡ pass.now.turns }
    {
        pass.turns
    }

    /// Waits for the mutex, and locks it. While it is locked, other threads may run, the one that locked it among
    /// them; it sleeps only if that takes longer, since waking a sleeper costs more than most turns.
    fn pass_gate<R: Wait>(&self, rt: &R) -> MutexGuard<'_, ()> {
        for _ in 0..LOOKS {
            if let Some(gate) = self.gate.try_lock() {
                return gate;
            }
            thread::yield_now();
        }
        self.gate.lock(rt)
    }

    /// Waits until it is this pass's turn, calls the act on the value, and returns what the act answers.
    ///
    /// The act is lent a value `x` whose history begins with what the pass had seen, and leaves a value `y`. It may
    /// only append to the list, may not lower the fault counter, and leaves the root unchanged. What it promises of
    /// `x`, `y` and its answer holds. The pass has then seen the history of `y`, and its turns are longer by one: the
    /// length of the history at `x`, what was added, by how much the fault counter rose, the mark, set exactly if it
    /// rose or is at its maximum, and `x` and `y` themselves. If the pass has the whole share, so that there is no
    /// other, `x` is the value that it left in its last turn, or that the lock was made with, unless it was split or
    /// joined since.
    ///
    /// A pass makes fewer than 2^40 turns, so all passes together draw fewer tickets than a word can count.
    ///
    /// # Cost
    ///
    /// A turn for which no other pass waits costs six atomic steps, two of them the mutex's, and no system call. One
    /// that finds the mutex locked yields its processor, 64 times at most before it sleeps. If others sleep, it wakes
    /// one of them at its end. It takes no memory besides what the act takes.
    pub fn turn<A, F: FnOnce(&mut T) -> A, R: Wait>(&self, rt: &R, pass: &mut Pass<T>, act: F) -> A
        requires own { pass.old.lock ≡ self.now.lock }
        requires few { pass.old.turns < 2 ^ 40 }
        requires takes { (x : T) → IsPrefix pass.old.seen (T.list x) → FnOnceTakesAtMut F.FnOnce act x }
        requires appends { (x y : T) (r : A) → FnOnceReturnsAtMut F.FnOnce act x r y
            → IsPrefix (T.list x) (T.list y) × (T.faults x ≤ T.faults y) × (T.root x ≡ T.root y) }
        ensures turn { (x y : T)
            × IsPrefix pass.old.seen (T.list x)
            × IsAsLeft pass.old x
            × IsPrefix (T.list x) (T.list y)
            × FnOnceReturnsAtMut F.FnOnce act x result y
            × (pass.new ≡ after_turn pass.old x y (T.list x) (T.list y) (T.faults x) (T.faults y)) }
        ensures stand { Stand pass.new }
    {
        let shared = &self.table.shared;
        let Pass {
            seat,
            share: _,
            turns,
        } = pass;
        let gate = self.pass_gate(rt);
        let mut value = wait_and_take(rt, shared, seat);
        let before = value.entries();
        let answer = act(&mut value);
        let added = value.entries() - before;
        let empty = shared.exchange(seat, VALUE, Some(value));
        let None = empty else { unreachable!() };
        shared.fetch_add::<Note<T>>(seat, COUNT, added);
        shared.fetch_add::<Next>(seat, SERVING, 1);
        drop(gate);
        *turns += 1;
        answer
    }

    /// Returns two passes in place of one: each has half the share, the first one the larger half, and has seen what
    /// the pass had seen, with its count of turns. The turns themselves stay with the first one.
    ///
    /// # Errors
    ///
    /// The unchanged pass, exactly if the share is 1.
    ///
    /// # Cost
    ///
    /// Takes no memory.
    pub fn split(&self, pass: Pass<T>) -> Result<(Pass<T>, Pass<T>), Pass<T>>
        requires { pass.lock ≡ self.now.lock }
        ensures { MatchResult result
            (λ halves. (1 < pass.share) × (halves.0 ≡ larger_half pass) × (halves.1 ≡ smaller_half pass))
            (λ refused. (pass.share ≡ 1) × (refused ≡ pass)) }
    {
        if pass.share == 1 {
            return Err(pass);
        }
        let Pass {
            mut seat,
            share,
            turns,
        } = pass;
        let (larger, smaller) = (share - share / 2, share / 2);
        let other = self.table.shared.split_seat::<Halve>(&mut seat);
        let one = Pass {
            seat,
            share: larger,
            turns,
        };
        let other = Pass {
            seat: other,
            share: smaller,
            turns,
        };
        Ok((one, other))
    }

    /// Joins two passes: their shares together, the longer of what they had seen, their turns merged by place, and the
    /// greater count of turns.
    ///
    /// The caller learns that one of the two had seen a beginning of what the other had, and that no entry of the
    /// history was added by both.
    pub fn join(&self, one: Pass<T>, other: Pass<T>) -> Pass<T>
        requires { (one.lock ≡ self.now.lock) × (other.lock ≡ self.now.lock) }
        ensures both { result ≡ united one other }
        ensures agree { Agree one other }
        ensures stand { Stand result }
    {
        let Pass {
            mut seat,
            share,
            turns,
        } = one;
        let Pass {
            seat: other_seat,
            share: other_share,
            turns: other_turns,
        } = other;
        let shared = &self.table.shared;
        shared.join_seat::<Unite>(&mut seat, other_seat);
        shared.load::<LookAfterJoin>(&mut seat, SERVING);
        Pass {
            seat,
            share: share + other_share,
            turns: turns.max(other_turns),
        }
    }

    /// Returns the value, when all passes are one again.
    ///
    /// Its history is what the pass has seen. The groups of the pass's turns, in their order, are what came after the
    /// first list, each entry once. The fault counter rose by exactly what it rose in the turns, and so by no less
    /// than there are marks, unless it ends at its maximum. The root is that of the value that the lock was made with.
    /// Turns lead from that value to this one: the first found it, and each other one what the one before it had left.
    pub fn close(self, pass: Pass<T>) -> T
        requires own { pass.lock ≡ self.lock }
        requires whole { pass.share ≡ 64 }
        ensures { Closes T.list T.faults T.root self.first pass result }
    {
        let HistoryLock { table, gate: _ } = self;
        let Pass { seat, .. } = pass;
        let mut closed = table.close_with(seat);
        let value = closed.take(VALUE).unwrap();
        closed.free();
        value
    }
}
