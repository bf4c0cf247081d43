// SPDX-License-Identifier: Apache-2.0 OR MIT
//! Laws over the definitions alone.
ghost use Rattle.std.specs.Prelude.{◌≡◌, ◌≤◌, ◌<◌, ◌+◌, ◌-◌, ◌^◌, List};
ghost use Rattle.cr_lock.specs.Turns.{marks};
ghost use Rattle.cr_session.specs.Tries.{tries_of};
ghost use Rattle.cr_session.specs.Passing.{KnownPass, TakesTurns};
ghost use Rattle.cr_session.specs.Replay.{JudgedWish, Ledger, Replays, lost_count};
ghost use Rattle.cr_session.specs.Retries.{RetriesActOnce};
ghost use Rattle.cr_session.specs.TwoRuns.{TwoRuns};

use cr_ports::Keeper;

/// If two runs agree in a user's wishes, their timestamps, which of their answers close the connection, and the user's
/// view before each of them, they agree in every byte that the user is answered. A run opens with any history; others
/// may ask anything in it, at any timestamps; nothing accepted is lost in it. This holds of every user and of an
/// unauthenticated caller; a user's wishes are those whose caller the user is at their turn.
pub fn law_two_runs()
    ensures { TwoRuns }
{}

/// A command or a bulk that its caller sends again, with its number and its mark, acts once, on every legal history and
/// whatever any caller asks. If each wish is left out whose caller, number and mark an earlier one has that was
/// accepted and added something, all ends in the same history. Earlier are the wishes of the list and all that the
/// opening history has: this holds after a restart too. A wish that is left out is answered by what the earlier one
/// added: a bulk by how many entries, every other command by the first of them. If the earlier one is a wish of the
/// list too, and both are bulks, or neither is, these are the bytes of its answer, except its Date and its Connection.
/// This holds whatever comes between, also if the caller has lost the right meanwhile. Nothing that is accepted is lost
/// here.
pub fn law_repeats()
    ensures { RetriesActOnce }
{}

/// Over any turns at most as many commands are lost as the keeper's fault counter rose by, unless it is at its last
/// value; if none is lost, the counter stays.
pub fn law_counted_faults()
    ensures few { (judged : List JudgedWish) (b b' : Ledger) → Replays judged b b' → b'.faults < 2 ^ 64 - 1
        → b.faults + lost_count judged ≤ b'.faults }
    ensures steady { (judged : List JudgedWish) (b b' : Ledger) → Replays judged b b' → lost_count judged ≡ 0
        → b'.faults ≡ b.faults }
{}

/// Over any turns of a pass at most as many commands are lost as the pass has marks more.
pub fn law_marked_losses<K: Keeper>()
    ensures { let tries = tries_of K.Keeper in
        (judged : List JudgedWish) (p p' : KnownPass K) → TakesTurns tries judged p p'
        → marks p.mine + lost_count judged ≤ marks p'.mine }
{}
