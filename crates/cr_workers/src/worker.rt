// SPDX-License-Identifier: Apache-2.0 OR MIT
//! One worker: the connections of one door, one after another.
ghost use Rattle.std.specs.Prelude.{◌≡◌, ◌≤◌, ◌+◌, ◌^◌, [], ◌∷◌, ◌||◌, IsFalse};
ghost use Rattle.cr_session.specs.Passing.{StaysPass};
ghost use Rattle.cr_session.specs.Tries.{tries_of};
ghost use Rattle.cr_workers.specs.Connections.{streams_of};
ghost use Rattle.cr_workers.specs.Doors.{door_of, ended_by, lacks, ServesNext, ServesSeen, turns_for};

use crate::worked::Worked;
use cr_book::Book;
use cr_lock::Pass;
use cr_ports::{Door, Keeper, NextConnection};
use cr_session::{Ending, Server, serve_connection};
use std::sync::Wait;

/// How a door that gives no further connection answered.
#[derive(Clone, Copy, PartialEq, Eq)]
pub enum Last {
    /// Its share was given.
    Done,
    /// It failed.
    Failed,
}

/// Serves the door's next connection to its end and gives it back; or tells how the door answered that has none.
fn serve_next_connection<R: Wait, K: Keeper, D: Door>(
    server: &Server<'_, R, K>,
    pass: &mut Pass<Book<K>>,
    door: &mut D,
) -> Result<Ending, Last>
    requires own { pass.old.lock ≡ server.now.lock.lock }
    requires few { pass.old.turns + turns_for (D.left door.old) ≤ 2 ^ 40 }
    requires back { IsFalse (D.is_out door.old) }
    ensures serves { let tries = tries_of K.Keeper in
        let seen = door_of D.left D.is_out D.faults D.log in
        ServesNext
        (streams_of tries D.In.left D.In.read_gives D.In.faults D.Out.taken D.Out.faults D.Clock.coming D.Clock.faults)
        result (seen door.old) (seen door.new) pass.old pass.new }
    ensures pass { StaysPass (turns_for 1) pass.old pass.new }
{
    match door.next() {
        NextConnection::Done => Err(Last::Done),
        NextConnection::Failed => Err(Last::Failed),
        NextConnection::Conn(mut source, mut sink, mut clock) => {
            let ending = serve_connection(server, pass, &mut source, &mut sink, &mut clock);
            door.give_back(source, sink, clock);
            Ok(ending)
        }
    }
}

/// Returns whether a connection ended for lack of memory, this one or one before it.
fn has_lacked(lacked: bool, ending: Ending) -> bool
    ensures { result ≡ (lacked || lacks ending) }
{
    match ending {
        Ending::OutOfMemory => true,
        Ending::Clean
        | Ending::Cut
        | Ending::Closed(_)
        | Ending::ReadFault
        | Ending::WriteFault
        | Ending::ClockFault => lacked,
    }
}

/// Returns how a worker ended whose door gave this last answer; `lacked` says whether a connection ended for lack of
/// memory.
fn ended_by(lacked: bool, last: Last) -> Worked
    ensures { result ≡ ended_by lacked last }
{
    match (lacked, last) {
        (true, _) => Worked::OutOfMemory,
        (false, Last::Failed) => Worked::DoorFailed,
        (false, Last::Done) => Worked::Done,
    }
}

/// Serves the door's connections, each to its end before the next is asked for. A connection's fault ends only that
/// connection.
pub(crate) fn serve_door<R: Wait, K: Keeper, D: Door>(
    server: &Server<'_, R, K>,
    pass: &mut Pass<Book<K>>,
    door: &mut D,
) -> Worked
    requires own { pass.old.lock ≡ server.now.lock.lock }
    requires few { pass.old.turns + turns_for (D.left door.old) ≤ 2 ^ 40 }
    requires back { IsFalse (D.is_out door.old) }
    ensures serves { let tries = tries_of K.Keeper in
        ServesSeen (door_of D.left D.is_out D.faults D.log)
        (streams_of tries D.In.left D.In.read_gives D.In.faults D.Out.taken D.Out.faults D.Clock.coming D.Clock.faults)
        result (door.old ∷ []) (door.new ∷ []) pass.old pass.new }
    ensures pass { StaysPass (turns_for (D.left door.old)) pass.old pass.new }
{
    let mut lacked = false;
    'serving: loop {
        match serve_next_connection(server, pass, door) {
            Ok(ending) => lacked = has_lacked(lacked, ending),
            Err(last) => return ended_by(lacked, last),
        }
    }
}
