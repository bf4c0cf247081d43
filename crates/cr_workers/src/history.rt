// SPDX-License-Identifier: Apache-2.0 OR MIT
//! All workers over one book.
ghost use Rattle.std.specs.Prelude.{◌≡◌, ◌≤◌, ◌^◌, length, map, false};
ghost use Rattle.cr_lock.specs.Counts.{Every, total};
ghost use Rattle.cr_lock.specs.Turns.{Reached};
ghost use Rattle.cr_session.specs.Replay.{ledger_of};
ghost use Rattle.cr_session.specs.Tries.{tries_of};
ghost use Rattle.cr_workers.specs.Connections.{IsTakenIn, streams_of};
ghost use Rattle.cr_workers.specs.Doors.{connections_of, door_of, turns_for};
ghost use Rattle.cr_workers.specs.OneHistory.{ServesHistory};

use crate::doors::serve_doors;
use crate::worked::Worked;
use cr_book::Book;
use cr_ports::{Door, Keeper};
use cr_session::Server;
use std::alloc::Global;
use std::sync::Wait;
use std::thread::Threads;

/// Serves the connections of all doors, at most 64, from the book's history on: each door by a worker of its own, in a
/// thread of its own if one can be made. The book is handed back with the last history, and the doors in their order:
/// turns of the connections led to it, each of which found the book as another had left it. A connection's fault ends
/// only that connection.
///
/// - `Done`: each door has given its share.
/// - `DoorFailed`: a door failed; the others were served to their ends.
/// - `OutOfMemory`: a connection ended for lack of memory, and the others were served; or there was none for the lock,
///   or for a half of the doors, which were then not asked.
pub fn serve_book<R: Threads + Wait + Sync, K: Keeper + Send, D: Door + Drop + Send>(
    rt: &R,
    alloc: Global,
    book: Book<K>,
    doors: Vec<D>,
) -> (Worked, Book<K>, Vec<D>)
    requires at_most { length doors.items ≤ 64 }
    requires few { turns_for (total D.left doors.items) ≤ 2 ^ 40 }
    requires back { Every (λ door. D.is_out door ≡ false) doors.items }
    ensures opened { result.1.opened ≡ book.opened }
    ensures serves { let tries = tries_of K.Keeper in
        let seen = map (door_of D.left D.is_out D.faults D.log) in
        (serves : ServesHistory
        (streams_of tries D.In.left D.In.read_gives D.In.faults D.Out.taken D.Out.faults D.Clock.coming D.Clock.faults)
        result.0 (seen doors.items) (seen result.2.items) (ledger_of K.faults book) (ledger_of K.faults result.1))
        × Reached (IsTakenIn (connections_of serves.works)) book result.1 }
{
    let (server, pass) = match Server::new(rt, alloc, book) {
        Ok(made) => made,
        Err(book) => return (Worked::OutOfMemory, book, doors),
    };
    let (pass, doors, worked) = serve_doors(&server, pass, doors);
    (worked, server.close(pass), doors)
}
