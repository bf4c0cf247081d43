// SPDX-License-Identifier: Apache-2.0 OR MIT
//! Many connections over a store.
ghost use Rattle.std.specs.Prelude.{◌≡◌, ◌≢◌, ◌⊎◌, ◌≤◌, ◌*◌, ◌^◌, ℕ, List, length, map, Some, is_ok, IfOk, IfErr};
ghost use Rattle.std.specs.Prelude.{Bool, IsTrue};
ghost use Rattle.cr_base.specs.History.{History};
ghost use Rattle.cr_base.specs.Rows.{rows_of};
ghost use Rattle.cr_policy.specs.Legal.{Legal};
ghost use Rattle.cr_lock.specs.Counts.{total};
ghost use Rattle.cr_ports.specs.Count.{Rises};
ghost use Rattle.cr_ports.specs.Doors.{shares};
ghost use Rattle.cr_ports.specs.Opening.{AsksAtMost, and_asked};
ghost use Rattle.cr_ports.specs.Writing.{outlet_of};
ghost use Rattle.cr_session.specs.Tries.{tries_of};
ghost use Rattle.cr_workers.specs.Connections.{streams_of};
ghost use Rattle.cr_workers.specs.Doors.{door_of, turns_for};
ghost use Rattle.cr_top.specs.declared.exit.Exit.{Exit};
ghost use Rattle.cr_top.specs.Serves.{AreNew, GatesState, IsWhyClosed, OpensAt, ServesGates, ServesMany};
ghost use Rattle.cr_top.specs.Serves.{TellsEntries, gates_of};
ghost use Rattle.cr_top.specs.Stores.{BeginsAt, OpensStore, ShelfState, keeping_of, state_of};

use crate::exit::{Exit, exit_of_workers};
use crate::storing::open_store;
use cr_book::Book;
use cr_ports::{Gates, Opened, Shelf, Sink, WriteFault, write_all};
use cr_workers::serve_book;
use itoa::Buffer;
use std::alloc::Global;
use std::sync::Wait;
use std::thread::Threads;

/// Writes how many entries the history has: `entries K` and a line's end. Behind a fault nothing
/// more is written. Takes no memory.
fn tell_entries<O: Sink>(out: &mut O, entries: u64) -> Result<(), WriteFault>
    ensures { TellsEntries (is_ok result) entries (outlet_of O.taken O.faults out.old)
        (outlet_of O.taken O.faults out.new) }
{
    let mut digits = Buffer::new();
    write_all(out, b"entries ")?;
    write_all(out, digits.format(entries).as_bytes())?;
    write_all(out, b"\n")
}

/// Where connections come from, how many are served at once, and how many in all.
#[derive(Clone, Copy)]
pub struct Address<'a> {
    /// The address that is listened at.
    pub listen: &'a str,
    /// How many workers serve connections, from 1 to 64.
    pub workers: u32,
    /// How many connections are served, from 1 to 65,536.
    pub connections: u32,
}

/// Opens the gates at the address, or tells why they don't open.
#[tactic(auto, using(crate::proofs::Doors::new_doors))]
fn open_gates<G: Gates>(
    alloc: Global,
    address: Address,
    gates: &mut G,
) -> Result<Vec<G::Door>, Exit>
    requires { 1 ≤ address.workers }
    ensures shared { IfOk result (λ doors. map G.Door.left doors.items
        ≡ shares address.entry.workers address.entry.connections) }
    ensures new { IfOk result
        (λ doors. AreNew (door_of G.Door.left G.Door.is_out G.Door.faults G.Door.log) doors.items) }
    ensures same { IfOk result (λ doors. G.faults gates.new ≡ G.faults gates.old) }
    ensures logs { IfOk result (λ doors. G.logs gates.new ≡ G.logs gates.old) }
    ensures asked { IfOk result (λ doors. G.asked gates.new ≡ and_asked (G.asked gates.old) address.entry.listen.now) }
    ensures other { IfErr result (λ exit. AsksAtMost address.entry.listen.now (G.asked gates.old) (G.asked gates.new)) }
    ensures refused { let gates_at = gates_of G.faults G.logs G.asked in
        IfErr result (λ exit. IsWhyClosed exit (gates_at gates.old) (gates_at gates.new)
        × (G.faults gates.old ≤ G.faults gates.new)) }
{
    match gates.open(alloc, address.listen, address.workers, address.connections) {
        Opened::Doors(doors) => Ok(doors),
        Opened::Failed => Err(Exit::ListenFault),
        Opened::OutOfMemory => Err(Exit::OutOfMemory),
    }
}

/// Serves the connections of new doors, from the history of a book on that was opened at the
/// path, and shuts gates and store.
#[tactic(none)]
fn serve_open_book<R: Threads + Wait + Sync, S: Shelf, G: Gates, O: Sink>(
    rt: &R,
    alloc: Global,
    book: Book<S::Keeper>,
    doors: Vec<G::Door>,
    path: &str,
    out: &mut O,
    shelf: &mut S,
    gates: &mut G,
) -> Exit
    requires at_most { length doors.items ≤ 64 }
    requires few { turns_for (total G.Door.left doors.items) ≤ 2 ^ 40 }
    requires new { AreNew (door_of G.Door.left G.Door.is_out G.Door.faults G.Door.log) doors.items }
    requires open { S.has_opened shelf.old path.now (S.Keeper.kind book.opened) }
    ensures { let outlet = outlet_of O.taken O.faults in let stores = state_of S.rows S.faults in
        let gates_at = gates_of G.faults G.logs G.asked in
        let tries = tries_of S.Keeper.Keeper in
        (tells : List ℕ → Bool) → S.Keeper.tells_stops book.opened ≡ tells path.now
        → (s : ShelfState) → OpensStore S.Keeper.rows S.Keeper.faults path.now book s (stores shelf.old)
        → (g : GatesState G.Door.In G.Door.Out G.Door.Clock) → (listen : List ℕ) → OpensAt listen g (gates_at gates.old)
        → (workers connections : ℕ) → map G.Door.left doors.items ≡ shares workers connections
        → (IsTrue (tells path.now)
        → BeginsAt S.Keeper.Keeper
        (S.opened_at shelf.old path.now) book)
        → ServesMany (keeping_of tells S.Keeper.opens (S.left shelf.new) path.now) path.now
        (streams_of tries G.Door.In.left G.Door.In.read_gives G.Door.In.faults G.Door.Out.taken G.Door.Out.faults
        G.Door.Clock.coming G.Door.Clock.faults)
        listen workers connections result (outlet out.old) (outlet out.new) s (stores shelf.new)
        g (gates_at gates.new) }
{
    let (ended, book, doors) = serve_book(rt, alloc, book, doors);
    gates.shut(doors);
    let entries = book.entries();
    shelf.shut(path, book.close());
    exit_of_workers(ended, tell_entries(out, entries).is_ok())
}

/// Serves so many connections at the address from the history of the rows at the path on, which are then those of the
/// last history: each worker those of a door of its own, one after another, each at the moments that its clock gives.
/// Then writes `entries K`, K the number of entries of the history. Where the rows don't open no gate is asked, and
/// where the gates don't nothing is written.
pub fn serve_store<R: Threads + Wait + Sync, S: Shelf, G: Gates, O: Sink>(
    rt: &R,
    alloc: Global,
    path: &str,
    address: Address,
    out: &mut O,
    shelf: &mut S,
    gates: &mut G,
) -> Exit
    requires workers { (1 ≤ address.workers) × (address.workers ≤ 64) }
    requires connections { (1 ≤ address.connections) × (address.connections ≤ 65536) }
    ensures serves { let outlet = outlet_of O.taken O.faults in let stores = state_of S.rows S.faults in
        let gates_at = gates_of G.faults G.logs G.asked in
        let keeps = keeping_of (S.tells_stops shelf.old) S.Keeper.opens (S.left shelf.new) path.now in
        let tries = tries_of S.Keeper.Keeper in
        ServesGates (S.tells_stops shelf.old path.now) keeps path.now
        (streams_of tries G.Door.In.left G.Door.In.read_gives G.Door.In.faults G.Door.Out.taken G.Door.Out.faults
        G.Door.Clock.coming G.Door.Clock.faults)
        address.entry.listen.now address.entry.workers address.entry.connections result
        (outlet out.old) (outlet out.new) (stores shelf.old) (stores shelf.new)
        (gates_at gates.old) (gates_at gates.new) }

    // Where nothing fails and the rows are a legal history's, each door gives its share, or memory runs out.
    ensures answers { (Rises (O.faults out.old) (O.faults out.new) → ⊥)
        → (Rises (G.faults gates.old) (G.faults gates.new) → ⊥) → (Rises (S.faults shelf.old) (S.faults shelf.new) → ⊥)
        → (H : History) → Legal H → S.rows shelf.old path.now ≡ Some (rows_of H)
        → (result ≡ Exit.OutOfMemory) ⊎ (result ≡ Exit.Done) }
    ensures known { result ≢ Exit.Usage }
    ensures unread { result ≢ Exit.ReadFault }
    ensures untimed { result ≢ Exit.ClockFault }
    ensures write_fault { result ≡ Exit.WriteFault → Rises (O.faults out.old) (O.faults out.new) }
    ensures keeper_fault { result ≡ Exit.KeeperFault → Rises (S.faults shelf.old) (S.faults shelf.new) }
    ensures listen_fault { result ≡ Exit.ListenFault → Rises (G.faults gates.old) (G.faults gates.new) }
{
    let book = match open_store(alloc, path, shelf) {
        Ok(book) => book,
        Err(exit) => return exit,
    };
    match open_gates(alloc, address, gates) {
        Ok(doors) => serve_open_book(rt, alloc, book, doors, path, out, shelf, gates),
        Err(exit) => {
            shelf.shut(path, book.close());
            exit
        }
    }
}
