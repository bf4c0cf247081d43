// SPDX-License-Identifier: Apache-2.0 OR MIT
//! One connection, from the history of a book on.
ghost use Rattle.std.specs.Prelude.{◌≡◌, ◌⊎◌, ℕ, List, Some, IsTrue};
ghost use Rattle.cr_book.specs.Stopping.{CountsTried};
ghost use Rattle.cr_ports.specs.Count.{Rises};
ghost use Rattle.cr_top.specs.declared.exit.Exit.{Exit};
ghost use Rattle.cr_top.specs.Exits.{exit_of};
ghost use Rattle.cr_top.specs.Runs.{KeepsSince, Pipes, outside_of, IsFaultless, AnswersAll};

use cr_book::Book;
use cr_ports::{Clock, Keeper, Sink, Source};
use cr_session::{Ending, Server, note_no_memory, serve_connection};
use std::alloc::Global;
use std::sync::Wait;

/// Serves one connection over `input` and `out`, at the moments that `clock` gives, from the book's history on. Tells
/// how it ended, and hands back the book's keeper, which keeps the rows of the last history.
///
/// It has the only pass of the lock that it makes round the book, so it waits for nobody.
///
/// `ReadFault` comes only where the count of `input` has risen, or stands at its last value, `WriteFault` so for
/// `out` and `ClockFault` so for `clock`. With every other ending these counts stay, but where memory ran out: the
/// clock's may rise as it fails to give the moment of the note, and that of `out` as the note's write breaks off.
/// `OutOfMemory` stands for a lack of memory; behind a wish that was read it comes only where the wish wanted some: see
/// `serve_connection`.
pub fn pipe<R: Wait, K: Keeper, I: Source, O: Sink, C: Clock>(
    rt: &R,
    alloc: Global,
    book: Book<K>,
    input: &mut I,
    out: &mut O,
    clock: &mut C,
) -> (Ending, K)
    ensures pipes { let outside = outside_of I.faults O.taken O.faults C.coming C.faults in
        let keeps = KeepsSince K.Keeper book result.1 in
        Pipes K.rows keeps K.faults I.left I.read_gives book.log result.0 book.keeper result.1
        (outside input.old out.old clock.old) (outside input.new out.new clock.new) }

    ensures alike { K.kind result.1 ≡ K.kind book.opened }
    ensures counted { IsTrue (K.tells_stops result.1) → CountsTried K.Keeper book.opened result.1 }

    // Where nothing fails, the keeper's calls included, all that the input's bytes spell is answered,
    // or memory runs out.
    ensures answers { let outside = outside_of I.faults O.taken O.faults C.coming C.faults in
        (b : List ℕ) → I.left input.old ≡ Some b
        → IsFaultless (outside input.old out.old clock.old) (outside input.new out.new clock.new)
        → (Rises (K.faults book.keeper) (K.faults result.1) → ⊥)
        → (exit_of result.0 ≡ Exit.OutOfMemory)
        ⊎ AnswersAll book.log (exit_of result.0) b (outside input.old out.old clock.old)
        (outside input.new out.new clock.new) }
    ensures read_fault { result.0 ≡ Ending.ReadFault → Rises (I.faults input.old) (I.faults input.new) }
    ensures write_fault { result.0 ≡ Ending.WriteFault → Rises (O.faults out.old) (O.faults out.new) }
    ensures clock_fault { result.0 ≡ Ending.ClockFault → Rises (C.faults clock.old) (C.faults clock.new) }
{
    let (server, mut pass) = match Server::new(rt, alloc, book) {
        Ok(made) => made,
        Err(book) => return (note_no_memory(out, clock, false, None), book.close()),
    };
    let ending = serve_connection(&server, &mut pass, input, out, clock);
    let book = server.close(pass);
    (ending, book.close())
}
