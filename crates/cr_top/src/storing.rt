// SPDX-License-Identifier: Apache-2.0 OR MIT
//! Jobs on a store: its rows are opened as a book, worked on, and shut.
ghost use Rattle.std.specs.Prelude.{◌≡◌, ◌≢◌, ◌⊎◌, ℕ, List, Some, IfErr, IfOk, IsTrue};
ghost use Rattle.cr_base.specs.History.{History};
ghost use Rattle.cr_base.specs.Rows.{rows_of};
ghost use Rattle.cr_policy.specs.Legal.{Legal};
ghost use Rattle.cr_ports.specs.Count.{Rises};
ghost use Rattle.cr_top.specs.declared.exit.Exit.{Exit};
ghost use Rattle.cr_top.specs.Exits.{exit_of_rows, exit_of_shelf};
ghost use Rattle.cr_top.specs.Runs.{outside_of, IsFaultless, AnswersAll};
ghost use Rattle.cr_top.specs.Stores.{BeginsAt, OpensStore, PipesStore, StaysShut, keeping_of, state_of};

use crate::exit::{Exit, exit_of};
use crate::piping::pipe;
use cr_book::{Book, OpenError};
use cr_ports::{Clock, KeeperError, Shelf, Sink, Source};
use std::alloc::Global;
use std::sync::Wait;

/// Returns the exit of a run whose store the shelf didn't open.
fn exit_of_shelf(error: KeeperError) -> Exit
    ensures { result ≡ exit_of_shelf error }
{
    match error {
        KeeperError::Failed => Exit::KeeperFault,
        KeeperError::OutOfMemory => Exit::OutOfMemory,
    }
}

/// Returns the exit of a run whose store has rows that don't open.
fn exit_of_rows(error: OpenError) -> Exit
    ensures { result ≡ exit_of_rows error }
{
    match error {
        OpenError::BadStore { row, found } => Exit::BadStore {
            row,
            kind: found.kind,
        },
        OpenError::KeeperFault => Exit::KeeperFault,
        OpenError::OutOfMemory => Exit::OutOfMemory,
    }
}

/// Opens the book of the rows at the path. Where they don't open, the store is shut again, and the exit tells why.
pub(crate) fn open_store<S: Shelf>(
    alloc: Global,
    path: &str,
    shelf: &mut S,
) -> Result<Book<S::Keeper>, Exit>
    ensures opened { let stores = state_of S.rows S.faults in
        IfOk result (λ book. OpensStore S.Keeper.rows S.Keeper.faults path.now book
        (stores shelf.old) (stores shelf.new)) }
    ensures telling { IfOk result
        (λ book. S.Keeper.tells_stops book.opened ≡ S.tells_stops shelf.old path.now) }
    ensures begins { IsTrue (S.tells_stops shelf.old path.now) → IfOk result
        (λ book. BeginsAt S.Keeper.Keeper
        (S.opened_at shelf.new path.now) book) }
    ensures open { IfOk result (λ book. S.has_opened shelf.new path.now (S.Keeper.kind book.opened)) }
    ensures refused { IfErr result
        (λ exit. StaysShut (S.tells_stops shelf.old path.now) path.now exit (state_of S.rows S.faults shelf.old)
        (state_of S.rows S.faults shelf.new)) }
{
    let keeper = match shelf.open(path) {
        Ok(keeper) => keeper,
        Err(error) => return Err(exit_of_shelf(error)),
    };
    match Book::open(alloc, keeper) {
        Ok(book) => Ok(book),
        Err((error, keeper)) => {
            shelf.shut(path, keeper);
            Err(exit_of_rows(error))
        }
    }
}

/// Serves one connection over `input` and `out`, at the moments that `clock` gives, from the history of the rows at the
/// path on, which are then those of the last history. Where they don't open, nothing is read and nothing written.
///
/// A stop of the machine at any moment leaves, of keepers that tell what it does, the rows of the history that was
/// opened, then of the groups that some first of the wishes added, and then whole one more at most: that of a wish
/// which is answered that it wasn't kept.
pub fn pipe_store<R: Wait, S: Shelf, I: Source, O: Sink, C: Clock>(
    rt: &R,
    alloc: Global,
    path: &str,
    input: &mut I,
    out: &mut O,
    shelf: &mut S,
    clock: &mut C,
) -> Exit
    ensures pipes { let outside = outside_of I.faults O.taken O.faults C.coming C.faults in
        let stores = state_of S.rows S.faults in
        let keeps = keeping_of (S.tells_stops shelf.old) S.Keeper.opens (S.left shelf.new) path.now in
        PipesStore (S.tells_stops shelf.old path.now) keeps path.now I.left I.read_gives result
        (outside input.old out.old clock.old) (outside input.new out.new clock.new)
        (stores shelf.old) (stores shelf.new) }

    // Where nothing fails and the rows are a legal history's, all that the input's bytes spell is answered from that
    // history on, or memory runs out.
    ensures answers { let outside = outside_of I.faults O.taken O.faults C.coming C.faults in
        (b : List ℕ) → I.left input.old ≡ Some b
        → IsFaultless (outside input.old out.old clock.old) (outside input.new out.new clock.new)
        → (Rises (S.faults shelf.old) (S.faults shelf.new) → ⊥)
        → (H : History) → Legal H → S.rows shelf.old path.now ≡ Some (rows_of H)
        → (result ≡ Exit.OutOfMemory)
        ⊎ AnswersAll H result b (outside input.old out.old clock.old) (outside input.new out.new clock.new) }
{
    match open_store(alloc, path, shelf) {
        Ok(book) => {
            let (ending, keeper) = pipe(rt, alloc, book, input, out, clock);
            shelf.shut(path, keeper);
            exit_of(ending)
        }
        Err(exit) => exit,
    }
}
