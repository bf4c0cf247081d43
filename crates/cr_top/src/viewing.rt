// SPDX-License-Identifier: Apache-2.0 OR MIT
//! A user's view of a store, printed.
ghost use Rattle.std.specs.Prelude.{◌≡◌, ◌⊎◌, Some};
ghost use Rattle.cr_base.specs.HistoryFacts.{number_of};
ghost use Rattle.cr_base.specs.History.{History};
ghost use Rattle.cr_base.specs.Rows.{rows_of};
ghost use Rattle.cr_policy.specs.Legal.{Legal};
ghost use Rattle.cr_ports.specs.Count.{Rises};
ghost use Rattle.cr_ports.specs.Writing.{outlet_of};
ghost use Rattle.cr_top.specs.declared.exit.Exit.{Exit};
ghost use Rattle.cr_top.specs.Stores.{AnswersView, TellsStore, TellsView, state_of};

use crate::exit::Exit;
use crate::storing::open_store;
use cr_base::{Short, UserNo};
use cr_book::Book;
use cr_ports::{Keeper, Shelf, Sink};
use cr_sights::ViewError;
use std::alloc::Global;

/// More bytes than any name has, and as many as a short text may have.
const MOST_BYTES: usize = 34;

/// Returns the user who registered this name, and none exactly where nobody did.
fn user_named<K: Keeper>(book: &Book<K>, name: &str) -> Option<UserNo>
    requires { Legal book.now.log }
    ensures { result ≡ number_of name.now book.now.log }
{
    if name.len() > MOST_BYTES {
        return None;
    }
    book.number_of(&Short::from_slice(name.as_bytes()))
}

/// Prints the view of the user who registered the name.
fn print_view<K: Keeper, O: Sink>(book: &Book<K>, name: &str, out: &mut O) -> Exit
    requires { Legal book.now.log }
    ensures { TellsView book.now.log name.now result (outlet_of O.taken O.faults out.old)
        (outlet_of O.taken O.faults out.new) }
{
    let Some(user) = user_named(book, name) else {
        return Exit::NoUser;
    };
    match book.view_lines(user, out) {
        Ok(()) => Exit::Done,
        Err(ViewError::WriteFault) => Exit::WriteFault,
        Err(ViewError::OutOfMemory) => Exit::OutOfMemory,
    }
}

/// Prints what the user who registered the name sees of the history of the rows at the path, a line a
/// sighting. The rows stay as they are.
pub fn view_store<S: Shelf, O: Sink>(
    alloc: Global,
    path: &str,
    name: &str,
    out: &mut O,
    shelf: &mut S,
) -> Exit
    ensures views { let outlet = outlet_of O.taken O.faults in let stores = state_of S.rows S.faults in
        TellsStore (S.tells_stops shelf.old path.now) path.now name.now result (outlet out.old) (outlet out.new)
        (stores shelf.old) (stores shelf.new) }

    // Where nothing fails and the rows are a legal history's, its view is told whole, or nobody has
    // the name; or memory is wanting.
    ensures answers { let outlet = outlet_of O.taken O.faults in
        (Rises (O.faults out.old) (O.faults out.new) → ⊥) → (Rises (S.faults shelf.old) (S.faults shelf.new) → ⊥)
        → (H : History) → Legal H → S.rows shelf.old path.now ≡ Some (rows_of H)
        → (result ≡ Exit.OutOfMemory) ⊎ AnswersView H name.now result (outlet out.old) (outlet out.new) }
{
    match open_store(alloc, path, shelf) {
        Ok(book) => {
            let exit = print_view(&book, name, out);
            shelf.shut(path, book.close());
            exit
        }
        Err(exit) => exit,
    }
}
