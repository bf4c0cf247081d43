// SPDX-License-Identifier: Apache-2.0 OR MIT
//! What connections are served with.
ghost use Rattle.std.specs.Prelude.{◌≡◌, MatchResult};
ghost use Rattle.cr_lock.specs.Closing.{Closes};
ghost use Rattle.cr_lock.specs.Passes.{first_pass};

use cr_book::Book;
use cr_lock::{HistoryLock, Pass};
use cr_ports::Keeper;
use std::alloc::Global;

/// What connections are served with: what waits for a turn, where memory comes from, and the lock of the one book.
/// It is lent to all that serve one; each has a pass of the lock, and its streams.
pub struct Server<'a, R, K: Keeper> {
    /// What waits, and starts threads.
    pub rt: &'a R,
    /// Where memory comes from.
    pub alloc: Global,
    /// The lock of the book.
    pub lock: HistoryLock<Book<K>>,
}

impl<'a, R, K: Keeper> Server<'a, R, K> {
    /// Returns a server of the book, and the first pass of its lock; without memory for that the book comes back.
    pub fn new(
        rt: &'a R,
        alloc: Global,
        book: Book<K>,
    ) -> Result<(Server<'a, R, K>, Pass<Book<K>>), Book<K>>
        ensures { MatchResult result
            (λ made. (made.0.lock.first ≡ book) × (made.1 ≡ first_pass made.0.lock.lock book book.log))
            (λ same. same ≡ book) }
    {
        match HistoryLock::new(alloc, book) {
            Ok((lock, pass)) => Ok((Server { rt, alloc, lock }, pass)),
            Err((_, book)) => Err(book),
        }
    }

    /// Returns the book, when all passes are one again: as `HistoryLock::close` gives it.
    pub fn close(self, pass: Pass<Book<K>>) -> Book<K>
        requires own { pass.lock ≡ self.lock.lock }
        requires whole { pass.share ≡ 64 }
        ensures { Closes (λ b. b.log) (λ b. K.faults b.keeper) (λ b. b.opened) self.entry.lock.first pass result }
    {
        let Server {
            rt: _,
            alloc: _,
            lock,
        } = self;
        lock.close(pass)
    }
}
