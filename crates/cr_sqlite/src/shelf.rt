// SPDX-License-Identifier: Apache-2.0 OR MIT
//! A shelf of files.
ghost use Rattle.std.specs.Prelude.{◌≡◌, ℕ, None, false, ⊤, IfOk};
ghost use Rattle.cr_ports.specs.Count.{Gains};
ghost use Rattle.cr_ports.specs.Keeping.{HasCause};
ghost use Rattle.cr_sqlite.specs.Telling.{without_reason};

use crate::access::{make_private, tell_open_ones};
use crate::keeper::SqliteKeeper;
use crate::reason::{Reason, StoreError};
use cr_ports::{KeeperError, Shelf};
use sqlite::{Alter, Connection, Error, ErrorCode, File, FileStore};
use sqlite_disk::Disk;
use std::io::ErrorKind;
use std::marker::Model;
use std::rt::HostRuntime;

/// Opens files as stores. While one is open, no other process can open it.
///
/// # Model
///
/// The fault counter.
#[derive(Drop)]
pub struct SqliteShelf {
    rt: HostRuntime,
    faults: u64,
    reason: Option<Reason>,
}

impl Model for SqliteShelf {
    ghost use Rattle.std.specs.Prelude.{ℕ};

    ghost Value = { ℕ };

    ghost view = { λ s. s.faults };
}

// The three below have no clause, so that what the library says of files stays out of the shelf's proofs. A call of a
// keeper's method for a store in files is proved with all that such a store is made of, so few functions make one,
// and those over any disk.

/// Opens the file as a database, which it makes for its owner if it is missing.
fn connect(rt: &HostRuntime, path: &str) -> Result<Connection<FileStore<File>>, Error> {
    make_file(rt, path)?;
    Connection::open(rt, path)
}

/// Makes the file, for its owner only, if it is missing.
fn make_file(rt: &HostRuntime, path: &str) -> Result<(), Error> {
    match make_private(rt, path) {
        Ok(()) => Ok(()),
        Err(error) if error.kind() == ErrorKind::OutOfMemory => {
            Err(Error::SqliteFailure(ErrorCode::OutOfMemory))
        }
        Err(_) => Err(Error::SqliteFailure(ErrorCode::CannotOpen)),
    }
}

/// Closes the connection.
fn disconnect<D: Disk + Drop>(conn: Connection<FileStore<D>>) -> Result<(), Error> {
    conn.close()
}

/// What a keeper left when it was taken back: how many faults it counted, what the last of them was, and how closing
/// its connection ended.
struct Closed {
    faults: u64,
    reason: Option<Reason>,
    end: Result<(), Error>,
}

/// Closes a keeper over any disk, so that what it leaves has no disk in it.
fn close<D: Disk + Drop>(keeper: SqliteKeeper<FileStore<D>>) -> Closed
    ensures { result.faults ≡ keeper }
{
    let (conn, faults, reason) = keeper.into_parts();
    let end = disconnect(conn);
    Closed {
        faults,
        reason,
        end,
    }
}

impl SqliteShelf {
    /// Creates a shelf with no fault counted. It opens no file yet.
    pub fn new(rt: &HostRuntime) -> Self
        ensures { result ≡ 0 }
    {
        SqliteShelf {
            rt: *rt,
            faults: 0,
            reason: None,
        }
    }

    /// Returns what the last fault was, of the shelf or of a keeper that it took back; `None` if nothing has failed.
    pub fn reason(&self) -> Option<Reason> {
        self.reason
    }

    /// Counts a fault and keeps its reason. Lack of memory is no fault.
    fn refused(&mut self, refusal: StoreError) -> KeeperError
        ensures { HasCause {T = ℕ} self.old self.new (Err result) }
    {
        match refusal {
            StoreError::Failed(reason) => {
                self.faults = self.faults.saturating_add(1);
                self.reason = Some(reason);
                KeeperError::Failed
            }
            StoreError::OutOfMemory => KeeperError::OutOfMemory,
        }
    }

    /// Takes a connection as a keeper.
    fn adopt<S: Alter + Drop>(
        &mut self,
        conn: Connection<S>,
    ) -> Result<SqliteKeeper<S>, KeeperError>
        ensures fresh { IfOk result (λ keeper. keeper ≡ 0) }
        ensures cause { HasCause self.old self.new result }
    {
        match SqliteKeeper::adopt_or_drop(&self.rt, conn, &mut self.faults) {
            Ok(keeper) => Ok(keeper),
            Err(error) => Err(self.told(error)),
        }
    }

    /// Takes a connection as a keeper, if there is one.
    fn connected<D: Disk + Drop>(
        &mut self,
        conn: Result<Connection<FileStore<D>>, Error>,
    ) -> Result<SqliteKeeper<FileStore<D>>, KeeperError>
        ensures fresh { IfOk result (λ keeper. keeper ≡ 0) }
        ensures cause { HasCause self.old self.new result }
    {
        match conn {
            Ok(conn) => self.adopt(conn),
            Err(error) => Err(self.refused(StoreError::from(error))),
        }
    }

    /// Turns a keeper's refusal, which was counted before, into a shelf's, and keeps its reason.
    fn told(&mut self, error: StoreError) -> KeeperError
        ensures told { result ≡ without_reason error }
        ensures same { self.new ≡ self.old }
    {
        match error {
            StoreError::Failed(reason) => {
                self.reason = Some(reason);
                KeeperError::Failed
            }
            StoreError::OutOfMemory => KeeperError::OutOfMemory,
        }
    }

    /// Counts a failure in closing, and writes a line on standard error.
    fn ended(&mut self, path: &str, end: Result<(), Error>)
        ensures { Gains self.old 0 self.new }
    {
        if let Err(error) = end {
            let _ = eprintln!(self.rt;
                "confd: {path}: not shut well, its log stays beside it: {error}"
            );
            self.refused(StoreError::from(error));
        }
    }

    /// Counts a keeper's faults, and a failure in closing it. The reason is that of the keeper's last fault, if it
    /// had one.
    fn take_back(&mut self, path: &str, closed: Closed)
        ensures { Gains self.old closed.faults self.new }
    {
        let Closed {
            faults,
            reason,
            end,
        } = closed;
        self.faults = self.faults.saturating_add(faults);
        self.ended(path, end);
        self.reason = reason.or(self.reason);
    }
}

impl Shelf for SqliteShelf {
    type Keeper = SqliteKeeper<FileStore<File>>;

    ghost rows = { λ _ _. None };

    ghost tells_stops = { λ _ _. false };

    ghost has_opened = { λ _ _ _. ⊤ };

    ghost faults = { λ s. s };

    ghost opened_at = { λ _ _. 0 };

    ghost left = { λ _ _ _. ⊥ };

    /// Opens the file as a store. If it is missing, it is made, and so is its log, for its owner only. A store of
    /// version 1 or 2 becomes one of version 3. All of it is looked at, and a file that isn't taken is unchanged,
    /// except that one of an older version may have been brought to 3 before. If others may read a file that is
    /// taken, standard error gets a line.
    fn open(&mut self, path: &str) -> Result<SqliteKeeper<FileStore<File>>, KeeperError> {
        let conn = connect(&self.rt, path);
        let keeper = self.connected(conn)?;
        tell_open_ones(&self.rt, path);
        Ok(keeper)
    }

    /// Copies the log, which has all that was appended, into the file. If that fails, which is one more fault, the
    /// log stays beside the file, and standard error gets a line. The reason is that of the keeper's last fault, if
    /// it had one.
    fn shut(&mut self, path: &str, keeper: SqliteKeeper<FileStore<File>>) {
        self.take_back(path, close(keeper));
    }
}
