// SPDX-License-Identifier: Apache-2.0 OR MIT
//! How a run ended.
ghost use Rattle.std.specs.Prelude.{◌≡◌};
ghost use Rattle.cr_top.specs.Exits.{exit_of, exit_of_workers, exit_status};

use cr_session::Ending;
use cr_workers::Worked;

/// How a run ended.
#[derive(Clone, Copy, Debug, PartialEq, Eq)]
pub enum Exit {
    /// The job was done: the connection's stream ended between requests, or the server closed it; each door gave its
    /// share of connections; or the view, or the drill's summary, was printed.
    Done,
    /// The connection's stream ended inside a request.
    Cut,
    /// The words name no job, a call for help included.
    Usage,
    /// The store has a row that is no entry's, or doesn't continue a legal history, or is its last one though
    /// another of its command or its bulk should follow.
    BadStore {
        /// The row's number, from 0: it is the first such row.
        row: u64,
        /// The number of its kind, as it was read.
        kind: u64,
    },
    /// A read of the input failed.
    ReadFault,
    /// A write to the output failed.
    WriteFault,
    /// The store couldn't be opened or read.
    KeeperFault,
    /// The address couldn't be listened at, or connections couldn't be taken any more.
    ListenFault,
    /// Nobody has registered the name in the store.
    NoUser,
    /// Out of memory.
    OutOfMemory,
    /// The clock gave no moment for an answer of the one connection.
    ClockFault,
}

impl Exit {
    /// Returns the status that the process ends with: 0 to 10.
    pub fn code(self) -> u8
        ensures { result ≡ exit_status self }
    {
        match self {
            Exit::Done => 0,
            Exit::Cut => 1,
            Exit::Usage => 2,
            Exit::BadStore { .. } => 3,
            Exit::ReadFault => 4,
            Exit::WriteFault => 5,
            Exit::KeeperFault => 6,
            Exit::ListenFault => 7,
            Exit::NoUser => 8,
            Exit::OutOfMemory => 9,
            Exit::ClockFault => 10,
        }
    }
}

/// Returns the exit of a run whose workers ended so, and whose last line was written or wasn't.
pub(crate) fn exit_of_workers(ended: Worked, is_written: bool) -> Exit
    ensures { result ≡ exit_of_workers ended is_written }
{
    match (ended, is_written) {
        (Worked::OutOfMemory, _) => Exit::OutOfMemory,
        (Worked::DoorFailed, _) => Exit::ListenFault,
        (Worked::Done, true) => Exit::Done,
        (Worked::Done, false) => Exit::WriteFault,
    }
}

/// Returns the exit of a run whose connection ended so.
pub fn exit_of(ending: Ending) -> Exit
    ensures { result ≡ exit_of ending }
{
    match ending {
        Ending::Clean | Ending::Closed(_) => Exit::Done,
        Ending::Cut => Exit::Cut,
        Ending::ReadFault => Exit::ReadFault,
        Ending::WriteFault => Exit::WriteFault,
        Ending::ClockFault => Exit::ClockFault,
        Ending::OutOfMemory => Exit::OutOfMemory,
    }
}
