// SPDX-License-Identifier: Apache-2.0 OR MIT
//! What standard error is told of journals in files.
use cr_files::FileDisk;
use cr_journal::JournalKeeper;
use cr_notices::{Notices, tell_if_open};
use cr_ports::{KeeperError, Observer};
use std::rt::HostRuntime;

/// Tells standard error in a line where appends begin to be refused, and in one where they are taken again; and of a
/// file that is opened, where others may read it.
pub struct StandardError {
    rt: HostRuntime,
    notices: Notices,
}

// Written out, so that a caller doesn't prove again how each part is dropped.
impl Drop for StandardError {
    fn drop(self) {
        let StandardError { rt: _, notices: _ } = self;
    }
}

impl StandardError {
    /// Returns one that has told nothing yet.
    pub fn new(rt: &HostRuntime) -> Self {
        StandardError {
            rt: *rt,
            notices: Notices::on_standard_error(rt),
        }
    }
}

impl Observer<JournalKeeper<FileDisk>> for StandardError {
    fn of_another(&self) -> StandardError {
        StandardError::new(&self.rt)
    }

    fn opened(&mut self, path: &str) {
        tell_if_open(&self.rt, path);
    }

    /// Tells where appends begin to be refused, and where they are taken again. Want of memory is for others to tell.
    fn appended(&mut self, keeper: &JournalKeeper<FileDisk>, answer: Result<(), KeeperError>) {
        match answer {
            Ok(()) => self.notices.taken(),
            Err(KeeperError::Failed) => {
                let disk = keeper.disk();
                if let Some(reason) = disk.reason() {
                    self.notices.refused(&reason, disk.is_over());
                }
            }
            Err(KeeperError::OutOfMemory) => {}
        }
    }
}
