// SPDX-License-Identifier: Apache-2.0 OR MIT
//! A disk over a file.
ghost use Rattle.std.specs.Prelude.{◌≡◌, ◌≤◌, false, [], ℕ, length};
ghost use Rattle.std.specs.Io.{ReadsAtMost};
ghost use Rattle.cr_ports.specs.Count.{Rises};

use crate::reason::Reason;
use cr_disks::{Disk, DiskFailed};
use cr_ports::ReadStep;
use std::fs::File;
use std::io::{self, ErrorKind};
use std::marker::Model;
use std::os::unix::fs::FileExt;

/// The most bytes that a disk has.
const MOST: u64 = 1 << 62;

/// How often a read that a signal broke off is tried again.
const AGAIN: u32 = 16;

/// A file of the system, as a disk that doesn't tell its bytes. After a sync that failed each write and each sync
/// fails: what the system then shows of the file may not be on the disk, and a second sync may succeed all the same.
///
/// # Model
///
/// The fault counter.
#[derive(Drop)]
pub struct FileDisk {
    file: File,
    faults: u64,
    reason: Option<Reason>,
    is_over: bool,
}

impl Model for FileDisk {
    ghost use Rattle.std.specs.Prelude.{ℕ};

    ghost Value = { ℕ };

    ghost view = { λ d. d.faults };
}

/// Reads once from the file, retrying if a signal interrupts.
fn read_on(file: &File, at: u64, buf: &mut [u8]) -> io::Result<usize>
    ensures size { ReadsAtMost result buf.new }
    ensures length { length buf.new ≡ length buf.old }
{
    'reading: for _ in 0..AGAIN {
        match file.read_at(buf, at) {
            Err(error) if error.kind() == ErrorKind::Interrupted => {}
            answer => return answer,
        }
    }
    file.read_at(buf, at)
}

impl FileDisk {
    /// Returns a disk over an open file, with no fault counted.
    pub(crate) fn new(file: File) -> Self
        ensures { result ≡ 0 }
    {
        FileDisk {
            file,
            faults: 0,
            reason: None,
            is_over: false,
        }
    }

    /// Returns what the last fault was; `None` if no call has failed.
    pub fn reason(&self) -> Option<Reason> {
        self.reason
    }

    /// Returns whether a sync has failed, so that no further write is taken.
    pub fn is_over(&self) -> bool {
        self.is_over
    }

    /// Cuts the file to nothing, and syncs that where it can be. Returns whether it was cut.
    pub(crate) fn cut(&self) -> bool {
        let is_cut = self.file.set_len(0).is_ok();
        let _ = self.file.sync_all();
        is_cut
    }

    /// Closes the file. How many faults were counted.
    pub(crate) fn into_faults(self) -> u64
        ensures { result ≡ self }
    {
        let FileDisk {
            file: _,
            faults,
            reason: _,
            is_over: _,
        } = self;
        faults
    }

    /// Counts a fault.
    fn count(&mut self) -> DiskFailed
        ensures later { self.old ≤ self.new }
        ensures rises { Rises self.old self.new }
    {
        self.faults = self.faults.saturating_add(1);
        DiskFailed
    }

    /// Counts a fault, and keeps its reason.
    fn fail(&mut self, reason: Reason) -> DiskFailed
        ensures later { self.old ≤ self.new }
        ensures rises { Rises self.old self.new }
    {
        self.reason = Some(reason);
        self.count()
    }
}

impl Disk for FileDisk {
    ghost tells = { false };

    ghost seen = { λ _. [] };

    ghost may_leave = { λ _ _. ⊥ };

    ghost moment = { λ _. 0 };

    ghost left_since = { λ _ _ _. ⊥ };

    ghost faults = { λ d. d };

    ghost counts_now = { λ d t image le now. now };

    ghost only_now = { λ d image left. left };

    fn len(&mut self) -> Result<u64, DiskFailed> {
        match self.file.metadata() {
            Ok(found) if found.len() <= MOST => Ok(found.len()),
            Ok(_) => Err(self.fail(Reason::TooLong)),
            Err(error) => Err(self.fail(Reason::System(error))),
        }
    }

    fn read_at(&mut self, at: u64, buf: &mut [u8]) -> ReadStep {
        match read_on(&self.file, at, buf) {
            Ok(0) => ReadStep::End,
            Ok(n) => ReadStep::Got(n),
            Err(error) => {
                self.fail(Reason::System(error));
                ReadStep::Failed
            }
        }
    }

    fn write_at(&mut self, at: u64, piece: &[u8]) -> Result<(), DiskFailed> {
        if self.is_over {
            return Err(self.count());
        }
        if at > MOST || piece.len() as u64 > MOST - at {
            return Err(self.fail(Reason::TooLong));
        }
        match self.file.write_all_at(piece, at) {
            Ok(()) => Ok(()),
            Err(error) => Err(self.fail(Reason::System(error))),
        }
    }

    fn sync(&mut self) -> Result<(), DiskFailed> {
        if self.is_over {
            return Err(self.count());
        }
        match self.file.sync_data() {
            Ok(()) => Ok(()),
            Err(error) => {
                self.is_over = true;
                Err(self.fail(Reason::System(error)))
            }
        }
    }

    fn law_may_leave_seen(&self) {}
}
