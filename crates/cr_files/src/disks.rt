// SPDX-License-Identifier: Apache-2.0 OR MIT
//! Files as disks, by their paths.
ghost use Rattle.std.specs.Prelude.{◌≡◌, [], ⊤, ℕ};

use crate::disk::FileDisk;
use crate::reason::Reason;
use cr_disks::Disks;
use cr_ports::KeeperError;
use std::fs::{self, File, OpenOptions, TryLockError};
use std::io::{self, ErrorKind};
use std::marker::Model;
use std::os::fd::AsRawFd;
use std::os::unix::fs::OpenOptionsExt;
use std::rt::HostRuntime;

/// The mode of a new file: only its owner reads and writes it.
const OWNERS_ALONE: u32 = 0o600;

/// Opens files as disks. While one is open, no other process can open it so.
///
/// # Model
///
/// The fault counter.
#[derive(Drop)]
pub struct FileDisks {
    rt: HostRuntime,
    faults: u64,
    reason: Option<Reason>,
}

impl Model for FileDisks {
    ghost use Rattle.std.specs.Prelude.{ℕ};

    ghost Value = { ℕ };

    ghost view = { λ d. d.faults };
}

/// Makes the file, only for its owner, if it is missing.
fn make_missing(rt: &HostRuntime, path: &str) -> Result<(), Reason> {
    match OpenOptions::new()
        .write(true)
        .create_new(true)
        .mode(OWNERS_ALONE)
        .open(rt, path)
    {
        Ok(_) => Ok(()),
        Err(error) if error.kind() == ErrorKind::AlreadyExists => Ok(()),
        Err(error) => Err(Reason::System(error)),
    }
}

/// Syncs the folder of a file, so that its name lasts.
fn sync_folder(rt: &HostRuntime, path: &str) -> Result<(), Reason> {
    let folder = match path.rsplit_once('/') {
        Some(("", _)) => "/",
        Some((folder, _)) => folder,
        None => ".",
    };
    match File::open(rt, folder) {
        Ok(folder) => folder.sync_all().map_err(Reason::System),
        Err(error) => Err(Reason::System(error)),
    }
}

/// Opens a file, which is made where it is missing.
fn open_or_make(rt: &HostRuntime, path: &str) -> Result<File, Reason> {
    make_missing(rt, path)?;
    match fs::metadata(rt, path) {
        Ok(found) if found.is_file() => {}
        Ok(_) => return Err(Reason::NoFile),
        Err(error) => return Err(Reason::System(error)),
    }
    OpenOptions::new()
        .read(true)
        .write(true)
        .open(rt, path)
        .map_err(Reason::System)
}

/// Syncs a file, and has the system let go of the pages that it keeps of it in memory, to its end: so reads give what
/// the disk has. A sync that failed under an earlier process leaves pages that the disk lacks and that no later sync
/// writes, since they count as written.
fn settle(file: &File) -> io::Result<()> {
    file.sync_all()?;
    let advised = libc::posix_fadvise(file.as_raw_fd(), 0, 0, libc::POSIX_FADV_DONTNEED);
    if advised != 0 {
        return Err(io::Error::from_raw_os_error(advised));
    }
    Ok(())
}

/// Opens a file and holds it for this process, with all that it has on the disk, and its name too, whichever process
/// made it or put it there: an earlier one may have been stopped, or refused, before that.
fn open_held(rt: &HostRuntime, path: &str) -> Result<File, Reason> {
    let file = open_or_make(rt, path)?;
    match file.try_lock() {
        Ok(()) => {}
        Err(TryLockError::WouldBlock) => return Err(Reason::Busy),
        Err(TryLockError::Error(error)) => return Err(Reason::System(error)),
    }
    settle(&file).map_err(Reason::System)?;
    sync_folder(rt, path)?;
    Ok(file)
}

impl FileDisks {
    /// Creates disks over files of the system, with no fault counted. None is opened yet.
    pub fn new(rt: &HostRuntime) -> Self
        ensures { result ≡ 0 }
    {
        FileDisks {
            rt: *rt,
            faults: 0,
            reason: None,
        }
    }

    /// Returns why the last file that wasn't opened wasn't, or the last fault of a disk that was shut later; `None` if
    /// nothing has failed.
    pub fn reason(&self) -> Option<Reason> {
        self.reason
    }
}

impl Disks for FileDisks {
    type Disk = FileDisk;

    ghost files = { λ _ _. [] };

    ghost left = { λ _ _ _ _. ⊥ };

    ghost may_leave = { λ _ _ _. ⊥ };

    ghost has_opened = { λ _ _. ⊤ };

    ghost faults = { λ d. d };

    /// Makes the file if it is missing, only for its owner. File and folder are synced, and reads give what the disk
    /// has.
    fn open(&mut self, path: &str) -> Result<FileDisk, KeeperError> {
        match open_held(&self.rt, path) {
            Ok(file) => Ok(FileDisk::new(file)),
            Err(Reason::System(error)) if error.kind() == ErrorKind::OutOfMemory => {
                Err(KeeperError::OutOfMemory)
            }
            Err(reason) => {
                self.faults = self.faults.saturating_add(1);
                self.reason = Some(reason);
                Err(KeeperError::Failed)
            }
        }
    }

    /// Closes the file, which lets go of it.
    fn shut(&mut self, _path: &str, disk: FileDisk) {
        self.reason = disk.reason().or(self.reason);
        self.faults = self.faults.saturating_add(disk.into_faults());
    }

    /// Cuts the file to nothing, so that it keeps its owner and its mode, and closes it.
    fn discard(&mut self, path: &str, disk: FileDisk) -> bool {
        let is_cut = disk.cut();
        self.shut(path, disk);
        is_cut
    }
}
