// SPDX-License-Identifier: Apache-2.0 OR MIT
//! Disks in memory, by their paths.
ghost use Rattle.std.specs.Prelude.{◌≡◌, ◌≢◌, ◌⊎◌, ◌↔◌, ◌<◌, ◌≤◌, ◌+◌, ◌^◌, ◌-◌};
ghost use Rattle.std.specs.Prelude.{[], ℕ, List, IfNone, IfOk, IfSome, IsFalse, IsTrue, OnOk, length, min};
ghost use Rattle.cr_ports.specs.Count.{Gains};
ghost use Rattle.cr_ports.specs.Keeping.{HasCause};
ghost use Rattle.cr_disks.specs.Disk.{with_bytes};
ghost use Rattle.cr_disks.specs.Held.{left_in, left_since_of, settled, state_of};
ghost use Rattle.cr_disks.specs.Paths.{bytes_at, has_file, left_of_last, state_at, with_state};

use crate::disks::Disks;
use crate::mem_disk::MemDisk;
use cr_ports::KeeperError;
use std::alloc::{AllocError, Global};
use std::collections::BTreeMap;
use std::marker::Model;
use std::snapshot::Snapshot;

/// Files in memory, by path, each as the disk that was last shut there: what a stop might have left of that one it
/// may still leave. A disk over one has room for so many more bytes and calls, and fails at the listed calls.
///
/// # Model
///
/// The disk at each path, the list, the room, the fault counter, and the disk that was shut last.
pub struct MemDisks {
    alloc: Global,
    files: BTreeMap<String, MemDisk>,
    failing: Vec<u64>,
    room: usize,
    calls: usize,
    faults: u64,
    last: Option<Snapshot<MemDisk>>,
}

// Written out, so that a caller doesn't prove again how each part is dropped.
impl Drop for MemDisks {
    fn drop(self) {
        let MemDisks {
            alloc: _,
            files: _,
            failing: _,
            room: _,
            calls: _,
            faults: _,
            last: _,
        } = self;
    }
}

impl Model for MemDisks {
    ghost use Rattle.std.specs.Option.{option_map};
    ghost use Rattle.std.specs.declared.snapshot.Snapshot.{Snapshot};
    ghost use Rattle.cr_disks.specs.Held.{Held};
    ghost use Rattle.cr_disks.specs.Paths.{Filed};

    ghost Value = { Filed };

    ghost view = { λ d. record {
      files = d.files.entries;
      failing = d.failing.items;
      room = d.room;
      calls = d.calls;
      faults = d.faults;
      last = option_map (λ (disk : Snapshot Held). disk.value) d.last;
    } };
}

impl MemDisks {
    /// Creates disks with no file at any path, and no fault counted. Each that they open has room for so many bytes
    /// past those of its file and for so many writes and syncs. Of these, numbered from 0, those in `failing` fail.
    pub fn new(alloc: Global, room: usize, calls: usize, failing: Vec<u64>) -> Self
        ensures files { bytes_at result.files ≡ (λ _. []) }
        ensures states { state_at result.files ≡ (λ _. settled []) }
        ensures failing { result.failing ≡ failing.items }
        ensures room { (result.room ≡ room) × (result.calls ≡ calls) }
        ensures faults { result.faults ≡ 0 }
    {
        MemDisks {
            alloc,
            files: BTreeMap::new(alloc),
            failing,
            room,
            calls,
            faults: 0,
            last: None,
        }
    }

    /// Lends the disk that was shut last at the path, with the record of its calls.
    ///
    /// # Cost
    ///
    /// One look-up.
    pub fn file_at(&self, path: &str) -> Option<&MemDisk>
        ensures bytes { IfSome result (λ disk. disk.now.bytes ≡ bytes_at self.now.files path.now) }
        ensures state { IfSome result (λ disk. state_of disk.now ≡ state_at self.now.files path.now) }
        ensures none { IfNone result ((bytes_at self.now.files path.now ≡ [])
            × (state_at self.now.files path.now ≡ settled [])) }
    {
        self.files.get(path)
    }

    /// Lends the bytes at the path.
    ///
    /// # Cost
    ///
    /// One look-up.
    pub fn bytes_at(&self, path: &str) -> &[u8]
        ensures { result.now ≡ bytes_at self.now.files path.now }
    {
        match self.file_at(path) {
            Some(disk) => disk.bytes(),
            None => &[],
        }
    }

    /// Makes an empty file at the path, if there is none.
    ///
    /// # Errors
    ///
    /// If memory runs out.
    fn make_file(&mut self, path: &str) -> Result<(), AllocError>
        ensures opened { OnOk result (IsTrue (has_file self.new.files path.now)) }
        ensures files { bytes_at self.new.files ≡ bytes_at self.old.files }
        ensures states { state_at self.new.files ≡ state_at self.old.files }
        ensures failing { self.new.failing ≡ self.old.failing }
        ensures room { (self.new.room ≡ self.old.room) × (self.new.calls ≡ self.old.calls) }
        ensures faults { self.new.faults ≡ self.old.faults }
    {
        if self.files.contains_key(path) {
            return Ok(());
        }
        add_file(self.alloc, &mut self.files, path)
    }

    /// Returns whether a disk over the file at the path would have more bytes than a disk may have.
    fn is_too_long(&self, path: &str) -> bool
        ensures { IsFalse result ↔ (length (bytes_at self.now.files path.now) + self.now.room < 2 ^ 62) }
    {
        let most = (1u64 << 62).saturating_sub(self.room as u64);
        self.bytes_at(path).len() as u64 >= most
    }

    /// Opens a disk over the file at the path.
    ///
    /// # Errors
    ///
    /// If memory runs out.
    fn disk_at(&self, path: &str) -> Result<MemDisk, AllocError>
        requires { length (bytes_at self.now.files path.now) + self.now.room < 2 ^ 62 }
        ensures bytes { IfOk result (λ disk. disk.bytes ≡ bytes_at self.now.files path.now) }
        ensures state { IfOk result (λ disk. state_of disk ≡ state_at self.now.files path.now) }
        ensures faults { IfOk result (λ disk. disk.faults ≡ 0) }
    {
        let failing = self.failing.clone()?;
        match self.file_at(path) {
            Some(disk) => disk.reopened(self.alloc, self.room, self.calls, failing),
            None => {
                let none = Vec::new(self.alloc);
                MemDisk::new(self.alloc, none, self.room, self.calls, failing)
            }
        }
    }
}

/// Makes an empty file at a path where there is none.
///
/// # Errors
///
/// If memory runs out.
fn add_file(
    alloc: Global,
    files: &mut BTreeMap<String, MemDisk>,
    path: &str,
) -> Result<(), AllocError>
    requires { IsFalse (has_file files.old.entries path.now) }
    ensures opened { OnOk result (IsTrue (has_file files.new.entries path.now)) }
    ensures files { bytes_at files.new.entries ≡ bytes_at files.old.entries }
    ensures states { state_at files.new.entries ≡ state_at files.old.entries }
{
    let name = String::from_str(alloc, path)?;
    let disk = MemDisk::new(alloc, Vec::new(alloc), 0, 0, Vec::new(alloc))?;
    match files.insert(name, disk) {
        Ok(_) => Ok(()),
        Err(_) => Err(AllocError),
    }
}

/// Puts a disk at a path where there is a file.
fn put(files: &mut BTreeMap<String, MemDisk>, path: &str, disk: MemDisk)
    requires { IsTrue (has_file files.old.entries path.now) }
    ensures bytes { bytes_at files.new.entries ≡ with_bytes (bytes_at files.old.entries) path.now disk.bytes }
    ensures states { state_at files.new.entries ≡ with_state (state_at files.old.entries) path.now (state_of disk) }
{
    if let Some(file) = files.get_mut(path) {
        *file = disk;
    }
}

/// Takes the file at a path away.
fn take(files: &mut BTreeMap<String, MemDisk>, path: &str)
    ensures bytes { bytes_at files.new.entries ≡ with_bytes (bytes_at files.old.entries) path.now [] }
    ensures states { state_at files.new.entries ≡ with_state (state_at files.old.entries) path.now (settled []) }
{
    let _ = files.remove(path);
}

impl Disks for MemDisks {
    type Disk = MemDisk;

    ghost files = { λ d. bytes_at d.files };

    ghost may_leave = { λ d path image. left_in (state_at d.files path) image };

    ghost has_opened = { λ d path. IsTrue (has_file d.files path) };

    ghost left = { λ d _ t image. left_of_last d.last t image };

    ghost faults = { λ d. d.faults };

    fn open(&mut self, path: &str) -> Result<MemDisk, KeeperError>
        ensures found { IfOk result (λ disk. disk.bytes ≡ bytes_at self.old.files path.now) }
        ensures stops { IfOk result (λ disk. (image : List ℕ)
            → left_in (state_of disk) image ↔ left_in (state_at self.old.files path.now) image) }
        ensures fresh { IfOk result (λ disk. disk.faults ≡ 0) }
        ensures opened { OnOk result (IsTrue (has_file self.new.files path.now)) }
        ensures same { bytes_at self.new.files ≡ bytes_at self.old.files }
        ensures as_before { (other image : List ℕ)
            → left_in (state_at self.new.files other) image ↔ left_in (state_at self.old.files other) image }
        ensures cause { HasCause self.old.faults self.new.faults result }
    {
        if self.is_too_long(path) {
            self.faults = self.faults.saturating_add(1);
            return Err(KeeperError::Failed);
        }
        if self.make_file(path).is_err() {
            return Err(KeeperError::OutOfMemory);
        }
        match self.disk_at(path) {
            Ok(disk) => Ok(disk),
            Err(_) => Err(KeeperError::OutOfMemory),
        }
    }

    fn shut(&mut self, path: &str, disk: MemDisk)
        requires { IsTrue (has_file self.old.files path.now) }
        ensures kept { bytes_at self.new.files ≡ with_bytes (bytes_at self.old.files) path.now disk.bytes }
        ensures count { Gains self.old.faults disk.faults self.new.faults }
        ensures stops { (t : ℕ) (image : List ℕ) → left_of_last self.new.last t image ↔ left_since_of disk t image }
        ensures still { (image : List ℕ)
            → left_in (state_at self.new.files path.now) image ↔ left_in (state_of disk) image }
        ensures others { (other image : List ℕ) → other ≢ path.now
            → left_in (state_at self.new.files other) image ↔ left_in (state_at self.old.files other) image }
    {
        self.last = Some(Snapshot::of(&disk));
        self.faults = self.faults.saturating_add(disk.faults());
        put(&mut self.files, path, disk);
    }

    /// Takes the file away.
    fn discard(&mut self, path: &str, disk: MemDisk) -> bool
        requires { IsTrue (has_file self.old.files path.now) }
        ensures gone { IsTrue result → bytes_at self.new.files ≡ with_bytes (bytes_at self.old.files) path.now [] }
        ensures kept { IsFalse result
            → bytes_at self.new.files ≡ with_bytes (bytes_at self.old.files) path.now disk.bytes }
        ensures still { (image : List ℕ) → left_in (state_at self.new.files path.now) image
            → (image ≡ []) ⊎ left_in (state_of disk) image }
        ensures others { (other image : List ℕ) → other ≢ path.now
            → left_in (state_at self.new.files other) image ↔ left_in (state_at self.old.files other) image }
        ensures count { Gains self.old.faults disk.faults self.new.faults }

        // It always can.
        ensures can { IsTrue result }
    {
        self.faults = self.faults.saturating_add(disk.faults());
        take(&mut self.files, path);
        true
    }
}
