// SPDX-License-Identifier: Apache-2.0 OR MIT
//! Journals by their paths.
use crate::rows::phase_set;
use cr_disks::{Disk, Disks, MemDisks};
use cr_journal::JournalShelf;
use cr_ports::{Keeper, KeeperError, Shelf};
use std::alloc::Global;
use std::test::Fail;

/// Returns disks with room for more than the tests take, whose listed calls fail, each disk's alike.
fn disks(alloc: Global, failing: Vec<u64>) -> MemDisks {
    MemDisks::new(alloc, 1 << 12, 64, failing)
}

/// Keeps a phase in the journal at the path. How many rows it then has.
fn keep_one(shelf: &mut JournalShelf<MemDisks>, path: &str) -> Result<u64, KeeperError> {
    let mut keeper = shelf.open(path)?;
    let kept = keeper.append_all(&[phase_set(1)]);
    let len = keeper.len();
    shelf.shut(path, keeper);
    kept?;
    len
}

#[test]
fn what_was_shut_is_opened_again(rt: HostRuntime) {
    let alloc = rt.alloc();
    let mut shelf = JournalShelf::new(alloc, disks(alloc, Vec::new(alloc)));
    assert!(rt; keep_one(&mut shelf, "one.cj") == Ok(1));
    assert!(rt; keep_one(&mut shelf, "one.cj") == Ok(2));
    assert!(rt; keep_one(&mut shelf, "other.cj") == Ok(1));
    assert_eq!(rt; shelf.disks().bytes_at("one.cj").len(), 235);
    assert_eq!(rt; shelf.disks().bytes_at("other.cj").len(), 122);
    assert!(rt; shelf.disks().bytes_at("third.cj").is_empty());
    assert!(rt; !shelf.found_none());
}

/// Puts bytes into a file.
fn write(disks: &mut MemDisks, path: &str, bytes: &[u8]) -> Result<(), KeeperError> {
    let mut disk = disks.open(path)?;
    let written = disk.write_at(0, bytes);
    disks.shut(path, disk);
    if written.is_ok() {
        Ok(())
    } else {
        Err(KeeperError::Failed)
    }
}

#[test]
fn what_is_no_journal_is_refused(rt: HostRuntime) -> Result<(), Fail> {
    let alloc = rt.alloc();
    let mut disks = disks(alloc, Vec::new(alloc));
    let written = write(&mut disks, "text.cj", b"a text").is_ok();
    assert!(rt; written);
    let mut shelf = JournalShelf::new(alloc, disks);
    assert!(rt; keep_one(&mut shelf, "text.cj") == Err(KeeperError::Failed));
    assert!(rt; shelf.found_none());
    assert_eq!(rt; shelf.disks().bytes_at("text.cj"), b"a text".as_slice());
    assert!(rt; keep_one(&mut shelf, "other.cj") == Ok(1));
    assert!(rt; !shelf.found_none());
    Ok(())
}

#[test]
fn a_disk_that_fails_is_told(rt: HostRuntime) -> Result<(), Fail> {
    let alloc = rt.alloc();
    for failing in [0, 1] {
        let failing = Vec::from_array(alloc, [failing])?;
        let mut shelf = JournalShelf::new(alloc, disks(alloc, failing));
        assert!(rt; keep_one(&mut shelf, "one.cj") == Err(KeeperError::Failed));
        assert!(rt; !shelf.found_none());
        assert!(rt; !shelf.left_half_made());
        assert!(rt; shelf.disks().bytes_at("one.cj").is_empty());
    }
    Ok(())
}

/// Returns how many calls the record of a disk over the file at the path has when it is opened.
fn recorded(disks: &mut MemDisks, path: &str) -> Result<usize, KeeperError> {
    let disk = disks.open(path)?;
    let many = disk.calls().len();
    disks.shut(path, disk);
    Ok(many)
}

#[test]
fn an_opening_takes_nothing_for_synced(rt: HostRuntime) -> Result<(), Fail> {
    let alloc = rt.alloc();
    let mut disks = disks(alloc, Vec::new(alloc));
    assert!(rt; recorded(&mut disks, "one.cj") == Ok(0));
    let written = write(&mut disks, "one.cj", b"a text").is_ok();
    assert!(rt; written);
    assert!(rt; recorded(&mut disks, "one.cj") == Ok(1));
    assert_eq!(rt; disks.bytes_at("one.cj"), b"a text".as_slice());
    Ok(())
}
