// SPDX-License-Identifier: Apache-2.0 OR MIT
//! The bytes of a journal, and what opens once the machine stopped.
use crate::images::{PATTERNS, Torn, image_behind};
use crate::rows::{phase_set, with_texts};
use cr_base::Row;
use cr_disks::MemDisk;
use cr_journal::{JournalKeeper, OpenError};
use cr_ports::Keeper;
use std::alloc::{AllocError, Global};
use std::test::Fail;

/// Returns a disk of these bytes, with room for more than the tests take, whose listed calls fail.
fn disk_of(alloc: Global, bytes: Vec<u8>, failing: Vec<u64>) -> Result<MemDisk, AllocError> {
    if bytes.len() > 1 << 20 {
        return Err(AllocError);
    }
    MemDisk::new(alloc, bytes, 1 << 16, 256, failing)
}

/// Returns a new journal over a disk whose listed calls fail.
fn new_journal(alloc: Global, failing: Vec<u64>) -> Option<JournalKeeper<MemDisk>> {
    let disk = disk_of(alloc, Vec::new(alloc), failing).ok()?;
    JournalKeeper::open(alloc, disk).ok()
}

/// Returns the groups of the tests: one row, three rows, one row again.
fn groups(alloc: Global) -> Result<Vec<Vec<Row>>, AllocError> {
    let mut groups = Vec::new(alloc);
    groups.push(Vec::from_array(alloc, [phase_set(1)])?)?;
    groups.push(Vec::from_array(
        alloc,
        [with_texts(alloc, 1)?, phase_set(7), with_texts(alloc, 2)?],
    )?)?;
    groups.push(Vec::from_array(alloc, [phase_set(2)])?)?;
    Ok(groups)
}

/// Returns thirty groups: those three, ten times.
fn thirty_groups(alloc: Global) -> Result<Vec<Vec<Row>>, AllocError> {
    let mut all = Vec::new(alloc);
    for _ in 0..10 {
        let mut three = groups(alloc)?;
        all.append(&mut three)?;
    }
    Ok(all)
}

#[test]
fn a_new_journal_is_nine_bytes(rt: HostRuntime) -> Result<(), Fail> {
    let keeper = new_journal(rt.alloc(), Vec::new(rt.alloc())).ok_or("it opens")?;
    assert_eq!(rt; keeper.disk().bytes(), b"CONFDJ01\0".as_slice());
    Ok(())
}

#[test]
fn a_phase_is_122_bytes(rt: HostRuntime) -> Result<(), Fail> {
    let mut keeper = new_journal(rt.alloc(), Vec::new(rt.alloc())).ok_or("it opens")?;
    let kept = keeper.append_all(&[phase_set(1)]).is_ok();
    assert!(rt; kept);
    let bytes = keeper.disk().bytes();
    assert_eq!(rt; bytes.len(), 122);
    assert_eq!(rt; bytes.get(8).copied(), Some(1));
    assert_eq!(rt; bytes.get(16).copied(), Some(0x68));
    assert_eq!(rt; bytes.get(121).copied(), Some(0));
    Ok(())
}

/// Returns the row at a place, where there is one.
fn row_at(keeper: &mut JournalKeeper<MemDisk>, at: u64) -> Option<Row> {
    if at >= keeper.len().ok()? {
        return None;
    }
    keeper.row(at).ok()
}

/// Returns how many rows the bytes open to, where these are the first rows of `all`.
fn opens_to(alloc: Global, bytes: Vec<u8>, all: &[Vec<Row>]) -> Option<usize> {
    let disk = disk_of(alloc, bytes, Vec::new(alloc)).ok()?;
    let mut keeper = JournalKeeper::open(alloc, disk).ok()?;
    let len = keeper.len().ok()?;
    let mut at = 0;
    for row in all.iter().flat_map(|group| group.iter()) {
        if at >= len {
            break;
        }
        if !row_at(&mut keeper, at)?.is_same(row) {
            return None;
        }
        at += 1;
    }
    if at == len { Some(at as usize) } else { None }
}

/// Returns each way in which the ranges that weren't synced may be torn.
fn ways(alloc: Global) -> Result<Vec<Torn>, AllocError> {
    let mut ways = Vec::new(alloc);
    ways.push(Torn::Written)?;
    ways.push(Torn::Untouched)?;
    for pattern in PATTERNS {
        ways.push(Torn::Filled(pattern))?;
        ways.push(Torn::HalfFilled(pattern))?;
        ways.push(Torn::Short(pattern))?;
    }
    Ok(ways)
}

/// Returns how many rows the first groups have, so many of them.
fn rows_in(groups: &[Vec<Row>], many: usize) -> usize {
    let mut rows = 0usize;
    for group in groups.iter().take(many) {
        rows = rows.saturating_add(group.len());
    }
    rows
}

/// Returns whether so many rows may be found where the machine stopped after so many calls of the disk: two made the
/// journal, and each group took four, of which the third writes the gate and the fourth syncs it.
fn may_be_found(groups: &[Vec<Row>], calls: usize, rows: usize) -> bool {
    let behind = calls.saturating_sub(2);
    let whole = behind / 4;
    let is_opening = behind % 4 == 3;
    rows == rows_in(groups, whole) || (is_opening && rows == rows_in(groups, whole + 1))
}

/// Returns whether a stop after so many calls, torn so, leaves what it may.
fn stops_well(
    alloc: Global,
    disk: &MemDisk,
    groups: &[Vec<Row>],
    calls: usize,
    torn: Torn,
) -> Option<bool> {
    let image = image_behind(alloc, disk, calls, torn).ok()?;
    let rows = opens_to(alloc, image, groups)?;
    Some(may_be_found(groups, calls, rows))
}

/// Returns the first stop from the second call on that leaves something else than it may.
fn first_bad_stop(
    alloc: Global,
    disk: &MemDisk,
    groups: &[Vec<Row>],
    ways: &[Torn],
) -> Option<usize> {
    for calls in 2..disk.calls().len().saturating_add(1) {
        for torn in ways {
            if stops_well(alloc, disk, groups, calls, *torn) != Some(true) {
                return Some(calls);
            }
        }
    }
    None
}

#[test]
fn a_stop_at_any_call_leaves_whole_groups(rt: HostRuntime) -> Result<(), Fail> {
    let alloc = rt.alloc();
    let groups = thirty_groups(alloc)?;
    let ways = ways(alloc)?;
    let mut keeper = new_journal(alloc, Vec::new(alloc)).ok_or("it opens")?;
    for group in &groups {
        let kept = keeper.append_all(group).is_ok();
        assert!(rt; kept);
    }
    assert_eq!(rt; keeper.disk().calls().len(), 122);
    assert_eq!(rt; first_bad_stop(alloc, keeper.disk(), &groups, &ways), None);
    Ok(())
}

/// Appends each group, the second of which fails, and then the second again. Whether all but that were kept.
fn appends_with_one_failure(keeper: &mut JournalKeeper<MemDisk>, groups: &[Vec<Row>]) -> bool {
    let [first, second, third] = groups else {
        return false;
    };
    keeper.append_all(first).is_ok()
        && keeper.append_all(second).is_err()
        && keeper.append_all(second).is_ok()
        && keeper.append_all(third).is_ok()
}

/// Returns how many calls of the disk there were, and how many rows its bytes open to, if the call number `failing`
/// failed.
fn with_failing(alloc: Global, groups: &[Vec<Row>], failing: u64) -> Option<(usize, usize)> {
    let failing = Vec::from_array(alloc, [failing]).ok()?;
    let mut keeper = new_journal(alloc, failing)?;
    if !appends_with_one_failure(&mut keeper, groups) {
        return None;
    }
    let bytes = keeper.disk().bytes().to_vec(alloc).ok()?;
    Some((keeper.disk().calls().len(), opens_to(alloc, bytes, groups)?))
}

#[test]
fn an_append_that_failed_is_made_again(rt: HostRuntime) -> Result<(), Fail> {
    let alloc = rt.alloc();
    let groups = groups(alloc)?;
    // The write of its payload, and its sync: the next append has four calls.
    assert_eq!(rt; with_failing(alloc, &groups, 6), Some((15, 5)));
    assert_eq!(rt; with_failing(alloc, &groups, 7), Some((16, 5)));
    // The write of its gate, and its sync: the next append has six.
    assert_eq!(rt; with_failing(alloc, &groups, 8), Some((19, 5)));
    assert_eq!(rt; with_failing(alloc, &groups, 9), Some((20, 5)));
    Ok(())
}

#[test]
fn a_full_disk_keeps_what_it_has_room_for(rt: HostRuntime) -> Result<(), Fail> {
    let alloc = rt.alloc();
    let groups = groups(alloc)?;
    // Nine bytes make the journal, and a phase takes 113 more.
    let disk = MemDisk::new(alloc, Vec::new(alloc), 9 + 2 * 115, 256, Vec::new(alloc))?;
    let mut keeper = JournalKeeper::open(alloc, disk).ok().ok_or("it opens")?;
    let [first, second, third] = groups.as_slice() else {
        return Err("there are three groups".into());
    };
    let kept = [
        keeper.append_all(first).is_ok(),
        keeper.append_all(second).is_ok(),
        keeper.append_all(third).is_ok(),
    ];
    assert_eq!(rt; kept, [true, false, true]);
    let bytes = keeper.disk().bytes().to_vec(alloc)?;
    let mut due = Vec::new(alloc);
    due.push(Vec::from_array(alloc, [phase_set(1), phase_set(2)])?)?;
    assert_eq!(rt; opens_to(alloc, bytes, &due), Some(2));
    Ok(())
}

/// Returns whether the bytes are refused as no journal.
fn is_refused(alloc: Global, bytes: &[u8]) -> bool {
    let Ok(bytes) = bytes.to_vec(alloc) else {
        return false;
    };
    match disk_of(alloc, bytes, Vec::new(alloc)) {
        Ok(disk) => matches!(
            JournalKeeper::open(alloc, disk),
            Err((OpenError::NoJournal, _))
        ),
        Err(_) => false,
    }
}

#[test]
fn other_bytes_are_no_journal(rt: HostRuntime) {
    let alloc = rt.alloc();
    assert!(rt; is_refused(alloc, b"SQLite format 3\0"));
    assert!(rt; is_refused(alloc, b"CONFDJ0"));
    assert!(rt; is_refused(alloc, b"CONFDJ01"));
    assert!(rt; is_refused(alloc, b"CONFDJ01\x01"));
    assert!(rt; is_refused(alloc, b"CONFDJ01\x01\0\0\0\0\0\0\0\x01"));
    assert!(rt; is_refused(alloc, b"CONFDJ01\x01\0\0\0\0\0\0\0\x01\0\0"));
    assert!(rt; !is_refused(alloc, b"CONFDJ01\x02 and what isn't read"));
}
