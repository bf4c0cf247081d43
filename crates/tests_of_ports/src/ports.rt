// SPDX-License-Identifier: Apache-2.0 OR MIT
//! Sources, sinks, clocks, keepers and shelves in memory, and the adapters over streams and over the system's clock,
//! through their bounds.

ghost use Rattle.std.specs.Prelude.{◌≡◌};

use cr_base::{Blob, Moment, Row};
use cr_ports::{
    Clock, ClockStep, Keeper, KeeperError, MemClock, MemKeeper, MemShelf, MemSink, MemSource,
    PlainClock, PlainKeeper, PlainSource, ReadSource, ReadStep, Shelf, Sink, Source, SystemClock,
    WriteSink, WriteStep,
};
use std::alloc::{AllocError, Global};
use std::io::{self, Cursor, Read, Write};
use std::test::Fail;
use std::time::{self, Duration};

/// Reads three times, at most four bytes each.
fn reads<S: Source>(source: &mut S) -> [ReadStep; 3] {
    let mut buf = [0; 4];
    [
        source.read(&mut buf),
        source.read(&mut buf),
        source.read(&mut buf),
    ]
}

/// Writes three times.
fn writes<S: Sink>(sink: &mut S, pieces: [&[u8]; 3]) -> [WriteStep; 3] {
    let [first, second, third] = pieces;
    [sink.write(first), sink.write(second), sink.write(third)]
}

/// Gives one byte a call, and fails at its second call.
#[derive(Drop)]
struct FailingReader {
    calls: u64,
}

impl Read for FailingReader {
    fn read(&mut self, buf: &mut [u8]) -> io::Result<usize> {
        self.calls = self.calls.saturating_add(1);
        if self.calls == 2 {
            return Err(io::Error::from(io::ErrorKind::Other));
        }
        if buf.is_empty() {
            return Ok(0);
        }
        buf[0] = b'a';
        Ok(1)
    }
}

/// Takes two bytes a call, and fails at its second flush.
#[derive(Drop)]
struct FailingFlush {
    flushes: u64,
}

impl Write for FailingFlush {
    fn write(&mut self, buf: &[u8]) -> io::Result<usize> {
        Ok(buf.len().min(2))
    }

    fn flush(&mut self) -> io::Result<()> {
        self.flushes = self.flushes.saturating_add(1);
        if self.flushes == 2 {
            return Err(io::Error::from(io::ErrorKind::Other));
        }
        Ok(())
    }
}

/// Gives pieces of one byte and of as many as are asked for; its second and its fourth call fail.
fn scripted_source(alloc: Global) -> Result<MemSource, AllocError> {
    let bytes = b"0123456".as_slice().to_vec(alloc)?;
    let pieces = [1, 0, 9].as_slice().to_vec(alloc)?;
    let failing = [1, 3].as_slice().to_vec(alloc)?;
    Ok(MemSource::new(bytes, pieces, failing))
}

/// Returns what it gives at six reads.
fn scripted_reads(alloc: Global) -> Result<[[ReadStep; 3]; 2], AllocError> {
    let mut source = scripted_source(alloc)?;
    Ok([reads(&mut source), reads(&mut source)])
}

/// Returns what the seven bytes give that no list cuts.
fn plain_reads(alloc: Global) -> Result<[ReadStep; 3], AllocError> {
    let mut source = PlainSource::new(b"0123456".as_slice().to_vec(alloc)?);
    Ok(reads(&mut source))
}

#[test]
fn sources(rt: HostRuntime) -> Result<(), Fail> {
    let scripted = scripted_reads(rt.alloc())?;
    let plain = plain_reads(rt.alloc())?;
    assert!(rt; scripted[0] == [ReadStep::Got(1), ReadStep::Failed, ReadStep::Got(4)]);
    assert!(rt; scripted[1] == [ReadStep::Failed, ReadStep::Got(2), ReadStep::End]);
    assert!(rt; plain == [ReadStep::Got(4), ReadStep::Got(3), ReadStep::End]);
    Ok(())
}

#[test]
fn readers(rt: HostRuntime) {
    let whole = reads(&mut ReadSource::new(Cursor::new(b"0123456".as_slice())));
    let failing = reads(&mut ReadSource::new(FailingReader { calls: 0 }));
    assert!(rt; whole == [ReadStep::Got(4), ReadStep::Got(3), ReadStep::End]);
    assert!(rt; failing == [ReadStep::Got(1), ReadStep::Failed, ReadStep::Got(1)]);
}

/// Takes six bytes, in pieces of one, three, and as many as there are; its second call fails.
fn scripted_sink(alloc: Global) -> Result<MemSink, AllocError> {
    let pieces = [1, 0, 3].as_slice().to_vec(alloc)?;
    let failing = [1].as_slice().to_vec(alloc)?;
    MemSink::new(alloc, 6, pieces, failing)
}

/// Returns what it answers to six writes, with an answer begun before them and one after; and whether it has the six
/// bytes and the two answers then.
fn scripted_writes(alloc: Global) -> Result<([[WriteStep; 3]; 2], bool), AllocError> {
    let mut sink = scripted_sink(alloc)?;
    sink.begin_answer();
    let steps = [
        writes(&mut sink, [b"0123".as_slice(), b"1234", b"1234"]),
        writes(&mut sink, [b"4567".as_slice(), b"67", b""]),
    ];
    sink.begin_answer();
    Ok((
        steps,
        sink.taken() == b"012345".as_slice() && sink.begun() == 2,
    ))
}

#[test]
fn sinks(rt: HostRuntime) -> Result<(), Fail> {
    let (steps, is_whole) = scripted_writes(rt.alloc())?;
    assert!(rt; steps[0] == [WriteStep::Took(1), WriteStep::Failed, WriteStep::Took(3)]);
    assert!(rt; steps[1] == [WriteStep::Took(2), WriteStep::Failed, WriteStep::Took(0)]);
    assert!(rt; is_whole);
    Ok(())
}

#[test]
fn writers(rt: HostRuntime) {
    let pieces = [b"0123".as_slice(), b"0123", b"0123"];
    let mut short = [0; 6];
    let full = writes(&mut WriteSink::new(short.as_mut_slice()), pieces);
    let failing = writes(&mut WriteSink::new(FailingFlush { flushes: 0 }), pieces);
    assert!(rt; full == [WriteStep::Took(4), WriteStep::Took(2), WriteStep::Failed]);
    assert!(rt; failing == [WriteStep::Took(2), WriteStep::Failed, WriteStep::Took(2)]);
}

/// Returns the moment of so many seconds, which are one's.
fn at(seconds: u64) -> Moment {
    Moment::new(seconds).unwrap_or(Moment::epoch())
}

/// Reads a clock three times.
fn moments<C: Clock>(clock: &mut C) -> [ClockStep; 3] {
    [clock.now(), clock.now(), clock.now()]
}

/// Gives three moments, of which the last goes back; its second call fails.
fn scripted_clock(alloc: Global) -> Result<MemClock, AllocError> {
    let moments = [at(5), at(9), at(3)].as_slice().to_vec(alloc)?;
    let failing = [1].as_slice().to_vec(alloc)?;
    Ok(MemClock::new(moments, failing))
}

/// Returns what it gives, asked six times; how many moments are left between, and how often it has failed at last.
fn scripted_moments(alloc: Global) -> Result<([[ClockStep; 3]; 2], usize, u64), AllocError> {
    let mut clock = scripted_clock(alloc)?;
    let first = moments(&mut clock);
    let left = clock.coming().len();
    let second = moments(&mut clock);
    Ok(([first, second], left, clock.fault_count()))
}

#[test]
fn clocks(rt: HostRuntime) -> Result<(), Fail> {
    let (scripted, left, faults) = scripted_moments(rt.alloc())?;
    let plain = moments(&mut PlainClock::new(at(7)));
    assert!(rt;
        scripted[0]
            == [
                ClockStep::Now(at(5)),
                ClockStep::Failed,
                ClockStep::Now(at(9))
            ]
    );
    assert!(rt; scripted[1] == [ClockStep::Now(at(3)), ClockStep::Failed, ClockStep::Failed]);
    assert!(rt; left == 1 && faults == 3);
    assert!(rt; plain == [ClockStep::Now(at(7)); 3]);
    Ok(())
}

/// A time that never moves, or one that can't be read, like one before 1970.
#[derive(Clone, Copy)]
struct SetTime {
    since_1970: Option<Duration>,
}

impl time::Clock for SetTime {
    fn monotonic(&self) -> io::Result<Duration> {
        self.since_1970()
    }

    fn since_1970(&self) -> io::Result<Duration> {
        self.since_1970
            .ok_or(io::Error::from(io::ErrorKind::InvalidData))
    }
}

/// Returns what the adapter makes of such a time.
fn told_of(since_1970: Duration) -> ClockStep {
    let since_1970 = Some(since_1970);
    SystemClock::new(SetTime { since_1970 }).now()
}

#[test]
fn system_clocks(rt: HostRuntime) {
    let last = 253_402_300_799;
    assert!(rt; told_of(Duration::from_secs(0)) == ClockStep::Now(Moment::epoch()));
    assert!(rt;
        told_of(Duration::new(784_111_777, 999_999_999)) == ClockStep::Now(at(784_111_777))
    );
    assert!(rt; told_of(Duration::new(last, 999_999_999)) == ClockStep::Now(at(last)));
    assert!(rt; told_of(Duration::from_secs(last + 1)) == ClockStep::Failed);
    assert!(rt; told_of(Duration::from_secs(u64::MAX)) == ClockStep::Failed);
    assert!(rt; SystemClock::new(SetTime { since_1970: None }).now() == ClockStep::Failed);
    assert!(rt; SystemClock::new(rt).now() != ClockStep::Failed);
}

/// Returns a row of this kind and nothing else.
fn row_of(kind: u64) -> Row {
    Row {
        kind,
        maker: 0,
        more: 0,
        at: 0,
        num: 0,
        mark: Blob::empty(),
        n1: 0,
        n2: 0,
        n3: 0,
        n4: 0,
        n5: 0,
        b1: Blob::empty(),
        b2: Blob::empty(),
    }
}

/// Keeps two rows, and tells how many are kept.
fn keep<K: Keeper>(keeper: &mut K) -> Result<u64, KeeperError>
    ensures { K.kind keeper.new ≡ K.kind keeper.old }
{
    keeper.append_all([row_of(7), row_of(8)].as_slice())?;
    keeper.len()
}

/// Returns the kind of the second row, where there is one.
fn second<K: Keeper>(keeper: &mut K) -> Result<u64, KeeperError> {
    if keeper.len()? < 2 {
        return Ok(0);
    }
    Ok(keeper.row(1)?.kind)
}

/// Creates a keeper whose second append fails, and the second and the third of its other calls.
fn scripted_keeper(alloc: Global) -> Result<MemKeeper, AllocError> {
    let failing_appends = [1].as_slice().to_vec(alloc)?;
    let failing_reads = [1, 2].as_slice().to_vec(alloc)?;
    Ok(MemKeeper::new(alloc, failing_appends, failing_reads))
}

/// Returns what becomes of three appends of two rows, how many are told then, twice, and the second row's kind.
fn kept_by<K: Keeper>(keeper: &mut K) -> [Result<u64, KeeperError>; 6] {
    [
        keep(keeper),
        keep(keeper),
        keep(keeper),
        keeper.len(),
        keeper.len(),
        second(keeper),
    ]
}

fn kept_by_script(alloc: Global) -> Result<[Result<u64, KeeperError>; 6], AllocError> {
    Ok(kept_by(&mut scripted_keeper(alloc)?))
}

#[test]
fn keepers(rt: HostRuntime) -> Result<(), Fail> {
    let failed = Err(KeeperError::Failed);
    let scripted = kept_by_script(rt.alloc())?;
    let plain = kept_by(&mut PlainKeeper::new(rt.alloc()));
    assert!(rt; scripted == [Ok(2), failed, failed, failed, Ok(4), Ok(8)]);
    assert!(rt; plain == [Ok(2), Ok(4), Ok(6), Ok(6), Ok(6), Ok(8)]);
    Ok(())
}

/// Returns how many rows are at the path.
fn count_at<S: Shelf>(shelf: &mut S, path: &str) -> Result<u64, KeeperError> {
    let mut keeper = shelf.open(path)?;
    let count = keeper.len();
    shelf.shut(path, keeper);
    count
}

/// Keeps two more rows at the path.
fn keep_at<S: Shelf>(shelf: &mut S, path: &str) -> Result<u64, KeeperError> {
    let mut keeper = shelf.open(path)?;
    let kept = keep(&mut keeper);
    shelf.shut(path, keeper);
    kept
}

/// Returns what becomes of two appends of two rows at one path, how many are there then, twice, and at another.
fn kept_at<S: Shelf>(shelf: &mut S) -> [Result<u64, KeeperError>; 5] {
    [
        keep_at(shelf, "f"),
        keep_at(shelf, "f"),
        count_at(shelf, "f"),
        count_at(shelf, "f"),
        count_at(shelf, "g"),
    ]
}

/// Creates a shelf whose third open fails, and the second append of each keeper.
fn scripted_shelf(alloc: Global) -> Result<MemShelf, AllocError> {
    let failing_opens = [2].as_slice().to_vec(alloc)?;
    let failing_appends = [1].as_slice().to_vec(alloc)?;
    Ok(MemShelf::new(alloc, failing_opens, failing_appends, Vec::new(alloc)))
}

/// Returns what it tells, and how many rows are at the first path.
fn kept_on_a_shelf(alloc: Global) -> Result<([Result<u64, KeeperError>; 5], usize), AllocError> {
    let mut shelf = scripted_shelf(alloc)?;
    let told = kept_at(&mut shelf);
    Ok((told, shelf.rows_at("f").len()))
}

#[test]
fn shelves(rt: HostRuntime) -> Result<(), Fail> {
    let (told, count) = kept_on_a_shelf(rt.alloc())?;
    assert!(rt; told == [Ok(2), Ok(4), Err(KeeperError::Failed), Ok(4), Ok(0)]);
    assert_eq!(rt; count, 4);
    Ok(())
}
