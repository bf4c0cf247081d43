// SPDX-License-Identifier: Apache-2.0 OR MIT
//! Two workers at once.
ghost use Rattle.std.specs.Prelude.{◌≡◌, ⊤, None, Some, true, false, is_some, IfOk, if◌then◌else◌};

use crate::streams::{GET_PHASE, sink, source};
use cr_base::Moment;
use cr_book::empty_book;
use cr_ports::{
    Door, MemSink, NextConnection, PlainClock, PlainSource, ReadStep, Sink, Source, WriteStep,
};
use cr_workers::{Worked, serve_book};
use std::alloc::{AllocError, Global};
use std::sync::atomic::{AtomicBool, Ordering};
use std::sync::{Arc, Wait};
use std::test::Fail;
use std::thread::Threads;

/// How often a source that is held looks at most whether the other answer has gone.
const LOOKS: u64 = 100_000_000;

const PHASE: &str = concat!(
    "HTTP/1.1 200 OK\r\nDate: Thu, 01 Jan 1970 00:00:00 GMT\r\n",
    "Content-Type: application/json\r\nContent-Length: 43\r\n\r\n",
    "{\"mode\":\"blind\",\"papers\":0,\"phase\":\"setup\"}",
);

/// Returns whether the flag is set by the last of so many looks.
fn is_set(flag: &AtomicBool, looks: u64) -> bool {
    for _ in 0..looks {
        if flag.load(Ordering::SeqCst) {
            return true;
        }
    }
    false
}

// The drops of the three types below are written out, so that a caller doesn't prove again how each part is dropped.

/// Gives the beginning of a request, and the rest once the flag is set; it ends where that doesn't come.
struct HeldSource {
    front: PlainSource,
    rest: PlainSource,
    flag: Arc<AtomicBool, Global>,
    looks: u64,
}

impl Drop for HeldSource {
    fn drop(self) {
        let HeldSource {
            front: _,
            rest: _,
            flag: _,
            looks: _,
        } = self;
    }
}

impl Source for HeldSource {
    ghost left = { λ _. None };

    ghost faults = { λ _. 0 };

    ghost read_gives = { λ _ _ _. ⊤ };

    fn read(&mut self, buf: &mut [u8]) -> ReadStep {
        if let ReadStep::Got(n) = self.front.read(buf) {
            return ReadStep::Got(n);
        }
        if is_set(&self.flag, self.looks) {
            return self.rest.read(buf);
        }
        ReadStep::End
    }
}

/// Takes an answer, and then sets the flag, if it is to.
struct FlagSink {
    sink: MemSink,
    flag: Arc<AtomicBool, Global>,
    sets: bool,
}

impl Drop for FlagSink {
    fn drop(self) {
        let FlagSink {
            sink: _,
            flag: _,
            sets: _,
        } = self;
    }
}

impl Sink for FlagSink {
    ghost taken = { λ s. Some s.sink.taken };

    ghost faults = { λ s. s.sink.script.faults };

    fn write(&mut self, piece: &[u8]) -> WriteStep {
        let step = self.sink.write(piece);
        if self.sets {
            self.flag.store(true, Ordering::SeqCst);
        }
        step
    }

    fn begin_answer(&mut self) {
        self.sink.begin_answer();
    }
}

/// Gives one connection, and keeps what its sink took.
struct OneDoor {
    coming: Option<(HeldSource, FlagSink)>,
    is_out: bool,
    back: Option<FlagSink>,
}

impl Drop for OneDoor {
    fn drop(self) {
        let OneDoor {
            coming: _,
            is_out: _,
            back: _,
        } = self;
    }
}

impl Door for OneDoor {
    type In = HeldSource;

    type Out = FlagSink;

    type Clock = PlainClock;

    ghost left = { λ d. if is_some d.coming then 1 else 0 };

    ghost is_out = { λ d. d.is_out };

    ghost faults = { λ _. 0 };

    ghost log = { λ _. None };

    fn next(&mut self) -> NextConnection<HeldSource, FlagSink, PlainClock> {
        match self.coming.take() {
            Some((source, sink)) => {
                self.is_out = true;
                NextConnection::Conn(source, sink, PlainClock::new(Moment::epoch()))
            }
            None => NextConnection::Done,
        }
    }

    fn give_back(&mut self, _source: HeldSource, sink: FlagSink, _clock: PlainClock) {
        self.is_out = false;
        self.back = Some(sink);
    }
}

/// Returns a door of one connection.
fn door(source: HeldSource, sink: FlagSink) -> OneDoor
    ensures left { is_some result.coming ≡ true }
    ensures back { result.is_out ≡ false }
{
    OneDoor {
        coming: Some((source, sink)),
        is_out: false,
        back: None,
    }
}

/// Asks for the phase. Inside the request it waits for the flag, if it is to.
fn request(
    alloc: Global,
    flag: &Arc<AtomicBool, Global>,
    waits: bool,
) -> Result<HeldSource, AllocError> {
    let end = if waits {
        GET_PHASE.len() / 2
    } else {
        GET_PHASE.len()
    };
    let looks = if waits { LOOKS } else { 0 };
    let (front, rest) = GET_PHASE.split_at_checked(end).unwrap_or((GET_PHASE, ""));
    Ok(HeldSource {
        front: source(alloc, front)?,
        rest: source(alloc, rest)?,
        flag: Arc::try_clone(flag)?,
        looks,
    })
}

/// Takes the answer. It sets the flag then, if it is to.
fn answer(
    alloc: Global,
    flag: &Arc<AtomicBool, Global>,
    sets: bool,
) -> Result<FlagSink, AllocError> {
    Ok(FlagSink {
        sink: sink(alloc)?,
        flag: Arc::try_clone(flag)?,
        sets,
    })
}

/// Returns a door whose connection asks for the phase. Its source waits for the flag inside the request where `waits`;
/// else its sink sets the flag.
fn asks_phase(
    alloc: Global,
    flag: &Arc<AtomicBool, Global>,
    waits: bool,
) -> Result<OneDoor, AllocError>
    ensures { IfOk result (λ door. (is_some door.coming ≡ true) × (door.is_out ≡ false)) }
{
    let source = request(alloc, flag, waits)?;
    let sink = answer(alloc, flag, !waits)?;
    Ok(door(source, sink))
}

/// Returns whether the door's connection was answered the phase of the empty history.
fn is_answered(door: Option<&OneDoor>) -> bool {
    match door.and_then(|door| door.back.as_ref()) {
        Some(sink) => sink.sink.taken() == PHASE.as_bytes(),
        None => false,
    }
}

/// Returns how two workers end, and whether the connections of both doors were answered.
fn serve_two<R: Threads + Wait + Sync>(
    rt: &R,
    alloc: Global,
    first: OneDoor,
    second: OneDoor,
) -> Result<(Worked, [bool; 2]), AllocError>
    requires left { (is_some first.coming ≡ true) × (is_some second.coming ≡ true) }
    requires back { (first.is_out ≡ false) × (second.is_out ≡ false) }
{
    let doors = vec![in alloc; first, second]?;
    let book = empty_book(alloc)?;
    let (worked, book, doors) = serve_book(rt, alloc, book, doors);
    let _ = book.close();
    let answered = [is_answered(doors.first()), is_answered(doors.get(1))];
    Ok((worked, answered))
}

/// Serves two doors, of which the first's connection waits for the second's answer.
fn serve_both<R: Threads + Wait + Sync>(
    rt: &R,
    alloc: Global,
) -> Result<(Worked, [bool; 2]), AllocError> {
    let flag = Arc::new(alloc, AtomicBool::new(false))?;
    let first = asks_phase(alloc, &flag, true)?;
    let second = asks_phase(alloc, &flag, false)?;
    serve_two(rt, alloc, first, second)
}

#[test]
fn two_are_served_at_once(rt: HostRuntime) -> Result<(), Fail> {
    let (worked, answered) = serve_both(&rt, rt.alloc())?;
    assert!(rt; worked == Worked::Done);
    assert!(rt; answered == [true, true]);
    Ok(())
}
