// SPDX-License-Identifier: Apache-2.0 OR MIT
//! All workers: a thread for each door, where one can be made.
ghost use Rattle.std.specs.Prelude.{◌≡◌, ◌≤◌, ◌<◌, ◌+◌, ◌-◌, ◌*◌, ◌/◌, ◌^◌};
ghost use Rattle.std.specs.Prelude.{◌++◌, length, false, vec_capacity, IfOk, IfErr};
ghost use Rattle.std.specs.Thread.{IsSync};
ghost use Rattle.cr_lock.specs.Counts.{Every, total};
ghost use Rattle.cr_session.specs.Passing.{StaysPass};
ghost use Rattle.cr_session.specs.Tries.{tries_of};
ghost use Rattle.cr_workers.specs.Connections.{streams_of};
ghost use Rattle.cr_workers.specs.Doors.{AreReady, door_of, ServesSeen, turns_for};

use crate::worked::Worked;
use crate::worker::serve_door;
use cr_book::Book;
use cr_lock::Pass;
use cr_ports::{Door, Keeper};
use cr_session::Server;
use std::sync::Wait;
use std::thread::{Threads, join};

/// Serves one door, or none.
fn serve_last<R: Wait, K: Keeper, D: Door + Drop>(
    server: &Server<'_, R, K>,
    pass: Pass<Book<K>>,
    doors: Vec<D>,
) -> (Pass<Book<K>>, Vec<D>, Worked)
    requires own { pass.lock ≡ server.now.lock.lock }
    requires last { length doors.items ≤ 1 }
    requires ready { AreReady D.left D.is_out doors.items pass.turns }
    ensures serves { let tries = tries_of K.Keeper in
        ServesSeen (door_of D.left D.is_out D.faults D.log)
        (streams_of tries D.In.left D.In.read_gives D.In.faults D.Out.taken D.Out.faults D.Clock.coming D.Clock.faults)
        result.2 doors.items result.1.items pass result.0 }
    ensures pass { StaysPass (turns_for (total D.left doors.items)) pass result.0 }
    ensures len { length result.1.items ≡ length doors.items }
    ensures room { vec_capacity doors ≤ vec_capacity result.1 }
{
    let mut doors = doors;
    let Some(door) = doors.pop() else {
        return (pass, doors, Worked::Done);
    };
    let mut pass = pass;
    let mut door = door;
    let worked = serve_door(server, &mut pass, &mut door);
    let Ok(()) = doors.push(door) else {
        unreachable!()
    };
    (pass, doors, worked)
}

/// Returns the doors in halves, the larger first; or, without memory for that, all of them.
fn halve<D: Door>(doors: Vec<D>) -> Result<(Vec<D>, Vec<D>), Vec<D>>
    requires back { Every (λ door. D.is_out door ≡ false) doors.items }
    ensures whole { IfOk result (λ halves. doors.items ≡ halves.0.items ++ halves.1.items) }
    ensures larger { IfOk result (λ halves. length halves.0.items ≡ length doors.items - length doors.items / 2) }
    ensures smaller { IfOk result (λ halves. length halves.1.items ≡ length doors.items / 2) }
    ensures lefts { IfOk result (λ halves. total D.left halves.0.items + total D.left halves.1.items
        ≡ total D.left doors.items) }
    ensures first { IfOk result (λ halves. Every (λ door. D.is_out door ≡ false) halves.0.items) }
    ensures second { IfOk result (λ halves. Every (λ door. D.is_out door ≡ false) halves.1.items) }
    ensures room { IfOk result (λ halves. vec_capacity halves.0 ≡ vec_capacity doors) }
    ensures all { IfErr result (λ same. same ≡ doors) }
{
    let mut doors = doors;
    let half = doors.len() - doors.len() / 2;
    match doors.split_off(half) {
        Ok(others) => Ok((doors, others)),
        Err(_) => Err(doors),
    }
}

/// Joins both halves, in the room of the first.
fn rejoin<D: Drop>(front: Vec<D>, back: Vec<D>) -> Vec<D>
    requires { length front.items + length back.items ≤ vec_capacity front }
    ensures items { result.items ≡ front.items ++ back.items }
    ensures len { length result.items ≡ length front.items + length back.items }
    ensures room { vec_capacity front ≤ vec_capacity result }
{
    let mut doors = front;
    let mut back = back;
    let Ok(()) = doors.append(&mut back) else {
        unreachable!()
    };
    doors
}

/// Serves the connections of all doors, each door by a worker of its own, in a thread of its own where
/// one can be made; the doors come back in their order. The pass and the doors are split in halves, the
/// larger first, and joined again.
///
/// `DoorFailed` comes only where a door failed. Where a list of doors can't be split for lack of memory, these doors
/// are not asked, and the answer is `OutOfMemory`.
#[cycle(halves)]
pub(crate) fn serve_doors<R: Threads + Wait + Sync, K: Keeper + Send, D: Door + Drop + Send>(
    server: &Server<'_, R, K>,
    pass: Pass<Book<K>>,
    doors: Vec<D>,
) -> (Pass<Book<K>>, Vec<D>, Worked)
    requires own { pass.lock ≡ server.now.lock.lock }
    requires share { length doors.items ≤ pass.share }
    requires ready { AreReady D.left D.is_out doors.items pass.turns }
    ensures serves { let tries = tries_of K.Keeper in
        ServesSeen (door_of D.left D.is_out D.faults D.log)
        (streams_of tries D.In.left D.In.read_gives D.In.faults D.Out.taken D.Out.faults D.Clock.coming D.Clock.faults)
        result.2 doors.items result.1.items pass result.0 }
    ensures pass { StaysPass (turns_for (total D.left doors.items)) pass result.0 }
    ensures len { length result.1.items ≡ length doors.items }
    ensures room { vec_capacity doors ≤ vec_capacity result.1 }
{
    if doors.len() <= 1 {
        return serve_last(server, pass, doors);
    }
    let (front, back) = match halve(doors) {
        Ok(halves) => halves,
        Err(doors) => return (pass, doors, Worked::OutOfMemory),
    };
    let Ok((larger, smaller)) = server.lock.split(pass) else {
        unreachable!()
    };
    let first_half = move || -> (Pass<Book<K>>, Vec<D>, Worked)
        requires { IsSync R.row × (larger.lock ≡ server.now.lock.lock) × (length front.items ≤ larger.share)
            × AreReady D.left D.is_out front.items larger.turns }
        ensures serves { let tries = tries_of K.Keeper in
            ServesSeen (door_of D.left D.is_out D.faults D.log)
            (streams_of tries D.In.left D.In.read_gives D.In.faults D.Out.taken D.Out.faults D.Clock.coming
            D.Clock.faults)
            result.2 front.items result.1.items larger result.0 }
        ensures pass { StaysPass (turns_for (total D.left front.items)) larger result.0 }
        ensures len { length result.1.items ≡ length front.items }
        ensures room { vec_capacity front ≤ vec_capacity result.1 }
    { serve_doors(server, larger, front) };
    let second_half = move || -> (Pass<Book<K>>, Vec<D>, Worked)
        requires { IsSync R.row × (smaller.lock ≡ server.now.lock.lock) × (length back.items ≤ smaller.share)
            × AreReady D.left D.is_out back.items smaller.turns }
        ensures serves { let tries = tries_of K.Keeper in
            ServesSeen (door_of D.left D.is_out D.faults D.log)
            (streams_of tries D.In.left D.In.read_gives D.In.faults D.Out.taken D.Out.faults D.Clock.coming
            D.Clock.faults)
            result.2 back.items result.1.items smaller result.0 }
        ensures pass { StaysPass (turns_for (total D.left back.items)) smaller result.0 }
        ensures len { length result.1.items ≡ length back.items }
    { serve_doors(server, smaller, back) };
    let ((one, front, first), (other, back, second)) = join(server.rt, first_half, second_half);
    (
        server.lock.join(one, other),
        rejoin(front, back),
        first.and(second),
    )
}
