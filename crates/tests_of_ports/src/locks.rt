// SPDX-License-Identifier: Apache-2.0 OR MIT
//! A lock's passes: splits down to the last share, and 64 threads.
ghost use Rattle.std.specs.Prelude.{◌≡◌, ℕ, List, [], ◌∷◌, ◌++◌, ◌+◌, ◌<◌, ◌≤◌, ◌^◌};
ghost use Rattle.std.specs.Prelude.{length, vec_len, All, OnOk, IfOk, IfSome, MatchResult};
ghost use Rattle.std.specs.Thread.{IsSync};
ghost use Rattle.cr_lock.specs.Turns.{groups_of};

use cr_lock::{HistoryLock, Pass, Stands};
use std::alloc::{AllocError, Global};
use std::sync::Wait;
use std::test::Fail;
use std::thread::{Threads, join};

/// How many turns each thread takes.
const TURNS: u64 = 250;

/// One act: the number of the thread, and which of its acts it was.
#[derive(Clone, Copy)]
struct Act {
    who: u64,
    step: u64,
}

/// The acts of all threads, in order, and for how many they were begun.
#[derive(Drop)]
struct Acts {
    log: Vec<Act>,
    begun_for: u64,
}

impl Stands for Acts {
    type Entry = Act;

    type Root = u64;

    ghost list = { λ a. a.log.items };

    ghost faults = { λ _. 0 };

    ghost root = { λ a. a.begun_for };

    fn entries(&self) -> u64 {
        self.log.len() as u64
    }
}

impl Acts {
    fn record(&mut self, act: Act) -> Result<(), AllocError>
        ensures log { MatchResult result (λ _. self.new.log.items ≡ self.old.log.items ++ act ∷ [])
            (λ _. self.new.log.items ≡ self.old.log.items) }
        ensures begun { self.new.begun_for ≡ self.old.begun_for }
    {
        self.log.push(act)?;
        Ok(())
    }
}

/// Puts a pass after the others.
fn keep(passes: &mut Vec<Pass<Acts>>, pass: Pass<Acts>) -> Result<(), AllocError>
    ensures { OnOk result (passes.new.items ≡ passes.old.items ++ pass ∷ []) }
{
    passes.push(pass)?;
    Ok(())
}

/// Splits the pass until each part has share 1, and puts the parts after the others.
fn spread(
    lock: &HistoryLock<Acts>,
    pass: Pass<Acts>,
    passes: &mut Vec<Pass<Acts>>,
) -> Result<(), AllocError>
    requires own { pass.lock ≡ lock.now.lock }
    requires others { All (λ p. (p.lock ≡ lock.now.lock) × (p.share ≡ 1)) passes.old.items }
    ensures each { OnOk result (All (λ p. (p.lock ≡ lock.now.lock) × (p.share ≡ 1)) passes.new.items) }
    ensures count { OnOk result (length passes.new.items ≡ length passes.old.items + pass.share) }
{
    match lock.split(pass) {
        Ok((larger, smaller)) => {
            spread(lock, larger, passes)?;
            spread(lock, smaller, passes)
        }
        Err(pass) => keep(passes, pass),
    }
}

/// Returns a pass of share 1, after a split that was refused.
fn refused(lock: &HistoryLock<Acts>, pass: Pass<Acts>) -> Pass<Acts>
    requires own { pass.lock ≡ lock.now.lock }
    requires last { pass.share ≡ 1 }
    ensures { result ≡ pass }
{
    let Err(pass) = lock.split(pass) else {
        unreachable!()
    };
    pass
}

/// Returns all passes in one, each after a split that was refused.
fn gather(lock: &HistoryLock<Acts>, passes: Vec<Pass<Acts>>) -> Option<Pass<Acts>>
    requires { All (λ p. (p.lock ≡ lock.now.lock) × (p.share ≡ 1)) passes.items }
    ensures { IfSome result (λ p. (p.lock ≡ lock.now.lock) × (p.share ≡ length passes.items)) }
{
    let mut passes = passes;
    let mut all = refused(lock, passes.pop()?);
    while let Some(pass) = passes.pop() {
        all = lock.join(all, refused(lock, pass));
    }
    Some(all)
}

/// Takes one thread's turns, and returns whether each found memory.
fn act_often<R: Wait>(
    rt: &R,
    lock: &HistoryLock<Acts>,
    mut pass: Pass<Acts>,
    who: u64,
) -> (Pass<Acts>, Result<(), AllocError>)
    requires own { pass.lock ≡ lock.now.lock }
    requires fresh { pass.turns ≡ 0 }
    ensures own { (result.0.lock ≡ lock.now.lock) × (result.0.share ≡ pass.share) }
{
    for step in 0..TURNS {
        let told = lock.turn(
            rt,
            &mut pass,
            |acts: &mut Acts| acts.record(Act { who, step }),
        );
        if told.is_err() {
            return (pass, told);
        }
    }
    (pass, Ok(()))
}

/// Takes a pass's turns, in as many threads as it has shares, and returns one pass. A thread that halves its pass
/// numbers the halves `2 * who` and `2 * who + 1`.
#[cycle(crowd)]
fn act_in_crowd<R: Threads + Wait + Sync>(
    rt: &R,
    lock: &HistoryLock<Acts>,
    pass: Pass<Acts>,
    who: u64,
) -> (Pass<Acts>, Result<(), AllocError>)
    requires own { pass.lock ≡ lock.now.lock }
    requires fresh { pass.turns ≡ 0 }
    ensures own { (result.0.lock ≡ lock.now.lock) × (result.0.share ≡ pass.share) }
{
    let (one, other) = match lock.split(pass) {
        Ok(halves) => halves,
        Err(pass) => return act_often(rt, lock, pass, who),
    };
    let left = who.wrapping_mul(2);
    let front = move || -> (Pass<Acts>, Result<(), AllocError>)
        requires { IsSync R.row × (one.lock ≡ lock.now.lock) × (one.turns ≡ 0) }
        ensures { (result.0.lock ≡ lock.entry.now.lock) × (result.0.share ≡ one.share) }
    { act_in_crowd(rt, lock, one, left) };
    let back = move || -> (Pass<Acts>, Result<(), AllocError>)
        requires { IsSync R.row × (other.lock ≡ lock.now.lock) × (other.turns ≡ 0) }
        ensures { (result.0.lock ≡ lock.entry.now.lock) × (result.0.share ≡ other.share) }
    { act_in_crowd(rt, lock, other, left.wrapping_add(1)) };
    let ((one, first), (other, second)) = join(rt, front, back);
    (lock.join(one, other), first.and(second))
}

/// Returns the value of a lock that was made with no acts: the groups of the joined pass's turns, in order. It was
/// begun for as many as at first.
fn close_all(lock: HistoryLock<Acts>, pass: Pass<Acts>) -> Acts
    requires own { pass.lock ≡ lock.lock }
    requires whole { pass.share ≡ 64 }
    requires empty { lock.first.log.items ≡ [] }
    ensures acts { result.log.items ≡ groups_of pass.mine }
    ensures begun { result.begun_for ≡ lock.first.begun_for }
{
    lock.close(pass)
}

/// Takes the turns of 64 threads, and returns the value, with the turns that the joined pass counts.
fn act_in_all<R: Threads + Wait + Sync>(
    rt: &R,
    lock: HistoryLock<Acts>,
    pass: Pass<Acts>,
) -> Result<(Acts, u64), AllocError>
    requires own { pass.lock ≡ lock.lock }
    requires fresh { (pass.share ≡ 64) × (pass.turns ≡ 0) × (lock.first.log.items ≡ []) }
{
    let (pass, told) = act_in_crowd(rt, &lock, pass, 1);
    told?;
    let turns = lock.turns(&pass);
    Ok((close_all(lock, pass), turns))
}

/// Returns a lock over no acts, and its one pass.
fn unused(alloc: Global) -> Result<(HistoryLock<Acts>, Pass<Acts>), AllocError>
    ensures own { IfOk result (λ made. made.1.lock ≡ made.0.lock) }
    ensures fresh { IfOk result (λ made. (made.1.share ≡ 64) × (made.1.turns ≡ 0) × (made.0.first.log.items ≡ [])) }
{
    let acts = Acts {
        log: Vec::new(alloc),
        begun_for: 64,
    };
    match HistoryLock::new(alloc, acts) {
        Ok(made) => Ok(made),
        Err(_) => Err(AllocError),
    }
}

#[test]
fn splits_to_the_last_share_and_joins_again(rt: HostRuntime) -> Result<(), AllocError> {
    let alloc: Global = rt.alloc();
    let (lock, pass) = unused(alloc)?;
    let mut passes = Vec::new(alloc);
    spread(&lock, pass, &mut passes)?;
    assert_eq!(rt; passes.len(), 64);
    let Some(pass) = gather(&lock, passes) else {
        return Err(AllocError);
    };
    assert_eq!(rt; lock.turns(&pass), 0);
    let acts = lock.close(pass);
    assert!(rt; acts.log.is_empty());
    Ok(())
}

// All bells are in use, and most waiters sleep, since the threads are many more than the processors. A wake-up that is
// lost would stop them all.
#[test]
fn sixty_four_threads_share_one_history(rt: HostRuntime) -> Result<(), Fail> {
    let alloc: Global = rt.alloc();
    let (lock, pass) = unused(alloc)?;
    let (acts, turns) = act_in_all(&rt, lock, pass)?;
    assert_eq!(rt; turns, TURNS);
    assert_eq!(rt; acts.begun_for, 64);
    assert_eq!(rt; acts.log.len(), 64 * TURNS as usize);
    let mut steps = [0u64; 64];
    for act in acts.log.iter() {
        let next = &mut steps[act.who as usize % 64];
        assert_eq!(rt; act.step, *next, "of {}", act.who);
        *next = next.wrapping_add(1);
    }
    assert_eq!(rt; steps, [TURNS; 64]);
    Ok(())
}
