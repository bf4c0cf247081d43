// SPDX-License-Identifier: Apache-2.0 OR MIT
//! How much each user reviews, counted in place in one pass over the papers' seats: a load for each user by
//! number, and one for 0, which no user has.
ghost use Rattle.std.specs.Prelude.{◌≡◌, ◌<◌, ◌+◌, ◌^◌, ℕ, IfOk, length, replicate};
ghost use Rattle.cr_base.specs.Papers.{paper_numbers};
ghost use Rattle.cr_base.specs.Reviews.{is_written_in};
ghost use Rattle.cr_reports.specs.Loads.{AreFew, Becomes, load_at, no_load, with_clear};
ghost use Rattle.cr_reports.specs.Loads.{with_paper, with_papers, with_seat};

use crate::counts::Load;
use cr_base::{LAST_NUMBER, PaperNo, Seat, Steps, Tie, UserNo};
use cr_view::Live;
use std::alloc::{AllocError, Global};

/// How many loads there are.
const LOADS: u64 = LAST_NUMBER + 1;

/// Returns a load of nothing for each user.
///
/// # Errors
///
/// If memory runs out.
fn no_loads(alloc: Global) -> Result<Vec<Load>, AllocError>
    ensures { IfOk result (λ loads. loads.items ≡ replicate 10000 no_load) }
{
    let mut loads = Vec::with_capacity(alloc, LOADS as usize)?;
    for _ in 0..LOADS {
        loads.push(Load::none())?;
    }
    Ok(loads)
}

/// Counts a seat of the paper, unless its reviewer has left it.
fn count_seat(loads: &mut [Load], live: &Live, paper: PaperNo, seat: &Tie<Seat>)
    requires long { length loads.old ≡ 10000 }
    requires few { AreFew (2 ^ 32) loads.old }
    ensures long { length loads.new ≡ 10000 }
    ensures counted { Becomes loads.old loads.new
        (λ user load. with_seat (is_written_in live.now.tables.reviews paper) user load seat.now) }
{
    if seat.value.vacated {
        return;
    }
    let written = live.is_written(paper, seat.value.ordinal);
    loads[seat.pair.user.number() as usize].add(seat.value.kind, written);
}

/// Counts the paper's seats.
fn count_paper(loads: &mut [Load], live: &Live, paper: PaperNo)
    requires long { length loads.old ≡ 10000 }
    requires few { AreFew (2 ^ 31) loads.old }
    ensures long { length loads.new ≡ 10000 }
    ensures counted { Becomes loads.old loads.new (λ user load. with_paper live.now.tables user paper load) }
    ensures few { (n : ℕ) → AreFew n loads.old → AreFew (n + 26) loads.new }
{
    let seats = live.seats(paper);
    for seat in seats {
        count_seat(loads, live, paper, seat);
    }
}

/// Counts the paper's seats, if the caller is in no conflict with it. Nothing else is read of the paper.
fn count_clear(loads: &mut [Load], live: &Live, caller: UserNo, paper: PaperNo)
    requires long { length loads.old ≡ 10000 }
    requires few { AreFew (2 ^ 31) loads.old }
    ensures long { length loads.new ≡ 10000 }
    ensures counted { Becomes loads.old loads.new (λ user load. with_clear live.now.tables caller user load paper) }
    ensures few { (n : ℕ) → AreFew n loads.old → AreFew (n + 26) loads.new }
{
    if live
        .tie_table()
        .is_conflicted(caller, paper, &[], &mut Steps::uncounted())
    {
        return;
    }
    count_paper(loads, live, paper);
}

/// Returns how much each user reviews of the papers that the caller is in no conflict with. Takes 32 bytes for each
/// number that a user may have.
///
/// # Errors
///
/// If memory runs out.
///
/// # Cost
///
/// One pass over all papers: of each what `is_conflicted` of `Ties` costs, and of those that count what `seats` of
/// `Live` does, and for each seat what `is_written` does.
pub(crate) fn count_all(alloc: Global, live: &Live, caller: UserNo) -> Result<Vec<Load>, AllocError>
    ensures long { IfOk result (λ loads. length loads.items ≡ 10000) }
    ensures counted { IfOk result (λ loads. (user : ℕ) → user < 10000 → load_at loads.items user
        ≡ with_papers live.now.tables caller user (paper_numbers live.now.tables.papers) no_load) }
{
    let mut loads = no_loads(alloc)?;
    for before in 0..live.paper_count() {
        count_clear(&mut loads, live, caller, PaperNo::new(before + 1));
    }
    Ok(loads)
}
