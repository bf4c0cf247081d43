// SPDX-License-Identifier: Apache-2.0 OR MIT
ghost use Rattle.std.specs.Prelude.{IfOk};
ghost use Rattle.cr_match.specs.Answer.{IsProblem};

use super::{Pair, Problem, Solved, first_best, solve};
use std::alloc::Global;
use std::process::Abort;
use std::test::Fail;

/// Returns a problem of two papers and five members, of which two bid.
fn bids(alloc: Global, per_paper: u32, bids: [i32; 4], rt: &impl Abort) -> Result<Problem, Fail>
    ensures { IfOk result (λ problem. IsProblem problem) }
{
    let mut pairs = Vec::new(alloc);
    for paper in 0..2 {
        for member in 0..5 {
            let weight = match (paper, member) {
                (0, 1) => bids[0],
                (1, 1) => bids[1],
                (0, 3) => bids[2],
                (1, 3) => bids[3],
                _ => 0,
            };
            pairs.push(Pair {
                paper,
                member,
                weight,
            })?;
        }
    }
    Ok(Problem::new(2, 5, per_paper, 1, pairs).expect(rt, "a problem"))
}

#[test]
fn greatest_sum(rt: HostRuntime) -> Result<(), Fail> {
    let problem = bids(rt.alloc(), 1, [5, 4, 3, -1], &rt)?;
    let Solved::Best { pairs, sum, .. } = solve(&problem) else {
        panic!(&rt; "a plan");
    };
    assert_eq!(rt; sum, 7);
    assert_eq!(rt; pairs.len(), 2);
    assert_eq!(rt; (pairs[0].paper, pairs[0].member), (0, 3));
    assert_eq!(rt; (pairs[1].paper, pairs[1].member), (1, 1));
    Ok(())
}

#[test]
fn six_places_for_five_members(rt: HostRuntime) -> Result<(), Fail> {
    let problem = bids(rt.alloc(), 3, [0, 0, 0, 0], &rt)?;
    let Solved::NoPlan { papers } = solve(&problem) else {
        panic!(&rt; "no plan");
    };
    assert_eq!(rt; papers.as_slice(), [0, 1].as_slice());
    Ok(())
}

#[test]
fn first_of_all(rt: HostRuntime) -> Result<(), Fail> {
    let problem = bids(rt.alloc(), 1, [0, 0, 0, 0], &rt)?;
    let Solved::Best { pairs, sum, .. } = first_best(&problem) else {
        panic!(&rt; "a plan");
    };
    assert_eq!(rt; sum, 0);
    assert_eq!(rt; pairs.len(), 2);
    assert_eq!(rt; (pairs[0].paper, pairs[0].member), (0, 0));
    assert_eq!(rt; (pairs[1].paper, pairs[1].member), (1, 1));
    Ok(())
}

#[test]
fn pairs_in_no_order(rt: HostRuntime) -> Result<(), Fail> {
    let mut pairs = Vec::new(rt.alloc());
    for (paper, member, weight) in [(1, 0, 3), (0, 1, -2), (1, 1, 2), (0, 0, 5)] {
        pairs.push(Pair {
            paper,
            member,
            weight,
        })?;
    }
    let problem = Problem::new(2, 2, 1, 1, pairs).expect(&rt, "a problem");
    let Solved::Best { pairs, sum, .. } = solve(&problem) else {
        panic!(&rt; "a plan");
    };
    assert_eq!(rt; sum, 7);
    assert_eq!(rt; (pairs[0].paper, pairs[0].member), (1, 1));
    Ok(())
}
