// SPDX-License-Identifier: Apache-2.0 OR MIT
//! A sum for each user.
ghost use Rattle.std.specs.Prelude.{◌≡◌, ℕ, ◌≤◌, ◌<◌, ◌+◌, ◌-◌, ◌++◌, [], OnOk, length};
ghost use Rattle.std.specs.Prelude.{replicate, slice_index, vec_len, vec_capacity};
ghost use Rattle.cr_base.specs.Papers.{with_more};

use cr_base::{LAST_NUMBER, UserNo};
use std::alloc::{AllocError, Global};
use std::marker::Model;

/// How many sums there are at most: one for each user number, and one for 0, which no user has.
const MOST_SUMS: usize = LAST_NUMBER as usize + 1;

/// A sum for each user, below 4,294,967,296 and 0 at first: their number is the index, and the sums past the end are
/// 0.
///
/// # Model
///
/// The sums, and how many fit without taking memory.
#[derive(Drop)]
pub struct Sums {
    sums: Vec<u32>,
}

impl Model for Sums {
    ghost use Rattle.std.specs.Prelude.{vec_capacity};
    ghost use Rattle.cr_kept.specs.Seen.{SeenSums};

    ghost Value = { SeenSums };

    ghost view = { λ s. record { sums = s.sums.items; capacity = vec_capacity s.sums } };
}

impl Sums {
    /// Creates sums that are all 0.
    ///
    /// # Cost
    ///
    /// Takes no memory.
    pub fn new(alloc: Global) -> Sums
        ensures { result.sums ≡ [] }
    {
        Sums {
            sums: Vec::new(alloc),
        }
    }

    /// Returns the sum of a user.
    ///
    /// # Cost
    ///
    /// One read by number.
    pub fn of(&self, user: UserNo) -> u64
        ensures value { result ≡ slice_index self.now.sums user }
        ensures few { result < 4294967296 }
    {
        match self.sums.get(user.number() as usize) {
            Some(total) => u64::from(*total),
            None => 0,
        }
    }

    /// Takes the memory for the sums of all users, 40,000 bytes. The sums don't change.
    ///
    /// # Errors
    ///
    /// If memory runs out.
    pub fn make_room(&mut self) -> Result<(), AllocError>
        ensures ok { OnOk result (10000 ≤ self.new.capacity) }
        ensures same { self.new.sums ≡ self.old.sums }
        ensures keeps { self.old.capacity ≤ self.new.capacity }
    {
        self.sums.reserve(MOST_SUMS.saturating_sub(self.sums.len()))
    }

    /// Adds this much to a user's sum; there is room for all.
    ///
    /// # Cost
    ///
    /// Takes no memory.
    pub fn add(&mut self, user: UserNo, more: u64)
        requires room { 10000 ≤ self.old.capacity }
        requires few { slice_index self.old.sums user + more < 4294967296 }
        ensures sums { self.new.sums ≡ with_more user more self.old.sums }
        ensures capacity { self.old.capacity ≤ self.new.capacity }
    {
        let index = user.number() as usize;
        fill(&mut self.sums, index);
        self.sums[index] += more as u32;
    }
}

/// Fills the sums up with zeros, so that one is at this index, for which there is room.
fn fill(sums: &mut Vec<u32>, index: usize)
    requires { index < vec_capacity sums.old }
    ensures items { sums.new.items ≡ sums.old.items ++ replicate (index + 1 - length sums.old.items) 0 }
    ensures within { index < vec_len sums.new }
    ensures capacity { vec_capacity sums.old ≤ vec_capacity sums.new }
{
    if index < sums.len() {
        return;
    }
    match sums.resize(index + 1, 0) {
        Ok(()) => {}
        Err(_) => unreachable!(),
    }
}
