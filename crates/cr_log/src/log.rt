// SPDX-License-Identifier: Apache-2.0 OR MIT
//! The history, and where in it the entries under each number stand.
ghost use Rattle.std.specs.Prelude.{◌≡◌, ◌≤◌, ◌+◌, ◌/◌, ◌++◌, ◌↔◌, [], IsTrue, OnOk, length, max, vec_len, vec_capacity};
ghost use Rattle.cr_base.specs.Keys.{kept_under, IsUnused};
ghost use Rattle.cr_log.specs.Given.{MayFollow};
ghost use Rattle.cr_log.specs.Room.{HasRoom};
ghost use Rattle.cr_log.specs.Seen.{seen_kept};

use crate::given::{GivenNumber, number_given};
use cr_base::{CommandNumber, Stamped, UserNo};
use indexmap::IndexMap;
use std::alloc::{AllocError, Global};
use std::marker::Model;

/// Where the entries of a command are.
#[derive(Clone, Copy)]
pub(crate) struct Place {
    /// The place of the first, from 0.
    pub(crate) first: usize,
    /// How many there are.
    pub(crate) count: u64,
}

/// The entries of a history, in order, and an index of the numbers that users gave their commands.
///
/// # Model
///
/// The entries, and for how many more entries and for how many more numbers there is room.
#[derive(Drop)]
pub struct Log {
    entries: Vec<Stamped>,
    index: IndexMap<GivenNumber, Place>,
}

impl Model for Log {
    ghost use Rattle.std.specs.Prelude.{◌-◌, vec_len, vec_capacity};
    ghost use Rattle.indexmap.specs.IndexMap.{spare};
    ghost use Rattle.cr_log.specs.Index.{IsNumberIndex};
    ghost use Rattle.cr_log.specs.Seen.{SeenLog};

    ghost Value = { SeenLog };

    ghost view = { λ l. record {
      entries = l.entries.items;
      room = vec_capacity l.entries - vec_len l.entries;
      numbers = spare l.index;
    } };

    ghost invariant = { λ l. IsNumberIndex l.entries.items l.index };
}

/// What was added under one number: its first entry, lent by the log, and how many entries there are.
///
/// # Model
///
/// Both.
#[derive(Drop)]
pub struct KeptEntries<'a> {
    first: &'a Stamped,
    count: u64,
}

impl<'a> Model for KeptEntries<'a> {
    ghost use Rattle.cr_log.specs.Seen.{SeenKept};

    ghost Value = { SeenKept };

    ghost view = { λ k. record { first = k.first.now; count = k.count } };
}

impl<'a> KeptEntries<'a> {
    /// Returns the first of them.
    pub fn first(&self) -> &'a Stamped
        ensures { result.now ≡ self.now.first }
    {
        self.first
    }

    /// Returns how many there are.
    pub fn count(&self) -> u64
        ensures { result ≡ self.now.count }
    {
        self.count
    }
}

impl Log {
    /// Creates one without entries.
    ///
    /// # Cost
    ///
    /// Takes no memory.
    pub fn new(alloc: Global) -> Log
        ensures { result.entries ≡ [] }
    {
        Log {
            entries: Vec::new(alloc),
            index: IndexMap::new(alloc),
        }
    }

    /// Returns the entries, in order.
    pub fn entries(&self) -> &[Stamped]
        ensures { result.now ≡ self.now.entries }
    {
        &self.entries
    }

    /// Returns how many entries there are; reads none.
    pub fn len(&self) -> u64
        ensures { result ≡ length self.now.entries }
    {
        self.entries.len() as u64
    }

    /// Returns what this user's command of this number added, or `None` if the user gave none that was accepted.
    ///
    /// # Cost
    ///
    /// One look-up by number, and one read. Takes no memory.
    pub fn find(&self, user: UserNo, number: CommandNumber) -> Option<KeptEntries<'_>>
        ensures { result ≡ seen_kept (kept_under user number self.now.entries) }
    {
        let place = self.index.get(&GivenNumber { user, number })?;
        Some(KeptEntries {
            first: &self.entries[place.first],
            count: place.count,
        })
    }

    /// Returns whether this user gave no command of this number that was accepted.
    ///
    /// # Cost
    ///
    /// One look-up by number. Takes no memory.
    pub fn is_unused(&self, user: UserNo, number: CommandNumber) -> bool
        ensures { IsTrue result ↔ IsUnused self.now.entries user number }
    {
        self.find(user, number).is_none()
    }

    /// Takes the memory that the entries of one command need, and where the command has a number that for its place.
    /// The entries don't change. Where there was too little room for the entries, there is room for as many as an
    /// eighth of those kept, or for these where they are more.
    ///
    /// # Errors
    ///
    /// If memory runs out.
    pub fn room(&mut self, group: &[Stamped]) -> Result<(), AllocError>
        ensures ok { OnOk result (HasRoom self.new group.now) }
        ensures same { self.new.entries ≡ self.old.entries }
        ensures keeps { self.old.room ≤ self.new.room }
        ensures keeps_numbers { self.old.numbers ≤ self.new.numbers }
        ensures spare { self.new.room ≤ max self.old.room (max (length group.now) (length self.old.entries / 8)) }
    {
        make_room(&mut self.entries, group.len())?;
        match number_given(group) {
            Some(_) => self.index.reserve(1),
            None => Ok(()),
        }
    }

    /// Adds the entries of one command after the others. There is room for them, they have one stamp, and where it has
    /// a number, nothing was added under that.
    ///
    /// # Cost
    ///
    /// Takes no memory, and moves the entries; one write by number.
    pub fn append(&mut self, mut group: Vec<Stamped>)
        requires room { HasRoom self.old group.items }
        requires follows { MayFollow self.old.entries group.items }
        ensures { self.new.entries ≡ self.old.entries ++ group.items }
    {
        if let Some(number) = number_given(&group) {
            let place = Place {
                first: self.entries.len(),
                count: group.len() as u64,
            };
            match self.index.insert(number, place) {
                Ok(_) => {}
                Err(_) => unreachable!(),
            }
        }
        match self.entries.append(&mut group) {
            Ok(()) => {}
            Err(_) => unreachable!(),
        }
    }
}

/// Takes memory for so many more entries if room is short, and then for at least an eighth of those there, so that
/// spare room stays small and each entry is moved some nine times at most while the history grows. The entries don't
/// change.
///
/// # Errors
///
/// If memory runs out.
fn make_room(entries: &mut Vec<Stamped>, count: usize) -> Result<(), AllocError>
    ensures ok { OnOk result (vec_len entries.new + count ≤ vec_capacity entries.new) }
    ensures same { entries.new.items ≡ entries.old.items }
    ensures keeps { vec_capacity entries.old ≤ vec_capacity entries.new }
    ensures spare { vec_capacity entries.new
        ≤ max (vec_capacity entries.old) (vec_len entries.old + max count (vec_len entries.old / 8)) }
{
    if count <= entries.capacity() - entries.len() {
        return Ok(());
    }
    entries.reserve_exact(count.max(entries.len() / 8))
}
