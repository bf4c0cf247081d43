// SPDX-License-Identifier: Apache-2.0 OR MIT
//! Values of papers, each paper's own together.
ghost use Rattle.std.specs.Prelude.{◌≡◌, ◌≤◌, ◌<◌, [], OnOk, length, slice_get, slice_index, set, insert, remove};
ghost use Rattle.std.specs.Option.{option_copied, IfSome};
ghost use Rattle.cr_base.specs.Lists.{last};
ghost use Rattle.cr_base.specs.Steps.{Takes, TakesAtMost};
ghost use Rattle.cr_base.specs.Filed.{filed, with_filed, filed_of};
ghost use Rattle.cr_rooms.specs.Rooms.{times, HasRoom, IsNoLess, IsOneLess};
ghost use Rattle.cr_kept.specs.Drawers.{files_from, rooms_of, with_changed, with_values};

use crate::drawer::Drawer;
use cr_base::{PaperNo, Steps};
use std::alloc::{AllocError, Global};
use std::marker::Model;
use std::sync::ledger::Ledger;

/// Values of papers: each paper's own are kept together, in the order in which they came, and are found by its number.
/// A paper without values costs the place of a drawer, of 24 bytes, up to the last one that has some.
///
/// # Model
///
/// The values of all papers, paper by paper, and by the paper's number for how many more of its values there is room.
#[derive(Drop)]
pub struct Cabinet<V> {
    alloc: Global,
    // By the paper's number; that at 0 is empty.
    drawers: Vec<Drawer<V>>,
}

impl<V> Model for Cabinet<V> {
    ghost use Rattle.cr_kept.specs.Seen.{SeenCabinet};
    ghost use Rattle.cr_kept.specs.Drawers.{files_from, rooms_of};

    ghost Value = { SeenCabinet V };

    ghost view = { λ f. record { files = files_from 0 f.drawers.items; rooms = rooms_of f.drawers.items } };
}

impl<V: Drop> Cabinet<V> {
    /// Creates one without values.
    ///
    /// # Cost
    ///
    /// Takes no memory.
    pub fn new(alloc: Global) -> Cabinet<V>
        ensures { result.files ≡ [] }
    {
        Cabinet {
            alloc,
            drawers: Vec::new(alloc),
        }
    }

    /// Returns how many values the paper has.
    ///
    /// # Cost
    ///
    /// Reads none of them.
    pub fn count_of(&self, paper: PaperNo) -> usize
        ensures { result ≡ length (filed_of paper self.now.files) }
    {
        match self.drawers.get(paper.number() as usize) {
            Some(drawer) => drawer.count(),
            None => 0,
        }
    }

    /// Returns the values of the paper, in the order in which they came, to be read: a step for each. They are found
    /// by number.
    ///
    /// # Cost
    ///
    /// Takes no memory.
    pub fn of_paper<L: Ledger>(&self, paper: PaperNo, steps: &mut Steps<L>) -> &[V]
        ensures values { result.now ≡ filed_of paper self.now.files }
        ensures steps { Takes (length (filed_of paper self.now.files)) steps.old steps.new }
    {
        match self.drawers.get(paper.number() as usize) {
            Some(drawer) => drawer.values(steps),
            None => &[],
        }
    }

    /// Returns the paper's value at an index among those that it has, and none past the last.
    ///
    /// # Cost
    ///
    /// Found by number, without reading another; a step where there is one.
    pub fn get<L: Ledger>(&self, paper: PaperNo, index: usize, steps: &mut Steps<L>) -> Option<&V>
        ensures value { option_copied result ≡ slice_get (filed_of paper self.now.files) index }
        ensures steps { TakesAtMost 1 steps.old steps.new }
        ensures told { IfSome result (λ value. Takes 1 steps.old steps.new) }
    {
        match self.drawers.get(paper.number() as usize) {
            Some(drawer) => drawer.get(index, steps),
            None => None,
        }
    }

    /// Returns the paper's last value, or `None` if it has none.
    ///
    /// # Cost
    ///
    /// Found by number, without reading another; a step where there is one.
    pub fn last<L: Ledger>(&self, paper: PaperNo, steps: &mut Steps<L>) -> Option<&V>
        ensures value { option_copied result ≡ last (filed_of paper self.now.files) }
        ensures steps { TakesAtMost 1 steps.old steps.new }
        ensures told { IfSome result (λ value. Takes 1 steps.old steps.new) }
    {
        let index = self.count_of(paper).checked_sub(1)?;
        self.get(paper, index, steps)
    }

    /// Takes the memory for so many more values of the paper. The values don't change. If it takes memory at all, it
    /// takes it for at least as many more as the paper has, so values that come singly cost the same each on average.
    ///
    /// # Errors
    ///
    /// If memory runs out.
    pub fn room_of(&mut self, paper: PaperNo, count: usize) -> Result<(), AllocError>
        ensures ok { OnOk result (count ≤ slice_index self.new.rooms paper) }
        ensures same { self.new.files ≡ self.old.files }
        ensures keeps { IsNoLess self.old.rooms self.new.rooms }
    {
        let index = paper.number() as usize;
        fill(&mut self.drawers, index, self.alloc)?;
        let drawer = &mut self.drawers[index];
        drawer.room(count)
    }

    /// Takes the memory for one more value of each of these papers, as often as it is there. The values don't change.
    ///
    /// # Errors
    ///
    /// If memory runs out.
    ///
    /// # Cost
    ///
    /// Compares each paper with those before it.
    pub fn room(&mut self, papers: &[PaperNo]) -> Result<(), AllocError>
        ensures ok { OnOk result (HasRoom papers.now self.new.rooms) }
        ensures same { self.new.files ≡ self.old.files }
        ensures keeps { IsNoLess self.old.rooms self.new.rooms }
    {
        for (i, paper) in papers.iter().enumerate() {
            let count = times(&papers[..=i], *paper);
            self.room_of(*paper, count)?;
        }
        Ok(())
    }

    /// Adds a value of the paper, for which there is room, after those that it has.
    ///
    /// # Cost
    ///
    /// One read by number. Takes no memory, and moves no value.
    pub fn file(&mut self, paper: PaperNo, value: V)
        requires { 0 < slice_index self.old.rooms paper }
        ensures files { self.new.files ≡ with_filed (filed paper value) self.old.files }
        ensures rooms { IsOneLess paper self.old.rooms self.new.rooms }
    {
        let drawer = &mut self.drawers[paper.number() as usize];
        drawer.push(value);
    }

    /// Replaces the value of the paper at this index among those that it has.
    ///
    /// # Cost
    ///
    /// One read by number. Takes no memory.
    pub fn change(&mut self, paper: PaperNo, index: usize, value: V)
        requires { index < length (filed_of paper self.old.files) }
        ensures files { self.new.files ≡ with_changed paper index value self.old.files }
        ensures values { self.new.files
            ≡ with_values paper (set (filed_of paper self.old.files) index value) self.old.files }
        ensures rooms { IsNoLess self.old.rooms self.new.rooms }
    {
        let drawer = &mut self.drawers[paper.number() as usize];
        drawer.set(index, value);
    }

    /// Inserts a value of the paper, for which there is room, at this index among those that it has.
    ///
    /// # Cost
    ///
    /// One read by number. Takes no memory, and moves those of the paper from there on.
    pub fn insert(&mut self, paper: PaperNo, index: usize, value: V)
        requires index { index ≤ length (filed_of paper self.old.files) }
        requires room { 0 < slice_index self.old.rooms paper }
        ensures values { self.new.files
            ≡ with_values paper (insert (filed_of paper self.old.files) index value) self.old.files }
        ensures rooms { IsOneLess paper self.old.rooms self.new.rooms }
    {
        let drawer = &mut self.drawers[paper.number() as usize];
        drawer.insert(index, value);
    }

    /// Removes the paper's value at this index.
    ///
    /// # Cost
    ///
    /// One read by number; moves those of the paper after it.
    pub fn remove(&mut self, paper: PaperNo, index: usize)
        requires { index < length (filed_of paper self.old.files) }
        ensures values { self.new.files
            ≡ with_values paper (remove (filed_of paper self.old.files) index) self.old.files }
        ensures rooms { IsNoLess self.old.rooms self.new.rooms }
    {
        let drawer = &mut self.drawers[paper.number() as usize];
        drawer.remove(index);
    }
}

/// Returns how often the paper is among these.
///
/// # Cost
///
/// A walk over them.
fn times(papers: &[PaperNo], paper: PaperNo) -> usize
    ensures { result ≡ times paper papers.now }
{
    papers
        .iter()
        .filter(|other| paper.number() == other.number())
        .count()
}

/// Fills the drawers up with empty ones, so that one is at this index.
///
/// # Errors
///
/// If memory runs out.
fn fill<V: Drop>(
    drawers: &mut Vec<Drawer<V>>,
    index: usize,
    alloc: Global,
) -> Result<(), AllocError>
    ensures ok { OnOk result (index < length drawers.new.items) }
    ensures same { files_from 0 drawers.new.items ≡ files_from 0 drawers.old.items }
    ensures keeps { IsNoLess (rooms_of drawers.old.items) (rooms_of drawers.new.items) }
{
    while drawers.len() <= index {
        drawers.push(Drawer::new(alloc))?;
    }
    Ok(())
}
