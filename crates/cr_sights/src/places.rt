// SPDX-License-Identifier: Apache-2.0 OR MIT
//! At which place the last entry of each series is.
ghost use Rattle.std.specs.Prelude.{◌≡◌, ℕ, ◌<◌, [], length, if◌then◌else◌, slice_index, IfOk, OnOk};
ghost use Rattle.cr_base.specs.Lists.{is_number};
ghost use Rattle.cr_sights.specs.Series.{AreLast, is_last_at};

use crate::series::series;
use cr_base::Stamped;
use std::alloc::{AllocError, Global};

/// The place of the last entry of each series among some entries, counted from 1, by the number of the series; 0 if no
/// entry is of it, as past the end. It takes 232 bytes for each number of a paper up to the greatest one, so 2.3 MB
/// for 9,999 papers, and up to twice that as it grows.
#[derive(Drop)]
pub(crate) struct Places {
    places: Vec<usize>,
}

impl Places {
    /// Creates the places of no entries.
    ///
    /// # Cost
    ///
    /// Takes no memory.
    pub(crate) fn new(alloc: Global) -> Places
        ensures { AreLast result.places.items [] }
    {
        Places {
            places: Vec::new(alloc),
        }
    }

    /// Returns the places of these entries.
    ///
    /// # Errors
    ///
    /// If memory runs out.
    ///
    /// # Cost
    ///
    /// One walk over them.
    pub(crate) fn of(alloc: Global, log: &[Stamped]) -> Result<Places, AllocError>
        ensures { IfOk result (λ places. AreLast places.places.items log.now) }
    {
        let mut places = Places::new(alloc);
        let mut at = 0;
        'places: while at < log.len() {
            places.note(&series(&log[at].entry), at + 1)?;
            at += 1;
        }
        Ok(places)
    }

    /// Notes the place of an entry of a series, if it is of one.
    ///
    /// # Errors
    ///
    /// If memory runs out.
    pub(crate) fn note(&mut self, series: &Option<u32>, place: usize) -> Result<(), AllocError>
        ensures { OnOk result ((k : ℕ) → slice_index self.new.places.items k
            ≡ (if is_number series.now k then place else slice_index self.old.places.items k)) }
    {
        let Some(series) = series else {
            return Ok(());
        };
        let number = *series as usize;
        fill(&mut self.places, number)?;
        self.places[number] = place;
        Ok(())
    }

    /// Returns whether the last entry of a series is at this place, or for 0 whether there is none; true where the
    /// series is none.
    pub(crate) fn is_last_at(&self, series: &Option<u32>, place: usize) -> bool
        ensures { result ≡ is_last_at self.now.places.items series.now place }
    {
        match series {
            Some(series) => self.last_of(*series) == place,
            None => true,
        }
    }

    /// Returns the place of the last entry of a series, 0 where there is none.
    fn last_of(&self, series: u32) -> usize
        ensures { result ≡ slice_index self.now.places.items series }
    {
        match self.places.get(series as usize) {
            Some(place) => *place,
            None => 0,
        }
    }
}

/// Fills the places up with zeros, so that one is at this number.
///
/// # Errors
///
/// If memory runs out.
fn fill(places: &mut Vec<usize>, number: usize) -> Result<(), AllocError>
    requires { number < 4294967296 }
    ensures same { OnOk result ((k : ℕ) → slice_index places.new.items k ≡ slice_index places.old.items k) }
    ensures within { OnOk result (number < length places.new.items) }
{
    if number < places.len() {
        return Ok(());
    }
    places.resize(number + 1, 0)
}
