// SPDX-License-Identifier: Apache-2.0 OR MIT
//! A user's view, entry by entry over the history.
ghost use Rattle.std.specs.Prelude.{◌≡◌, [], length, IfOk, Some};
ghost use Rattle.cr_base.specs.Lists.{listed};
ghost use Rattle.cr_ports.specs.Writing.{outlet_of};
ghost use Rattle.cr_policy.specs.View.{sights};
ghost use Rattle.cr_sights.specs.Lines.{lines_text};
ghost use Rattle.cr_sights.specs.Readers.{reader_in};
ghost use Rattle.cr_sights.specs.Walks.{WritesView};

use crate::by_kind::sight;
use crate::line::fill;
use crate::positions::Positions;
use crate::sighting::Sighting;
use cr_base::{Stamped, UserNo};
use cr_ports::{Sink, write_all};
use cr_view::Live;
use std::alloc::{AllocError, Global};

/// Why a view was not written whole.
#[derive(Clone, Copy, PartialEq, Eq)]
pub enum ViewError {
    /// A write failed, and the sink counted it.
    WriteFault,
    /// Out of memory.
    OutOfMemory,
}

/// Writes what the entries of a history show a user, one line an entry, by the tables of the whole history.
///
/// # Errors
///
/// After an error some part of the lines was written. `WriteFault`: the sink's fault counter rose, or is at its
/// maximum; otherwise it is unchanged. `OutOfMemory`: memory ran out.
///
/// # Cost
///
/// At most four walks over the history, with a few look-ups and one write an entry, a buffer for the longest line,
/// where a content is only its length, and the places of entries: 696 bytes for each number of a paper up to the
/// greatest one, so 7 MB for 9,999 papers, and up to twice that as it grows.
pub fn write_view<O: Sink>(
    alloc: Global,
    live: &Live,
    log: &[Stamped],
    reader: UserNo,
    sink: &mut O,
) -> Result<(), ViewError>
    ensures { let outlet = outlet_of O.taken O.faults in
        WritesView result (lines_text (sights (reader_in live.now.tables (Some reader)) [] log.now))
        (outlet sink.old) (outlet sink.new) }
{
    let Ok(mut positions) = Positions::of(alloc, log) else {
        return Err(ViewError::OutOfMemory);
    };
    let mut line = Vec::new(alloc);
    let mut at = 0;
    'lines: while at < log.len() {
        let Ok(position) = positions.pass(log, at) else {
            return Err(ViewError::OutOfMemory);
        };
        let sighting = sight(live, reader, &log[at], position);
        let Ok(()) = fill(&mut line, &sighting) else {
            return Err(ViewError::OutOfMemory);
        };
        match write_all(sink, &line) {
            Ok(()) => at += 1,
            Err(_) => return Err(ViewError::WriteFault),
        }
    }
    Ok(())
}

/// Returns how many lines `write_view` writes of a history for a user, by its tables.
///
/// # Errors
///
/// If memory runs out.
///
/// # Cost
///
/// The walks of `write_view`.
pub fn view_len(
    alloc: Global,
    live: &Live,
    log: &[Stamped],
    reader: UserNo,
) -> Result<u64, AllocError>
    ensures { IfOk result (λ n. n ≡ length (sights (reader_in live.now.tables (Some reader)) [] log.now)) }
{
    let mut positions = Positions::of(alloc, log)?;
    let mut count = 0;
    let mut at = 0;
    'sightings: while at < log.len() {
        let position = positions.pass(log, at)?;
        count += number_of(&sight(live, reader, &log[at], position));
        at += 1;
    }
    Ok(count)
}

/// Returns 1 if the entry shows something, else 0.
fn number_of(sighting: &Option<Sighting>) -> u64
    ensures { result ≡ length (listed sighting.now) }
{
    match sighting {
        Some(_) => 1,
        None => 0,
    }
}
