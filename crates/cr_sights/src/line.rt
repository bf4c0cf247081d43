// SPDX-License-Identifier: Apache-2.0 OR MIT
//! A sighting as a line.
ghost use Rattle.std.specs.Prelude.{◌≡◌, OnOk};
ghost use Rattle.std.specs.Option.{option_copied};
ghost use Rattle.cr_base.specs.Lists.{listed};
ghost use Rattle.cr_json.specs.Json.{AddsMembers};
ghost use Rattle.cr_json.specs.Put.{Appends};
ghost use Rattle.cr_sights.specs.Lines.{by_told, line_text, lines_text, number_told, user_told, writer_told};
ghost use Rattle.cr_sights.specs.Lines.{first_members, second_members, third_members, fourth_members};
ghost use Rattle.cr_sights.specs.Lines.{fifth_members, last_members};

use crate::members::add;
use crate::sighting::Sighting;
use cr_base::{CommandNumber, EntryKind, UserNo};
use cr_json::Object;
use std::alloc::AllocError;

/// Returns the user that an entry is about; of a bid the bidder.
fn user_told<'a>(sighting: &'a Sighting) -> Option<&'a UserNo>
    ensures { let s = sighting.now in option_copied result ≡ user_told s.kind s.by s.user }
{
    match sighting.kind {
        EntryKind::Bid => sighting.by.as_ref(),
        _ => sighting.user.as_ref(),
    }
}

/// Returns who wrote a comment.
fn writer_told<'a>(sighting: &'a Sighting) -> Option<&'a UserNo>
    ensures { let s = sighting.now in option_copied result ≡ writer_told s.kind s.by }
{
    match sighting.kind {
        EntryKind::Commented => sighting.by.as_ref(),
        _ => None,
    }
}

/// Returns who made an entry, beside both of these.
fn by_told<'a>(sighting: &'a Sighting) -> Option<&'a UserNo>
    ensures { let s = sighting.now in option_copied result ≡ by_told s.kind s.by }
{
    match sighting.kind {
        EntryKind::Bid | EntryKind::Commented => None,
        _ => sighting.by.as_ref(),
    }
}

/// Returns the number that its client gave the command of the reader's own entry, if it gave one.
fn number_told<'a>(sighting: &'a Sighting) -> Option<&'a CommandNumber>
    ensures { option_copied result ≡ number_told (sighting.now).key }
{
    match &sighting.key {
        Some(Some(key)) => Some(&key.number),
        _ => None,
    }
}

/// Writes the members up to `bytes`.
fn add_first(object: &mut Object, into: &mut Vec<u8>, sighting: &Sighting) -> Result<(), AllocError>
    ensures { AddsMembers result into.old into.new object.old.is_first object.new.is_first
        (first_members sighting.now) }
{
    add(object, into, "abstract", sighting.abstract_)?;
    object.truth(into, "accepted", sighting.accepted)?;
    add(object, into, "at", sighting.at.as_ref())?;
    add(object, into, "by", by_told(sighting))?;
    add(object, into, "bytes", sighting.content)?;
    Ok(())
}

/// Writes the members from `confidence` to `kind`.
fn add_second(
    object: &mut Object,
    into: &mut Vec<u8>,
    sighting: &Sighting,
) -> Result<(), AllocError>
    ensures { AddsMembers result into.old into.new object.old.is_first object.new.is_first
        (second_members sighting.now) }
{
    add(object, into, "confidence", sighting.confidence.as_ref())?;
    add(object, into, "decision", sighting.decision.as_ref())?;
    add(object, into, "digest", sighting.digest)?;
    object.truth(into, "done", sighting.done)?;
    object.string(into, "kind", sighting.kind.name().as_bytes())?;
    Ok(())
}

/// Writes the members from `mine` to `on`.
fn add_third(object: &mut Object, into: &mut Vec<u8>, sighting: &Sighting) -> Result<(), AllocError>
    ensures { AddsMembers result into.old into.new object.old.is_first object.new.is_first
        (third_members sighting.now) }
{
    object.fixed(into, "mine", sighting.mine, "true")?;
    add(object, into, "mode", sighting.mode.as_ref())?;
    add(object, into, "n", sighting.n.as_ref())?;
    add(object, into, "name", sighting.name)?;
    add(object, into, "num", number_told(sighting))?;
    object.truth(into, "on", sighting.on)?;
    Ok(())
}

/// Writes the members from `ordinal` to `role`.
fn add_fourth(
    object: &mut Object,
    into: &mut Vec<u8>,
    sighting: &Sighting,
) -> Result<(), AllocError>
    ensures { AddsMembers result into.old into.new object.old.is_first object.new.is_first
        (fourth_members sighting.now) }
{
    add(object, into, "ordinal", sighting.ordinal.as_ref())?;
    object.truth(into, "outcome", sighting.outcome)?;
    add(object, into, "paper", sighting.paper.as_ref())?;
    add(object, into, "phase", sighting.phase.as_ref())?;
    add(object, into, "role", sighting.role.as_ref())?;
    Ok(())
}

/// Writes the members from `score` to `to_authors`.
fn add_fifth(object: &mut Object, into: &mut Vec<u8>, sighting: &Sighting) -> Result<(), AllocError>
    ensures { AddsMembers result into.old into.new object.old.is_first object.new.is_first
        (fifth_members sighting.now) }
{
    add(object, into, "score", sighting.score.as_ref())?;
    add(object, into, "seat", sighting.review_kind.as_ref())?;
    add(object, into, "tag", sighting.tag)?;
    add(object, into, "text", sighting.text)?;
    add(object, into, "title", sighting.title)?;
    add(object, into, "to_authors", sighting.to_authors)?;
    Ok(())
}

/// Writes the members from `to_pc` on.
fn add_last(object: &mut Object, into: &mut Vec<u8>, sighting: &Sighting) -> Result<(), AllocError>
    ensures { AddsMembers result into.old into.new object.old.is_first object.new.is_first
        (last_members sighting.now) }
{
    add(object, into, "to_pc", sighting.to_pc)?;
    add(object, into, "until", sighting.until.as_ref())?;
    add(object, into, "user", user_told(sighting))?;
    add(object, into, "value", sighting.value.as_ref())?;
    add(object, into, "version", sighting.version.as_ref())?;
    add(object, into, "writer", writer_told(sighting))?;
    Ok(())
}

/// Appends what an entry shows as one JSON object and a line feed.
///
/// # Errors
///
/// If memory runs out.
fn append_line(into: &mut Vec<u8>, sighting: &Sighting) -> Result<(), AllocError>
    ensures { Appends result into.old into.new (line_text sighting.now) }
{
    let mut object = Object::open(into)?;
    add_first(&mut object, into, sighting)?;
    add_second(&mut object, into, sighting)?;
    add_third(&mut object, into, sighting)?;
    add_fourth(&mut object, into, sighting)?;
    add_fifth(&mut object, into, sighting)?;
    add_last(&mut object, into, sighting)?;
    object.close(into)?;
    into.push(b'\n')?;
    Ok(())
}

/// Makes the buffer hold the line of what an entry shows, or nothing if it shows nothing.
///
/// # Errors
///
/// If memory runs out.
pub(crate) fn fill(line: &mut Vec<u8>, sighting: &Option<Sighting>) -> Result<(), AllocError>
    ensures { OnOk result (line.new.items ≡ lines_text (listed sighting.now)) }
{
    line.clear();
    match sighting {
        Some(sighting) => append_line(line, sighting),
        None => Ok(()),
    }
}
