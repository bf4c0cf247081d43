// SPDX-License-Identifier: Apache-2.0 OR MIT
//! The deadlines of phases.
ghost use Rattle.cr_json.specs.Deadlines.{deadline_members};
ghost use Rattle.cr_json.specs.Json.{AddsMembers};
ghost use Rattle.cr_json.specs.Put.{Takes};

use crate::object::Object;
use crate::value::Value;
use cr_base::{Deadline, Phase, PhaseDeadline};
use std::alloc::AllocError;

/// Writes the members that tell a phase and its deadline, null where it has none. They take at most 286 bytes; an
/// error comes only for lack of memory.
pub fn add_deadline(
    object: &mut Object,
    into: &mut Vec<u8>,
    phase: Phase,
    until: Option<Deadline>,
) -> Result<(), AllocError>
    ensures adds { AddsMembers result into.old into.new object.old.is_first object.new.is_first
        (deadline_members phase until) }
    ensures room { Takes result into.old into.new 286 }
{
    object.string(into, "phase", phase.name().as_bytes())?;
    object.until(into, "until", until)?;
    Ok(())
}

/// A phase with its deadline, as everyone is told of it.
impl Value for PhaseDeadline {
    ghost use Rattle.cr_json.specs.Deadlines.{phase_deadline_text};

    ghost text = { phase_deadline_text };

    fn append_to(&self, into: &mut Vec<u8>) -> Result<(), AllocError> {
        let mut object = Object::open(into)?;
        add_deadline(&mut object, into, self.phase, Some(self.until))?;
        object.close(into)
    }
}
