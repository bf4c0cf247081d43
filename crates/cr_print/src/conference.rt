// SPDX-License-Identifier: Apache-2.0 OR MIT
//! What everyone may know of the conference, which is written without memory.
ghost use Rattle.cr_json.specs.Put.{Appends, HasRoom, Puts, Takes};
ghost use Rattle.cr_print.specs.Conference.{conference_content};
ghost use Rattle.cr_print.specs.Answers.{conference_text};

use crate::brief::print_brief;
use crate::head::{Extra, json};
use crate::sending::Sending;
use crate::status::Status;
use cr_base::Conference;
use cr_json::Object;
use std::alloc::AllocError;

fn append_conference(into: &mut Vec<u8>, conference: Conference) -> Result<(), AllocError>
    ensures text { Appends result into.old into.new (conference_content conference) }
    ensures room { Takes result into.old into.new 288 }
{
    let mut object = Object::open(into)?;
    object.string(into, "mode", conference.mode.name().as_bytes())?;
    object.number(into, "papers", conference.papers)?;
    object.string(into, "phase", conference.phase.name().as_bytes())?;
    object.close(into)
}

/// Appends what everyone may know of the conference, which can't fail and takes no memory: `into` has
/// room for 512 bytes.
#[tactic(auto, unfolding(crate::specs::Answers::conference_text))]
pub(crate) fn print_conference(into: &mut Vec<u8>, conference: Conference, sending: Sending)
    requires { HasRoom into.old 512 }
    ensures { Puts into.old into.new (conference_text conference sending) 512 }
{
    let start = into.len();
    append_conference(into, conference).unwrap();
    print_brief(into, start, json(Status::Okay, Extra::Nothing), sending);
}
