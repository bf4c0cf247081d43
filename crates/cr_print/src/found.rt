// SPDX-License-Identifier: Apache-2.0 OR MIT
//! The papers that a search finds, and how many they are.
ghost use Rattle.cr_json.specs.Put.{Appends, HasRoom, Puts, Takes};
ghost use Rattle.cr_print.specs.Found.{count_content, found_content};
ghost use Rattle.cr_print.specs.Answers.{count_text};

use crate::brief::print_brief;
use crate::head::{Extra, json};
use crate::sending::Sending;
use crate::status::Status;
use cr_base::FoundPapers;
use cr_json::Object;
use std::alloc::AllocError;

/// Appends the content that tells which papers were found, and how many they are.
pub(crate) fn append_found(into: &mut Vec<u8>, papers: &FoundPapers) -> Result<(), AllocError>
    ensures { Appends result into.old into.new (found_content papers.now) }
{
    let papers = papers.as_slice();
    let mut object = Object::open(into)?;
    object.number(into, "count", papers.len() as u64)?;
    object.list(into, "papers", papers)?;
    object.close(into)
}

fn append_count(into: &mut Vec<u8>, count: u64) -> Result<(), AllocError>
    ensures text { Appends result into.old into.new (count_content count) }
    ensures room { Takes result into.old into.new 288 }
{
    let mut object = Object::open(into)?;
    object.number(into, "count", count)?;
    object.close(into)
}

/// Appends how many papers were found, which can't fail and takes no memory: `into` has room for 512 bytes.
#[tactic(auto, unfolding(crate::specs::Answers::count_text))]
pub(crate) fn print_count(into: &mut Vec<u8>, count: u64, sending: Sending)
    requires { HasRoom into.old 512 }
    ensures { Puts into.old into.new (count_text count sending) 512 }
{
    let start = into.len();
    append_count(into, count).unwrap();
    print_brief(into, start, json(Status::Okay, Extra::Nothing), sending);
}
