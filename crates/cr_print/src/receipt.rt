// SPDX-License-Identifier: Apache-2.0 OR MIT
//! Receipts, which are written without memory.
ghost use Rattle.std.specs.Prelude.{◌≡◌};
ghost use Rattle.cr_base.specs.declared.reply.Receipt.TheVariants as receipts;
ghost use Rattle.cr_json.specs.Put.{Appends, HasRoom, Puts, Takes};
ghost use Rattle.cr_json.specs.Json.{AddsMembers};
ghost use Rattle.cr_print.specs.Receipt.{receipt_status, receipt_members, receipt_content};
ghost use Rattle.cr_print.specs.Answers.{receipt_text};

use crate::brief::print_brief;
use crate::head::{Extra, json};
use crate::sending::Sending;
use crate::status::Status;
use cr_base::{Receipt, Role, Short};
use cr_json::{Object, add_deadline};
use std::alloc::AllocError;

#[tactic(auto, unfolding(crate::specs::Receipt::receipt_status))]
fn receipt_status(receipt: &Receipt) -> Status
    ensures { result ≡ receipt_status receipt.now }
{
    match receipt {
        Receipt::User { .. }
        | Receipt::Paper { .. }
        | Receipt::Label { .. }
        | Receipt::Comment { .. } => Status::Created,
        Receipt::Phase { .. }
        | Receipt::Named { .. }
        | Receipt::Mode { .. }
        | Receipt::Changed { .. }
        | Receipt::Version { .. }
        | Receipt::Bid { .. }
        | Receipt::Rows { .. }
        | Receipt::Deadline { .. } => Status::Okay,
    }
}

/// Writes a user's role.
fn add_named(
    object: &mut Object,
    into: &mut Vec<u8>,
    name: &Short,
    role: Role,
) -> Result<(), AllocError>
    ensures adds { AddsMembers result into.old into.new object.old.is_first object.new.is_first
        (receipt_members (receipts.Named name.now role)) }
    ensures room { Takes result into.old into.new 286 }
{
    object.string(into, "name", name.as_slice())?;
    object.string(into, "role", role.name().as_bytes())?;
    Ok(())
}

/// Writes what a receipt tells.
#[tactic(auto, unfolding(crate::specs::Receipt::receipt_members))]
fn add_receipt(object: &mut Object, into: &mut Vec<u8>, receipt: &Receipt) -> Result<(), AllocError>
    ensures adds { AddsMembers result into.old into.new object.old.is_first object.new.is_first
        (receipt_members receipt.now) }
    ensures room { Takes result into.old into.new 286 }
{
    match receipt {
        Receipt::User { user } => object.number(into, "user", user.number()),
        Receipt::Phase { phase } => object.string(into, "phase", phase.name().as_bytes()),
        Receipt::Paper { paper } => object.number(into, "paper", paper.number()),
        Receipt::Named { name, role } => add_named(object, into, name, *role),
        Receipt::Mode { mode } => object.string(into, "mode", mode.name().as_bytes()),
        Receipt::Changed { paper } => object.number(into, "paper", paper.number()),
        Receipt::Version { version } => object.number(into, "version", *version),
        Receipt::Bid { bid } => object.bid(into, "bid", *bid),
        Receipt::Label { ordinal } => object.label(into, "label", *ordinal),
        Receipt::Comment { n } => object.number(into, "comment", *n),
        Receipt::Rows { rows } => object.number(into, "rows", *rows),
        Receipt::Deadline { phase, until } => add_deadline(object, into, *phase, *until),
    }
}

fn append_receipt(into: &mut Vec<u8>, receipt: &Receipt) -> Result<(), AllocError>
    ensures text { Appends result into.old into.new (receipt_content receipt.now) }
    ensures room { Takes result into.old into.new 288 }
{
    let mut object = Object::open(into)?;
    add_receipt(&mut object, into, receipt)?;
    object.close(into)
}

/// Appends the answer of an accepted command, which can't fail and takes no memory: `into` has room
/// for 512 bytes.
#[tactic(auto, unfolding(crate::specs::Answers::receipt_text))]
pub fn print_receipt(into: &mut Vec<u8>, receipt: &Receipt, sending: Sending)
    requires { HasRoom into.old 512 }
    ensures { Puts into.old into.new (receipt_text receipt.now sending) 512 }
{
    let start = into.len();
    append_receipt(into, receipt).unwrap();
    print_brief(
        into,
        start,
        json(receipt_status(receipt), Extra::Nothing),
        sending,
    );
}
