// SPDX-License-Identifier: Apache-2.0 OR MIT
//! Objects of JSON, written member by member (RFC 8259, section 4).
ghost use Rattle.std.specs.Prelude.{◌≡◌, ◌+◌, ◌*◌, ◌++◌, true, false, codes, decimal};
ghost use Rattle.std.specs.Prelude.{length, map, IfOk, OnOk, Some, option_map};
ghost use Rattle.json.specs.Print.{quoted};
ghost use Rattle.cr_base.specs.Page.{where_told};
ghost use Rattle.cr_json.specs.Put.{Appends, Takes};
ghost use Rattle.cr_json.specs.Json.{AddsMembers, array_text, bid_text, comma, key_text};
ghost use Rattle.cr_json.specs.Json.{label_text, list_alone, member_of, truth_text};
ghost use Rattle.cr_json.specs.Times.{until_text};

use crate::list::{append_comma, append_list};
use crate::put::{append, append_number};
use crate::quoted::append_quoted;
use crate::time::append_until;
use crate::value::{Value, append_bid, append_label};
use cr_base::{Bid, Deadline, Ordinal};
use std::alloc::AllocError;

/// An object that is being written. Its keys need no escape; members are written in the order of the
/// bytes of their keys.
#[derive(Clone, Copy)]
pub struct Object {
    is_first: bool,
}

#[tactic(auto, unfolding(crate::specs::Json::truth_text))]
fn word_of(truth: bool) -> &'static str
    ensures { result.now ≡ truth_text truth }
{
    if truth { "true" } else { "false" }
}

impl Object {
    /// Begins an object. After an error of this or a later call `into` may have a part of what was to be written.
    ///
    /// # Errors
    ///
    /// If memory runs out.
    pub fn open(into: &mut Vec<u8>) -> Result<Object, AllocError>
        ensures text { Appends result into.old into.new (codes "{") }
        ensures first { IfOk result (λ o. o.is_first ≡ true) }
        ensures room { Takes result into.old into.new 1 }
    {
        append(into, b"{")?;
        Ok(Object { is_first: true })
    }

    // Writes a key, behind a comma where another member stands before it.
    #[tactic(auto, unfolding(crate::specs::Json::key_text))]
    fn key(&mut self, into: &mut Vec<u8>, key: &str) -> Result<(), AllocError>
        ensures text { Appends result into.old into.new (comma self.old.is_first ++ key_text key.now) }
        ensures first { OnOk result (self.new.is_first ≡ false) }
        ensures room { Takes result into.old into.new (length key.now + 4) }
    {
        append_comma(into, self.is_first)?;
        append(into, b"\"")?;
        append(into, key.as_bytes())?;
        append(into, b"\":")?;
        self.is_first = false;
        Ok(())
    }

    /// Writes a member that is a number.
    pub fn number(&mut self, into: &mut Vec<u8>, key: &str, number: u64) -> Result<(), AllocError>
        ensures adds { AddsMembers result into.old into.new self.old.is_first self.new.is_first
            (member_of key.now (Some (decimal number))) }
        ensures room { Takes result into.old into.new (length key.now + 24) }
    {
        self.key(into, key)?;
        append_number(into, number)
    }

    /// Writes a member that is a string.
    pub fn string(&mut self, into: &mut Vec<u8>, key: &str, text: &[u8]) -> Result<(), AllocError>
        ensures adds { AddsMembers result into.old into.new self.old.is_first self.new.is_first
            (member_of key.now (Some (quoted text.now))) }
        ensures room { Takes result into.old into.new (length key.now + 6 * length text.now + 6) }
    {
        self.key(into, key)?;
        append_quoted(into, text)
    }

    /// Writes a member that is a bid, a number from -20 to 20.
    pub fn bid(&mut self, into: &mut Vec<u8>, key: &str, bid: Bid) -> Result<(), AllocError>
        ensures adds { AddsMembers result into.old into.new self.old.is_first self.new.is_first
            (member_of key.now (Some (bid_text bid))) }
        ensures room { Takes result into.old into.new (length key.now + 25) }
    {
        self.key(into, key)?;
        append_bid(into, bid)
    }

    /// Writes a member that is a label, by its letter.
    pub fn label(
        &mut self,
        into: &mut Vec<u8>,
        key: &str,
        ordinal: Ordinal,
    ) -> Result<(), AllocError>
        ensures adds { AddsMembers result into.old into.new self.old.is_first self.new.is_first
            (member_of key.now (Some (label_text ordinal))) }
        ensures room { Takes result into.old into.new (length key.now + 12) }
    {
        self.key(into, key)?;
        append_label(into, ordinal)
    }

    /// Writes a member that is a deadline, the time in UTC, or null where there is none.
    pub fn until(
        &mut self,
        into: &mut Vec<u8>,
        key: &str,
        until: Option<Deadline>,
    ) -> Result<(), AllocError>
        ensures adds { AddsMembers result into.old into.new self.old.is_first self.new.is_first
            (member_of key.now (Some (until_text until))) }
        ensures room { Takes result into.old into.new (length key.now + 126) }
    {
        self.key(into, key)?;
        append_until(into, until)
    }

    /// Writes a member that is a list.
    pub fn list<T: Value>(
        &mut self,
        into: &mut Vec<u8>,
        key: &str,
        items: &[T],
    ) -> Result<(), AllocError>
        ensures { AddsMembers result into.old into.new self.old.is_first self.new.is_first
            (member_of key.now (Some (array_text (map T.text items.now)))) }
    {
        self.key(into, key)?;
        append_list(into, items)
    }

    /// Writes a member whose value is JSON already, if that is told.
    pub fn fixed(
        &mut self,
        into: &mut Vec<u8>,
        key: &str,
        is_told: bool,
        value: &str,
    ) -> Result<(), AllocError>
        ensures { AddsMembers result into.old into.new self.old.is_first self.new.is_first
            (member_of key.now (where_told is_told (Some value.now))) }
    {
        if !is_told {
            return Ok(());
        }
        self.key(into, key)?;
        append(into, value.as_bytes())
    }

    /// Writes a member that is true or false, if that is told.
    pub fn truth(
        &mut self,
        into: &mut Vec<u8>,
        key: &str,
        truth: Option<bool>,
    ) -> Result<(), AllocError>
        ensures { AddsMembers result into.old into.new self.old.is_first self.new.is_first
            (member_of key.now (option_map truth_text truth)) }
    {
        match truth {
            Some(truth) => self.fixed(into, key, true, word_of(truth)),
            None => Ok(()),
        }
    }

    /// Writes a member of any value, if that is told.
    pub fn told<T: Value>(
        &mut self,
        into: &mut Vec<u8>,
        key: &str,
        value: &Option<T>,
    ) -> Result<(), AllocError>
        ensures { AddsMembers result into.old into.new self.old.is_first self.new.is_first
            (member_of key.now (option_map T.text value.now)) }
    {
        match value {
            Some(value) => {
                self.key(into, key)?;
                value.append_to(into)
            }
            None => Ok(()),
        }
    }

    /// Ends the object.
    pub fn close(self, into: &mut Vec<u8>) -> Result<(), AllocError>
        ensures text { Appends result into.old into.new (codes "}") }
        ensures room { Takes result into.old into.new 1 }
    {
        append(into, b"}")
    }
}

/// Appends an object that has only a list.
///
/// # Errors
///
/// If memory runs out.
pub fn append_list_alone<T: Value>(
    into: &mut Vec<u8>,
    key: &str,
    items: &[T],
) -> Result<(), AllocError>
    ensures { Appends result into.old into.new (list_alone key.now (map T.text items.now)) }
{
    let mut object = Object::open(into)?;
    object.list(into, key, items)?;
    object.close(into)
}
