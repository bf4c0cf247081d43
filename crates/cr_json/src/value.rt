// SPDX-License-Identifier: Apache-2.0 OR MIT
//! Values of JSON (RFC 8259, section 3).
ghost use Rattle.std.specs.Prelude.{◌≡◌, List, ℕ, decimal, map};
ghost use Rattle.json.specs.Print.{quoted};
ghost use Rattle.cr_json.specs.Put.{Appends, Takes};
ghost use Rattle.cr_json.specs.Json.{array_text, bid_text, decided_text, decided_word as word_for};
ghost use Rattle.cr_json.specs.Json.{label_text, minus, review_kind_text};

use crate::list::append_list;
use crate::put::{append, append_number};
use crate::quoted::append_quoted;
use cr_anonymity::letter;
use cr_base::{Bid, Decision, Items, Kind, Ordinal, PaperNo, Short, Tag, Text};
use std::alloc::AllocError;

/// What a list has, or an object under a key.
pub trait Value {
    /// Its text in JSON.
    ghost text: { Self → List ℕ };

    /// Appends it.
    ///
    /// # Errors
    ///
    /// If memory runs out.
    fn append_to(&self, into: &mut Vec<u8>) -> Result<(), AllocError>
        ensures { Appends result into.old into.new (text self.now) };
}

/// A name.
impl Value for Short {
    ghost text = { quoted };

    fn append_to(&self, into: &mut Vec<u8>) -> Result<(), AllocError> {
        append_quoted(into, self.as_slice())
    }
}

/// A tag.
impl Value for Tag {
    ghost text = { quoted };

    fn append_to(&self, into: &mut Vec<u8>) -> Result<(), AllocError> {
        append_quoted(into, self.as_slice())
    }
}

/// A title, an abstract, or what a review or a comment says.
impl Value for Text {
    ghost text = { quoted };

    fn append_to(&self, into: &mut Vec<u8>) -> Result<(), AllocError> {
        append_quoted(into, self.as_str().as_bytes())
    }
}

/// A paper's number.
impl Value for PaperNo {
    ghost text = { decimal };

    fn append_to(&self, into: &mut Vec<u8>) -> Result<(), AllocError> {
        append_number(into, self.number())
    }
}

/// A version's number.
impl Value for u64 {
    ghost text = { decimal };

    fn append_to(&self, into: &mut Vec<u8>) -> Result<(), AllocError> {
        append_number(into, *self)
    }
}

/// A bid, from -20 to 20.
impl Value for Bid {
    ghost text = { bid_text };

    fn append_to(&self, into: &mut Vec<u8>) -> Result<(), AllocError> {
        append_bid(into, *self)
    }
}

/// The letter of a label.
impl Value for Ordinal {
    ghost text = { label_text };

    fn append_to(&self, into: &mut Vec<u8>) -> Result<(), AllocError> {
        append_label(into, *self)
    }
}

/// The word for a kind of assignment.
impl Value for Kind {
    ghost text = { review_kind_text };

    fn append_to(&self, into: &mut Vec<u8>) -> Result<(), AllocError> {
        append_quoted(into, self.name().as_bytes())
    }
}

/// What was decided last of a paper: the word for it, or `none` where nothing was.
impl Value for Option<Decision> {
    ghost text = { decided_text };

    fn append_to(&self, into: &mut Vec<u8>) -> Result<(), AllocError> {
        append_quoted(into, decided_word(*self).as_bytes())
    }
}

/// A list.
impl<T: Value> Value for Items<T> {
    ghost text = { λ items. array_text (map T.text items) };

    fn append_to(&self, into: &mut Vec<u8>) -> Result<(), AllocError> {
        append_list(into, self.as_slice())
    }
}

#[tactic(auto, unfolding(crate::specs::Json::decided_word))]
fn decided_word(decision: Option<Decision>) -> &'static str
    ensures { result.now ≡ word_for decision }
{
    match decision {
        Some(decision) => decision.name(),
        None => "none",
    }
}

/// Appends the minus of a number below 0, or nothing of another.
#[tactic(auto, unfolding(crate::specs::Json::minus))]
fn append_minus(into: &mut Vec<u8>, is_negative: bool) -> Result<(), AllocError>
    ensures text { Appends result into.old into.new (minus is_negative) }
    ensures room { Takes result into.old into.new 1 }
{
    if !is_negative {
        return Ok(());
    }
    append(into, b"-")?;
    Ok(())
}

/// Appends a bid with its sign; the buffer grows where it has to.
#[tactic(auto, unfolding(crate::specs::Json::bid_text))]
pub(crate) fn append_bid(into: &mut Vec<u8>, bid: Bid) -> Result<(), AllocError>
    ensures text { Appends result into.old into.new (bid_text bid) }
    ensures room { Takes result into.old into.new 21 }
{
    append_minus(into, bid.is_negative())?;
    append_number(into, bid.size())
}

/// Appends a label's letter as a string; the buffer grows where it has to.
#[tactic(auto, unfolding(crate::specs::Json::label_text))]
pub(crate) fn append_label(into: &mut Vec<u8>, ordinal: Ordinal) -> Result<(), AllocError>
    ensures text { Appends result into.old into.new (label_text ordinal) }
    ensures room { Takes result into.old into.new 8 }
{
    let letters = [letter(ordinal)];
    append_quoted(into, letters.as_slice())
}
