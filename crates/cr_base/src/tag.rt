// SPDX-License-Identifier: Apache-2.0 OR MIT
//! Tags of papers.
ghost use Rattle.std.specs.Prelude.{◌≡◌, ◌≤◌, ◌↔◌, drop, IsTrue, IsFalse, IfSome, IfNone, length};
ghost use Rattle.cr_base.specs.TagTexts.{is_tilded, is_for_chairs, is_private, tag_word, is_tag as is_tag_text};

use crate::numbers::UserNo;
use crate::texts::{Short, is_name};
use std::marker::Model;

/// A word that members put on a paper (the HotCRP manual's tags): 1 to 32 of `a-z0-9-`. Before it comes `~` if the tag
/// is private to the user who sets it, `~~` if it is for chairs, and else nothing.
///
/// # Model
///
/// The list of its bytes.
#[derive(Clone, Copy)]
pub struct Tag {
    text: Short,
}

impl Model for Tag {
    ghost use Rattle.std.specs.Prelude.{List, ℕ, IsTrue};
    ghost use Rattle.cr_base.specs.TagTexts.{is_tag};

    ghost Value = { List ℕ };

    ghost view = { λ t. t.text };

    ghost invariant = { λ t. IsTrue (is_tag t.text) };

    ghost inverse = { λ text. record { text = text } };
}

/// A tag that is on at a paper, and who owns it.
#[derive(Clone, Copy)]
pub struct SetTag {
    /// The tag.
    pub tag: Tag,
    /// The user who set it, if it is private; else `None`.
    pub owner: Option<UserNo>,
}

/// Returns whether the first byte is `~`.
fn is_tilded(bytes: &[u8]) -> bool
    ensures { result ≡ is_tilded bytes.now }
{
    match bytes.first() {
        Some(byte) => *byte == b'~',
        None => false,
    }
}

/// Returns whether the second byte is `~`.
fn is_tilded_behind(bytes: &[u8]) -> bool
    ensures { result ≡ is_tilded (drop 1 bytes.now) }
{
    if bytes.is_empty() {
        return false;
    }
    is_tilded(&bytes[1..])
}

/// Returns the word, without its marks.
fn word_of(bytes: &[u8]) -> &[u8]
    ensures { result.now ≡ tag_word bytes.now }
{
    if !is_tilded(bytes) {
        return bytes;
    }
    if is_tilded_behind(bytes) {
        &bytes[2..]
    } else {
        &bytes[1..]
    }
}

/// Returns whether these bytes are a tag.
pub fn is_tag(bytes: &[u8]) -> bool
    ensures { result ≡ is_tag_text bytes.now }
{
    is_name(word_of(bytes))
}

impl Tag {
    /// Returns the tag that these bytes are, and `None` exactly if they are of no tag's grammar.
    pub fn read(bytes: &[u8]) -> Option<Tag>
        ensures some { IfSome result (λ tag. (tag ≡ bytes.now) × IsTrue (is_tag_text bytes.now)) }
        ensures none { IfNone result (IsFalse (is_tag_text bytes.now)) }
    {
        if !is_tag(bytes) {
            return None;
        }
        Some(Tag {
            text: Short::from_slice(bytes),
        })
    }

    /// Returns its bytes, marks and word: 1 to 34.
    pub fn as_slice(&self) -> &[u8]
        ensures value { result.now ≡ self.now }
        ensures tag { IsTrue (is_tag_text result.now) }
        ensures short { length result.now ≤ 34 }
    {
        self.text.as_slice()
    }

    /// Returns whether it is private to the user who sets it.
    pub fn is_private(&self) -> bool
        ensures { result ≡ is_private self.now }
    {
        is_tilded(self.as_slice()) && !is_tilded_behind(self.as_slice())
    }

    /// Returns whether it is for chairs.
    pub fn is_for_chairs(&self) -> bool
        ensures { result ≡ is_for_chairs self.now }
    {
        is_tilded(self.as_slice()) && is_tilded_behind(self.as_slice())
    }
}
