// SPDX-License-Identifier: Apache-2.0 OR MIT
//! The members of a view line, each written where its part is shown.
ghost use Rattle.std.specs.Prelude.{◌≡◌, List, ℕ, Some, decimal, option_map};
ghost use Rattle.std.specs.Option.{option_copied};
ghost use Rattle.hex.specs.Hex.{encode_lower};
ghost use Rattle.json.specs.Print.{quoted};
ghost use Rattle.cr_json.specs.Json.{AddsMembers, bid_text, decision_text, member_of, review_kind_text};
ghost use Rattle.cr_sights.specs.Lines.{content_text, digest_text, mode_text, phase_text, role_text, until_decimal};

use cr_base::{
    Bid, Blob, CommandNumber, Deadline, Decision, Digest, Grade, Kind, Mode, Moment, PaperNo,
    Phase, Role, Short, Tag, Text, UserNo,
};
use cr_json::Object;
use std::alloc::AllocError;

/// A part of an entry, as a line tells it.
pub(crate) trait Part {
    /// Its text in JSON.
    ghost text: { Self → List ℕ };

    /// Writes it as the member of a key.
    ///
    /// # Errors
    ///
    /// If memory runs out.
    fn write(&self, object: &mut Object, into: &mut Vec<u8>, key: &str) -> Result<(), AllocError>
        ensures { AddsMembers result into.old into.new object.old.is_first object.new.is_first
            (member_of key.now (Some (text self.now))) };
}

/// Writes a part as the member of a key, if it is shown.
///
/// # Errors
///
/// If memory runs out.
pub(crate) fn add<P: Part>(
    object: &mut Object,
    into: &mut Vec<u8>,
    key: &str,
    part: Option<&P>,
) -> Result<(), AllocError>
    ensures { AddsMembers result into.old into.new object.old.is_first object.new.is_first
        (member_of key.now (option_map P.text (option_copied part.entry))) }
{
    match part {
        Some(part) => part.write(object, into, key),
        None => Ok(()),
    }
}

/// Returns the lower-case hexadecimal digits of a digest.
fn digits_of(digest: Digest) -> [u8; 64]
    ensures { result ≡ encode_lower digest }
{
    let mut digits = [0; 64];
    hex::encode_to_slice(digest, &mut digits).unwrap();
    digits
}

/// A user by their number.
impl Part for UserNo {
    ghost text = { decimal };

    fn write(&self, object: &mut Object, into: &mut Vec<u8>, key: &str) -> Result<(), AllocError> {
        object.number(into, key, self.number())
    }
}

/// A paper by its number.
impl Part for PaperNo {
    ghost text = { decimal };

    fn write(&self, object: &mut Object, into: &mut Vec<u8>, key: &str) -> Result<(), AllocError> {
        object.number(into, key, self.number())
    }
}

/// A moment by its seconds.
impl Part for Moment {
    ghost text = { decimal };

    fn write(&self, object: &mut Object, into: &mut Vec<u8>, key: &str) -> Result<(), AllocError> {
        object.number(into, key, self.seconds())
    }
}

/// The number of a command.
impl Part for CommandNumber {
    ghost text = { decimal };

    fn write(&self, object: &mut Object, into: &mut Vec<u8>, key: &str) -> Result<(), AllocError> {
        object.number(into, key, self.number())
    }
}

/// A deadline by its seconds, or that there is none by 0.
impl Part for Option<Deadline> {
    ghost text = { until_decimal };

    fn write(&self, object: &mut Object, into: &mut Vec<u8>, key: &str) -> Result<(), AllocError> {
        match self {
            Some(until) => object.number(into, key, until.seconds()),
            None => object.number(into, key, 0),
        }
    }
}

/// A grade of a form.
impl Part for Grade {
    ghost text = { decimal };

    fn write(&self, object: &mut Object, into: &mut Vec<u8>, key: &str) -> Result<(), AllocError> {
        object.number(into, key, self.number())
    }
}

/// Any other number: that of a version or of a comment, or the ordinal of a label.
impl Part for u64 {
    ghost text = { decimal };

    fn write(&self, object: &mut Object, into: &mut Vec<u8>, key: &str) -> Result<(), AllocError> {
        object.number(into, key, *self)
    }
}

/// A bid with its sign.
impl Part for Bid {
    ghost text = { bid_text };

    fn write(&self, object: &mut Object, into: &mut Vec<u8>, key: &str) -> Result<(), AllocError> {
        object.bid(into, key, *self)
    }
}

/// A content by its length, of which nothing is copied.
impl Part for Blob {
    ghost text = { content_text };

    fn write(&self, object: &mut Object, into: &mut Vec<u8>, key: &str) -> Result<(), AllocError> {
        object.number(into, key, self.as_slice().len() as u64)
    }
}

/// A name.
impl Part for Short {
    ghost text = { quoted };

    fn write(&self, object: &mut Object, into: &mut Vec<u8>, key: &str) -> Result<(), AllocError> {
        object.string(into, key, self.as_slice())
    }
}

/// A tag.
impl Part for Tag {
    ghost text = { quoted };

    fn write(&self, object: &mut Object, into: &mut Vec<u8>, key: &str) -> Result<(), AllocError> {
        object.string(into, key, self.as_slice())
    }
}

/// A title, an abstract, a text of a form or a comment.
impl Part for Text {
    ghost text = { quoted };

    fn write(&self, object: &mut Object, into: &mut Vec<u8>, key: &str) -> Result<(), AllocError> {
        object.string(into, key, self.as_str().as_bytes())
    }
}

/// A digest by its 64 lower-case hexadecimal digits.
impl Part for Digest {
    ghost text = { digest_text };

    fn write(&self, object: &mut Object, into: &mut Vec<u8>, key: &str) -> Result<(), AllocError> {
        object.string(into, key, &digits_of(*self))
    }
}

/// A phase by its word.
impl Part for Phase {
    ghost text = { phase_text };

    fn write(&self, object: &mut Object, into: &mut Vec<u8>, key: &str) -> Result<(), AllocError> {
        object.string(into, key, self.name().as_bytes())
    }
}

/// A mode by its word.
impl Part for Mode {
    ghost text = { mode_text };

    fn write(&self, object: &mut Object, into: &mut Vec<u8>, key: &str) -> Result<(), AllocError> {
        object.string(into, key, self.name().as_bytes())
    }
}

/// A role by its word.
impl Part for Role {
    ghost text = { role_text };

    fn write(&self, object: &mut Object, into: &mut Vec<u8>, key: &str) -> Result<(), AllocError> {
        object.string(into, key, self.name().as_bytes())
    }
}

/// A kind of assignment by its word.
impl Part for Kind {
    ghost text = { review_kind_text };

    fn write(&self, object: &mut Object, into: &mut Vec<u8>, key: &str) -> Result<(), AllocError> {
        object.string(into, key, self.name().as_bytes())
    }
}

/// A decision by its word.
impl Part for Decision {
    ghost text = { decision_text };

    fn write(&self, object: &mut Object, into: &mut Vec<u8>, key: &str) -> Result<(), AllocError> {
        object.string(into, key, self.name().as_bytes())
    }
}
