// SPDX-License-Identifier: Apache-2.0 OR MIT
//! Bytes that contracts see as lists.
ghost use Rattle.std.specs.Prelude.{◌≡◌, ℕ, ◌≤◌, ◌+◌, List, [], length, take};
ghost use Rattle.std.specs.Prelude.{drop, replicate, IfOk, IfErr, IsTrue, ◌↔◌};
ghost use Rattle.std.specs.List.{list_all};
ghost use Rattle.std.specs.Str.{is_utf8};
ghost use Rattle.cr_base.specs.Texts.{IsReviewText, IsCommentText};
ghost use Rattle.cr_base.specs.Texts.{is_review_text as is_review_text_of, is_comment_text};
ghost use Rattle.cr_base.specs.Texts.{IsName, IsTitle, IsAbstract, IsContent, is_name as is_name_text, is_name_byte};
ghost use Rattle.cr_base.specs.Texts.{is_title as is_title_text, is_title_byte, is_abstract as is_abstract_text};

use std::alloc::{AllocError, AllocFailed, Global};
use std::hash::{Hash, Hasher};
use std::marker::Model;
use std::sync::Arc;

/// A block of bytes, of which those after its first `start` are meant.
#[derive(Drop, Debug)]
struct Block {
    bytes: Vec<u8>,
    start: usize,
}

impl Block {
    /// Returns the bytes meant.
    fn as_slice(&self) -> &[u8]
        requires { (self.now).start ≤ length (self.now).bytes.items }
        ensures { result.now ≡ drop (self.now).start (self.now).bytes.items }
    {
        &self.bytes[self.start..]
    }

    /// Gives the whole block back.
    fn into_bytes(self) -> Vec<u8>
        ensures { result ≡ self.bytes }
    {
        let Block { bytes, start: _ } = self;
        bytes
    }
}

/// Bytes of any length, held once: a copy shares them.
///
/// # Model
///
/// The list of its bytes.
#[derive(Drop, Debug)]
pub struct Blob {
    // None has no bytes, and takes no memory.
    block: Option<Arc<Block, Global>>,
}

impl Model for Blob {
    ghost use Rattle.std.specs.Prelude.{ℕ, ◌≤◌, List, [], drop, length, IfSome};
    ghost use Rattle.std.specs.Arc.{arc_value};
    ghost use Rattle.std.specs.Option.{option_map_or};
    ghost use Rattle.cr_base.specs.declared.texts.Block.{Block};

    ghost Value = { List ℕ };

    ghost view = { λ b.
        option_map_or (λ a. drop (arc_value {X = Block} a).start (arc_value {X = Block} a).bytes.items) b.block [] };

    ghost invariant = { λ b.
        IfSome b.block (λ a. (arc_value {X = Block} a).start ≤ length (arc_value {X = Block} a).bytes.items) };
}

impl Blob {
    /// Returns no bytes.
    ///
    /// # Cost
    ///
    /// Takes no memory.
    pub fn empty() -> Blob
        ensures { result ≡ [] }
    {
        Blob { block: None }
    }

    /// Returns a copy of these bytes, in a block of their own.
    ///
    /// # Errors
    ///
    /// If memory runs out.
    pub fn from_slice(alloc: Global, bytes: &[u8]) -> Result<Blob, AllocError>
        ensures { IfOk result (λ b. b ≡ bytes.now) }
    {
        if bytes.is_empty() {
            return Ok(Blob::empty());
        }
        let mut block = Vec::with_capacity(alloc, bytes.len())?;
        block.extend_from_slice(bytes)?;
        match Blob::from_vec(block) {
            Ok(blob) => Ok(blob),
            Err(_) => Err(AllocError),
        }
    }

    /// Returns the bytes of a vector. It takes the vector's block, and copies no byte.
    ///
    /// # Errors
    ///
    /// The vector, if there is no memory for the count of the bytes' owners.
    pub fn from_vec(bytes: Vec<u8>) -> Result<Blob, AllocFailed<Vec<u8>>>
        ensures ok { IfOk result (λ b. b ≡ bytes.items) }
        ensures back { IfErr result (λ e. e.value.items ≡ bytes.items) }
    {
        Blob::from_vec_after(bytes, 0)
    }

    /// Returns the bytes of a vector after its first `front`, in the same way.
    ///
    /// # Errors
    ///
    /// The vector, if there is no memory for the count of the bytes' owners.
    pub fn from_vec_after(bytes: Vec<u8>, front: usize) -> Result<Blob, AllocFailed<Vec<u8>>>
        requires { front ≤ length bytes.items }
        ensures ok { IfOk result (λ b. b ≡ drop front bytes.items) }
        ensures back { IfErr result (λ e. e.value.items ≡ bytes.items) }
    {
        let alloc = *bytes.allocator();
        match Arc::new(
            alloc,
            Block {
                bytes,
                start: front,
            },
        ) {
            Ok(block) => Ok(Blob { block: Some(block) }),
            Err(AllocFailed { value }) => Err(AllocFailed {
                value: value.into_bytes(),
            }),
        }
    }

    /// Returns the bytes.
    pub fn as_slice(&self) -> &[u8]
        ensures { result.now ≡ self.now }
    {
        match &self.block {
            Some(block) => block.as_slice(),
            None => &[],
        }
    }

    /// Returns whether both have equal bytes.
    ///
    /// # Cost
    ///
    /// At most one look at each byte.
    pub fn is_same(&self, other: &Blob) -> bool
        ensures { IsTrue result ↔ (self.now ≡ other.now) }
    {
        self.as_slice() == other.as_slice()
    }

    /// Returns an equal one, which shares the bytes.
    ///
    /// # Errors
    ///
    /// If the count of their owners is at its greatest.
    ///
    /// # Cost
    ///
    /// Doesn't depend on the number of bytes. Takes no memory.
    pub fn copy(&self) -> Result<Blob, AllocError>
        ensures { IfOk result (λ b. b ≡ self.now) }
    {
        let Some(block) = &self.block else {
            return Ok(Blob::empty());
        };
        let shared = Arc::try_clone(block)?;
        Ok(Blob {
            block: Some(shared),
        })
    }
}

/// UTF-8 text of any length, held once: a copy shares it.
///
/// # Model
///
/// The list of its bytes.
#[derive(Drop)]
pub struct Text {
    bytes: Blob,
}

impl Model for Text {
    ghost use Rattle.std.specs.Prelude.{List, ℕ};
    ghost use Rattle.std.specs.Str.{IsUtf8};

    ghost Value = { List ℕ };

    ghost view = { λ t. t.bytes };

    ghost invariant = { λ t. IsUtf8 t.bytes };
}

impl Text {
    /// Returns a copy of a text, in a block of its own.
    ///
    /// # Errors
    ///
    /// If memory runs out.
    pub fn from_str(alloc: Global, text: &str) -> Result<Text, AllocError>
        ensures { IfOk result (λ t. t ≡ text.now) }
    {
        let bytes = Blob::from_slice(alloc, text.as_bytes())?;
        Ok(Text { bytes })
    }

    /// Returns a text that is made of these bytes, which are UTF-8, and shares them.
    ///
    /// # Errors
    ///
    /// If the count of their owners is at its greatest.
    pub fn from_blob(bytes: &Blob) -> Result<Text, AllocError>
        requires { IsTrue (is_utf8 bytes.now) }
        ensures { IfOk result (λ t. t ≡ bytes.now) }
    {
        let bytes = bytes.copy()?;
        Ok(Text { bytes })
    }

    /// Returns the text, lent.
    pub fn as_str(&self) -> &str
        ensures { result.now ≡ self.now }
    {
        unsafe { std::str::from_utf8_unchecked(self.bytes.as_slice()) }
    }

    /// Returns its bytes, which it shares.
    ///
    /// # Errors
    ///
    /// If the count of their owners is at its greatest.
    pub fn to_blob(&self) -> Result<Blob, AllocError>
        ensures { IfOk result (λ b. b ≡ self.now) }
    {
        self.bytes.copy()
    }

    /// Returns an equal one, which shares the text.
    ///
    /// # Errors
    ///
    /// If the count of its owners is at its greatest.
    ///
    /// # Cost
    ///
    /// Doesn't depend on the length. Takes no memory.
    pub fn copy(&self) -> Result<Text, AllocError>
        ensures { IfOk result (λ t. t ≡ self.now) }
    {
        let bytes = self.bytes.copy()?;
        Ok(Text { bytes })
    }
}

/// Two texts that are made at once: after a `?` of the second, the first is dropped here and in no long `match`.
#[derive(Drop)]
pub(crate) struct TwoTexts {
    pub(crate) first: Text,
    pub(crate) second: Text,
}

impl TwoTexts {
    /// Returns equal ones, which share the texts.
    ///
    /// # Errors
    ///
    /// If memory runs out.
    pub(crate) fn copies(first: &Text, second: &Text) -> Result<TwoTexts, AllocError>
        ensures { IfOk result (λ made. made ≡ record { first = first.now; second = second.now }) }
    {
        let first = first.copy()?;
        let second = second.copy()?;
        Ok(TwoTexts { first, second })
    }

    /// Returns texts made of these bytes, which are UTF-8, and share them.
    ///
    /// # Errors
    ///
    /// If memory runs out.
    pub(crate) fn from_blobs(first: &Blob, second: &Blob) -> Result<TwoTexts, AllocError>
        requires first { IsTrue (is_utf8 first.now) }
        requires second { IsTrue (is_utf8 second.now) }
        ensures { IfOk result (λ made. made ≡ record { first = first.now; second = second.now }) }
    {
        let first = Text::from_blob(first)?;
        let second = Text::from_blob(second)?;
        Ok(TwoTexts { first, second })
    }
}

/// At most 34 bytes, kept in place: a name, say.
///
/// # Model
///
/// The list of its bytes.
#[derive(Clone, Copy)]
pub struct Short {
    bytes: [u8; 34],
    len: u8,
}

impl Model for Short {
    ghost use Rattle.std.specs.Prelude.{◌≡◌, ℕ, ◌≤◌, ◌-◌, List, ◌++◌, length, take, drop, replicate};
    ghost use Rattle.cr_base.specs.Short.{kept_back, kept_back-view};

    ghost Value = { List ℕ };

    ghost view = { λ s. take s.len s.bytes };

    // The bytes behind the text are zero, so that equal texts are equal values.
    ghost invariant = { λ s. (s.len ≤ 34) × (length s.bytes ≡ 34) × (drop s.len s.bytes ≡ replicate (34 - s.len) 0) };

    ghost inverse = { kept_back };

    ghost inverse_ok = { kept_back-view };
}

impl Short {
    /// Returns a copy of at most 34 bytes.
    pub fn from_slice(bytes: &[u8]) -> Short
        requires { length bytes.now ≤ 34 }
        ensures { result ≡ bytes.now }
    {
        let mut kept = [0u8; 34];
        let len = bytes.len();
        kept[..len].copy_from_slice(bytes);
        Short {
            bytes: kept,
            len: len as u8,
        }
    }

    /// Returns the bytes, at most 34.
    pub fn as_slice(&self) -> &[u8]
        ensures value { result.now ≡ self.now }
        ensures short { length result.now ≤ 34 }
    {
        &self.bytes[..self.len as usize]
    }
}

impl PartialEq for Short {
    ghost use Rattle.std.specs.Str.{bytes_eq};
    ghost use Rattle.std.specs.Cmp.{partial_equiv_from_equiv};
    ghost use Rattle.std.specs.Cmp.Lexicographic.{nat_list_eq_equiv};

    ghost eq = { bytes_eq };

    ghost laws = { partial_equiv_from_equiv nat_list_eq_equiv };

    fn eq(&self, other: &Short) -> bool {
        self.as_slice() == other.as_slice()
    }
}

impl Eq for Short {
    ghost use Rattle.std.specs.Cmp.Lexicographic.{nat_list_eq_equiv};

    ghost laws = { nat_list_eq_equiv };
}

impl Hash for Short {
    ghost use Rattle.std.proofs.lemmas.Slice.Eq.{bytes_eq-Decides};
    ghost use Rattle.std.specs.Hash.{slice as fed_slice, u8 as fed_byte, same_Alike};

    ghost hash_input = { fed_slice fed_byte };

    ghost respects_eq = { (same_Alike (fed_slice fed_byte) bytes_eq-Decides).fed };

    fn hash<H: Hasher>(&self, state: &mut H) {
        self.as_slice().hash(state);
    }
}

/// Returns whether a name may have this byte: `a` to `z`, `0` to `9` or `-`.
fn is_name_byte(byte: u8) -> bool
    ensures { result ≡ is_name_byte byte }
{
    byte.is_ascii_lowercase() || byte.is_ascii_digit() || byte == b'-'
}

/// Returns whether a name may have every one of these bytes.
fn all_name_bytes(bytes: &[u8]) -> bool
    ensures { result ≡ list_all is_name_byte bytes.now }
{
    bytes.iter().all(|byte| is_name_byte(*byte))
}

/// Returns whether these bytes are a user's name: 1 to 32 of `a-z0-9-`.
pub fn is_name(bytes: &[u8]) -> bool
    ensures name { IsTrue result ↔ IsName bytes.now }
    ensures test { result ≡ is_name_text bytes.now }
{
    !bytes.is_empty() && bytes.len() <= 32 && all_name_bytes(bytes)
}

/// Returns whether these bytes are UTF-8.
///
/// # Cost
///
/// One walk over them. Takes no memory.
pub fn is_text(bytes: &[u8]) -> bool
    ensures { result ≡ is_utf8 bytes.now }
{
    match str::from_utf8(bytes) {
        Ok(_) => true,
        Err(_) => false,
    }
}

/// Returns whether a title may have this byte: no control character's.
fn is_title_byte(byte: u8) -> bool
    ensures { result ≡ is_title_byte byte }
{
    byte >= 0x20 && byte != 0x7f
}

/// Returns whether a title may have every one of these bytes.
fn all_title_bytes(bytes: &[u8]) -> bool
    ensures { result ≡ list_all is_title_byte bytes.now }
{
    bytes.iter().all(|byte| is_title_byte(*byte))
}

/// Returns whether these bytes are a paper's title: UTF-8 of 1 to 200 bytes, with no character below U+0020 and no
/// U+007F.
pub fn is_title(bytes: &[u8]) -> bool
    ensures title { IsTrue result ↔ IsTitle bytes.now }
    ensures test { result ≡ is_title_text bytes.now }
{
    !bytes.is_empty() && bytes.len() <= 200 && all_title_bytes(bytes) && is_text(bytes)
}

/// Returns whether these bytes are a paper's abstract: UTF-8, at most 5,000 bytes.
pub fn is_abstract(bytes: &[u8]) -> bool
    ensures abstract_ { IsTrue result ↔ IsAbstract bytes.now }
    ensures test { result ≡ is_abstract_text bytes.now }
{
    bytes.len() <= 5_000 && is_text(bytes)
}

/// Returns whether these bytes are a text of a review: UTF-8, at most 20,000 bytes.
pub fn is_review_text(bytes: &[u8]) -> bool
    ensures text { IsTrue result ↔ IsReviewText bytes.now }
    ensures test { result ≡ is_review_text_of bytes.now }
{
    bytes.len() <= 20_000 && is_text(bytes)
}

/// Returns whether these bytes are a comment: UTF-8, 1 to 10,000 bytes.
pub fn is_comment(bytes: &[u8]) -> bool
    ensures comment { IsTrue result ↔ IsCommentText bytes.now }
    ensures test { result ≡ is_comment_text bytes.now }
{
    !bytes.is_empty() && bytes.len() <= 10_000 && is_text(bytes)
}

/// Returns whether these bytes may be uploaded at once: any, at most 4,194,304.
pub fn is_content(bytes: &[u8]) -> bool
    ensures { IsTrue result ↔ IsContent bytes.now }
{
    bytes.len() <= 4_194_304
}
