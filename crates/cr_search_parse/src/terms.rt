// SPDX-License-Identifier: Apache-2.0 OR MIT
//! The terms of searches (the HotCRP manual's search keywords).
ghost use Rattle.std.specs.Prelude.{◌≡◌, ◌<◌, ◌+◌, if◌then◌else◌, Some, None, length, take, drop, option_copied};
ghost use Rattle.std.specs.Prelude.{IfOk, IfSome, IfNone, IsTrue, IsFalse};
ghost use Rattle.std.specs.List.{list_all};
ghost use Rattle.cr_base.specs.Lists.{until, since};
ghost use Rattle.cr_search_parse.specs.Terms.{is_quoted_byte, is_word_byte};
ghost use Rattle.cr_search_parse.specs.Terms.{is_word as is_word_text, begins_with as begins};
ghost use Rattle.cr_search_parse.specs.Terms.{behind_first as behind, before_closing as closed, quoted as quoted_text};
ghost use Rattle.cr_search_parse.specs.Terms.{term_value as value_text};
ghost use Rattle.cr_search_parse.specs.Terms.{decision_asked as decision, status_asked as status};
ghost use Rattle.cr_search_parse.specs.Terms.{feature_asked as feature, keyed as keyed_term, is_and as and_word};
ghost use Rattle.cr_search_parse.specs.Terms.{is_or as or_word, is_not as not_word, is_plain as plain_word};
ghost use Rattle.cr_search_parse.specs.Terms.{is_colon, has_colon, term_of};

use cr_base::{Blob, Decision, Feature, Status, Tag, Term};
use std::alloc::{AllocError, Global};

/// Returns whether a byte may be between quotation marks: no control character's, and no quotation mark.
fn is_quoted_byte(byte: u8) -> bool
    ensures { result ≡ is_quoted_byte byte }
{
    byte >= 0x20 && byte != 0x7f && byte != b'"'
}

/// Returns whether a byte may be in a word: one that may be quoted, and no space or parenthesis.
fn is_word_byte(byte: u8) -> bool
    ensures { result ≡ is_word_byte byte }
{
    is_quoted_byte(byte) && byte != b' ' && byte != b'(' && byte != b')'
}

/// Returns whether each byte may be between quotation marks.
fn all_quoted_bytes(text: &[u8]) -> bool
    ensures { result ≡ list_all is_quoted_byte text.now }
{
    text.iter().all(|byte| is_quoted_byte(*byte))
}

/// Returns whether each byte may be in a word.
fn all_word_bytes(text: &[u8]) -> bool
    ensures { result ≡ list_all is_word_byte text.now }
{
    text.iter().all(|byte| is_word_byte(*byte))
}

/// Returns whether these bytes are a word.
fn is_word(text: &[u8]) -> bool
    ensures { result ≡ is_word_text text.now }
{
    !text.is_empty() && all_word_bytes(text)
}

/// Returns whether this byte is the first.
fn begins_with(byte: u8, text: &[u8]) -> bool
    ensures { result ≡ begins byte text.now }
{
    match text.first() {
        Some(first) => *first == byte,
        None => false,
    }
}

/// Returns the bytes after the first.
fn behind_first(text: &[u8]) -> &[u8]
    ensures { result.now ≡ behind text.now }
{
    if text.is_empty() {
        return text;
    }
    &text[1..]
}

/// Returns the text, if it may be between quotation marks.
fn inside(text: &[u8]) -> Option<&[u8]>
    ensures { option_copied result ≡ (if list_all is_quoted_byte text.now then Some text.now else None) }
{
    if all_quoted_bytes(text) {
        return Some(text);
    }
    None
}

/// Returns the text before the closing quotation mark, which ends it.
fn before_closing(text: &[u8]) -> Option<&[u8]>
    ensures { option_copied result ≡ closed text.now }
{
    if text.is_empty() {
        return None;
    }
    let last = text.len() - 1;
    if text[last] != b'"' {
        return None;
    }
    inside(&text[..last])
}

/// Returns the text between two quotation marks.
fn quoted(text: &[u8]) -> Option<&[u8]>
    ensures { option_copied result ≡ quoted_text text.now }
{
    if begins_with(b'"', text) {
        return before_closing(behind_first(text));
    }
    None
}

/// Returns a value: a quoted text, or a word.
fn term_value(text: &[u8]) -> Option<&[u8]>
    ensures { option_copied result ≡ value_text text.now }
{
    if begins_with(b'"', text) {
        return quoted(text);
    }
    if is_word(text) {
        return Some(text);
    }
    None
}

/// Returns the bytes of a text that may be there.
fn kept(alloc: Global, text: Option<&[u8]>) -> Result<Option<Blob>, AllocError>
    ensures { IfOk result (λ kept. kept ≡ option_copied text.entry) }
{
    match text {
        Some(text) => Ok(Some(Blob::from_slice(alloc, text)?)),
        None => Ok(None),
    }
}

/// Returns the decision that a word asks for.
fn decision_asked(word: &[u8]) -> Option<Option<Decision>>
    ensures { result ≡ decision word.now }
{
    if word == b"accept".as_slice() {
        return Some(Some(Decision::Accept));
    }
    if word == b"reject".as_slice() {
        return Some(Some(Decision::Reject));
    }
    if word == b"none".as_slice() {
        return Some(None);
    }
    None
}

/// Returns the standing that a word asks for.
fn status_asked(word: &[u8]) -> Option<Status>
    ensures { result ≡ status word.now }
{
    if word == b"active".as_slice() {
        return Some(Status::Active);
    }
    if word == b"withdrawn".as_slice() {
        return Some(Status::Withdrawn);
    }
    if word == b"accepted".as_slice() {
        return Some(Status::Accepted);
    }
    None
}

/// Returns the feature that a word asks for.
fn feature_asked(word: &[u8]) -> Option<Feature>
    ensures { result ≡ feature word.now }
{
    if word == b"content".as_slice() {
        return Some(Feature::Content);
    }
    if word == b"review".as_slice() {
        return Some(Feature::Review);
    }
    if word == b"comment".as_slice() {
        return Some(Feature::Comment);
    }
    if word == b"response".as_slice() {
        return Some(Feature::Response);
    }
    if word == b"decision".as_slice() {
        return Some(Feature::Decision);
    }
    if word == b"conflict".as_slice() {
        return Some(Feature::Conflict);
    }
    if word == b"mine".as_slice() {
        return Some(Feature::Mine);
    }
    None
}

/// Returns the term of a key and what follows its colon.
///
/// # Errors
///
/// If memory runs out.
fn keyed(alloc: Global, key: &[u8], value: &[u8]) -> Result<Option<Term>, AllocError>
    ensures { IfOk result (λ term. term ≡ keyed_term key.now value.now) }
{
    if key == b"ti".as_slice() {
        return Ok(kept(alloc, term_value(value))?.map(Term::Title));
    }
    if key == b"ab".as_slice() {
        return Ok(kept(alloc, term_value(value))?.map(Term::Abstract));
    }
    if key == b"au".as_slice() {
        return Ok(kept(alloc, term_value(value))?.map(Term::Author));
    }
    if key == b"re".as_slice() {
        return Ok(kept(alloc, term_value(value))?.map(Term::Reviewer));
    }
    if key == b"dec".as_slice() {
        return Ok(decision_asked(value).map(Term::Decision));
    }
    if key == b"status".as_slice() {
        return Ok(status_asked(value).map(Term::Status));
    }
    if key == b"has".as_slice() {
        return Ok(feature_asked(value).map(Term::Has));
    }
    Ok(None)
}

/// Returns whether this is the word between two items that both hold.
pub(crate) fn is_and(word: &[u8]) -> bool
    ensures { result ≡ and_word word.now }
{
    word == b"AND".as_slice()
}

/// Returns whether this is the word between alternatives.
pub(crate) fn is_or(word: &[u8]) -> bool
    ensures { result ≡ or_word word.now }
{
    word == b"OR".as_slice()
}

/// Returns whether this is the word before an item that doesn't hold.
pub(crate) fn is_not(word: &[u8]) -> bool
    ensures { result ≡ not_word word.now }
{
    word == b"NOT".as_slice()
}

/// Returns whether a word without a colon is a plain text.
fn is_plain(word: &[u8]) -> bool
    ensures { result ≡ plain_word word.now }
{
    is_word(word)
        && !begins_with(b'-', word)
        && !begins_with(b'#', word)
        && !is_and(word)
        && !is_or(word)
        && !is_not(word)
}

/// Returns the place of the first colon.
fn colon(text: &[u8]) -> Option<usize>
    ensures within { IfSome result (λ at. at < length text.now) }
    ensures before { IfSome result (λ at. take at text.now ≡ until is_colon text.now) }
    ensures behind { IfSome result (λ at. drop (at + 1) text.now ≡ since is_colon text.now) }
    ensures some { IfSome result (λ at. IsTrue (has_colon text.now)) }
    ensures none { IfNone result (IsFalse (has_colon text.now)) }
{
    for (i, byte) in text.iter().enumerate() {
        if *byte == b':' {
            return Some(i);
        }
    }
    None
}

/// Returns the one term of a chunk, if it is one.
///
/// # Errors
///
/// If memory runs out.
pub(crate) fn read_term(alloc: Global, text: &[u8]) -> Result<Option<Term>, AllocError>
    ensures { IfOk result (λ term. term ≡ term_of text.now) }
{
    if begins_with(b'"', text) {
        return Ok(kept(alloc, quoted(text))?.map(Term::Plain));
    }
    if begins_with(b'#', text) {
        return Ok(Tag::read(behind_first(text)).map(Term::Tag));
    }
    if let Some(at) = colon(text) {
        return keyed(alloc, &text[..at], &text[at + 1..]);
    }
    if is_plain(text) {
        return Ok(Some(Term::Plain(Blob::from_slice(alloc, text)?)));
    }
    Ok(None)
}
