// SPDX-License-Identifier: Apache-2.0 OR MIT
//! The paper, the version, the user and the tag that a path's parameters name.
ghost use Rattle.std.specs.Prelude.{◌≡◌, IfSome, IsTrue};
ghost use Rattle.cr_base.specs.TagTexts.{is_tag};
ghost use Rattle.cr_routes.specs.Parts.{seen};
ghost use Rattle.cr_wire.specs.Paper as spec;

use cr_base::{PaperNo, Short, Tag, all_digits, parse_name, parse_paper};
use cr_routes::Matched;

/// Returns whether a text is a number in decimal, without a zero in front.
pub(crate) fn is_number(text: &[u8]) -> bool
    ensures { result ≡ spec.is_number text.now }
{
    !text.is_empty() && text[0] != b'0' && all_digits(text)
}

/// Returns the version of a text.
fn parse_version(text: &str) -> u64
    ensures { result ≡ spec.parse_version text.now }
{
    if !is_number(text.as_bytes()) {
        return 0;
    }
    match text.parse::<u64>() {
        Ok(version) => version,
        Err(_) => 0,
    }
}

/// Returns the paper that a path is about: Some exactly if its first parameter is a number from 1 to 9,999 in decimal,
/// without a sign and without a zero in front.
///
/// # Cost
///
/// Looks at four bytes at most and costs no allocation.
pub(crate) fn paper_of(found: Matched<'_>) -> Option<PaperNo>
    ensures { result ≡ spec.paper_of (seen found.entry) }
{
    parse_paper(found.first?.as_bytes())
}

/// Returns the version that a path is about: its second parameter, if that is a number below 2 ^ 64 in decimal,
/// without a sign and without a zero in front. Else 0, which no version has.
///
/// # Cost
///
/// Looks at each of its bytes at most twice and costs no allocation.
pub(crate) fn version_of(found: Matched<'_>) -> u64
    ensures { result ≡ spec.version_of (seen found.entry) }
{
    match found.second {
        Some(text) => parse_version(text),
        None => 0,
    }
}

/// Returns the user that a path is about: its second parameter, if that is a name, 1 to 32 of `a-z0-9-`.
///
/// # Cost
///
/// Looks at each of at most 32 bytes once and costs no allocation.
pub(crate) fn user_of(found: Matched<'_>) -> Option<Short>
    ensures { result ≡ spec.user_of (seen found.entry) }
{
    parse_name(found.second?.as_bytes())
}

/// Returns the user of a path that concerns no paper: its first parameter, if that is a name.
///
/// # Cost
///
/// Looks at each of at most 32 bytes once.
pub(crate) fn member_of(found: Matched<'_>) -> Option<Short>
    ensures { result ≡ spec.member_of (seen found.entry) }
{
    parse_name(found.first?.as_bytes())
}

/// Returns the tag of a text.
fn parse_tag(text: &[u8]) -> Option<Tag>
    ensures value { result ≡ spec.parse_tag text.now }
    ensures valid { IfSome result (λ tag. IsTrue (is_tag tag)) }
{
    Tag::read(text)
}

/// Returns the tag that a path is about: its second parameter, if that is a tag, 1 to 32 of `a-z0-9-` after at most
/// two `~`.
///
/// # Cost
///
/// Looks at each of at most 34 bytes once and costs no allocation.
pub(crate) fn tag_of(found: Matched<'_>) -> Option<Tag>
    ensures value { result ≡ spec.tag_of (seen found.entry) }
    ensures valid { IfSome result (λ tag. IsTrue (is_tag tag)) }
{
    parse_tag(found.second?.as_bytes())
}
