// SPDX-License-Identifier: Apache-2.0 OR MIT
//! What a query string asks, of a search or a plan.
ghost use Rattle.std.specs.Prelude.{◌≡◌, ◌≤◌, option_map, IfOk, IfSome};
ghost use Rattle.std.specs.Cow.{cow_str_bytes};
ghost use Rattle.form_urlencoded.specs.Form.{raw_pairs as pairs_of};
ghost use Rattle.cr_search_parse.specs.Reading.{text_read};
ghost use Rattle.cr_wire.specs.Bounds.{IsBoundedWhat};
ghost use Rattle.cr_wire.specs.Outcome.{Gives};
ghost use Rattle.cr_wire.specs.Query as spec;
ghost use Rattle.cr_wire.specs.Target.{query_of};

use crate::paper::is_number;
use crate::what::What;
use cr_base::{Ask, MOST_LABELS, MOST_LOAD, PerPaper, PlanLoad, Query, Question, decimal_value};
use cr_bodies::after_first;
use cr_search_parse::{ParseError, parse};
use form_urlencoded::{decode, raw_pairs};
use std::alloc::{AllocError, Global};
use std::borrow::CowStr;

/// Returns the text that encodes to this name or value.
fn decoded<'q>(alloc: Global, bytes: &'q [u8]) -> Result<CowStr<'q>, AllocError>
    ensures { IfOk result (λ text. cow_str_bytes text ≡ spec.decoded bytes.now) }
{
    decode(alloc, bytes)
}

/// Returns whether a name or value is the encoding of a text.
fn stands_for(alloc: Global, text: &[u8], bytes: &[u8]) -> Result<bool, AllocError>
    ensures { IfOk result (λ same. same ≡ spec.stands_for text.now bytes.now) }
{
    let told = decoded(alloc, bytes)?;
    Ok(told.as_bytes() == text)
}

/// Returns the value of the first pair of a name.
fn value_in<'q>(
    alloc: Global,
    wanted: &[u8],
    query: &'q [u8],
) -> Result<Option<CowStr<'q>>, AllocError>
    ensures { IfOk result (λ value. option_map cow_str_bytes value ≡ spec.value_in wanted.now (pairs_of query.now)) }
{
    'pairs: for (name, value) in raw_pairs(query) {
        if stands_for(alloc, wanted, name)? {
            return Ok(Some(decoded(alloc, value)?));
        }
    }
    Ok(None)
}

/// Returns whether a pair is `only=count`.
fn is_count(alloc: Global, name: &[u8], value: &[u8]) -> Result<bool, AllocError>
    ensures { IfOk result (λ is. is ≡ spec.is_count (name.now, value.now)) }
{
    if stands_for(alloc, b"only", name)? {
        stands_for(alloc, b"count", value)
    } else {
        Ok(false)
    }
}

/// Returns whether how many papers a search finds is asked for, and not which.
fn asks_count(alloc: Global, query: &[u8]) -> Result<bool, AllocError>
    ensures { IfOk result (λ asks. asks ≡ spec.asks_count query.now) }
{
    'pairs: for (name, value) in raw_pairs(query) {
        if is_count(alloc, name, value)? {
            return Ok(true);
        }
    }
    Ok(false)
}

/// Returns what is wished by the text of a search.
fn searched(alloc: Global, only_count: bool, text: &[u8]) -> Result<What, AllocError>
    ensures told { Gives result (spec.searched only_count (text_read text.now)) }
    ensures bounded { IfOk result IsBoundedWhat }
{
    match parse(alloc, text) {
        Ok(search) => Ok(What::Query(Query::Search { search, only_count })),
        Err(ParseError::BadQuery { offset }) => Ok(What::BadQuery {
            ask: Ask::Tell(Question::Search),
            offset,
        }),
        Err(ParseError::OutOfMemory) => Err(AllocError),
    }
}

/// Returns what is wished by what follows the first question mark of a target. Reads each pair twice at most, and
/// copies a name or a value only where it has something to decode. Fails only for lack of memory.
pub(crate) fn search_in(alloc: Global, target: &[u8]) -> Result<What, AllocError>
    ensures told { Gives result (spec.search_in (query_of target.now)) }
    ensures bounded { IfOk result IsBoundedWhat }
{
    let query = after_first(b'?', target);
    let only_count = asks_count(alloc, query)?;
    match value_in(alloc, b"q", query)? {
        Some(text) => searched(alloc, only_count, text.as_bytes()),
        None => Ok(What::BadQuery {
            ask: Ask::Tell(Question::Search),
            offset: 0,
        }),
    }
}

/// Returns whether a text is one to three digits, the first not 0.
fn is_short_number(text: &[u8]) -> bool
    ensures { result ≡ spec.is_short_number text.now }
{
    is_number(text) && text.len() <= 3
}

/// Returns the number that a text is, from 1 to `most`: one to three digits, the first not 0.
fn number_to(most: u64, text: &[u8]) -> Option<u64>
    ensures value { result ≡ spec.number_to most text.now }
    ensures within { IfSome result (λ number. (1 ≤ number) × (number ≤ most)) }
{
    if !is_short_number(text) {
        return None;
    }
    let number = decimal_value(text);
    if number > most {
        return None;
    }
    Some(number)
}

/// Returns the number that the first pair of a name tells, from 1 to `most`.
fn number_in(alloc: Global, name: &[u8], most: u64, query: &[u8]) -> Result<Option<u64>, AllocError>
    ensures value { IfOk result (λ number. number ≡ spec.number_in name.now most query.now) }
    ensures within { IfOk result (λ number. IfSome number (λ n. (1 ≤ n) × (n ≤ most))) }
{
    match value_in(alloc, name, query)? {
        Some(text) => Ok(number_to(most, text.as_bytes())),
        None => Ok(None),
    }
}

/// Returns what is wished by the two numbers of a plan.
fn planned(per_paper: Option<u64>, load: Option<u64>) -> What
    requires per_paper { IfSome per_paper (λ n. (1 ≤ n) × (n ≤ 26)) }
    requires load { IfSome load (λ n. (1 ≤ n) × (n ≤ 512)) }
    ensures told { result ≡ spec.planned per_paper load }
    ensures bounded { IsBoundedWhat result }
{
    match (per_paper, load) {
        (Some(per_paper), Some(load)) => What::Query(Query::Plan {
            per_paper: PerPaper::new(per_paper),
            load: PlanLoad::new(load),
        }),
        _ => What::BadQuery {
            ask: Ask::Tell(Question::Plan),
            offset: 0,
        },
    }
}

/// Returns what is wished by what follows the first question mark of a target that asks for a plan: by its first pairs
/// named `per_paper`, 1 to 26, and `load`, 1 to 512. Reads each pair twice at most, and copies a name or a value only
/// where it has something to decode. Fails only for lack of memory.
pub(crate) fn plan_in(alloc: Global, target: &[u8]) -> Result<What, AllocError>
    ensures told { Gives result (spec.plan_in (query_of target.now)) }
    ensures bounded { IfOk result IsBoundedWhat }
{
    let query = after_first(b'?', target);
    let per_paper = number_in(alloc, b"per_paper", MOST_LABELS, query)?;
    let load = number_in(alloc, b"load", MOST_LOAD, query)?;
    Ok(planned(per_paper, load))
}
