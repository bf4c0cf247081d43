// SPDX-License-Identifier: Apache-2.0 OR MIT
//! From a request to its wish.
ghost use Rattle.std.specs.Prelude.{◌≡◌, codes, IfOk, OnErr};
ghost use Rattle.std.specs.List.{list_any};
ghost use Rattle.cr_http.specs.Head.{values_of};
ghost use Rattle.cr_wire.specs.Asked.{LooksBehindPath, what_of as what_text};
ghost use Rattle.cr_wire.specs.Bounds.{IsBoundedWhat};
ghost use Rattle.cr_wire.specs.Connection.{has_close as has_close_element};
ghost use Rattle.cr_wire.specs.Outcome.{Gives};
ghost use Rattle.cr_wire.specs.Wish.{asks_close as asks_close_text, credentials_for as credentials_for_text};
ghost use Rattle.cr_wire.specs.Wish.{credentials_in as credentials_text, wish_text};

use crate::asked::what_of;
use crate::connection::has_close;
use crate::what::{What, Wish};
use cr_base::Moment;
use cr_bodies::{Credentials, read_credentials};
use cr_http::{Body, Head, Values, Version};
use cr_routes::Routes;
use std::alloc::{AllocError, Global};

/// Returns what the only field Authorization tells.
fn credentials_in(head: &Head<'_>) -> Option<Credentials>
    ensures { result ≡ credentials_text head.now.fields }
{
    match head.values_of(b"authorization") {
        Values::One(value) => read_credentials(value),
        Values::None | Values::Many => None,
    }
}

/// Returns what it tells a request that reads it, so that no other costs the digest of a secret.
fn credentials_for(what: &What, head: &Head<'_>) -> Option<Credentials>
    ensures { result ≡ credentials_for_text what.now head.now.fields }
{
    if what.wants_login() {
        credentials_in(head)
    } else {
        None
    }
}

/// Returns whether a field Connection asks for the close.
fn field_asks_close(head: &Head<'_>) -> bool
    ensures { result ≡ list_any has_close_element (values_of (codes "connection") head.now.fields) }
{
    let mut values = head.all_values_of(b"connection");
    'values: while let Some(value) = values.next() {
        if has_close(value) {
            return true;
        }
    }
    false
}

/// Returns whether the request asks that the connection be closed after its answer.
fn asks_close(head: &Head<'_>) -> bool
    ensures { result ≡ asks_close_text head.now }
{
    head.version() == Version::Http10 || field_asks_close(head)
}

/// Returns the wish of a request, by its head, its body and the timestamp. A command in it is within the bounds on
/// commands, and a bulk has at most 512 rows.
///
/// # Errors
///
/// If memory runs out. Only a JSON body, the rows of a bulk, a search, a plan and an upload take memory.
///
/// # Cost
///
/// Reads the target's path, the fields' names and the field Connection once; the body and the query string only if
/// method and path use them; Authorization only if authentication is required; Command-Number only of bulks and of
/// commands except registrations. The digest of method, path and body is computed only if there is a number and the
/// body is a good one.
pub fn wish_of(
    alloc: Global,
    routes: &Routes,
    head: &Head<'_>,
    body: Body<'_>,
    at: Moment,
) -> Result<Wish, AllocError>
    ensures told { Gives result (wish_text (record { head = head.now; body = body.entry }) at) }
    ensures bounded { IfOk result (λ wish. IsBoundedWhat wish.what) }
    ensures sure { OnErr result (LooksBehindPath (what_text (record { head = head.now; body = body.entry }))) }
{
    let what = match what_of(alloc, routes, head, &body) {
        Ok(what) => what,
        Err(error) => return Err(error),
    };
    Ok(Wish {
        credentials: credentials_for(&what, head),
        is_head: head.is_head(),
        asks_close: asks_close(head),
        at,
        what,
    })
}
