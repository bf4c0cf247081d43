// SPDX-License-Identifier: Apache-2.0 OR MIT
//! Reads one wish from a stream.
ghost use Rattle.std.specs.Prelude.{◌≡◌, ◌≢◌, ◌≤◌, [], IfOk, IsSome};
ghost use Rattle.cr_ports.specs.Count.{Rises};
ghost use Rattle.cr_base.specs.Moments.{IsMoment};
ghost use Rattle.cr_session.specs.Answering.{clock_of};
ghost use Rattle.cr_session.specs.Reading.{ReadsWish, ReadsClock, IsBoundedRead};
ghost use Rattle.cr_session.specs.Reading.{IsRefusedNow, IsWishedNow, IsWishedAt};

use cr_base::Moment;
use cr_http::{Inbox, Refusal, Request, RequestRead, read_request};
use cr_ports::{Clock, ClockStep, Source};
use cr_routes::Routes;
use cr_wire::{Wish, wish_of};
use std::alloc::{AllocError, Global};
use std::marker::Model;

/// What a connection has read and not yet used, and the router. It is made once a connection.
///
/// Contracts see the bytes that were read and not used.
#[derive(Drop)]
pub struct RoutedInbox {
    requests: Inbox,
    routes: Routes,
}

impl Model for RoutedInbox {
    ghost use Rattle.std.specs.Prelude.{List, ℕ};

    ghost Value = { List ℕ };

    ghost view = { λ i. i.requests.rest };
}

impl RoutedInbox {
    /// Returns an inbox with no bytes; an error only for lack of memory, which the router takes.
    pub fn new(alloc: Global) -> Result<RoutedInbox, AllocError>
        ensures { IfOk result (λ inbox. inbox ≡ []) }
    {
        Ok(RoutedInbox {
            requests: Inbox::new(alloc),
            routes: Routes::new(alloc)?,
        })
    }
}

/// What was read.
#[derive(Drop)]
pub enum WishRead {
    /// A whole request's wish, with the moment of its answer.
    Wish(Wish),
    /// What stands there is no request, so the connection closes.
    Malformed {
        /// Why.
        why: Refusal,
        /// Whether the refusal answers HEAD, so that it has no content.
        is_head: bool,
        /// The moment of the refusal.
        at: Moment,
    },
    /// The stream ended between requests.
    Clean,
    /// The stream ended inside a request.
    Cut,
    /// The source failed before a whole request was read.
    ReadFault,
    /// A whole request stands there, or what is none, but the clock failed to give the moment of its answer.
    ClockFault,
    /// Out of memory.
    OutOfMemory {
        /// Whether the request is one to HEAD; false where its head wasn't read so far.
        is_head: bool,
        /// The moment that the clock gave for the request; None where memory ran out before that was whole, so that the
        /// clock wasn't asked.
        at: Option<Moment>,
    },
}

/// Reads the request at the front of the bytes that the inbox has not used and those that the source has
/// left, and gives its wish. What it reads is what the whole text of the stream spells there, however
/// the source cuts it into pieces.
///
/// Nothing is read ahead: each read is made only where neither a whole request nor a refusal stands in
/// what has come. `ReadFault` comes only where the source's count of faults rose, or stands at its last
/// value, and with every other answer that count is as it was. `OutOfMemory` comes for lack of memory
/// alone, and only where more bytes are needed, or a body, a search or a plan is looked at. Costs the reads, a few
/// looks at each byte of the head, and one reading of a JSON body, of a search or of a plan where one is wanted.
///
/// The clock is asked once, where a whole request or a refusal stands there, before any of these is looked at;
/// elsewhere it isn't asked. `ClockFault` comes only where its count of faults rose, or stands at its last value, and
/// with every other answer that count is as it was.
pub fn read_wish<S: Source, C: Clock>(
    alloc: Global,
    source: &mut S,
    inbox: &mut RoutedInbox,
    clock: &mut C,
) -> WishRead
    ensures reads { ReadsWish S.left S.read_gives source.old source.new inbox.old inbox.new result }
    ensures bounded { IsBoundedRead result }
    ensures count { S.faults source.old ≤ S.faults source.new }
    ensures fault { result ≡ WishRead.ReadFault → Rises (S.faults source.old) (S.faults source.new) }
    ensures steady { result ≢ WishRead.ReadFault → S.faults source.new ≡ S.faults source.old }
    ensures clock { ReadsClock result (clock_of C.coming C.faults clock.old) (clock_of C.coming C.faults clock.new) }
{
    match read_request(source, &mut inbox.requests) {
        RequestRead::Whole => {}
        RequestRead::Refused { why, is_head } => return refusal_now(why, is_head, clock),
        RequestRead::Clean => return WishRead::Clean,
        RequestRead::Cut => return WishRead::Cut,
        RequestRead::ReadFault => return WishRead::ReadFault,
        RequestRead::OutOfMemory { is_head } => return WishRead::OutOfMemory { is_head, at: None },
    }
    wish_now(alloc, &inbox.routes, &inbox.requests, clock)
}

/// Returns the refusal, at the moment that the clock gives; `ClockFault` where it fails.
fn refusal_now<C: Clock>(why: Refusal, is_head: bool, clock: &mut C) -> WishRead
    ensures refusal { IsRefusedNow result why is_head }
    ensures bounded { IsBoundedRead result }
    ensures read { result ≢ WishRead.ReadFault }
    ensures clock { ReadsClock result (clock_of C.coming C.faults clock.old) (clock_of C.coming C.faults clock.new) }
{
    match clock.now() {
        ClockStep::Now(at) => WishRead::Malformed { why, is_head, at },
        ClockStep::Failed => WishRead::ClockFault,
    }
}

/// Returns the wish of the request that the inbox lends, at the moment that the clock gives; `ClockFault` where it
/// fails.
fn wish_now<C: Clock>(alloc: Global, routes: &Routes, requests: &Inbox, clock: &mut C) -> WishRead
    requires { IsSome requests.now.request }
    ensures wish { IsWishedNow result requests.now.request }
    ensures bounded { IsBoundedRead result }
    ensures read { result ≢ WishRead.ReadFault }
    ensures clock { ReadsClock result (clock_of C.coming C.faults clock.old) (clock_of C.coming C.faults clock.new) }
{
    match clock.now() {
        ClockStep::Now(at) => wish_at(alloc, routes, requests, at),
        ClockStep::Failed => WishRead::ClockFault,
    }
}

/// Returns the wish of the request that the inbox lends, at this moment.
fn wish_at(alloc: Global, routes: &Routes, requests: &Inbox, at: Moment) -> WishRead
    requires there { IsSome requests.now.request }
    requires moment { IsMoment at }
    ensures wish { IsWishedAt result at requests.now.request }
    ensures bounded { IsBoundedRead result }
    ensures read { result ≢ WishRead.ReadFault }
{
    let Request { head, body } = requests.request();
    match wish_of(alloc, routes, &head, body, at) {
        Ok(wish) => WishRead::Wish(wish),
        Err(_) => WishRead::OutOfMemory {
            is_head: head.is_head(),
            at: Some(at),
        },
    }
}
