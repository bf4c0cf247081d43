// SPDX-License-Identifier: Apache-2.0 OR MIT
//! The loop over the requests of one connection.
ghost use Rattle.std.specs.Prelude.{◌≡◌, ◌≤◌, ◌<◌, ◌+◌, ◌-◌, ◌^◌, ◌++◌, [], List, ℕ, IfOk, Some, vec_capacity};
ghost use Rattle.cr_ports.specs.Count.{Rises};
ghost use Rattle.cr_wire.specs.Wishes.{closes};
ghost use Rattle.cr_session.specs.Tries.{tries_of};
ghost use Rattle.cr_session.specs.Passing.{StaysPass};
ghost use Rattle.cr_session.specs.Answering.{desk_of};
ghost use Rattle.cr_session.specs.Serving.{ConnectionInHistory, NotesNoMemory, WritesNote};
ghost use Rattle.cr_session.specs.Serving.{WritesRefusal, OneRound, WholeInHistory, world_of};
ghost use Rattle.cr_session.specs.Turning.{IsBoundedWish, Sends, ServesRequest};
ghost use Rattle.cr_ports.specs.Writing.{outlet_of};

use crate::reading::{RoutedInbox, WishRead, read_wish};
use crate::server::Server;
use crate::turn::{TurnResult, block_of, in_turn, print_turn};
use cr_base::Moment;
use cr_book::Book;
use cr_http::Refusal;
use cr_lock::Pass;
use cr_ports::{Clock, ClockStep, Keeper, Sink, Source, write_all, write_answer};
use cr_print::{ANSWER_ROOM, Date, Refused, Sending, no_memory_text, print_refusal};
use cr_wire::Wish;
use std::alloc::{AllocError, Global};
use std::sync::Wait;

/// Why a connection was closed before its stream ended.
#[derive(Clone, Copy, PartialEq, Eq)]
pub enum Why {
    /// The request asked for it, or was the last that may come.
    Asked,
    /// What stood there was no request.
    Refused(Refusal),
}

/// How a connection ended.
#[derive(Clone, Copy, PartialEq, Eq)]
pub enum Ending {
    /// The stream ended between requests.
    Clean,
    /// The stream ended inside a request.
    Cut,
    /// The server closed it.
    Closed(Why),
    /// A read failed.
    ReadFault,
    /// A write failed.
    WriteFault,
    /// The clock failed to give the moment of an answer.
    ClockFault,
    /// Out of memory.
    OutOfMemory,
}

/// What became of one request.
#[derive(Clone, Copy, PartialEq, Eq)]
pub enum RequestOutcome {
    /// It was answered, and the connection goes on.
    Goes,
    /// It was answered, and the connection closes.
    Closes,
    /// It was judged, and its answer's write failed.
    WriteFault,
    /// Out of memory; nothing was added.
    OutOfMemory,
}

/// What a connection works with from its first request to its last.
#[derive(Drop)]
struct Workspace {
    /// What was read and not yet used.
    inbox: RoutedInbox,
    /// Room for an answer.
    reply: Vec<u8>,
    /// The date of the last answer, which serves again within its second.
    date: Date,
    /// The number of the request that comes next, from 0.
    number: usize,
}

impl Workspace {
    /// Returns one without a byte in its inbox, ahead of the first request; an error only for lack of memory.
    fn new(alloc: Global) -> Result<Workspace, AllocError>
        ensures { IfOk result
            (λ space. (space.inbox ≡ []) × (512 ≤ vec_capacity space.reply) × (space.number ≡ 0)) }
    {
        Ok(Workspace {
            inbox: RoutedInbox::new(alloc)?,
            reply: Vec::with_capacity(alloc, ANSWER_ROOM)?,
            date: Date::of(Moment::epoch()),
            number: 0,
        })
    }

    /// Returns how an answer of this moment is sent. Its date is the last answer's, where that is of the same second,
    /// and else is written anew.
    fn sending(&mut self, is_head: bool, closes: bool, at: Moment) -> Sending
        ensures sending { result ≡ record { is_head = is_head; closes = closes; date = at } }
        ensures kept { (self.new.inbox ≡ self.old.inbox) × (self.new.reply ≡ self.old.reply)
            × (self.new.number ≡ self.old.number) }
    {
        let last = self.date;
        let date = last.renewed(at);
        self.date = date;
        Sending {
            is_head,
            closes,
            date,
        }
    }
}

/// The number of the last request that a connection may have, from 0.
const LAST_REQUEST: usize = 1_048_575;

/// Returns whether the connection closes behind this request.
fn closes(wish: &Wish, number: usize) -> bool
    ensures { result ≡ closes number wish.now }
{
    wish.asks_close || number == LAST_REQUEST
}

/// Judges the next request in one turn, and writes its answer, in room that was made when the connection began, with
/// the date of the wish's moment.
fn serve_request<R: Wait, K: Keeper, O: Sink>(
    server: &Server<'_, R, K>,
    pass: &mut Pass<Book<K>>,
    sink: &mut O,
    space: &mut Workspace,
    wish: Wish,
) -> RequestOutcome
    requires own { pass.old.lock ≡ server.now.lock.lock }
    requires few { pass.old.turns < 2 ^ 40 }
    requires bounded { IsBoundedWish wish }
    requires room { 512 ≤ vec_capacity space.old.reply }
    ensures serves { let tries = tries_of K.Keeper in
        ServesRequest tries result space.old.number wish pass.old pass.new (outlet_of O.taken O.faults sink.old)
        (outlet_of O.taken O.faults sink.new) }
    ensures pass { StaysPass 1 pass.old pass.new }
    ensures inbox { space.new.inbox ≡ space.old.inbox }
    ensures room { 512 ≤ vec_capacity space.new.reply }
    ensures number { space.new.number ≡ space.old.number }
{
    let close = closes(&wish, space.number);
    let sending = space.sending(wish.is_head, close, wish.at);
    space.reply.clear();
    let turn = in_turn(server, pass, wish);
    if let TurnResult::OutOfMemory = turn {
        return RequestOutcome::OutOfMemory;
    }
    let block = block_of(&turn, &sending);
    match print_turn(&mut space.reply, &turn, sending) {
        Ok(()) => send(sink, &space.reply, block, close),
        Err(_) => RequestOutcome::OutOfMemory,
    }
}

/// Writes an answer, which begins here: what was printed of it, and what stands behind that, which isn't copied.
fn send<O: Sink>(sink: &mut O, front: &[u8], block: &[u8], close: bool) -> RequestOutcome
    ensures { Sends result close (front.now ++ block.now) (outlet_of O.taken O.faults sink.old)
        (outlet_of O.taken O.faults sink.new) }
{
    match write_answer(sink, front) {
        Err(_) => return RequestOutcome::WriteFault,
        Ok(()) => {}
    }
    match write_all(sink, block) {
        Err(_) => RequestOutcome::WriteFault,
        Ok(()) if close => RequestOutcome::Closes,
        Ok(()) => RequestOutcome::Goes,
    }
}

/// Writes the answer to what is no request, in room that was made when the connection began, with the date of this
/// moment.
fn refuse<O: Sink>(
    sink: &mut O,
    space: &mut Workspace,
    why: Refusal,
    is_head: bool,
    at: Moment,
) -> Ending
    requires { 512 ≤ vec_capacity space.old.reply }
    ensures refuses { WritesRefusal result why is_head at (outlet_of O.taken O.faults sink.old)
        (outlet_of O.taken O.faults sink.new) }
    ensures room { 512 ≤ vec_capacity space.new.reply }
    ensures number { space.new.number ≡ space.old.number }
{
    let sending = space.sending(is_head, true, at);
    space.reply.clear();
    print_refusal(&mut space.reply, Refused::Closing(why), sending);
    match write_answer(sink, &space.reply) {
        Ok(()) => Ending::Closed(Why::Refused(why)),
        Err(_) => Ending::WriteFault,
    }
}

/// Writes that memory ran out, as far as the sink takes it, and tells that the connection ended so. Takes no memory.
///
/// The note's date is of the moment that the clock gave for the request, if it gave one. Else the clock is asked, once,
/// and where it fails nothing is written.
pub fn note_no_memory<O: Sink, C: Clock>(
    sink: &mut O,
    clock: &mut C,
    is_head: bool,
    at: Option<Moment>,
) -> Ending
    ensures notes { let desk = desk_of O.taken O.faults C.coming C.faults in
        NotesNoMemory at is_head (desk sink.old clock.old) (desk sink.new clock.new) }
    ensures ending { result ≡ Ending.OutOfMemory }
{
    match at {
        Some(at) => write_note(sink, is_head, at),
        None => match clock.now() {
            ClockStep::Now(at) => write_note(sink, is_head, at),
            ClockStep::Failed => {}
        },
    }
    Ending::OutOfMemory
}

/// Writes the note of missing memory with the date of this moment, as far as the sink takes it.
fn write_note<O: Sink>(sink: &mut O, is_head: bool, at: Moment)
    ensures { WritesNote is_head at (outlet_of O.taken O.faults sink.old) (outlet_of O.taken O.faults sink.new) }
{
    let _ = write_answer(sink, no_memory_text(is_head, Date::of(at)).as_slice());
}

/// Reads the next request and serves it; an ending where it is the last.
fn serve_next_request<R: Wait, K: Keeper, S: Source, O: Sink, C: Clock>(
    server: &Server<'_, R, K>,
    pass: &mut Pass<Book<K>>,
    source: &mut S,
    sink: &mut O,
    clock: &mut C,
    space: &mut Workspace,
) -> Option<Ending>
    requires own { pass.old.lock ≡ server.now.lock.lock }
    requires few { pass.old.turns < 2 ^ 40 }
    requires room { 512 ≤ vec_capacity space.old.reply }
    ensures round { let world = world_of S.faults O.taken O.faults C.coming C.faults in
        let tries = tries_of K.Keeper in
        OneRound tries S.left S.read_gives result space.old.number space.old.inbox space.new.inbox
        (world pass.old source.old sink.old clock.old) (world pass.new source.new sink.new clock.new) }
    ensures pass { StaysPass 1 pass.old pass.new }
    ensures room { 512 ≤ vec_capacity space.new.reply }
    ensures number { space.new.number ≡ space.old.number }
{
    match read_wish(server.alloc, source, &mut space.inbox, clock) {
        WishRead::Wish(wish) => {
            let is_head = wish.is_head;
            let at = wish.at;
            match serve_request(server, pass, sink, space, wish) {
                RequestOutcome::Goes => None,
                RequestOutcome::Closes => Some(Ending::Closed(Why::Asked)),
                RequestOutcome::WriteFault => Some(Ending::WriteFault),
                RequestOutcome::OutOfMemory => {
                    Some(note_no_memory(sink, clock, is_head, Some(at)))
                }
            }
        }
        WishRead::Malformed { why, is_head, at } => Some(refuse(sink, space, why, is_head, at)),
        WishRead::Clean => Some(Ending::Clean),
        WishRead::Cut => Some(Ending::Cut),
        WishRead::ReadFault => Some(Ending::ReadFault),
        WishRead::ClockFault => Some(Ending::ClockFault),
        WishRead::OutOfMemory { is_head, at } => Some(note_no_memory(sink, clock, is_head, at)),
    }
}

/// Serves a connection to its end: reads requests from the source, judges each in one turn of the lock, and
/// writes each answer to the sink before the next request is read. Each answer is begun once, before its first byte,
/// a refusal and the note of missing memory among them. Reading and writing are outside of the turns, in which other
/// passes take theirs.
///
/// Each answer is the one that is told on the history at its turn's place, which holds all that the pass had seen;
/// what an accepted command adds stands there once. 503 comes only at a turn that is marked, for an accepted command
/// or bulk, which then adds nothing. The pass takes one turn a request, at most 1,048,576, and no other.
///
/// For each answer the clock is asked once, outside of the turns, when its request is whole or refused: that moment is
/// the answer's date, and what an accepted command adds is of it. Where no request is answered, and for a connection
/// that ends between requests or inside one, the clock isn't asked. It may go back: no moment is compared with another
/// answer's.
///
/// Each ending's cause is in the contract: `Clean`, `Cut` and `Closed` exactly by what the bytes spell,
/// `ReadFault`, `WriteFault` and `ClockFault` only where that count of faults rose, or stands at its last value. With
/// every other ending the counts stay, but where memory ran out: the clock's may rise as it fails to give the moment of
/// the note, and the sink's as the note's write breaks off. Behind an answer that couldn't be written no request is
/// judged, and behind one that closes no byte is read. A request for whose answer the clock failed isn't judged, and
/// nothing is written for it.
///
/// `OutOfMemory` stands for a lack of memory; no clause says when memory lacks. The room for answers is made at the
/// beginning: where it can't be had, the connection ends before anything is read. Later, memory may run out for more
/// bytes, for reading a body, a search or a plan, for an accepted command or bulk, and for a query that isn't refused,
/// or refused since there is no plan, and for nothing else.
pub fn serve_connection<R: Wait, K: Keeper, S: Source, O: Sink, C: Clock>(
    server: &Server<'_, R, K>,
    pass: &mut Pass<Book<K>>,
    source: &mut S,
    sink: &mut O,
    clock: &mut C,
) -> Ending
    requires own { pass.old.lock ≡ server.now.lock.lock }
    requires few { pass.old.turns ≤ 2 ^ 40 - 2 ^ 20 }
    ensures connection { let world = world_of S.faults O.taken O.faults C.coming C.faults in
        let tries = tries_of K.Keeper in
        ConnectionInHistory tries S.left S.read_gives result 0 [] (world pass.old source.old sink.old clock.old)
        (world pass.new source.new sink.new clock.new) }

    // What came of the whole text that the source had left.
    ensures whole { let world = world_of S.faults O.taken O.faults C.coming C.faults in
        let tries = tries_of K.Keeper in
        (b : List ℕ) → S.left source.old ≡ Some b
        → WholeInHistory tries S.left result b (world pass.old source.old sink.old clock.old)
        (world pass.new source.new sink.new clock.new) }

    // The pass is of the same lock and has its share, and took at most 2^20 turns.
    ensures own { (pass.new.lock ≡ pass.old.lock) × (pass.new.share ≡ pass.old.share) }
    ensures turns { pass.new.turns ≤ pass.old.turns + 2 ^ 20 }
    ensures read_fault { result ≡ Ending.ReadFault → Rises (S.faults source.old) (S.faults source.new) }
    ensures write_fault { result ≡ Ending.WriteFault → Rises (O.faults sink.old) (O.faults sink.new) }
    ensures clock_fault { result ≡ Ending.ClockFault → Rises (C.faults clock.old) (C.faults clock.new) }
{
    let Ok(mut space) = Workspace::new(server.alloc) else {
        return note_no_memory(sink, clock, false, None);
    };
    'serving: loop {
        if let Some(ending) = serve_next_request(server, pass, source, sink, clock, &mut space) {
            return ending;
        }
        space.number += 1;
    }
}
