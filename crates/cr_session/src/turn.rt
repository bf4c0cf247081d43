// SPDX-License-Identifier: Apache-2.0 OR MIT
//! One turn: a wish is judged or answered by the book.
ghost use Rattle.std.specs.Prelude.{◌≡◌, ◌≤◌, ◌<◌, ◌^◌, [], Some, None, OnOk, OnErr, vec_capacity};
ghost use mathlib.Core.List.{IsPrefix};
ghost use Rattle.cr_lock.specs.Passes.{IsAsLeft, after_turn};
ghost use Rattle.cr_book.specs.Seen.{SeenBook};
ghost use Rattle.cr_policy.specs.Judge.{decide, decide_bulk, needs_login};
ghost use Rattle.cr_policy.specs.Legal.{IsGiven, IsBulkGiven, MayAsk};
ghost use Rattle.cr_policy.specs.View.{view};
ghost use Rattle.cr_base.specs.Calls.{call_of, bulk_by, maker_of};
ghost use Rattle.cr_base.specs.Retries.{drawn_by};
ghost use Rattle.cr_json.specs.Put.{HasRoom};
ghost use Rattle.cr_wire.specs.Caller.{caller};
ghost use Rattle.cr_session.specs.Replay.{ledger_of};
ghost use Rattle.cr_session.specs.Told.{as_bulk, drawn, is_unauthorized};
ghost use Rattle.cr_session.specs.Tries.{tries_of};
ghost use Rattle.cr_session.specs.Turning.{IsBoundedWish, Turns, TurnTries, IsBulkCaller, ChangesBook, AnswersQuery};
ghost use Rattle.cr_session.specs.Turning.{refused_for, turn_block, turn_front, MayWantToPrint};

use crate::server::Server;
use cr_base::{Broken, BulkRows, Command, Moment, Query, Receipt, Reply, RetryKey, UserNo};
use cr_book::{AnswerError, Book, BookError};
use cr_lock::Pass;
use cr_ports::Keeper;
use cr_print::{Refused, Sending, block, print_receipt, print_refusal, print_reply};
use cr_wire::{What, Wish};
use std::alloc::AllocError;
use std::sync::Wait;

/// What a turn came to.
#[derive(Drop)]
pub(crate) enum TurnResult {
    /// The request is refused.
    Refused(Refused),
    /// The command or the bulk was accepted, kept and applied; or it repeats one that was, and nothing changed.
    Accepted(Receipt),
    /// The query's answer.
    Answered(Reply),
    /// The command or the bulk was accepted, but the keeper failed to keep it: nothing changed.
    Lost,
    /// Out of memory: nothing changed.
    OutOfMemory,
}

/// Judges or answers a wish in one turn of the lock, on a history that begins with what the pass had seen; where it has
/// the whole share, over the book as it left it.
#[tactic(auto, using(crate::proofs::TurnLaws::turns_grow))]
pub(crate) fn in_turn<R: Wait, K: Keeper>(
    server: &Server<'_, R, K>,
    pass: &mut Pass<Book<K>>,
    wish: Wish,
) -> TurnResult
    requires own { pass.old.lock ≡ server.now.lock.lock }
    requires few { pass.old.turns < 2 ^ 40 }
    requires bounded { IsBoundedWish wish }
    ensures { let tries = tries_of K.Keeper in
        (b b' : SeenBook K)
        × IsPrefix pass.old.seen b.log
        × IsAsLeft pass.old b
        × Turns result wish (ledger_of K.faults b) (ledger_of K.faults b')
        × TurnTries tries result b.log (drawn b.log wish) b.keeper b'.keeper
        × (pass.new ≡ after_turn pass.old b b' b.log b'.log (K.faults b.keeper) (K.faults b'.keeper)) }
{
    let lock = &server.lock;
    lock.turn(server.rt, pass, |book: &mut Book<K>| take_turn(book, wish))
}

/// Judges or answers a wish. Takes no memory on a refusal, nor for a command or a bulk that repeats one of its
/// caller's: `TurnResult::OutOfMemory` comes only for a command or a bulk that is judged and accepted and for a query
/// that isn't refused, or refused since there is no plan, and then nothing changed. Who calls is asked first, by one
/// look-up by name; all unauthenticated callers are refused alike if authentication is required.
pub(crate) fn take_turn<K: Keeper>(book: &mut Book<K>, wish: Wish) -> TurnResult
    requires { IsBoundedWish wish }
    ensures turns { Turns result wish (ledger_of K.faults book.old) (ledger_of K.faults book.new) }
    ensures tried { let tries = tries_of K.Keeper in
        TurnTries tries result book.old.log (drawn book.old.log wish) book.old.keeper book.new.keeper }
    ensures opened { book.new.opened ≡ book.old.opened }
{
    let caller = caller_of(book, &wish);
    if is_unauthorized(book, &caller, &wish.what) {
        drop(wish);
        return TurnResult::Refused(Refused::Unauthorized);
    }
    let at = wish.at;
    let what = wish.what;
    drop(wish.credentials);
    match what {
        What::NoRoute => TurnResult::Refused(Refused::NoRoute),
        What::WrongMethod(resource) => TurnResult::Refused(Refused::WrongMethod(resource)),
        What::BadNumber(_) => TurnResult::Refused(Refused::BadNumber),
        What::BadBody(_) => TurnResult::Refused(Refused::BadBody),
        What::BadQuery { offset, .. } => TurnResult::Refused(Refused::BadQuery { offset }),
        What::Command { key, command } => judge(book, &caller, command, at, key),
        What::Bulk { key, rows } => judge_bulk(book, &caller, rows, at, key),
        What::Query(query) => answer(book, &caller, &query),
    }
}

/// Returns whether nobody wishes what wants a login; the book tells of the page and the content of a paper whether it
/// is published.
fn is_unauthorized<K: Keeper>(book: &Book<K>, caller: &Option<UserNo>, what: &What) -> bool
    ensures { result ≡ is_unauthorized caller.now (view caller.now book.now.log) what.now }
{
    match (caller, what) {
        (Some(_), _) => false,
        (None, What::Query(query)) => book.needs_login(query),
        (None, _) => what.wants_login(),
    }
}

/// Returns who gives the wish: nobody, where its request wants no login.
fn caller_of<K: Keeper>(book: &Book<K>, wish: &Wish) -> Option<UserNo>
    ensures { result ≡ caller book.now.log wish.now }
{
    if !wish.what.wants_login() {
        return None;
    }
    let credentials = wish.credentials.as_ref()?;
    book.caller(&credentials.name, &credentials.digest)
}

/// Judges a command of this moment, with this key, if any: one that repeats a command of its caller's is answered as
/// that.
fn judge<K: Keeper>(
    book: &mut Book<K>,
    caller: &Option<UserNo>,
    command: Command,
    at: Moment,
    key: Option<RetryKey>,
) -> TurnResult
    requires { IsGiven book.old.log (call_of caller.now at key command) }
    ensures changes { ChangesBook K.faults result
        (as_bulk (decide (view caller.now book.old.log) (call_of caller.now at key command))) book.old book.new }
    ensures tried { let tries = tries_of K.Keeper in
        TurnTries tries result book.old.log
        (drawn_by (decide (view caller.now book.old.log) (call_of caller.now at key command)))
        book.old.keeper book.new.keeper }
    ensures opened { book.new.opened ≡ book.old.opened }
{
    match book.command(caller, command, at, key) {
        Ok(receipt) => TurnResult::Accepted(receipt),
        Err(BookError::Broken(rule)) => TurnResult::Refused(Refused::Rule(rule)),
        Err(BookError::KeeperFault) => TurnResult::Lost,
        Err(BookError::OutOfMemory) => TurnResult::OutOfMemory,
    }
}

/// Judges a bulk of this moment, with this key, if any, of which a registered user is the caller.
fn judge_bulk<K: Keeper>(
    book: &mut Book<K>,
    caller: &Option<UserNo>,
    rows: BulkRows,
    at: Moment,
    key: Option<RetryKey>,
) -> TurnResult
    requires { IsBulkCaller book.old.log caller.now at key rows }
    ensures changes { ChangesBook K.faults result
        (decide_bulk (view caller.now book.old.log) (bulk_by (maker_of caller.now) at key rows)) book.old book.new }
    ensures tried { let tries = tries_of K.Keeper in
        TurnTries tries result book.old.log
        (drawn_by (decide_bulk (view caller.now book.old.log) (bulk_by (maker_of caller.now) at key rows)))
        book.old.keeper book.new.keeper }
    ensures opened { book.new.opened ≡ book.old.opened }
{
    match caller {
        Some(user) => judge_rows(book, *user, rows, at, key),
        None => unreachable!(),
    }
}

/// Judges a bulk of this user and this moment, with this key, if any: one that repeats a command or a bulk of hers is
/// answered as that.
fn judge_rows<K: Keeper>(
    book: &mut Book<K>,
    user: UserNo,
    rows: BulkRows,
    at: Moment,
    key: Option<RetryKey>,
) -> TurnResult
    requires { IsBulkGiven book.old.log (bulk_by user at key rows) }
    ensures changes { ChangesBook K.faults result
        (decide_bulk (view (Some user) book.old.log) (bulk_by user at key rows)) book.old book.new }
    ensures tried { let tries = tries_of K.Keeper in
        TurnTries tries result book.old.log
        (drawn_by (decide_bulk (view (Some user) book.old.log) (bulk_by user at key rows)))
        book.old.keeper book.new.keeper }
    ensures opened { book.new.opened ≡ book.old.opened }
{
    match book.bulk(user, rows, at, key) {
        Ok(count_told) => TurnResult::Accepted(count_told),
        Err(BookError::Broken(broken)) => TurnResult::Refused(refused_for(broken)),
        Err(BookError::KeeperFault) => TurnResult::Lost,
        Err(BookError::OutOfMemory) => TurnResult::OutOfMemory,
    }
}

/// Returns how what breaks a rule is refused.
fn refused_for(broken: Broken) -> Refused
    ensures { result ≡ refused_for broken }
{
    match broken {
        Broken::Rule(rule) => Refused::Rule(rule),
        Broken::Row { row, rule } => Refused::Row { row, rule },
    }
}

/// Answers a query.
fn answer<K: Keeper>(book: &Book<K>, caller: &Option<UserNo>, query: &Query) -> TurnResult
    requires { MayAsk book.now.log (needs_login (view None book.now.log) query.now) caller.now }
    ensures { AnswersQuery result caller.now query.now book.now.log }
{
    match book.answer(caller, query) {
        Ok(reply) => TurnResult::Answered(reply),
        Err(AnswerError::Rule(rule)) => TurnResult::Answered(Reply::Refused(rule)),
        Err(AnswerError::OutOfMemory) => TurnResult::OutOfMemory,
    }
}

/// Appends the answer to what a turn came to, but for what `block_of` lends: only a query's answer may want more
/// memory than the room that was made before, and none of those that are bounded. The room never gets smaller.
pub(crate) fn print_turn(
    reply: &mut Vec<u8>,
    turn: &TurnResult,
    sending: Sending,
) -> Result<(), AllocError>
    requires empty { reply.old.items ≡ [] }
    requires room { HasRoom reply.old 512 }
    ensures ok { OnOk result (reply.new.items ≡ turn_front turn.now sending) }
    ensures err { OnErr result (MayWantToPrint turn.now) }
    ensures kept { vec_capacity reply.old ≤ vec_capacity reply.new }
{
    match turn {
        TurnResult::Refused(refused) => print_refusal(reply, *refused, sending),
        TurnResult::Accepted(receipt) => print_receipt(reply, receipt, sending),
        TurnResult::Answered(answer) => return print_reply(reply, answer, sending),
        TurnResult::Lost => print_refusal(reply, Refused::KeeperFault, sending),
        TurnResult::OutOfMemory => {}
    }
    Ok(())
}

/// Returns what is written behind that, lent from where it is kept: a paper's content.
pub(crate) fn block_of<'a>(turn: &'a TurnResult, sending: &Sending) -> &'a [u8]
    ensures { result.now ≡ turn_block turn.now sending.now }
{
    match turn {
        TurnResult::Answered(reply) => block(reply, sending),
        _ => &[],
    }
}
