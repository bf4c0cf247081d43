// SPDX-License-Identifier: Apache-2.0 OR MIT
//! The book: one history, its tables and its keeper.
ghost use Rattle.std.specs.Prelude.{◌≡◌, ◌≢◌, ◌≤◌, ◌++◌, ℕ, List, length, IsTrue};
ghost use Rattle.std.specs.Prelude.{IfOk, IfErr, IsOk, IsSome, OnOk, OnErr, IfSome, Ok, Err, None, Some};
ghost use Rattle.cr_base.specs.declared.bulk.Broken.{Broken};
ghost use Rattle.cr_base.specs.declared.reply.Receipt.{Receipt};
ghost use Rattle.cr_base.specs.declared.reply.Rule.{Rule};
ghost use Rattle.cr_base.specs.Calls.{call_of, bulk_by};
ghost use Rattle.cr_base.specs.Drawn.{Drawn};
ghost use Rattle.cr_base.specs.HistoryFacts.{number_of, caller_of};
ghost use Rattle.cr_base.specs.Retries.{Repeats, Judged, drawn_by};
ghost use Rattle.cr_base.specs.Tables.{tables_of, FitInTurn};
ghost use Rattle.cr_log.specs.Given.{MayFollow};
ghost use Rattle.cr_policy.specs.Judge.{decide, decide_bulk, judge, judge_bulk, answer, needs_login};
ghost use Rattle.cr_policy.specs.View.{view};
ghost use Rattle.cr_base.specs.declared.command.Query.TheVariants as queries;
ghost use Rattle.cr_policy.specs.Legal.{Legal, IsAllowed, IsBulkAllowed, IsBulkGiven, IsGiven, MayAsk};
ghost use Rattle.cr_base.specs.Rows.{rows_of};
ghost use Rattle.cr_ports.specs.Count.{Rises};
ghost use Rattle.cr_ports.specs.Stopping.{OpensTo};
ghost use Rattle.cr_ports.specs.Writing.{outlet_of};
ghost use Rattle.cr_sights.specs.Lines.{lines_text};
ghost use Rattle.cr_sights.specs.Walks.{WritesView};
ghost use Rattle.cr_view.specs.Replies.{AnswersAsDue, AnswersOrPlans};
ghost use Rattle.cr_book.specs.Kinds.{count_of_kind};
ghost use Rattle.cr_book.specs.Opening.{Opens, IsCounted};
ghost use Rattle.cr_book.specs.Sound.{IsKept, Accepts, AcceptsBulk, Acts};
ghost use Rattle.cr_book.specs.Stopping.{Adding, AddsOne, CountsTried, KeepsTold};

use crate::earlier::{Earlier, look_up};
use crate::judging::judge_bulk;
use crate::kinds::count_of_kind;
use crate::opening::{OpenError, read_all};
use crate::rows::{copies_of, rows_of};
use cr_base::{
    Broken, BulkRows, Call, Command, Digest, EntryKind, Moment, PerPaper, PlanLoad, Query, Receipt,
    Reply, Report, RetryKey, Rule, Search, Short, Stamp, Stamped, UserNo,
};
use cr_judge::{judge, resolve_call};
use cr_lock::Stands;
use cr_log::Log;
use cr_ports::{Keeper, KeeperError, Sink};
use cr_sights::{ViewError, view_len, write_view};
use cr_view::{AnswerError, Live};
use std::alloc::{AllocError, Global};
use std::marker::Model;
use std::snapshot::Snapshot;

/// A history, the tables that it comes to, and the keeper of its rows.
///
/// Contracts see the history, the keeper, and the keeper as it was when the book was opened. Of every book it is true
/// that the history is legal, that the tables are the history's, and that the keeper's rows, where it tells them, are
/// the history's; and, where it tells what a stop of the machine may leave, that this opens to whole groups, and that
/// what it tried in vain since the opening was counted. The keeper is of the kind that it was when the book was opened.
pub struct Book<K: Keeper> {
    alloc: Global,
    log: Log,
    live: Live,
    keeper: K,
    opened: Snapshot<K>,
}

impl<K: Keeper> Model for Book<K> {
    ghost use Rattle.cr_book.specs.Seen.{SeenBook};

    ghost Value = { SeenBook K };

    ghost view = { λ b. record { log = b.log.entries; keeper = b.keeper; opened = b.opened.value } };

    ghost use Rattle.cr_book.specs.Sound.{IsSound};
    ghost use Rattle.cr_book.specs.Stopping.{CountsTried, StopsWell};
    ghost use Rattle.std.specs.Prelude.{◌≡◌, IsTrue};

    ghost invariant = { λ b. IsSound K.rows b.log.entries b.live.tables b.keeper
        × (IsTrue (K.tells_stops b.keeper) → StopsWell K.Keeper b.opened.value b.keeper b.log.entries)
        × (K.kind b.keeper ≡ K.kind b.opened.value)
        × (IsTrue (K.tells_stops b.keeper) → CountsTried K.Keeper b.opened.value b.keeper) };
}

/// Why a command or a bulk was not taken. `B` tells what is broken: a `Rule` of a command, a `Broken` of a bulk.
#[derive(Clone, Copy, PartialEq, Eq)]
pub enum BookError<B> {
    /// This is broken.
    Broken(B),
    /// The keeper failed to keep what was to be added.
    KeeperFault,
    /// Out of memory.
    OutOfMemory,
}

impl<K: Keeper> Book<K> {
    /// Opens the book of the legal history that the keeper's rows spell. No row changes.
    ///
    /// # Errors
    ///
    /// Each hands the keeper back. `BadStore`: no legal history has these rows; it tells the first that is no entry's
    /// or doesn't continue a legal history, or else the last one, if another of its command or its bulk should follow.
    /// `KeeperFault`: the keeper's count of faults rose, or is at its last value; with every other outcome it is as it
    /// was. `OutOfMemory`: for lack of memory only.
    ///
    /// # Cost
    ///
    /// Grows with the rows only. Each is read and decoded once, in order. The command that a group's first entry tells
    /// is judged once, by the same judgement and on the history before it; a group whose command had a number costs one
    /// look-up more. After the first entry a co-author costs one read by number and a walk over those told so far, at
    /// most 18, and a row of a bulk one judgement, which walks over the entries of the rows before it, at most 511. A
    /// group's entries are held until it is whole.
    pub fn open(alloc: Global, mut keeper: K) -> Result<Book<K>, (OpenError, K)>
        ensures exact { IfSome (K.rows keeper) (λ rows. Opens rows result) }
        ensures legal { IfOk result (λ book. Legal book.log) }
        ensures same { IfOk result (λ book. K.rows book.keeper ≡ K.rows keeper) }
        ensures steady { IfOk result (λ book. K.faults book.keeper ≡ K.faults keeper) }
        ensures opened { IfOk result (λ book. book.opened ≡ keeper) }
        ensures still { IsTrue (K.tells_stops keeper) → IfOk result (λ book. book.keeper ≡ keeper) }

        // What a stop may leave before anything is added, where the keeper tells it.
        ensures between { IsTrue (K.tells_stops keeper) → IfOk result (λ book. (image : List ℕ)
            → K.left_since book.keeper (K.moment book.keeper) image
            → OpensTo K.opens (rows_of book.log) (K.tried book.keeper) image) }
        ensures given_back { IfErr result (λ e. K.rows e.1 ≡ K.rows keeper) }
        ensures still_back { IsTrue (K.tells_stops keeper) → IfErr result (λ e. e.1 ≡ keeper) }
        ensures alike_back { IfErr result (λ e. K.kind e.1 ≡ K.kind keeper) }
        ensures cause { IfErr result (λ e. IsCounted {T = Unit {0}} (K.faults keeper) (K.faults e.1) (Err e.0)) }
    {
        let opened = Snapshot::of(&keeper);
        match read_all(alloc, &mut keeper) {
            Ok((log, live)) => Ok(Book {
                alloc,
                log,
                live,
                keeper,
                opened,
            }),
            Err(error) => Err((error, keeper)),
        }
    }

    /// Gives the keeper back, which keeps the rows of the history and is of the kind that was opened; takes no memory.
    ///
    /// Suppose that the keeper tells what a stop of the machine may leave, and had tried nothing in vain when the book
    /// was opened. Then what a stop since the opening might have left opens to the rows of a history that goes on from
    /// the one that was opened and is a beginning of the last one. The whole group of one more command or bulk may
    /// follow. Something was tried in vain since then only if the keeper's count of faults rose, or is at its last
    /// value.
    pub fn close(self) -> K
        ensures same { result ≡ self.keeper }
        ensures kept { IsKept K.rows result self.log }
        ensures alike { K.kind result ≡ K.kind self.opened }
        ensures stops { KeepsTold K.Keeper self.opened result
            self.log }
        ensures counted { IsTrue (K.tells_stops result) → CountsTried K.Keeper self.opened result }
        ensures legal { Legal self.log }
    {
        let Book {
            alloc: _,
            log: _,
            live: _,
            keeper,
            opened: _,
        } = self;
        keeper
    }

    /// Judges a command of this caller, given at this moment under this number, and if no rule is broken, keeps and
    /// applies what it adds. Each entry that it adds has the moment, the number and the mark.
    ///
    /// If the caller had a command of the same number accepted, this one isn't judged. If the marks are the same, it is
    /// a repeat, which is answered and changes nothing; else it breaks `Rule::NumberUsed`.
    ///
    /// The caller of a registration is nobody, and it has no number. The command is within the bounds on its parts.
    ///
    /// If the keeper tells what a stop of the machine may leave, a stop at a moment of the call leaves the rows that
    /// were there, or these and one whole group: the command's, or one that was tried since the last that was kept. If
    /// memory ran out, nothing was tried.
    ///
    /// # Errors
    ///
    /// With each the history and the keeper's rows stay as they were. `Broken`: the first broken rule, whatever memory
    /// there is; so is a repeat answered. The others come only for a command that is judged and accepted.
    /// `KeeperFault`: the keeper's count of faults rose, or is at its last value; with every other outcome it is as it
    /// was. `OutOfMemory`: for lack of memory only.
    ///
    /// # Cost
    ///
    /// One look-up for a number, however many there are; for a command that is judged, what `judge` of `cr_judge` does,
    /// with one look-up for each user named.
    pub fn command(
        &mut self,
        caller: &Option<UserNo>,
        command: Command,
        at: Moment,
        key: Option<RetryKey>,
    ) -> Result<Receipt, BookError<Rule>>
        requires { IsGiven self.old.log (call_of caller.now at key command) }

        ensures accepted { IfOk result
            (λ receipt. Accepts self.old.log self.new.log (call_of caller.now at key command) receipt) }

        // A repeat is answered, and nothing changes.
        ensures repeats { (receipt : Receipt)
            → decide (view caller.now self.old.log) (call_of caller.now at key command) ≡ Repeats receipt
            → result ≡ Ok receipt }
        ensures repeat_stays { (receipt : Receipt)
            → decide (view caller.now self.old.log) (call_of caller.now at key command) ≡ Repeats receipt
            → self.new ≡ self.old }

        // A rule is told exactly where that is what the command comes to, and then nothing changes.
        ensures rule { (rule : Rule)
            → decide (view caller.now self.old.log) (call_of caller.now at key command) ≡ Judged (Err rule)
            → result ≡ Err (BookError.Broken rule) }
        ensures only_rule { (rule : Rule) → result ≡ Err (BookError.Broken rule)
            → decide (view caller.now self.old.log) (call_of caller.now at key command) ≡ Judged (Err rule) }
        ensures rule_stays { (rule : Rule) → result ≡ Err (BookError.Broken rule) → self.new ≡ self.old }

        // The other errors come only where something is to be added.
        ensures memory { result ≡ Err BookError.OutOfMemory
            → IsSome (drawn_by (decide (view caller.now self.old.log) (call_of caller.now at key command))) }
        ensures lost { result ≡ Err BookError.KeeperFault
            → IsSome (drawn_by (decide (view caller.now self.old.log) (call_of caller.now at key command))) }

        ensures log_stays { OnErr result (self.new.log ≡ self.old.log) }
        ensures rows_stay { OnErr result (K.rows self.new.keeper ≡ K.rows self.old.keeper) }
        ensures fault { result ≡ Err BookError.KeeperFault
            → Rises (K.faults self.old.keeper) (K.faults self.new.keeper) }
        ensures steady { result ≢ Err BookError.KeeperFault → K.faults self.new.keeper ≡ K.faults self.old.keeper }
        ensures count { K.faults self.old.keeper ≤ K.faults self.new.keeper }
        ensures legal { Legal self.new.log }
        ensures opened { self.new.opened ≡ self.old.opened }
        ensures untried { IsTrue (K.tells_stops self.old.keeper) → result ≡ Err BookError.OutOfMemory
            → self.new.keeper ≡ self.old.keeper }

        // What a stop may leave while something is added.
        ensures stops { IsTrue (K.tells_stops self.old.keeper) → (drawn : Drawn)
            → drawn_by (decide (view caller.now self.old.log) (call_of caller.now at key command)) ≡ Some drawn
            → Adding K.Keeper result self.old.log drawn.group self.old.keeper self.new.keeper }
    {
        match look_up(&self.log, &self.live, caller, &key, false) {
            Earlier::Nothing => self.judge_command(Call {
                caller: *caller,
                at,
                key,
                command,
            }),
            Earlier::Same(receipt) => {
                drop(command);
                Ok(receipt)
            }
            Earlier::Other => {
                drop(command);
                Err(BookError::Broken(Rule::NumberUsed))
            }
        }
    }

    /// Judges a command whose number, if it has one, is new, and keeps and applies what it adds, as `command` says.
    fn judge_command(&mut self, call: Call) -> Result<Receipt, BookError<Rule>>
        requires { IsAllowed self.old.log call }
        ensures accepted { IfOk result
            (λ receipt. Acts (Judged (judge (view call.caller self.old.log) call)) self.old.log self.new.log receipt) }
        ensures rule { (rule : Rule) → judge (view call.caller self.old.log) call ≡ Err rule
            → result ≡ Err (BookError.Broken rule) }
        ensures only_rule { (rule : Rule) → result ≡ Err (BookError.Broken rule)
            → judge (view call.caller self.old.log) call ≡ Err rule }
        ensures rule_stays { (rule : Rule) → result ≡ Err (BookError.Broken rule) → self.new ≡ self.old }
        ensures memory { result ≡ Err BookError.OutOfMemory → IsOk (judge (view call.caller self.old.log) call) }
        ensures lost { result ≡ Err BookError.KeeperFault → IsOk (judge (view call.caller self.old.log) call) }
        ensures log_stays { OnErr result (self.new.log ≡ self.old.log) }
        ensures rows_stay { OnErr result (K.rows self.new.keeper ≡ K.rows self.old.keeper) }
        ensures fault { result ≡ Err BookError.KeeperFault
            → Rises (K.faults self.old.keeper) (K.faults self.new.keeper) }
        ensures steady { result ≢ Err BookError.KeeperFault → K.faults self.new.keeper ≡ K.faults self.old.keeper }
        ensures count { K.faults self.old.keeper ≤ K.faults self.new.keeper }
        ensures legal { Legal self.new.log }
        ensures opened { self.new.opened ≡ self.old.opened }
        ensures untried { IsTrue (K.tells_stops self.old.keeper) → result ≡ Err BookError.OutOfMemory
            → self.new.keeper ≡ self.old.keeper }
        ensures stops { IsTrue (K.tells_stops self.old.keeper) → (drawn : Drawn)
            → judge (view call.caller self.old.log) call ≡ Ok drawn
            → Adding K.Keeper result self.old.log drawn.group self.old.keeper self.new.keeper }
    {
        let effect = match judge(&self.live, resolve_call(&self.live, call)) {
            Ok(effect) => effect,
            Err(rule) => return Err(BookError::Broken(rule)),
        };
        let receipt = effect.receipt(&self.live);
        let Ok(group) = effect.group(self.alloc) else {
            return Err(BookError::OutOfMemory);
        };
        match self.keep(group) {
            Ok(()) => Ok(receipt),
            Err(error) => Err(error),
        }
    }

    /// Judges a bulk of this caller, a registered user, given at this moment under this number: each row after those
    /// before it. If no rule is broken, the entries of all rows are kept and applied, each with the moment, the number
    /// and the mark.
    ///
    /// The number is looked up as a command's. A repeat is answered the number of rows that were added; a number that
    /// was used otherwise breaks `Rule::NumberUsed` of the bulk as a whole.
    ///
    /// A stop of the machine at a moment of the call leaves what one at a command's does.
    ///
    /// # Errors
    ///
    /// With each the history and the keeper's rows stay as they were, so of a bulk with a broken row nothing is kept.
    /// `Broken`: a rule on the bulk as a whole, else its first broken row, whatever memory there is; so is a repeat
    /// answered. The others come only for a bulk that is judged and accepted. `KeeperFault`: the keeper's count of
    /// faults rose, or is at its last value; with every other outcome it is as it was. `OutOfMemory`: for lack of
    /// memory only.
    ///
    /// # Cost
    ///
    /// One look-up if it has a number. If it is judged, one look-up for each row that names a user, and for each row one
    /// judgement, which walks over the entries of the rows before it, at most 511. The keeper is asked once.
    pub fn bulk(
        &mut self,
        caller: UserNo,
        rows: BulkRows,
        at: Moment,
        key: Option<RetryKey>,
    ) -> Result<Receipt, BookError<Broken>>
        requires { IsBulkGiven self.old.log (bulk_by caller at key rows) }

        ensures accepted { IfOk result
            (λ receipt. AcceptsBulk self.old.log self.new.log (bulk_by caller at key rows) receipt) }

        // A repeat is answered, and nothing changes.
        ensures repeats { (receipt : Receipt)
            → decide_bulk (view (Some caller) self.old.log) (bulk_by caller at key rows) ≡ Repeats receipt
            → result ≡ Ok receipt }
        ensures repeat_stays { (receipt : Receipt)
            → decide_bulk (view (Some caller) self.old.log) (bulk_by caller at key rows) ≡ Repeats receipt
            → self.new ≡ self.old }

        // What is broken is told exactly where that is what the bulk comes to, and then nothing changes.
        ensures broken { (broken : Broken)
            → decide_bulk (view (Some caller) self.old.log) (bulk_by caller at key rows) ≡ Judged (Err broken)
            → result ≡ Err (BookError.Broken broken) }
        ensures only_broken { (broken : Broken) → result ≡ Err (BookError.Broken broken)
            → decide_bulk (view (Some caller) self.old.log) (bulk_by caller at key rows) ≡ Judged (Err broken) }
        ensures broken_stays { (broken : Broken) → result ≡ Err (BookError.Broken broken) → self.new ≡ self.old }

        // The other errors come only where something is to be added.
        ensures memory { result ≡ Err BookError.OutOfMemory
            → IsSome (drawn_by (decide_bulk (view (Some caller) self.old.log) (bulk_by caller at key rows))) }
        ensures lost { result ≡ Err BookError.KeeperFault
            → IsSome (drawn_by (decide_bulk (view (Some caller) self.old.log) (bulk_by caller at key rows))) }

        ensures log_stays { OnErr result (self.new.log ≡ self.old.log) }
        ensures rows_stay { OnErr result (K.rows self.new.keeper ≡ K.rows self.old.keeper) }
        ensures fault { result ≡ Err BookError.KeeperFault
            → Rises (K.faults self.old.keeper) (K.faults self.new.keeper) }
        ensures steady { result ≢ Err BookError.KeeperFault → K.faults self.new.keeper ≡ K.faults self.old.keeper }
        ensures count { K.faults self.old.keeper ≤ K.faults self.new.keeper }
        ensures legal { Legal self.new.log }
        ensures opened { self.new.opened ≡ self.old.opened }
        ensures untried { IsTrue (K.tells_stops self.old.keeper) → result ≡ Err BookError.OutOfMemory
            → self.new.keeper ≡ self.old.keeper }

        // What a stop may leave while something is added.
        ensures stops { IsTrue (K.tells_stops self.old.keeper) → (drawn : Drawn)
            → drawn_by (decide_bulk (view (Some caller) self.old.log) (bulk_by caller at key rows)) ≡ Some drawn
            → Adding K.Keeper result self.old.log drawn.group self.old.keeper self.new.keeper }
    {
        let stamp = Stamp {
            maker: caller,
            at,
            key,
        };
        match look_up(&self.log, &self.live, &Some(caller), &key, true) {
            Earlier::Nothing => self.judge_rows(stamp, rows),
            Earlier::Same(receipt) => {
                drop(rows);
                Ok(receipt)
            }
            Earlier::Other => {
                drop(rows);
                Err(BookError::Broken(Broken::Rule(Rule::NumberUsed)))
            }
        }
    }

    /// Judges a bulk with this metadata whose number, if it has one, is new, and keeps and applies what it adds, as
    /// `bulk` says.
    fn judge_rows(&mut self, stamp: Stamp, rows: BulkRows) -> Result<Receipt, BookError<Broken>>
        requires { IsBulkAllowed self.old.log (record { stamp = stamp; rows = rows }) }
        ensures accepted { IfOk result (λ receipt. Acts
            (Judged (judge_bulk (view (Some stamp.maker) self.old.log) (record { stamp = stamp; rows = rows })))
            self.old.log self.new.log receipt) }
        ensures broken { (broken : Broken)
            → judge_bulk (view (Some stamp.maker) self.old.log) (record { stamp = stamp; rows = rows }) ≡ Err broken
            → result ≡ Err (BookError.Broken broken) }
        ensures only_broken { (broken : Broken) → result ≡ Err (BookError.Broken broken)
            → judge_bulk (view (Some stamp.maker) self.old.log) (record { stamp = stamp; rows = rows }) ≡ Err broken }
        ensures broken_stays { (broken : Broken) → result ≡ Err (BookError.Broken broken) → self.new ≡ self.old }
        ensures memory { result ≡ Err BookError.OutOfMemory
            → IsOk (judge_bulk (view (Some stamp.maker) self.old.log) (record { stamp = stamp; rows = rows })) }
        ensures lost { result ≡ Err BookError.KeeperFault
            → IsOk (judge_bulk (view (Some stamp.maker) self.old.log) (record { stamp = stamp; rows = rows })) }
        ensures log_stays { OnErr result (self.new.log ≡ self.old.log) }
        ensures rows_stay { OnErr result (K.rows self.new.keeper ≡ K.rows self.old.keeper) }
        ensures fault { result ≡ Err BookError.KeeperFault
            → Rises (K.faults self.old.keeper) (K.faults self.new.keeper) }
        ensures steady { result ≢ Err BookError.KeeperFault → K.faults self.new.keeper ≡ K.faults self.old.keeper }
        ensures count { K.faults self.old.keeper ≤ K.faults self.new.keeper }
        ensures legal { Legal self.new.log }
        ensures opened { self.new.opened ≡ self.old.opened }
        ensures untried { IsTrue (K.tells_stops self.old.keeper) → result ≡ Err BookError.OutOfMemory
            → self.new.keeper ≡ self.old.keeper }
        ensures stops { IsTrue (K.tells_stops self.old.keeper) → (drawn : Drawn)
            → judge_bulk (view (Some stamp.maker) self.old.log) (record { stamp = stamp; rows = rows }) ≡ Ok drawn
            → Adding K.Keeper result self.old.log drawn.group self.old.keeper self.new.keeper }
    {
        let group = match judge_bulk(&self.live, &stamp, rows) {
            Ok(group) => group,
            Err(broken) => return Err(BookError::Broken(broken)),
        };
        let rows = group.len() as u64;
        match self.keep(group) {
            Ok(()) => Ok(Receipt::Rows { rows }),
            Err(error) => Err(error),
        }
    }

    /// Takes the room for a group, its number's place with it, keeps it and applies it: once the keeper has kept it
    /// nothing can fail. The texts are in the entries, which the tables keep; rows and history share them. Nothing is
    /// judged, so nothing is told as broken.
    fn keep<B>(&mut self, group: Vec<Stamped>) -> Result<(), BookError<B>>
        requires legal { Legal (self.old.log ++ group.items) }
        requires adds { AddsOne self.old.log group.items }
        requires follows { MayFollow self.old.log group.items }
        requires fits { FitInTurn (tables_of self.old.log) group.items }
        ensures kept { OnOk result (self.new.log ≡ self.old.log ++ group.items) }
        ensures unbroken { (broken : B) → result ≢ Err (BookError.Broken broken) }
        ensures log_stays { OnErr result (self.new.log ≡ self.old.log) }
        ensures rows_stay { OnErr result (K.rows self.new.keeper ≡ K.rows self.old.keeper) }
        ensures fault { result ≡ Err BookError.KeeperFault
            → Rises (K.faults self.old.keeper) (K.faults self.new.keeper) }
        ensures steady { result ≢ Err BookError.KeeperFault → K.faults self.new.keeper ≡ K.faults self.old.keeper }
        ensures count { K.faults self.old.keeper ≤ K.faults self.new.keeper }
        ensures legal { Legal self.new.log }
        ensures opened { self.new.opened ≡ self.old.opened }
        ensures untried { IsTrue (K.tells_stops self.old.keeper) → result ≡ Err BookError.OutOfMemory
            → self.new.keeper ≡ self.old.keeper }
        ensures stops { IsTrue (K.tells_stops self.old.keeper) → Adding K.Keeper result self.old.log
            group.items self.old.keeper self.new.keeper }
    {
        let Ok(rows) = rows_of(self.alloc, &group) else {
            return Err(BookError::OutOfMemory);
        };
        let Ok(entries) = copies_of(self.alloc, &group) else {
            return Err(BookError::OutOfMemory);
        };
        if self.live.room(&group).is_err() {
            return Err(BookError::OutOfMemory);
        }
        if self.log.room(&group).is_err() {
            return Err(BookError::OutOfMemory);
        }
        match self.keeper.append_all(&rows) {
            Ok(()) => {}
            Err(KeeperError::Failed) => return Err(BookError::KeeperFault),
            Err(KeeperError::OutOfMemory) => return Err(BookError::OutOfMemory),
        }
        self.live.apply_all(group);
        self.log.append(entries);
        Ok(())
    }

    /// Answers a query of this caller: a registered user, or nobody if the query requires no login. The keeper isn't
    /// asked.
    ///
    /// # Errors
    ///
    /// `Rule`: the first broken rule, whatever memory there is; but it takes memory to find `NoPlan`. `OutOfMemory`:
    /// for lack of memory only, and never for the state of the conference.
    ///
    /// # Cost
    ///
    /// The rules are checked first, which costs what `may` of `cr_view` does. A query that breaks none costs besides:
    ///
    /// - `Accounts`: a walk over all accounts.
    /// - `AcceptedPapers`: a walk over all papers, with a few look-ups for each that is accepted.
    /// - `Page`: a few look-ups, one more for each name that is told, a step for each version and each tag that is
    ///   told, and, where reviewers are told, a walk over the paper's forms.
    /// - `Me`: what `me` of `cr_view` does.
    /// - `Reviews`: a walk over the paper's forms, and two more at most for each of its labels, of which there are at
    ///   most 26.
    /// - `Comments`: a walk over the comments on the paper with a look-up each.
    /// - `Response`: a few reads by number.
    /// - `Content`, `Version`: one look-up.
    /// - `Search`: a walk over all papers, each of which costs what `matches` of `cr_search_eval` says.
    /// - `Report`: what `cr_reports` says of each report.
    /// - `Plan`: what `answer` of `cr_plans` does.
    /// - `Phase`, `Deadlines`: nothing that grows.
    ///
    /// The length of texts and contents makes no difference, except for a search and a letter.
    pub fn answer(&self, caller: &Option<UserNo>, query: &Query) -> Result<Reply, AnswerError>
        requires { MayAsk self.now.log (needs_login (view None self.now.log) query.now) caller.now }
        ensures answered { AnswersOrPlans result (answer caller.now (view caller.now self.now.log) query.now) }
        ensures sure { OnErr result (query.now ≢ queries.Phase) }
    {
        if let Err(rule) = self.live.may(caller, query) {
            return Err(AnswerError::Rule(rule));
        }
        match query {
            Query::Search { search, only_count } => self.answer_search(caller, search, *only_count),
            Query::Report { report } => self.answer_report(caller, report),
            Query::Plan { per_paper, load } => self.answer_plan(caller, *per_paper, *load),
            _ => self.live.answer(self.alloc, caller, query),
        }
    }

    /// Answers a search that breaks no rule.
    ///
    /// # Errors
    ///
    /// Only for lack of memory.
    fn answer_search(
        &self,
        caller: &Option<UserNo>,
        search: &Search,
        only_count: bool,
    ) -> Result<Reply, AnswerError>
        requires { MayAsk self.now.log
            (needs_login (view None self.now.log) (queries.Search search.now only_count)) caller.now }
        ensures { AnswersAsDue result
            (answer caller.now (view caller.now self.now.log) (queries.Search search.now only_count)) }
    {
        match cr_search_eval::answer(self.alloc, &self.live, caller, search, only_count) {
            Ok(reply) => Ok(reply),
            Err(_) => Err(AnswerError::OutOfMemory),
        }
    }

    /// Answers a report.
    ///
    /// # Errors
    ///
    /// The first broken rule, whatever memory there is; else only for lack of memory.
    fn answer_report(&self, caller: &Option<UserNo>, report: &Report) -> Result<Reply, AnswerError>
        requires { MayAsk self.now.log (needs_login (view None self.now.log) (queries.Report report.now)) caller.now }
        ensures { AnswersAsDue result (answer caller.now (view caller.now self.now.log) (queries.Report report.now)) }
    {
        cr_reports::answer(self.alloc, &self.live, caller, report)
    }

    /// Answers a plan, which is solved here, in the turn.
    ///
    /// # Errors
    ///
    /// The first broken rule, whatever memory there is; but it takes memory to find `NoPlan`. Else only for lack of
    /// memory.
    fn answer_plan(
        &self,
        caller: &Option<UserNo>,
        per_paper: PerPaper,
        load: PlanLoad,
    ) -> Result<Reply, AnswerError>
        ensures { AnswersOrPlans result
            (answer caller.now (view caller.now self.now.log) (queries.Plan per_paper load)) }
    {
        cr_plans::answer(self.alloc, &self.live, caller, per_paper, load)
    }

    /// Returns the user whose registration has this name and this digest; `None` if and only if nobody's has them.
    ///
    /// # Cost
    ///
    /// Takes no memory; one look-up by name.
    pub fn caller(&self, name: &Short, digest: &Digest) -> Option<UserNo>
        ensures { result ≡ caller_of name.now digest.now self.now.log }
    {
        self.live.caller(name, digest)
    }

    /// Returns the user who registered this name; `None` if and only if nobody did.
    ///
    /// # Cost
    ///
    /// Takes no memory; one look-up by name.
    pub fn number_of(&self, name: &Short) -> Option<UserNo>
        ensures { result ≡ number_of name.now self.now.log }
    {
        self.live.number_of(name)
    }

    /// Returns whether a query requires a login, by what nobody sees of the history: each of a registered user's does,
    /// except the page and the content of a published paper.
    ///
    /// # Cost
    ///
    /// Takes no memory; a few look-ups.
    pub fn needs_login(&self, query: &Query) -> bool
        ensures { result ≡ needs_login (view None self.now.log) query.now }
    {
        self.live.needs_login(query)
    }

    /// Returns how many entries the history has; takes no memory.
    pub fn entries(&self) -> u64
        ensures value { result ≡ length self.now.log }
        ensures legal { Legal self.now.log }
    {
        self.log.len()
    }

    /// Counts the entries of this kind in the history.
    ///
    /// # Cost
    ///
    /// Takes no memory; one walk over the history.
    pub fn count_of_kind(&self, kind: EntryKind) -> u64
        ensures { result ≡ count_of_kind kind self.now.log }
    {
        count_of_kind(self.log.entries(), kind) as u64
    }
}

/// What a user sees of the history.
impl<K: Keeper> Book<K> {
    /// Writes the user's view, one line for each sighting: a compact JSON object with the parts that the user is shown,
    /// its keys in the order of their bytes.
    ///
    /// # Errors
    ///
    /// With each a part of the lines may have been written. `WriteFault`: the sink's count of faults rose, or is at its
    /// last value; with every other outcome it is as it was. `OutOfMemory`: for lack of memory only.
    ///
    /// # Cost
    ///
    /// That of `write_view`; no view is made in memory.
    pub fn view_lines<O: Sink>(&self, user: UserNo, sink: &mut O) -> Result<(), ViewError>
        ensures { let outlet = outlet_of O.taken O.faults in
            WritesView result (lines_text (view (Some user) self.now.log)) (outlet sink.old) (outlet sink.new) }
    {
        write_view(self.alloc, &self.live, self.log.entries(), user, sink)
    }

    /// Returns the length of the user's view, which is the number of lines that `view_lines` writes.
    ///
    /// # Errors
    ///
    /// Only for lack of memory.
    ///
    /// # Cost
    ///
    /// Two walks over the history, with a few look-ups for each entry.
    pub fn view_len(&self, user: UserNo) -> Result<u64, AllocError>
        ensures { IfOk result (λ n. n ≡ length (view (Some user) self.now.log)) }
    {
        view_len(self.alloc, &self.live, self.log.entries(), user)
    }
}

/// What a lock sees of a book: its history, its keeper's count of faults, and the keeper with which it was opened.
impl<K: Keeper> Stands for Book<K> {
    type Entry = Stamped;

    type Root = K;

    ghost list = { λ b. b.log };

    ghost faults = { λ b. K.faults b.keeper };

    ghost root = { λ b. b.opened };

    fn entries(&self) -> u64 {
        self.log.len()
    }
}
