// SPDX-License-Identifier: Apache-2.0 OR MIT
//! What the program does with its words.
ghost use Rattle.std.specs.Prelude.{◌≡◌, ◌≢◌, ◌⊎◌, ℕ, List, Some};
ghost use Rattle.cr_ports.specs.Writing.{BreaksOff, Writes, outlet_of};
ghost use Rattle.cr_words.specs.Job.{NamedJob, IsInRange, job_seen};
ghost use Rattle.cr_session.specs.Tries.{tries_of};
ghost use Rattle.cr_workers.specs.Connections.{streams_of};
ghost use Rattle.cr_words.specs.Usage.{usage};
ghost use Rattle.cr_top.specs.Jobs.{AnswersJob, Does, IsCounted, IsUntouched, around_of};
ghost use Rattle.cr_top.specs.Program.{RunsProgram};
ghost use Rattle.cr_top.specs.Runs.{TellsUsage};
ghost use Rattle.cr_top.specs.Stores.{keeping_of};
ghost use Rattle.cr_top.specs.Words.{AreFor, AreRefused, PassTest};

use crate::drilled::drill;
use crate::exit::{Exit, exit_of};
use crate::piping::pipe;
use crate::serve::{Address, serve_store};
use crate::storing::pipe_store;
use crate::viewing::view_store;
use cr_book::empty_book;
use cr_ports::{Clock, Gates, Shelf, Sink, Source, write_all};
use cr_words::{Job, WordsError, read_words, usage_text};
use std::alloc::Global;
use std::sync::Wait;
use std::thread::Threads;

/// Writes how the program is called. Takes no memory.
fn refuse_words<O: Sink>(out: &mut O) -> Exit
    ensures usage { result ≡ Exit.Usage
        → Writes usage (outlet_of O.taken O.faults out.old) (outlet_of O.taken O.faults out.new) }
    ensures fault { result ≡ Exit.WriteFault
        → BreaksOff usage (outlet_of O.taken O.faults out.old) (outlet_of O.taken O.faults out.new) }
    ensures either { (result ≡ Exit.Usage) ⊎ (result ≡ Exit.WriteFault) }
{
    match write_all(out, usage_text()) {
        Ok(()) => Exit::Usage,
        Err(_) => Exit::WriteFault,
    }
}

/// Does the job that the words name.
fn do_job<R: Threads + Wait + Sync, I: Source, O: Sink, S: Shelf, G: Gates, C: Clock>(
    rt: &R,
    alloc: Global,
    job: Job,
    input: &mut I,
    out: &mut O,
    shelf: &mut S,
    gates: &mut G,
    clock: &mut C,
) -> Exit
    requires { IsInRange (job_seen job) }
    ensures does { let around = around_of I.faults O.taken O.faults C.coming C.faults S.rows S.faults G.faults G.logs
        G.asked in
        let keeps = keeping_of (S.tells_stops shelf.old) S.Keeper.opens (S.left shelf.new) in
        let tries = tries_of S.Keeper.Keeper in
        Does (S.tells_stops shelf.old) keeps I.left I.read_gives
        (streams_of tries G.Door.In.left G.Door.In.read_gives G.Door.In.faults G.Door.Out.taken G.Door.Out.faults
        G.Door.Clock.coming G.Door.Clock.faults)
        (job_seen job.entry) result (around input.old out.old shelf.old gates.old clock.old)
        (around input.new out.new shelf.new gates.new clock.new) }
    ensures answers { let around = around_of I.faults O.taken O.faults C.coming C.faults S.rows S.faults G.faults G.logs
        G.asked in
        AnswersJob I.left (job_seen job.entry) result (around input.old out.old shelf.old gates.old clock.old)
        (around input.new out.new shelf.new gates.new clock.new) }
    ensures known { result ≢ Exit.Usage }
    ensures counted { let around = around_of I.faults O.taken O.faults C.coming C.faults S.rows S.faults G.faults G.logs
        G.asked in
        IsCounted result (around input.old out.old shelf.old gates.old clock.old)
        (around input.new out.new shelf.new gates.new clock.new) }
{
    match job {
        Job::Pipe { store: None } => {
            let Ok(book) = empty_book(alloc) else {
                return Exit::OutOfMemory;
            };
            let (ending, _keeper) = pipe(rt, alloc, book, input, out, clock);
            exit_of(ending)
        }
        Job::Pipe { store: Some(path) } => pipe_store(rt, alloc, path, input, out, shelf, clock),
        Job::Serve {
            listen,
            workers,
            connections,
            store,
        } => {
            let address = Address {
                listen,
                workers,
                connections,
            };
            serve_store(rt, alloc, store, address, out, shelf, gates)
        }
        Job::View { store, user } => view_store(alloc, store, user, out, shelf),
        Job::Drill { seed, steps } => drill(alloc, seed, steps, out),
    }
}

/// Does what `top` does, clause by clause.
fn run_words<R: Threads + Wait + Sync, I: Source, O: Sink, S: Shelf, G: Gates, C: Clock>(
    rt: &R,
    alloc: Global,
    words: &[String],
    input: &mut I,
    out: &mut O,
    shelf: &mut S,
    gates: &mut G,
    clock: &mut C,
) -> Exit
    // What the job that the words name did: one connection, or many, whose bytes are the answers that its wishes are
    // told, each on the caller's view of the one history at its turn's place; or a user's view; or a drill's summary.
    ensures does { let around = around_of I.faults O.taken O.faults C.coming C.faults S.rows S.faults G.faults G.logs
        G.asked in
        let keeps = keeping_of (S.tells_stops shelf.old) S.Keeper.opens (S.left shelf.new) in
        let tries = tries_of S.Keeper.Keeper in
        (job : NamedJob) → AreFor words.now job
        → Does (S.tells_stops shelf.old) keeps I.left I.read_gives
        (streams_of tries G.Door.In.left G.Door.In.read_gives G.Door.In.faults G.Door.Out.taken G.Door.Out.faults
        G.Door.Clock.coming G.Door.Clock.faults)
        job result (around input.old out.old shelf.old gates.old clock.old)
        (around input.new out.new shelf.new gates.new clock.new) }

    // Where nothing fails, all that the input's bytes spell is answered, each door gives its share, and the view is
    // told whole, or memory runs out.
    ensures answers { let around = around_of I.faults O.taken O.faults C.coming C.faults S.rows S.faults G.faults G.logs
        G.asked in
        (job : NamedJob) → AreFor words.now job
        → AnswersJob I.left job result (around input.old out.old shelf.old gates.old clock.old)
        (around input.new out.new shelf.new gates.new clock.new) }

    // Words that name no job are answered by the usage line, and nothing is read.
    ensures refuses { let around = around_of I.faults O.taken O.faults C.coming C.faults S.rows S.faults G.faults G.logs
        G.asked in
        let a = around input.old out.old shelf.old gates.old clock.old in
        let a' = around input.new out.new shelf.new gates.new clock.new in
        AreRefused words.now
        → IsUntouched result a a'
        ⊎ (TellsUsage result a.outside a'.outside × (shelf.new ≡ shelf.old) × (gates.new ≡ gates.old)) }
    ensures usage { result ≡ Exit.Usage → AreRefused words.now }
    ensures passes { PassTest words.now → result ≢ Exit.Usage }

    ensures counted { let around = around_of I.faults O.taken O.faults C.coming C.faults S.rows S.faults G.faults G.logs
        G.asked in
        IsCounted result (around input.old out.old shelf.old gates.old clock.old)
        (around input.new out.new shelf.new gates.new clock.new) }
{
    match read_words(alloc, words) {
        Ok(job) => do_job(rt, alloc, job, input, out, shelf, gates, clock),
        Err(WordsError::Usage) => refuse_words(out),
        Err(WordsError::OutOfMemory) => Exit::OutOfMemory,
    }
}

/// Does what the words ask for, the first of which is the program's name. `pipe` serves one connection over `input` and
/// `out`, at the moments that `clock` gives, from the empty history on, whose rows it keeps in memory, or from the
/// history of the rows of a store on, which are those of the last history when it ends. `serve` serves many
/// connections, which the gates' doors give with a clock each, from the history of a store's rows on: however their
/// turns interleave, there is one history. `view` prints what a user sees of a store's history. `drill` makes up
/// commands from a number, gives them to a book in memory, and prints what they come to.
///
/// - `Done` comes only where the connection's ending is `Clean` or `Closed`, each door gave its share and
///   no connection ended for lack of memory, or the view or the drill's summary was printed; `Cut`
///   exactly where the ending is `Cut`.
/// - `Usage` comes exactly where `clap` refuses the words, a call for help included, unless memory is
///   wanting or the usage line can't be written. Then nothing is read.
/// - `BadStore` comes exactly where the store's rows don't open as a legal history. Then nothing is read and nothing
///   written, and no gate asked. `KeeperFault` comes only where the count of `shelf` rose in this call, or stands at
///   its last value.
/// - `ListenFault` comes only where the count of `gates` rose in this call, or stands at its last value. Where they
///   weren't opened, nothing is written.
/// - `NoUser` comes exactly where `view` opened its store and nobody there has registered the name.
/// - `ReadFault`, `WriteFault` and `ClockFault` come only where the count of `input`, of `out`, of `clock` rose in this
///   call, or stands at its last value. `ClockFault` comes exactly where the ending of `pipe`'s connection is that;
///   where the clock of one of `serve`'s connections fails, that connection alone ends by it.
/// - `OutOfMemory` stands for a lack of memory; no clause says when memory lacks.
pub fn top<R: Threads + Wait + Sync, I: Source, O: Sink, S: Shelf, G: Gates, C: Clock>(
    rt: &R,
    alloc: Global,
    words: &[String],
    input: &mut I,
    out: &mut O,
    shelf: &mut S,
    gates: &mut G,
    clock: &mut C,
) -> Exit
    ensures { let around = around_of I.faults O.taken O.faults C.coming C.faults S.rows S.faults G.faults G.logs
        G.asked in
        let keeps = keeping_of (S.tells_stops shelf.old) S.Keeper.opens (S.left shelf.new) in
        let tries = tries_of S.Keeper.Keeper in
        RunsProgram words.now (S.tells_stops shelf.old) keeps I.left I.read_gives
        (streams_of tries G.Door.In.left G.Door.In.read_gives G.Door.In.faults G.Door.Out.taken G.Door.Out.faults
        G.Door.Clock.coming G.Door.Clock.faults)
        ((shelf.new ≡ shelf.old) × (gates.new ≡ gates.old))
        result (around input.old out.old shelf.old gates.old clock.old)
        (around input.new out.new shelf.new gates.new clock.new) }
{
    run_words(rt, alloc, words, input, out, shelf, gates, clock)
}
