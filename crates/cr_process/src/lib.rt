// SPDX-License-Identifier: Apache-2.0 OR MIT
//! The process: `top` over the arguments, standard input and output, files as stores, sockets, and the system's clock.
//! A program's `main` only hands its runtime to `run`.
//!
//! # Proved
//!
//! - The status of the process is the number of the exit to which `top` came, unless memory ran out before: `run`,
//!   `exit_of_run`, `run_over`, `status_of`. `RanTop` speaks of the real streams, stores, sockets and clock by what
//!   contracts see of them.
//!
//! # Tested
//!
//! - That the words are those of the command line, the streams standard input and output, and the line on standard
//!   error that of the exit: `checks/serve.py`, `checks/store.py`, `checks/edge.py`.
#![tactic(auto)]

ghost use Rattle.std.specs.Prelude.{◌≡◌, ◌⊎◌};
ghost use Rattle.cr_process.specs.RanTop.{RanTop};
ghost use Rattle.std.specs.Process as ended;
ghost use Rattle.cr_top.specs.Exits.{exit_status};
ghost use Rattle.cr_top.specs.declared.exit.Exit.{Exit};

use cr_net::{TcpGates, TcpSink, TcpSource};
use cr_ports::{Clock, Gates, Keeper, ReadSource, Shelf, Sink, Source, SystemClock, WriteSink};
use cr_stores::{FileShelf, file_shelf, reason};
use cr_top::{Exit, top};
use cr_words::{Job, read_words};
use std::alloc::{AllocError, Global};
use std::env;
use std::io::{self, ErrorKind, Stdin, Stdout};
use std::process::ExitCode;
use std::sync::Wait;
use std::thread::Threads;

// Returns the words of the command line, or none where one isn't UTF-8.
fn words(rt: &HostRuntime) -> Result<Vec<String>, AllocError> {
    match env::args(rt) {
        Ok(words) => words.collect(rt.alloc()),
        Err(error) if error.kind() == ErrorKind::OutOfMemory => Err(AllocError),
        Err(_) => Ok(Vec::new(rt.alloc())),
    }
}

// What the words name of the outside: the store's file and the address, each empty where they name none.
#[derive(Clone, Copy)]
struct Named<'a> {
    store: &'a str,
    address: &'a str,
}

fn names_in(alloc: Global, words: &[String]) -> Named<'_> {
    let (store, address) = match read_words(alloc, words) {
        Ok(Job::Serve { store, listen, .. }) => (store, listen),
        Ok(Job::Pipe { store: Some(store) } | Job::View { store, .. }) => (store, ""),
        Ok(Job::Pipe { store: None } | Job::Drill { .. }) | Err(_) => ("", ""),
    };
    Named { store, address }
}

fn tell_want_of_memory(rt: &HostRuntime) -> io::Result<()> {
    eprintln!(rt; "confd: out of memory")
}

// Writes one line on standard error for each status but 0.
fn tell(
    rt: &HostRuntime,
    words: &[String],
    exit: Exit,
    shelf: &FileShelf,
    closed: Option<cr_net::Reason>,
) -> io::Result<()> {
    let Named { store, address } = names_in(rt.alloc(), words);
    match exit {
        Exit::Done => Ok(()),
        Exit::Cut => eprintln!(rt; "confd: the input ended inside a request"),
        Exit::Usage => eprintln!(rt; "confd: no such words"),
        Exit::BadStore { row, kind } => {
            eprintln!(rt;
                "confd: {store}: row {row}, of kind {kind}, is bad or ends inside a command"
            )
        }
        Exit::ReadFault => eprintln!(rt; "confd: the input could not be read"),
        Exit::WriteFault => eprintln!(rt; "confd: the output could not be written"),
        Exit::KeeperFault => match reason(shelf, store) {
            Some(reason) => eprintln!(rt; "confd: {store}: {reason}"),
            None => eprintln!(rt; "confd: {store}: the store could not be read"),
        },
        Exit::ListenFault => match closed {
            Some(reason) => eprintln!(rt; "confd: {address}: {reason}"),
            None => eprintln!(rt; "confd: {address}: no connections could be taken"),
        },
        Exit::NoUser => eprintln!(rt; "confd: {store}: nobody has registered that name"),
        Exit::OutOfMemory => tell_want_of_memory(rt),
        Exit::ClockFault => eprintln!(rt; "confd: the clock could not be read"),
    }
}

// Returns the status of the process whose run ended so.
fn status_of(exit: Exit) -> ExitCode
    ensures { ended.exit_status result ≡ exit_status exit }
{
    ExitCode::from(exit.code())
}

// What a run came to: its exit, and why no connections could be taken, where that is known.
struct Ran {
    exit: Exit,
    closed: Option<cr_net::Reason>,
}

// Runs `top` over a shelf, on the standard streams, sockets and the system's clock. It is generic, so that the files'
// shelf is read apart from all that stands here: a check takes in the whole of each type that a call is given.
fn run_over<R: Threads + Wait + Sync, S: Shelf>(
    rt: &HostRuntime,
    handle: &R,
    words: &[String],
    shelf: &mut S,
) -> Ran
    ensures { RanTop ⟦<ReadSource<Stdin> as Source>⟧ ⟦<WriteSink<Stdout> as Sink>⟧
        ⟦<SystemClock<HostRuntime> as Clock>⟧ S.Shelf S.Keeper.Keeper
        ⟦<TcpGates<&'static R> as Gates>⟧.faults ⟦<TcpGates<&'static R> as Gates>⟧.logs
        ⟦<TcpGates<&'static R> as Gates>⟧.asked ⟦<TcpSource as Source>⟧ ⟦<TcpSink as Sink>⟧
        ⟦<SystemClock<HostRuntime> as Clock>⟧ result.exit }
{
    let mut input = ReadSource::new(rt.stdin());
    let mut out = WriteSink::new(rt.stdout());
    let mut gates = TcpGates::new(rt, handle);
    let mut clock = SystemClock::new(*rt);
    let exit = top(
        handle,
        rt.alloc(),
        words,
        &mut input,
        &mut out,
        shelf,
        &mut gates,
        &mut clock,
    );
    Ran {
        exit,
        closed: gates.reason(),
    }
}

// Runs `top` over files, tells on standard error what its exit says, and returns that exit.
fn exit_of_run<R: Threads + Wait + Sync>(rt: &HostRuntime, handle: &R, words: &[String]) -> Exit
    ensures { RanTop ⟦<ReadSource<Stdin> as Source>⟧ ⟦<WriteSink<Stdout> as Sink>⟧
        ⟦<SystemClock<HostRuntime> as Clock>⟧ ⟦<FileShelf as Shelf>⟧ ⟦<<FileShelf as Shelf>::Keeper as Keeper>⟧
        ⟦<TcpGates<&'static R> as Gates>⟧.faults ⟦<TcpGates<&'static R> as Gates>⟧.logs
        ⟦<TcpGates<&'static R> as Gates>⟧.asked ⟦<TcpSource as Source>⟧ ⟦<TcpSink as Sink>⟧
        ⟦<SystemClock<HostRuntime> as Clock>⟧ result }
{
    let mut shelf = file_shelf(rt);
    let Ran { exit, closed } = run_over(rt, handle, words, &mut shelf);
    // The status says the same, so a line that can't be written is left out.
    let _ = tell(rt, words, exit, &shelf, closed);
    exit
}

/// Runs what the command line names, and returns the status with which the process ends. `handle` is the runtime, as
/// one that may wait: a library can't tell that of `rt`.
pub fn run<R: Threads + Wait + Sync>(rt: &HostRuntime, handle: &R) -> ExitCode
    // Unless memory ran out before, the status is that of the exit to which `top` came.
    ensures { (exit : Exit) × (ended.exit_status result ≡ exit_status exit) × ((exit ≡ Exit.OutOfMemory)
        ⊎ RanTop ⟦<ReadSource<Stdin> as Source>⟧ ⟦<WriteSink<Stdout> as Sink>⟧
        ⟦<SystemClock<HostRuntime> as Clock>⟧ ⟦<FileShelf as Shelf>⟧ ⟦<<FileShelf as Shelf>::Keeper as Keeper>⟧
        ⟦<TcpGates<&'static R> as Gates>⟧.faults ⟦<TcpGates<&'static R> as Gates>⟧.logs
        ⟦<TcpGates<&'static R> as Gates>⟧.asked ⟦<TcpSource as Source>⟧ ⟦<TcpSink as Sink>⟧
        ⟦<SystemClock<HostRuntime> as Clock>⟧ exit) }
{
    let Ok(words) = words(rt) else {
        let _ = tell_want_of_memory(rt);
        return status_of(Exit::OutOfMemory);
    };
    let exit = exit_of_run(rt, handle, words.as_slice());
    status_of(exit)
}
