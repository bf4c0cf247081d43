// SPDX-License-Identifier: Apache-2.0 OR MIT
//! Whole runs as data: the case files of the folder that this runs in, against the program.
//!
//! A case is what is sent, on the program's own input or on many connections, and what is due: each answer's every
//! byte, and how the run ends. It is run by `top` over streams, a store, gates and clocks in memory, with its bytes
//! whole and cut into pieces in several ways, and gets a line: that all is as due, or the first difference. Each
//! connection has a clock, which has a moment for each answer that is due there and no more.
//!
//! A case file is lines of these forms. What precedes the first case is part of each.
//!
//! - `# TEXT`, or empty: nothing
//! - `== TITLE`: a case begins
//! - `$ WORDS`: the words of the command line, if they aren't `confd pipe`
//! - `> NAME METHOD PATH [BODY]`: NAME sends a request with the secret `NAME-secret-000001`; a NAME with a point is
//!   the token `NAME.SECRET`, `-` sends none
//! - `>NUMBER NAME METHOD PATH [BODY]`: such a request with the field `Command-Number`, whose value has no space
//! - `< CODE CONTENT`: an answer is due, with its date; `<!` if the connection closes after it
//! - `< CODE HEAD CONTENT`: an answer to HEAD is due: only the head of what GET would be answered
//! - `< CODE Allow: METHODS; CONTENT`: an answer with the field Allow is due
//! - `< CODE bytes: CONTENT`: an answer with a paper's content is due, which is no JSON; after `HEAD` too
//! - `< CODE text: CONTENT`: an answer with a report is due, which is plain text; after `HEAD` too
//! - `>>[N] TEXT`, `<<[N] TEXT`: bytes are sent, are due, N times
//! - `*N LINE`: N times that line, with the number of the time, from 1, in place of each `\#`
//! - `!read [N]`, `!write [N]`: the input fails after what is sent so far, the output after what is due so far, or N
//!   bytes later
//! - `@ ROW`: a row that is in the store `f`, or `f.cj` if the words name that, before the run:
//!   `KIND MAKER MORE AT NUM MARK N1 N2 N3 N4 N5 B1 B2`, `-` for no bytes, `#` before hexadecimal digits
//! - `@N ROW`: such a row in place of row number N, from 0, of those told so far
//! - `=@ same`, `=@ ROW`: the rows that are due there after the run: those that were there before it; and then this one
//! - `!open`: the store can't be opened
//! - `!append N`, `!row N`: append number N, from 1, fails, from 2 if rows are in the store before; any other call of
//!   the keeper does
//! - `!each end`, `!each read`, `!each write`: the case is run once for each place at which the input may end, may
//!   fail, the output may fail
//! - `!each row`: the case is run once for each row at which the store may end
//! - `~ SECONDS DATE`: answers that are told from here on have this date, and the clock gives these seconds for each;
//!   if no line tells it, `784111777 Sun, 06 Nov 1994 08:49:37 GMT`
//! - `!clock N`: call number N of the clock fails, from 1; `!each clock`: the case is run once for each call that may
//! - `!whole`: the case is run only with its bytes whole
//! - `=cut`, `=usage`, `=read_fault`, `=write_fault`, `=keeper_fault`, `=listen_fault`, `=no_user`, `=clock_fault`:
//!   how the run ends, if that isn't with status 0
//! - `=bad_store ROW KIND`: it ends since that row, from 0, of that kind, is a bad one
//! - `=rows N`: N rows are kept by the answer before this line
//! - `=unread`: what is sent from here on isn't read, if the bytes come one by one
//! - `&[N]`: a connection of `serve` begins, or N that are alike; what precedes the first is of the program's own
//!   streams
//! - `| CODE CONTENT`: this may be answered in place of the answer before it, by the way in which workers' turns
//!   interleave
//! - `=kept ROW`: this row is kept if and only if the answer before it is given, and none in its place
//! - `=times N CODE CONTENT`: N answers on all connections together are this one
//! - `!gates`: the gates can't be opened
//! - `!door N CALL`: call number CALL of door number N fails, both from 1
//! - `=unasked`: no door is asked for this connection
//! - `=listen ADDRESS`: the gates were asked for doors once, at this address; `=listen`: they weren't asked
//!
//! Door number 1 gives the first connections, up to its share, door number 2 the next ones, and so on. With one worker
//! they are served in their order.
//!
//! In bodies, contents and raw bytes `\r`, `\n` and `\\` are as usual, `\xHH` is a byte, and `\(N TEXT)` is N
//! times a text.
#![tactic(auto)]

mod case;
mod connection;
mod file;
mod message;
mod run;
mod served;
mod store;
mod text;
mod time;
mod verdict;

use case::Case;
use file::{FileError, read_cases};
use std::alloc::{AllocError, Global};
use std::process::ExitCode;
use std::sync::Wait;
use std::thread::Threads;
use std::{fs, io};
use verdict::difference;

/// What was run, in numbers.
#[derive(Clone, Copy, Drop)]
struct Total {
    cases: u64,
    answers: u64,
    failed: u64,
}

impl Total {
    fn add(&mut self, answers: usize, is_failed: bool) {
        self.cases = self.cases.saturating_add(1);
        self.answers = self.answers.saturating_add(answers as u64);
        self.failed = self.failed.saturating_add(u64::from(is_failed));
    }
}

// Adds a file's name, where it is a case file's.
fn add_name(alloc: Global, names: &mut Vec<String>, name: &str) -> Result<(), AllocError> {
    if name.ends_with(".case") {
        names.push(String::from_str(alloc, name)?)?;
    }
    Ok(())
}

// The names of the folder's case files, in order.
fn case_names(rt: &HostRuntime) -> io::Result<Vec<String>> {
    let mut names = Vec::new(rt.alloc());
    for entry in fs::read_dir(rt, ".")? {
        add_name(rt.alloc(), &mut names, entry?.file_name())?;
    }
    names.sort()?;
    Ok(names)
}

// Runs a case, counts it, and tells what came of it.
fn told<R: Threads + Wait + Sync>(
    rt: &R,
    alloc: Global,
    case: &Case,
    total: &mut Total,
) -> Result<String, AllocError> {
    let answers = case.answers();
    let difference = difference(rt, alloc, case)?;
    total.add(answers, difference.is_some());
    match difference {
        None => format!(in alloc; "ok, {answers} answers"),
        Some(why) => Ok(why),
    }
}

// Runs the cases of a file, a line a case. The handle is the same runtime, as one that may wait.
fn run_file<R: Threads + Wait + Sync>(
    rt: &HostRuntime,
    handle: &R,
    name: &str,
    total: &mut Total,
) -> io::Result<()> {
    let alloc = rt.alloc();
    let text = fs::read_to_string(rt, name)?;
    match read_cases(alloc, text.as_str()) {
        Ok(cases) => {
            for case in cases.iter() {
                let told = told(handle, alloc, case, total)?;
                println!(rt; "{name}, {}: {told}", case.title)?;
            }
        }
        Err(FileError::NoForm(line)) => {
            total.add(0, true);
            println!(rt; "{name}, line {line}: none of the forms")?;
        }
        Err(FileError::OutOfMemory) => return Err(AllocError.into()),
    }
    Ok(())
}

fn main(rt: HostRuntime) -> io::Result<ExitCode> {
    let mut total = Total {
        cases: 0,
        answers: 0,
        failed: 0,
    };
    for name in case_names(&rt)?.iter() {
        run_file(&rt, &rt, name.as_str(), &mut total)?;
    }
    let Total {
        cases,
        answers,
        failed,
    } = total;
    println!(&rt; "{cases} cases, {answers} answers, {failed} cases not as due")?;
    Ok(if failed == 0 {
        ExitCode::SUCCESS
    } else {
        ExitCode::FAILURE
    })
}
