// SPDX-License-Identifier: Apache-2.0 OR MIT
//! A drill: commands that are made up from a seed, given to a book in memory.
ghost use Rattle.std.specs.Prelude.{◌≡◌, ◌≤◌, ◌<◌, ◌+◌, [], Some, IfOk, IsTrue, OnOk, length, if◌then◌else◌};
ghost use Rattle.cr_base.specs.Bounds.{IsBoundedCommand};
ghost use Rattle.cr_base.specs.declared.command.Command.TheVariants.{SetPhase};
ghost use Rattle.cr_base.specs.Logins.{command_wants_login};
ghost use Rattle.cr_base.specs.HistoryFacts.{papers_of, phase_of};
ghost use Rattle.cr_base.specs.declared.words.Role.TheVariants.{Chair};
ghost use Rattle.cr_base.specs.Words.{is_member};
ghost use Rattle.cr_policy.specs.Legal.{Legal, IsGiven, step};
ghost use Rattle.cr_drill.specs.Cast.{first_chair, second_chair, member_count};
ghost use Rattle.cr_drill.specs.Drill.{all_registered, drill_call, drilled, drilled_for, is_accepted, is_on_way};
ghost use Rattle.cr_drill.specs.Drill.{members_named, moved_on, moved_through, moved_to, named, opened};
ghost use Rattle.cr_drill.specs.Drill.{phase_at, phase_in_quarter, stepped_in, summary};
ghost use Rattle.cr_drill.specs.Drilling.{GoesOn, HasCast, drilled_of};

use crate::dice::Dice;
use crate::drill_commands::{
    actor_of, cast_digest, cast_name, command_of, first_chair, operation_in,
};
use crate::drill_summary::summary;
use cr_base::{Command, Conference, Moment, Phase, Query, Reply, Role, UserNo};
use cr_book::{Book, BookError, empty_book};
use cr_ports::PlainKeeper;
use std::alloc::{AllocError, Global};

/// How many users take part, of whom the first two are chairs.
const CAST: u64 = 8;

/// The first member who is no chair, and how many there are.
const FIRST_MEMBER: u64 = 3;

const MEMBERS: u64 = 4;

/// The phases to which a drill's conference moves on, in their order: it skips the response.
const LATER_PHASES: [Phase; 6] = [
    Phase::Submission,
    Phase::Bidding,
    Phase::Reviewing,
    Phase::Discussion,
    Phase::Notification,
    Phase::Closed,
];

/// What a drill has come to, beside its book.
#[derive(Clone, Copy)]
pub(crate) struct Progress {
    /// What is drawn from.
    pub(crate) dice: Dice,
    /// How many steps were accepted.
    pub(crate) accepted: u64,
    /// How many were refused.
    pub(crate) refused: u64,
}

/// Gives a command without a number at the first moment, and tells whether it was accepted.
///
/// # Errors
///
/// If memory runs out.
fn ask(
    book: &mut Book<PlainKeeper>,
    caller: Option<UserNo>,
    command: Command,
) -> Result<bool, AllocError>
    requires { IsGiven book.old.log (drill_call caller command) }
    ensures stepped { IfOk result (λ yes. book.new.log
        ≡ step book.old.log (drill_call caller command)) }
    ensures accepted { IfOk result (λ yes. yes
        ≡ is_accepted book.old.log (drill_call caller command)) }
    ensures goes_on { GoesOn book.old.log book.new.log }
{
    match book.command(&caller, command, Moment::epoch(), None) {
        Ok(_) => Ok(true),
        Err(BookError::Broken(_)) => Ok(false),
        Err(BookError::OutOfMemory) => Err(AllocError),
        Err(BookError::KeeperFault) => unreachable!(),
    }
}

/// Gives a command of one of the cast, and tells whether it was accepted.
///
/// # Errors
///
/// If memory runs out.
#[tactic(auto, using(crate::proofs::DrillCast::cast_kept))]
fn ask_as(book: &mut Book<PlainKeeper>, user: UserNo, command: Command) -> Result<bool, AllocError>
    requires cast { HasCast book.old.log }
    requires user { user ≤ 8 }
    requires login { IsTrue (command_wants_login command) }
    requires bounded { IsBoundedCommand command }
    ensures stepped { IfOk result (λ yes. book.new.log ≡ step book.old.log (drill_call (Some user) command)) }
    ensures accepted { IfOk result (λ yes. yes ≡ is_accepted book.old.log (drill_call (Some user) command)) }
    ensures cast { HasCast book.new.log }
{
    ask(book, Some(user), command)
}

/// Returns what everyone may know of the conference.
fn conference(book: &Book<PlainKeeper>) -> Conference
    requires { Legal book.now.log }
    ensures phase { result.phase ≡ phase_of book.now.log }
    ensures papers { result.papers ≡ length (papers_of book.now.log) }
    ensures few { result.papers ≤ 9999 }
{
    match book.answer(&None, &Query::Phase) {
        Ok(Reply::Conference(conference)) => conference,
        _ => unreachable!(),
    }
}

/// Returns whether the conference has yet to reach a phase on its way to the one that is wanted.
fn is_on_way(book: &Book<PlainKeeper>, wanted: Phase, phase: Phase) -> bool
    requires { Legal book.now.log }
    ensures { result ≡ is_on_way wanted book.now.log phase }
{
    !conference(book).phase.is_from(phase) && wanted.is_from(phase)
}

/// Sets a phase.
///
/// # Errors
///
/// If memory runs out.
fn set_phase(book: &mut Book<PlainKeeper>, phase: Phase) -> Result<(), AllocError>
    requires { HasCast book.old.log }
    ensures set { OnOk result (book.new.log ≡ step book.old.log (drill_call (Some first_chair) (SetPhase phase))) }
    ensures cast { HasCast book.new.log }
{
    ask_as(book, first_chair(), Command::SetPhase { phase })?;
    Ok(())
}

/// Moves the conference on to a phase that it has yet to reach.
///
/// # Errors
///
/// If memory runs out.
fn move_on(book: &mut Book<PlainKeeper>, wanted: Phase, phase: Phase) -> Result<(), AllocError>
    requires { HasCast book.old.log }
    ensures moved { OnOk result (book.new.log ≡ moved_on wanted book.old.log phase) }
    ensures cast { HasCast book.new.log }
{
    if is_on_way(book, wanted, phase) {
        return set_phase(book, phase);
    }
    Ok(())
}

/// Moves the conference on through these phases.
///
/// # Errors
///
/// If memory runs out.
fn move_through(
    book: &mut Book<PlainKeeper>,
    wanted: Phase,
    phases: &[Phase],
) -> Result<(), AllocError>
    requires { HasCast book.old.log }
    ensures moved { OnOk result (book.new.log ≡ moved_through wanted book.old.log phases.now) }
    ensures cast { HasCast book.new.log }
{
    for phase in phases {
        move_on(book, wanted, *phase)?;
    }
    Ok(())
}

/// Moves the conference on to the phase that is wanted.
///
/// # Errors
///
/// If memory runs out.
#[tactic(auto, unfolding(crate::specs::Drill::moved_to))]
fn move_to(book: &mut Book<PlainKeeper>, wanted: Phase) -> Result<(), AllocError>
    requires { HasCast book.old.log }
    ensures moved { OnOk result (book.new.log ≡ moved_to wanted book.old.log) }
    ensures cast { HasCast book.new.log }
{
    move_through(book, wanted, LATER_PHASES.as_slice())
}

/// Registers the cast.
///
/// # Errors
///
/// If memory runs out.
#[tactic(auto, unfolding(crate::specs::Drill::all_registered))]
fn register_all(book: &mut Book<PlainKeeper>) -> Result<(), AllocError>
    requires { book.old.log ≡ [] }
    ensures registered { OnOk result (book.new.log ≡ all_registered) }
    ensures cast { OnOk result (HasCast book.new.log) }
{
    for before in 0..CAST {
        let user = UserNo::new(before + 1);
        let command = Command::Register {
            name: cast_name(user),
            digest: cast_digest(user),
        };
        ask(book, None, command)?;
    }
    Ok(())
}

/// Appoints one of the cast.
///
/// # Errors
///
/// If memory runs out.
fn name(book: &mut Book<PlainKeeper>, number: u64, role: Role) -> Result<(), AllocError>
    requires cast { HasCast book.old.log }
    requires among { (1 ≤ number) × (number ≤ 8) }
    requires role { IsTrue (is_member role) }
    ensures named { OnOk result (book.new.log ≡ named role number book.old.log) }
    ensures cast { HasCast book.new.log }
{
    let command = Command::Name {
        user: Some(cast_name(UserNo::new(number))),
        role,
    };
    ask_as(book, first_chair(), command)?;
    Ok(())
}

/// Appoints the committee.
///
/// # Errors
///
/// If memory runs out.
fn name_all(book: &mut Book<PlainKeeper>) -> Result<(), AllocError>
    requires { HasCast book.old.log }
    ensures named { OnOk result (book.new.log ≡ members_named member_count (named Chair second_chair book.old.log)) }
    ensures cast { HasCast book.new.log }
{
    name(book, 2, Role::Chair)?;
    for before in 0..MEMBERS {
        name(book, FIRST_MEMBER + before, Role::Member)?;
    }
    Ok(())
}

/// Does what comes before the steps.
///
/// # Errors
///
/// If memory runs out.
#[tactic(auto, unfolding(crate::specs::Drill::opened))]
fn open(book: &mut Book<PlainKeeper>) -> Result<(), AllocError>
    requires { book.old.log ≡ [] }
    ensures opened { OnOk result (book.new.log ≡ opened) }
    ensures cast { OnOk result (HasCast book.new.log) }
{
    register_all(book)?;
    name_all(book)?;
    move_to(book, Phase::Submission)
}

/// Returns the phase of a quarter of a drill, from 0.
fn phase_in_quarter(number: u64) -> Phase
    ensures { result ≡ phase_in_quarter number }
{
    match number {
        0 => Phase::Submission,
        1 => Phase::Bidding,
        2 => Phase::Reviewing,
        _ => Phase::Discussion,
    }
}

/// Returns the phase of a step.
#[tactic(auto, unfolding(crate::specs::Drill::phase_at))]
fn phase_at(steps: u64, step: u64) -> Phase
    requires some { 1 ≤ steps }
    requires few { step ≤ 100000 }
    ensures { result ≡ phase_at steps step }
{
    phase_in_quarter(4 * step / steps)
}

impl Progress {
    /// Counts a step that was accepted or refused.
    fn count(&mut self, is_accepted: bool)
        requires few { (self.old.accepted ≤ 100000) × (self.old.refused ≤ 100000) }
        ensures { self.new ≡ record {
          dice = self.old.dice;
          accepted = self.old.accepted + (if is_accepted then 1 else 0);
          refused = self.old.refused + (if is_accepted then 0 else 1);
        } }
    {
        if is_accepted {
            self.accepted += 1;
        } else {
            self.refused += 1;
        }
    }
}

/// Takes a step in a phase.
///
/// # Errors
///
/// If memory runs out.
fn take_step(
    alloc: Global,
    book: &mut Book<PlainKeeper>,
    progress: &mut Progress,
    phase: Phase,
    step: u64,
) -> Result<(), AllocError>
    requires cast { HasCast book.old.log }
    requires seed { progress.old.dice.seed ≤ 4294967295 }
    requires few { step < 100000 }
    requires counts { (progress.old.accepted ≤ step) × (progress.old.refused ≤ step) }
    ensures stepped { OnOk result (drilled_of progress.new book.new.log
        ≡ stepped_in phase step (drilled_of progress.old book.old.log)) }
    ensures cast { HasCast book.new.log }
    ensures seed { progress.new.dice.seed ≤ 4294967295 }
    ensures counts { OnOk result ((progress.new.accepted ≤ step + 1) × (progress.new.refused ≤ step + 1)) }
{
    move_to(book, phase)?;
    let roll = progress.dice.roll(conference(book).papers);
    let operation = operation_in(phase, roll.operation);
    let command = command_of(alloc, operation, step, &roll)?;
    let is_accepted = ask_as(book, actor_of(operation, roll.user), command)?;
    progress.count(is_accepted);
    Ok(())
}

/// Takes so many steps from a seed.
///
/// # Errors
///
/// If memory runs out.
fn take_steps(
    alloc: Global,
    book: &mut Book<PlainKeeper>,
    seed: u64,
    steps: u64,
) -> Result<Progress, AllocError>
    requires opened { book.old.log ≡ opened }
    requires cast { HasCast book.old.log }
    requires seed { seed ≤ 4294967295 }
    requires steps { (1 ≤ steps) × (steps ≤ 100000) }
    ensures drilled { IfOk result (λ progress. drilled_of progress book.new.log ≡ drilled_for seed steps steps) }
    ensures cast { HasCast book.new.log }
{
    let mut progress = Progress {
        dice: Dice { seed },
        accepted: 0,
        refused: 0,
    };
    for step in 0..steps {
        take_step(alloc, book, &mut progress, phase_at(steps, step), step)?;
    }
    Ok(progress)
}

/// Makes a drill on an empty book, and gives its summary.
///
/// # Errors
///
/// If memory runs out.
#[tactic(auto, unfolding(crate::specs::Drill::drilled))]
fn run_on(
    alloc: Global,
    book: &mut Book<PlainKeeper>,
    seed: u64,
    steps: u64,
) -> Result<Vec<u8>, AllocError>
    requires empty { book.old.log ≡ [] }
    requires seed { seed ≤ 4294967295 }
    requires steps { (1 ≤ steps) × (steps ≤ 100000) }
    ensures { IfOk result (λ text. text.items ≡ summary steps (drilled seed steps)) }
{
    open(book)?;
    let progress = take_steps(alloc, book, seed, steps)?;
    move_to(book, Phase::Closed)?;
    summary(alloc, book, steps, progress)
}

/// Makes up commands from a seed, gives them to a book in memory, and returns what they come to: how many steps there
/// were, how many of them were accepted and refused, how many entries there are, of each kind, and in the view of each
/// user. Equal arguments give equal bytes.
///
/// # Errors
///
/// If memory runs out.
///
/// # Cost
///
/// Each step costs one command and a few look-ups; the summary costs a walk over the history for each kind and two for
/// each user.
pub fn run_drill(alloc: Global, seed: u64, steps: u64) -> Result<Vec<u8>, AllocError>
    requires seed { seed ≤ 4294967295 }
    requires steps { (1 ≤ steps) × (steps ≤ 100000) }
    ensures { IfOk result (λ text. text.items ≡ summary steps (drilled seed steps)) }
{
    let mut book = empty_book(alloc)?;
    let text = run_on(alloc, &mut book, seed, steps);
    let _keeper = book.close();
    text
}
