// SPDX-License-Identifier: Apache-2.0 OR MIT
//! Who takes part in a drill, and the commands that its steps make up.
ghost use Rattle.std.specs.Prelude.{◌≡◌, ◌≤◌, ◌+◌, IfOk, codes};
ghost use Rattle.cr_drill.specs.Cast.{operation_in, actor_of, cast_digest, cast_name, chair_for};
ghost use Rattle.cr_drill.specs.Cast.{command_of, decision_of, first_chair, form_of, is_chairs, is_even};
ghost use Rattle.cr_drill.specs.Cast.{second_chair, step_title, submission_at};

use crate::dice::Roll;
use cr_base::{
    Bid, Blob, Command, Decision, Form, Grade, Kind, Phase, Short, Tag, Text, ToldNames, UserNo,
};
use itoa::Buffer;
use sha2::{Digest, Sha256};
use std::alloc::{AllocError, Global};

/// What a step may do.
#[derive(Clone, Copy, PartialEq, Eq)]
pub enum Operation {
    /// The user drawn tells that somebody is in conflict with the paper.
    Declare,
    /// A chair tells that somebody isn't any longer.
    Clear,
    /// The user uploads a content to the paper.
    Upload,
    /// The user submits a paper.
    Submit,
    /// The user bids on the paper.
    Bid,
    /// The user tags the paper.
    Tag,
    /// A chair assigns somebody to the paper.
    Assign,
    /// A chair takes somebody off the paper.
    Unassign,
    /// The user reviews the paper.
    Review,
    /// The user comments on the paper.
    Comment,
    /// A chair decides on the paper.
    Decide,
}

/// Returns the name of one of the eight: `u` and the number's digit.
pub(crate) fn cast_name(user: UserNo) -> Short
    requires { user ≤ 8 }
    ensures { result ≡ cast_name user }
{
    Short::from_slice([b'u', b'0' + user.number() as u8].as_slice())
}

/// Returns the digest of the secret of one of the eight: their name and `-secret-000001`.
#[tactic(auto, unfolding(crate::specs::Cast::cast_digest))]
pub(crate) fn cast_digest(user: UserNo) -> cr_base::Digest
    requires { user ≤ 8 }
    ensures { result ≡ cast_digest user }
{
    let mut secret = *b"u0-secret-000001";
    secret[1] = b'0' + user.number() as u8;
    Sha256::digest(secret.as_slice())
}

/// Returns the operation of a number from 0 to 3 in a phase.
pub(crate) fn operation_in(phase: Phase, number: u64) -> Operation
    ensures { result ≡ operation_in phase number }
{
    match (phase, number) {
        (Phase::Submission, 0) => Operation::Declare,
        (Phase::Submission, 1) => Operation::Upload,
        (Phase::Submission, _) => Operation::Submit,
        (Phase::Bidding, 0) => Operation::Bid,
        (Phase::Bidding, 1) => Operation::Tag,
        (Phase::Bidding, _) | (Phase::Reviewing, 0) => Operation::Assign,
        (Phase::Reviewing, 1) => Operation::Unassign,
        (Phase::Reviewing, _) => Operation::Review,
        (_, 0) => Operation::Comment,
        (_, 1) => Operation::Review,
        (_, 2) => Operation::Decide,
        _ => Operation::Clear,
    }
}

impl Operation {
    /// Returns whether a chair does it in place of the user drawn.
    fn is_chairs(self) -> bool
        ensures { result ≡ is_chairs self }
    {
        match self {
            Operation::Assign | Operation::Unassign | Operation::Decide | Operation::Clear => true,
            Operation::Declare
            | Operation::Upload
            | Operation::Submit
            | Operation::Bid
            | Operation::Tag
            | Operation::Review
            | Operation::Comment => false,
        }
    }
}

/// Returns whether a user's number is even.
fn is_even(user: UserNo) -> bool
    ensures { result ≡ is_even user }
{
    user.number() % 2 == 0
}

/// Returns who names the others and moves the conference on.
pub(crate) fn first_chair() -> UserNo
    ensures { result ≡ first_chair }
{
    UserNo::new(1)
}

/// Returns the other chair.
fn second_chair() -> UserNo
    ensures { result ≡ second_chair }
{
    UserNo::new(2)
}

/// Returns the chair who acts in place of a user.
fn chair_for(user: UserNo) -> UserNo
    ensures { result ≡ chair_for user }
{
    if is_even(user) {
        first_chair()
    } else {
        second_chair()
    }
}

/// Returns who takes an operation where this user is drawn: one of the eight.
pub(crate) fn actor_of(operation: Operation, user: UserNo) -> UserNo
    ensures { result ≡ actor_of operation user }
{
    if operation.is_chairs() {
        chair_for(user)
    } else {
        user
    }
}

/// Returns a submission's title, `T` and the number of its step.
///
/// # Errors
///
/// If memory runs out.
fn step_title(alloc: Global, step: u64) -> Result<Text, AllocError>
    ensures { IfOk result (λ title. title ≡ step_title step) }
{
    let mut digits = Buffer::new();
    let mut title = String::new(alloc);
    title.push_str("T")?;
    title.push_str(digits.format(step))?;
    Text::from_str(alloc, title.as_str())
}

/// Returns a submission without abstract and co-authors.
///
/// # Errors
///
/// If memory runs out.
fn submission_at(alloc: Global, step: u64) -> Result<Command, AllocError>
    ensures { IfOk result (λ command. command ≡ submission_at step) }
{
    let title = step_title(alloc, step)?;
    let abstract_ = Text::from_str(alloc, "")?;
    Ok(Command::Submit {
        title,
        abstract_,
        authors: ToldNames::from_vec(Vec::new(alloc)),
    })
}

/// Returns a review that says little.
///
/// # Errors
///
/// If memory runs out.
fn form_of(alloc: Global, other: UserNo) -> Result<Form, AllocError>
    ensures { IfOk result (λ form. form ≡ form_of other) }
{
    let to_authors = Text::from_str(alloc, "a")?;
    let to_pc = Text::from_str(alloc, "b")?;
    Ok(Form {
        score: Grade::new(1 + other.number() % 5),
        confidence: Grade::new(3),
        to_authors,
        to_pc,
    })
}

/// Returns what is decided where this user is drawn.
fn decision_of(other: UserNo) -> Decision
    ensures { result ≡ decision_of other }
{
    if is_even(other) {
        Decision::Accept
    } else {
        Decision::Reject
    }
}

/// Returns the bid that is their number less 4.
fn bid_of(other: UserNo) -> Bid
    requires { other ≤ 8 }
    ensures { result ≡ 16 + other }
{
    match Bid::from_value(other.number() as i64 - 4) {
        Some(bid) => bid,
        None => unreachable!(),
    }
}

/// Returns the one tag of a drill.
fn hot() -> Tag
    ensures { result ≡ codes "hot" }
{
    match Tag::read(b"hot") {
        Some(tag) => tag,
        None => unreachable!(),
    }
}

/// Returns the command of an operation, by the number of its step and what was drawn.
///
/// # Errors
///
/// If memory runs out.
pub(crate) fn command_of(
    alloc: Global,
    operation: Operation,
    step: u64,
    roll: &Roll,
) -> Result<Command, AllocError>
    requires { roll.now.other ≤ 8 }
    ensures { IfOk result (λ command. command ≡ command_of operation step roll.now) }
{
    let paper = Some(roll.paper);
    let user = Some(cast_name(roll.other));
    match operation {
        Operation::Declare => Ok(Command::SetConflict {
            paper,
            user,
            on: true,
        }),
        Operation::Clear => Ok(Command::SetConflict {
            paper,
            user,
            on: false,
        }),
        Operation::Upload => {
            let content = Blob::from_slice(alloc, b"x")?;
            Ok(Command::Upload { paper, content })
        }
        Operation::Submit => submission_at(alloc, step),
        Operation::Bid => Ok(Command::Bid {
            paper,
            value: bid_of(roll.other),
        }),
        Operation::Tag => Ok(Command::Tag {
            paper,
            tag: hot(),
            on: true,
        }),
        Operation::Assign => Ok(Command::Assign {
            paper,
            user,
            kind: Kind::Pc,
        }),
        Operation::Unassign => Ok(Command::Unassign { paper, user }),
        Operation::Review => {
            let form = form_of(alloc, roll.other)?;
            Ok(Command::Review { paper, form })
        }
        Operation::Comment => {
            let text = Text::from_str(alloc, "c")?;
            Ok(Command::Comment { paper, text })
        }
        Operation::Decide => Ok(Command::Decide {
            paper,
            decision: decision_of(roll.other),
        }),
    }
}
