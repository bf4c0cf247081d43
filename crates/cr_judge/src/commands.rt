// SPDX-License-Identifier: Apache-2.0 OR MIT
//! What is judged by the tables.
ghost use Rattle.std.specs.Prelude.{◌≡◌, ◌≤◌, ◌==◌, IfOk, IsTrue, length, if◌then◌else◌};
ghost use Rattle.cr_base.specs.Calls.{resolved_by};
ghost use Rattle.cr_base.specs.Judging.{resolved_by_role};
ghost use Rattle.cr_base.specs.Resolving.{resolved_wants_login};
ghost use Rattle.cr_base.specs.Tables.{FitInTurn};
ghost use Rattle.cr_base.specs.declared.resolved.ResolvedCommand.TheVariants as commands;
ghost use Rattle.cr_judge.specs.Callers.{HasCaller};
ghost use Rattle.cr_judge.specs.Effects.{drawn_or_rule, group_of};
ghost use Rattle.cr_judge.specs.declared.effect.Rest.TheVariants as rests;

use crate::assigning::{assignment, bid, conflict, invitation, unassignment, uninvitation};
use crate::coauthors::coauthors;
use crate::effect::{Effect, Rest, alone, alone_or_rule};
use crate::named::{held, is_late};
use crate::writing::{comment, decision, response, review, tag};
use cr_base::{
    Blob, Coauthors, Deadline, Digest, Entry, Mode, Moment, PaperNo, Phase, ResolvedCall,
    ResolvedCommand, RetryKey, Role, Rule, Short, Stamp, Text, UserNo,
};
use cr_view::Live;

/// Returns what the caller's command comes to. There is a caller, except of a registration; a submission tells at most
/// 19 co-authors. The entries may be applied in their turn.
///
/// # Errors
///
/// The first broken rule of the command's list. Each table has its commands' lists: `register_check`, `judge_name` and
/// `judge_dismiss` of the accounts, `judge_phase`, `judge_mode` and `judge_deadline` of the stage, `judge_submit`,
/// `judge_revise`, `judge_upload` and `judge_withdraw` of the papers, `judge_conflict` and `judge_bid` of the ties,
/// `judge_assign`, `judge_unassign`, `judge_invite` and `judge_uninvite` of the seats, and `judge_review`,
/// `judge_comment`, `judge_respond`, `judge_tag` and `judge_decide`.
///
/// # Cost
///
/// Takes no memory: the command's texts and its content are moved. One look-up by name for a registration, and one
/// read by number for each user told. For a paper named, walks over its authors and seats, and binary searches among
/// its conflicts and invitations, for the caller and at most as much for a user told with it. An unassignment walks
/// over the paper's forms too; a review walks over them and once more over the seats; a comment once more over the
/// seats. All else is a few reads by number.
pub fn judge(live: &Live, call: ResolvedCall) -> Result<Effect, Rule>
    requires caller { HasCaller call }
    ensures drawn { drawn_or_rule live.now.tables.accounts result ≡ resolved_by_role live.now.tables call }
    ensures fits { IfOk result (λ effect. FitInTurn live.now.tables (group_of effect)) }
{
    live.law_within();
    effect_of(live, call)
}

/// Returns what a command comes to: a registration, which has no caller, or a user's.
fn effect_of(live: &Live, call: ResolvedCall) -> Result<Effect, Rule>
    requires caller { HasCaller call }
    ensures { drawn_or_rule live.now.tables.accounts result ≡ resolved_by_role live.now.tables call }
{
    let ResolvedCall {
        caller,
        at,
        key,
        command,
    } = call;
    match command {
        ResolvedCommand::Register { name, digest } => registration(live, at, key, name, digest),
        command => {
            let stamp = Stamp {
                maker: held(&caller),
                at,
                key,
            };
            user_effect_of(live, &stamp, command)
        }
    }
}

/// Returns what the command of the user whose stamp this is comes to, by the function of its kind.
fn user_effect_of(live: &Live, stamp: &Stamp, command: ResolvedCommand) -> Result<Effect, Rule>
    requires login { IsTrue (resolved_wants_login command) }
    ensures { drawn_or_rule live.now.tables.accounts result
        ≡ resolved_by_role live.now.tables (resolved_by stamp.now command) }
{
    match command {
        ResolvedCommand::Register { .. } => unreachable!(),
        ResolvedCommand::SetPhase { phase: to } => phase(live, stamp, to),
        ResolvedCommand::Submit {
            title,
            abstract_,
            authors,
        } => submission(live, stamp, title, abstract_, authors),
        ResolvedCommand::Revise {
            paper,
            title,
            abstract_,
        } => revision(live, stamp, &paper, title, abstract_),
        ResolvedCommand::Upload { paper, content } => upload(live, stamp, &paper, content),
        ResolvedCommand::Withdraw { paper } => withdrawal(live, stamp, &paper),
        ResolvedCommand::Name { user, role } => naming(live, stamp, &user, role),
        ResolvedCommand::SetMode { mode: to } => mode(live, stamp, to),
        ResolvedCommand::SetConflict { paper, user, on } => {
            alone_or_rule(stamp, conflict(live, stamp, &paper, &user, on, &[]))
        }
        ResolvedCommand::Bid { paper, value } => bid(live, stamp, &paper, value),
        ResolvedCommand::Assign { paper, user, kind } => {
            alone_or_rule(stamp, assignment(live, stamp, &paper, &user, kind, &[]))
        }
        ResolvedCommand::Unassign { paper, user } => {
            alone_or_rule(stamp, unassignment(live, stamp, &paper, &user, &[]))
        }
        ResolvedCommand::Review { paper, form } => review(live, stamp, &paper, form),
        ResolvedCommand::Respond { paper, text } => response(live, stamp, &paper, text),
        ResolvedCommand::Comment { paper, text } => comment(live, stamp, &paper, text),
        ResolvedCommand::Tag {
            paper,
            tag: text,
            on,
        } => alone_or_rule(stamp, tag(live, stamp, &paper, text, on, &[])),
        ResolvedCommand::Decide {
            paper,
            decision: made,
        } => decision(live, stamp, &paper, made),
        ResolvedCommand::SetDeadline { phase, until } => deadline(live, stamp, phase, until),
        ResolvedCommand::Dismiss { user } => dismissal(live, stamp, &user),
        ResolvedCommand::Invite { paper, user } => invitation(live, stamp, &paper, &user),
        ResolvedCommand::Uninvite { paper, user } => uninvitation(live, stamp, &paper, &user),
    }
}

fn registration(
    live: &Live,
    at: Moment,
    key: Option<RetryKey>,
    name: Short,
    digest: Digest,
) -> Result<Effect, Rule>
    ensures { drawn_or_rule live.now.tables.accounts result ≡ resolved_by_role live.now.tables
        (record { caller = None; at = at; key = key; command = commands.Register name digest }) }
{
    let user = live.account_table().register_check(&name)?;
    Ok(Effect {
        stamp: Stamp {
            maker: user,
            at,
            key,
        },
        first: Entry::Registered { user, name, digest },
        rest: behind_registration(user),
    })
}

/// Returns what follows this user's registration: the first user becomes a chair.
fn behind_registration(user: UserNo) -> Rest
    ensures { result ≡ (if user == 1 then rests.FirstChair user else rests.Nothing) }
{
    if user.number() == 1 {
        Rest::FirstChair { user }
    } else {
        Rest::Nothing
    }
}

fn phase(live: &Live, stamp: &Stamp, to: Phase) -> Result<Effect, Rule>
    ensures { drawn_or_rule live.now.tables.accounts result
        ≡ resolved_by_role live.now.tables (resolved_by stamp.now (commands.SetPhase to)) }
{
    let by = live.standing(&Some(stamp.maker), &None);
    live.stage_table().judge_phase(&by, to)?;
    Ok(alone(stamp, Entry::PhaseSet { phase: to }))
}

fn submission(
    live: &Live,
    stamp: &Stamp,
    title: Text,
    abstract_: Text,
    authors: Option<Coauthors>,
) -> Result<Effect, Rule>
    ensures { drawn_or_rule live.now.tables.accounts result
        ≡ resolved_by_role live.now.tables (resolved_by stamp.now (commands.Submit title abstract_ authors)) }
{
    let users = coauthors(live, stamp.maker, &authors);
    let by = live.standing(&Some(stamp.maker), &None);
    let late = is_late(live, stamp);
    let paper = live
        .paper_table()
        .judge_submit(&by, stamp.maker, users.is_some(), late)?;
    Ok(Effect {
        stamp: *stamp,
        first: Entry::Submitted {
            paper,
            title,
            abstract_,
        },
        rest: Rest::Coauthors {
            paper,
            users: users.unwrap(),
        },
    })
}

fn naming(live: &Live, stamp: &Stamp, user: &Option<UserNo>, role: Role) -> Result<Effect, Rule>
    ensures { drawn_or_rule live.now.tables.accounts result
        ≡ resolved_by_role live.now.tables (resolved_by stamp.now (commands.Name user.now role)) }
{
    let by = live.standing(&Some(stamp.maker), &None);
    live.account_table().judge_name(&by, user, role)?;
    let user = held(user);
    Ok(alone(stamp, Entry::Named { user, role }))
}

fn dismissal(live: &Live, stamp: &Stamp, user: &Option<UserNo>) -> Result<Effect, Rule>
    ensures { drawn_or_rule live.now.tables.accounts result
        ≡ resolved_by_role live.now.tables (resolved_by stamp.now (commands.Dismiss user.now)) }
{
    let by = live.standing(&Some(stamp.maker), &None);
    live.account_table().judge_dismiss(&by, user)?;
    let user = held(user);
    Ok(alone(stamp, Entry::Dismissed { user }))
}

fn mode(live: &Live, stamp: &Stamp, to: Mode) -> Result<Effect, Rule>
    ensures { drawn_or_rule live.now.tables.accounts result
        ≡ resolved_by_role live.now.tables (resolved_by stamp.now (commands.SetMode to)) }
{
    let by = live.standing(&Some(stamp.maker), &None);
    live.stage_table().judge_mode(&by)?;
    Ok(alone(stamp, Entry::ModeSet { mode: to }))
}

fn deadline(
    live: &Live,
    stamp: &Stamp,
    phase: Phase,
    until: Option<Deadline>,
) -> Result<Effect, Rule>
    ensures { drawn_or_rule live.now.tables.accounts result
        ≡ resolved_by_role live.now.tables (resolved_by stamp.now (commands.SetDeadline phase until)) }
{
    let by = live.standing(&Some(stamp.maker), &None);
    live.stage_table().judge_deadline(&by, phase)?;
    Ok(alone(stamp, Entry::DeadlineSet { phase, until }))
}

fn revision(
    live: &Live,
    stamp: &Stamp,
    paper: &Option<PaperNo>,
    title: Text,
    abstract_: Text,
) -> Result<Effect, Rule>
    ensures { drawn_or_rule live.now.tables.accounts result
        ≡ resolved_by_role live.now.tables (resolved_by stamp.now (commands.Revise paper.now title abstract_)) }
{
    let by = live.standing(&Some(stamp.maker), paper);
    let late = is_late(live, stamp);
    live.paper_table().judge_revise(&by, paper, late)?;
    let paper = held(paper);
    Ok(alone(
        stamp,
        Entry::Revised {
            paper,
            title,
            abstract_,
        },
    ))
}

fn upload(
    live: &Live,
    stamp: &Stamp,
    paper: &Option<PaperNo>,
    content: Blob,
) -> Result<Effect, Rule>
    ensures { drawn_or_rule live.now.tables.accounts result
        ≡ resolved_by_role live.now.tables (resolved_by stamp.now (commands.Upload paper.now content)) }
{
    let by = live.standing(&Some(stamp.maker), paper);
    let bytes = content.as_slice().len() as u64;
    let late = is_late(live, stamp);
    let version = live
        .paper_table()
        .judge_upload(&by, stamp.maker, paper, bytes, late)?;
    let paper = held(paper);
    Ok(alone(
        stamp,
        Entry::Uploaded {
            paper,
            version,
            content,
        },
    ))
}

fn withdrawal(live: &Live, stamp: &Stamp, paper: &Option<PaperNo>) -> Result<Effect, Rule>
    ensures { drawn_or_rule live.now.tables.accounts result
        ≡ resolved_by_role live.now.tables (resolved_by stamp.now (commands.Withdraw paper.now)) }
{
    let by = live.standing(&Some(stamp.maker), paper);
    let late = is_late(live, stamp);
    live.paper_table().judge_withdraw(&by, paper, late)?;
    let paper = held(paper);
    Ok(alone(stamp, Entry::Withdrawn { paper }))
}
