// SPDX-License-Identifier: Apache-2.0 OR MIT
//! The rules of bidding, and of turning a conflict on and off, a function a list of checks.
ghost use Rattle.std.specs.Prelude.{◌≡◌, true};
ghost use Rattle.cr_base.specs.Checks.{judged, bid_checks, declare_checks, own_checks};
ghost use Rattle.cr_base.specs.Checks.{other_checks, on_checks, off_checks};

use cr_base::{Rule, Standing, Target};

/// Checks whether an unconflicted member may bid on a paper that is there: in the bidding, until it is too late.
pub(crate) fn bid(by: &Standing, withdrawn: bool, late: bool) -> Result<(), Rule>
    ensures { result ≡ judged (bid_checks by.now (record { there = true; withdrawn = withdrawn }) late) tt }
{
    match by.check_eligible() {
        Ok(()) => {}
        Err(rule) => return Err(rule),
    }
    if !by.phase.bids_are_taken() {
        return Err(Rule::WrongPhase);
    }
    if late {
        return Err(Rule::Late);
    }
    if withdrawn {
        return Err(Rule::Withdrawn);
    }
    Ok(())
}

/// Checks whether an author may declare the target, in setup and submission: a member, until it is too late.
fn declared(by: &Standing, withdrawn: bool, target: &Target, late: bool) -> Result<(), Rule>
    ensures { result ≡ judged (declare_checks by.now withdrawn target.now late) tt }
{
    if !by.author {
        return Err(Rule::NotAuthor);
    }
    if late {
        return Err(Rule::Late);
    }
    if withdrawn {
        return Err(Rule::Withdrawn);
    }
    if !target.role.is_member() {
        return Err(Rule::NotAMember);
    }
    Ok(())
}

/// Checks whether a member may declare themselves, from bidding to discussion.
fn own(by: &Standing, withdrawn: bool) -> Result<(), Rule>
    ensures { result ≡ judged (own_checks by.now withdrawn) tt }
{
    if !by.role.is_member() {
        return Err(Rule::NotMember);
    }
    if withdrawn {
        return Err(Rule::Withdrawn);
    }
    Ok(())
}

/// Checks whether an unconflicted chair may declare another member or an external of the paper, from bidding to
/// discussion.
fn other(by: &Standing, withdrawn: bool, target: &Target) -> Result<(), Rule>
    ensures { result ≡ judged (other_checks by.now withdrawn target.now) tt }
{
    if !by.role.is_chair() {
        return Err(Rule::NotChair);
    }
    if by.conflicted {
        return Err(Rule::Conflict);
    }
    if withdrawn {
        return Err(Rule::Withdrawn);
    }
    if !(target.role.is_member() || target.external) {
        return Err(Rule::NotAMember);
    }
    Ok(())
}

/// Checks whether the conflict may be turned on, by the phase, and by whether the caller names themselves.
pub(crate) fn on(by: &Standing, withdrawn: bool, target: &Target, late: bool) -> Result<(), Rule>
    ensures { result ≡ judged (on_checks by.now withdrawn target.now late) tt }
{
    if !by.phase.authors_have_declared() {
        return declared(by, withdrawn, target, late);
    }
    if by.phase.conflicts_are_final() {
        return Err(Rule::WrongPhase);
    }
    if target.herself {
        return own(by, withdrawn);
    }
    other(by, withdrawn, target)
}

/// Checks whether an unconflicted chair may turn it off, of a member or an external of the paper who is no author of
/// it.
pub(crate) fn off(by: &Standing, withdrawn: bool, target: &Target) -> Result<(), Rule>
    ensures { result ≡ judged (off_checks by.now withdrawn target.now) tt }
{
    match by.may_chair(withdrawn) {
        Ok(()) => {}
        Err(rule) => return Err(rule),
    }
    if !(target.role.is_member() || target.external) {
        return Err(Rule::NotAMember);
    }
    if target.author {
        return Err(Rule::AuthorConflict);
    }
    Ok(())
}
