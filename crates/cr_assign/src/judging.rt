// SPDX-License-Identifier: Apache-2.0 OR MIT
//! The rules of assigning a reviewer and of taking one off a paper, of inviting somebody and of taking that back, a
//! function a list of checks, each of a paper that is there and of a user who has registered.
ghost use Rattle.std.specs.Prelude.{◌≡◌, ◌+◌, true, false, Some, None, unwrap_or};
ghost use Rattle.cr_base.specs.declared.words.Role.TheVariants.{Account};
ghost use Rattle.cr_base.specs.Checks.{judged, assign_checks, unassign_checks, invite_checks, uninvite_checks};
ghost use Rattle.cr_assign.specs.Targets.{target_with};

use cr_base::{MOST_LABELS, Ordinal, Role, Rule, Standing, Target};

/// Checks an assignment: of a member or an external of the paper who is unconflicted and doesn't review it. Returns
/// the label after the `labels` that were given.
pub(crate) fn assign(
    by: &Standing,
    withdrawn: bool,
    target: &Target,
    labels: u64,
) -> Result<Ordinal, Rule>
    ensures { result ≡ judged
        (assign_checks by.now (record { there = true; withdrawn = withdrawn }) (Some target.now) labels)
        (labels + 1) }
{
    match by.may_chair(withdrawn) {
        Ok(()) => {}
        Err(rule) => return Err(rule),
    }
    if !(target.role.is_member() || target.external) {
        return Err(Rule::NotAMember);
    }
    if target.conflicted {
        return Err(Rule::TargetConflict);
    }
    if target.reviewer {
        return Err(Rule::AlreadyAssigned);
    }
    if labels >= MOST_LABELS {
        return Err(Rule::LabelsSpent);
    }
    Ok(Ordinal::new(labels + 1))
}

/// Checks an unassignment: of the user who reviews the paper under the ordinal `held`, if no form is written under it.
/// Returns that ordinal.
pub(crate) fn unassign(
    by: &Standing,
    withdrawn: bool,
    has_form: bool,
    held: Option<Ordinal>,
) -> Result<Ordinal, Rule>
    ensures { result ≡ judged
        (unassign_checks by.now (record { there = true; withdrawn = withdrawn })
        (Some (target_with Account false held false)) has_form)
        (unwrap_or held 0) }
{
    match by.may_chair(withdrawn) {
        Ok(()) => {}
        Err(rule) => return Err(rule),
    }
    match held {
        Some(_) if has_form => Err(Rule::HasReview),
        Some(ordinal) => Ok(ordinal),
        None => Err(Rule::NotAssigned),
    }
}

/// Checks an invitation: of a user who is no member, is unconflicted, and isn't invited to the paper.
pub(crate) fn invite(
    by: &Standing,
    withdrawn: bool,
    role: Role,
    conflicted: bool,
    invited: bool,
) -> Result<(), Rule>
    ensures { result ≡ judged
        (invite_checks by.now (record { there = true; withdrawn = withdrawn })
        (Some (target_with role conflicted None false)) invited) tt }
{
    match by.may_chair(withdrawn) {
        Ok(()) => {}
        Err(rule) => return Err(rule),
    }
    if role.is_member() {
        return Err(Rule::IsMember);
    }
    if conflicted {
        return Err(Rule::TargetConflict);
    }
    if invited {
        return Err(Rule::AlreadyInvited);
    }
    Ok(())
}

/// Checks the end of an invitation: of a user who has one and doesn't review the paper; `held` is the ordinal under
/// which the user does.
pub(crate) fn uninvite(
    by: &Standing,
    withdrawn: bool,
    held: Option<Ordinal>,
    invited: bool,
) -> Result<(), Rule>
    ensures { result ≡ judged
        (uninvite_checks by.now (record { there = true; withdrawn = withdrawn })
        (Some (target_with Account false held false)) invited) tt }
{
    match by.may_chair(withdrawn) {
        Ok(()) => {}
        Err(rule) => return Err(rule),
    }
    if !invited {
        return Err(Rule::NotInvited);
    }
    if held.is_some() {
        return Err(Rule::StillAssigned);
    }
    Ok(())
}
