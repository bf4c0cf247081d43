// SPDX-License-Identifier: Apache-2.0 OR MIT
//! Which keys of a paper's page a caller is told, by their standing at the paper.
ghost use Rattle.std.specs.Prelude.{◌≡◌, IfOk, Some};
ghost use Rattle.std.specs.Option.{option_copied};
ghost use Rattle.cr_base.specs.Lists.{listed};
ghost use Rattle.cr_base.specs.Page.{gets_title, gets_abstract, gets_conflict, gets_conflicts};
ghost use Rattle.cr_base.specs.Page.{gets_declared, gets_versions, gets_withdrawn};
ghost use Rattle.cr_base.specs.Page.{is_clear_chair, is_clear_member, gets_bid, gets_bids, gets_label};
ghost use Rattle.cr_base.specs.Page.{gets_reviewers, gets_tags, gets_decision, where_told};

use cr_anonymity::shows_reviewer;
use cr_base::{Kind, Standing, Text, Versions};
use std::alloc::{AllocError, Global};

/// Returns whether the user is told the title: authors; from bidding on members, and unconflicted externals; everyone
/// where the paper is accepted.
pub(crate) fn gets_title(by: &Standing, accepted: bool) -> bool
    ensures { result ≡ gets_title by.now accepted }
{
    by.author
        || (by.role.is_member() && by.phase.members_see_papers())
        || (by.is_clear_external() && by.phase.members_see_papers())
        || accepted
}

/// Returns whether the user is told the abstract: authors; from bidding on members and unconflicted externals;
/// everyone where the paper is published.
pub(crate) fn gets_abstract(by: &Standing, accepted: bool) -> bool
    ensures { result ≡ gets_abstract by.now accepted }
{
    by.author || (by.reads_paper() && by.phase.members_see_papers()) || by.phase.publishes(accepted)
}

/// Returns whether the user is told if the user is in conflict: members, externals and authors.
fn gets_conflict(by: &Standing) -> bool
    ensures { result ≡ gets_conflict by.now }
{
    by.is_admitted() || by.author
}

/// Returns whether the user is in conflict with the paper, if the user is told that.
pub(crate) fn conflict_told(by: &Standing) -> Option<bool>
    ensures { result ≡ where_told (gets_conflict by.now) (Some by.now.conflicted) }
{
    if gets_conflict(by) {
        Some(by.conflicted)
    } else {
        None
    }
}

/// Returns whether the user is told who is declared in conflict with the paper: from bidding on unconflicted chairs.
pub(crate) fn gets_conflicts(by: &Standing) -> bool
    ensures { result ≡ gets_conflicts by.now }
{
    by.is_clear_chair() && by.phase.chairs_see_conflicts()
}

/// Returns whether the user is told the users that the authors declared: authors are.
pub(crate) fn gets_declared(by: &Standing) -> bool
    ensures { result ≡ gets_declared by.now }
{
    by.author
}

/// Returns whether the user is told the versions: authors; from bidding on members and unconflicted externals;
/// everyone where the paper is published.
pub(crate) fn gets_versions(by: &Standing, accepted: bool) -> bool
    ensures { result ≡ gets_versions by.now accepted }
{
    by.author || (by.reads_paper() && by.phase.members_see_papers()) || by.phase.publishes(accepted)
}

/// Returns whether the user is told if the paper is withdrawn: authors; from bidding on members, and unconflicted
/// externals.
fn gets_withdrawn(by: &Standing) -> bool
    ensures { result ≡ gets_withdrawn by.now }
{
    by.author
        || (by.role.is_member() && by.phase.members_see_papers())
        || (by.is_clear_external() && by.phase.members_see_papers())
}

/// Returns whether the paper is withdrawn, if the user is told that.
pub(crate) fn withdrawn_told(by: &Standing, withdrawn: bool) -> Option<bool>
    ensures { result ≡ where_told (gets_withdrawn by.now) (Some withdrawn) }
{
    if gets_withdrawn(by) {
        Some(withdrawn)
    } else {
        None
    }
}

/// Returns whether the user is told their own bid: from bidding on unconflicted members.
pub(crate) fn gets_bid(by: &Standing) -> bool
    ensures { result ≡ gets_bid by.now }
{
    by.is_clear_member() && by.phase.members_see_own_bids()
}

/// Returns whether the user is told all bids: from bidding on unconflicted chairs.
pub(crate) fn gets_bids(by: &Standing) -> bool
    ensures { result ≡ gets_bids by.now }
{
    by.is_clear_chair() && by.phase.chairs_see_bids()
}

/// Returns whether the user is told their own label: reviewers of the paper who are members or externals and not in
/// conflict.
pub(crate) fn gets_label(by: &Standing) -> bool
    ensures { result ≡ gets_label by.now }
{
    by.reads_paper() && by.reviewer
}

/// Returns whether the user is told who reviews, each by their label at least: a user who is shown their names, and
/// from discussion on unconflicted members.
pub(crate) fn gets_reviewers(by: &Standing) -> bool
    ensures { result ≡ gets_reviewers by.now }
{
    shows_reviewer(by) || (by.is_clear_member() && by.phase.members_see_reviewers())
}

/// Returns whether the user is told the tags: from bidding on unconflicted members.
pub(crate) fn gets_tags(by: &Standing) -> bool
    ensures { result ≡ gets_tags by.now }
{
    by.is_clear_member() && by.phase.committee_sees_tags()
}

/// Returns whether a reviewer has written a review, if the user is told that: unconflicted chairs.
pub(crate) fn done_told(by: &Standing, written: bool) -> Option<bool>
    ensures { result ≡ where_told (is_clear_chair by.now) (Some written) }
{
    if by.is_clear_chair() {
        Some(written)
    } else {
        None
    }
}

/// Returns what a reviewer is to the paper, if the user is told that: unconflicted members.
pub(crate) fn kind_told(by: &Standing, kind: Kind) -> Option<Kind>
    ensures { result ≡ where_told (is_clear_member by.now) (Some kind) }
{
    if by.is_clear_member() {
        Some(kind)
    } else {
        None
    }
}

/// Returns whether the user is told the decision: from discussion on unconflicted members; from notification on
/// authors; everyone where the paper is accepted.
pub(crate) fn gets_decision(by: &Standing, accepted: bool) -> bool
    ensures { result ≡ gets_decision by.now accepted }
{
    (by.is_clear_member() && by.phase.members_read_decisions())
        || (by.author && by.phase.authors_read_decisions())
        || accepted
}

/// Returns the text, shared, if it is told.
///
/// # Errors
///
/// If memory runs out.
pub(crate) fn shared_where(told: bool, text: Option<&Text>) -> Result<Option<Text>, AllocError>
    ensures { IfOk result (λ copied. copied ≡ where_told told (option_copied text.entry)) }
{
    if !told {
        return Ok(None);
    }
    shared(text)
}

/// Returns the text, shared, where there is one.
///
/// # Errors
///
/// If memory runs out.
pub(crate) fn shared(text: Option<&Text>) -> Result<Option<Text>, AllocError>
    ensures { IfOk result (λ copied. copied ≡ option_copied text.entry) }
{
    match text {
        Some(text) => Ok(Some(text.copy()?)),
        None => Ok(None),
    }
}

/// Returns only the last version, or none if there is none.
///
/// # Errors
///
/// If memory runs out.
pub(crate) fn last_alone(alloc: Global, last: Option<u64>) -> Result<Versions, AllocError>
    ensures { IfOk result (λ versions. versions ≡ listed last) }
{
    let mut numbers = Vec::new(alloc);
    if let Some(version) = last {
        numbers.push(version)?;
    }
    Ok(Versions::from_vec(numbers))
}
