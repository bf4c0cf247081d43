// SPDX-License-Identifier: Apache-2.0 OR MIT
//! Whom the names on a paper are shown to.
ghost use Rattle.std.specs.Prelude.{◌≡◌};
ghost use Rattle.cr_base.specs.Page.{shows_author, shows_reviewer, shows_writer};

use cr_base::Standing;

/// Returns whether a caller is told who wrote a paper: to authors always; from bidding on to unconflicted chairs, and
/// to such members and externals unless the mode is anonymous; to everyone where the paper is accepted. `by` is the
/// caller's standing at the paper.
///
/// # Cost
///
/// Takes no memory.
pub fn shows_author(by: &Standing, accepted: bool) -> bool
    ensures { result ≡ shows_author by.now accepted }
{
    by.author
        || (by.is_clear_chair() && by.phase.committee_sees_authors())
        || (by.reads_paper() && !by.mode.is_anonymous() && by.phase.committee_sees_authors())
        || accepted
}

/// Returns whether a caller is told who reviews a paper: from bidding on to unconflicted chairs; from discussion to
/// such members unless the mode is anonymous; from notification to authors in the open mode. `by` is the caller's
/// standing at the paper.
///
/// # Cost
///
/// Takes no memory.
pub fn shows_reviewer(by: &Standing) -> bool
    ensures { result ≡ shows_reviewer by.now }
{
    (by.is_clear_chair() && by.phase.chairs_see_reviewers())
        || (by.is_clear_member() && !by.mode.is_anonymous() && by.phase.members_see_reviewers())
        || (by.author && by.mode.is_overt() && by.phase.authors_see_reviewers())
}

/// Returns whether a caller is told who wrote a comment on a paper: from discussion to unconflicted chairs, and to
/// such members unless the mode is anonymous. `by` is the caller's standing at the paper.
///
/// # Cost
///
/// Takes no memory.
pub fn shows_writer(by: &Standing) -> bool
    ensures { result ≡ shows_writer by.now }
{
    by.is_clear_member()
        && (by.role.is_chair() || !by.mode.is_anonymous())
        && by.phase.members_read_comments()
}
