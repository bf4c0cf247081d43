// SPDX-License-Identifier: Apache-2.0 OR MIT
//! The facts of a history: what the tables keep of it, and what stays true as it grows, whatever its users see.
//!
//! # Proved
//!
//! - If each entry fits in its turn, and co-authors come before any conflict with their paper, the tables have the
//!   facts of the history: `law_tables`. If the history keeps the invariants, they also have which forms count:
//!   `law_forms`.
//! - The empty history keeps the invariants, and what the rules let a command or a bulk's row add preserves them, and
//!   is never cut off: `law_growth` (`first`, `more`, `whole`).
//! - The tables keep at most as many records of a paper as any history has entries on it: `law_records` (`kept`,
//!   `declared`).
//!
//! # Assumed
//!
//! - The invariants are all that one would want.
#![tactic(auto)]

ghost use Rattle.std.specs.Prelude.{ℕ, ◌≤◌};
ghost use Rattle.cr_base.specs.History.{History};
ghost use Rattle.cr_base.specs.Tables.{tables_of};
ghost use Rattle.cr_history.specs.Laws.{TablesTell, FormsTell, GrowthKeeps};
ghost use Rattle.cr_history.specs.Records.{entries_on, records_on, records_declared};

/// The tables have the facts of the history.
///
/// - Of a user: phase, mode, role and relations to any paper; own papers and uploaded bytes.
/// - Accounts with their roles; who has a name, and who has it with a digest.
/// - Papers with titles, abstracts, authors and uploads; which are withdrawn, and which accepted.
/// - Conflicts, and those that authors declared; each user's last bid.
/// - Reviewers, the ordinal under which each reviews, how many labels were given and to which users; the forms under
///   each label.
/// - Comments, and how many each user has written; responses; tags; last decisions; deadlines; whether the response
///   was opened.
///
/// *Scope:* histories of which each entry fits in its turn, and co-authors come before any conflict with their paper.
pub fn law_tables()
    ensures { TablesTell }
{}

/// The tables tell which forms of a label the committee discusses, to which one authors respond, and which forms of a
/// paper a user has written.
///
/// *Scope:* histories that keep the invariants: phases only go on, and a user who has written a form stays a reviewer
/// under its label.
pub fn law_forms()
    ensures { FormsTell }
{}

/// The empty history keeps the invariants (`first`). A history that keeps them does so with a group that the rules let
/// a command add, and with an entry that they let a bulk's row add, if its texts are within their bounds and it fits
/// the tables in its turn (`more`). What a command adds is never cut off (`whole`).
pub fn law_growth()
    ensures { GrowthKeeps }
{}

/// The tables keep at most as many records of a paper as any history has entries on it. Counted together are its
/// authors, the conflicts with it that are on, its seats, invitations, last bids, forms, uploads and tags (`kept`; the
/// rows of a paper in HotCRP's schema), or in place of the conflicts those that authors declared (`declared`). So code
/// that reads each of these once reads no more of them than there are entries on this paper, however many there are on
/// others. Comments and the response aren't counted.
pub fn law_records()
    ensures kept { (p : ℕ) (H : History) → records_on p (tables_of H) ≤ entries_on p H }
    ensures declared { (p : ℕ) (H : History) → records_declared p (tables_of H) ≤ entries_on p H }
{}
