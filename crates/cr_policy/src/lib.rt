// SPDX-License-Identifier: Apache-2.0 OR MIT
//! Which parts of the history a user sees, and what follows: the visibility policy, the view that it selects,
//! judgement and answer by a view, and legal histories. Theorems that the program doesn't rest on are in crates of
//! their own.
//!
//! # Proved
//!
//! - A view tells its user's phase, mode, role and relations to any paper, and what is public: `law_standing`
//!   (`standing`, `public`).
//! - The tables judge every command and bulk, and answer every query, as the view does: `law_view_suffices`. Scope:
//!   legal histories; registered users, and unauthenticated callers if no authentication is required.
//! - Every legal history keeps the invariants that its comment lists, and shows a digest only to its user: `law_legal`
//!   (`invariants`, `own_digests`).
//! - What was accepted under a user's number can be read off their view: `law_retries` (`kept`, `once`); which users
//!   authors declared in conflict, off an author's: `law_declared`.
//! - Histories that [differ unseen](../../../docs/CLAIMS.md#what-may-differ-without-being-seen): `law_hidden_payload`
//!   (`stamps`), `law_removed`.
//! - Four small histories are legal, one of which goes on with a bulk: `law_witness`.
//!
//! # Not claimed
//!
//! - That the visibility policy is the right one. [Wrong ones](../../../checks/planted/README.md) were tried.
#![tactic(auto)]

ghost use Rattle.std.specs.Prelude.{ℕ, Option};
ghost use Rattle.cr_base.specs.History.{History};
ghost use Rattle.cr_policy.specs.HiddenPayload.{HiddenPayload, StampsUnseen, Removal};
ghost use Rattle.cr_policy.specs.Laws.{KeptFromView, NumbersOnce, StandingFromView, PublicFactsFromView};
ghost use Rattle.cr_policy.specs.Laws.{ViewSuffices, DeclaredFromView, LegalKeeps, DigestsAreOwn};
ghost use Rattle.cr_policy.specs.WitnessLaws.{TwoRegistrations, DigestsHidden, OneSubmission, OneConflict, OneBulk};

/// A view tells its user's phase, mode, role and relations to any paper. An author sees all authors of the paper, and
/// another user sees by the view that they are none. Each entry on a conflict of theirs is shown to them, and each by
/// which they are assigned, unassigned, invited or no longer. So the view tells whether they are in conflict, review,
/// or are an external.
///
/// What is public can be read off any view: the deadlines, whether the response was opened, the accounts with their
/// names and roles, the papers, and which of them are accepted. So can how many of the papers are the reader's own,
/// how many bytes they have uploaded, and how many comments they have written.
///
/// *Scope:* every history, legal or not; every user and an unauthenticated caller.
pub fn law_standing()
    ensures standing { StandingFromView }
    ensures public { (u : Option ℕ) (H : History) → PublicFactsFromView u H }
{}

/// Checks on the tables of a legal history give what the caller's view gives. Of every command and bulk: its broken
/// rule, with the number of a bulk's row that breaks one, or the entries that it adds and its receipt. Of every query:
/// its answer. Of a command or bulk with a number: what it comes to, by these and by what the history keeps of the
/// number. A bulk's rows are judged one after the other, each on the view with the entries of those before it, which
/// are the caller's own.
///
/// *Scope:* legal histories; every registered user, and an unauthenticated caller where no authentication is required.
pub fn law_view_suffices()
    ensures { ViewSuffices }
{}

/// The view of any of a paper's authors tells which users its authors declared in conflict with it. A view doesn't
/// name the actor of an entry that isn't the reader's own. But of the entries that it shows, an author's are those of
/// their own, those that name another user, and those from before the bidding.
///
/// *Scope:* legal histories.
pub fn law_declared()
    ensures { DeclaredFromView }
{}

/// What every legal history keeps (`invariants`); a history is legal if commands and bulks lead to it.
///
/// - Each entry is within its bounds, so that its row spells it, and fits the tables of what precedes it.
/// - A registration's actor is the new user; every other actor has registered before.
/// - Users, papers, versions and labels are numbered as they come, with at most 26 labels a paper; names are new.
/// - Phases follow each other, and the response may be left out. Appointing raises a role; dismissing ends a member's,
///   never the only chair's.
/// - Each entry is made in its phase by a user who may, except the first chair. Authors declare conflicts before the
///   bidding. Only members and externals of a paper are in declared conflict with it or assigned; no member is
///   invited.
/// - No command's or bulk's entries are cut off. All of them have one actor, one timestamp and one number.
///
/// So a view shows a digest only to its user (`own_digests`).
pub fn law_legal()
    ensures invariants { LegalKeeps }
    ensures own_digests { DigestsAreOwn }
{}

/// There are legal histories.
///
/// - `legal`, `hidden`: two registrations. An unauthenticated caller sees no digest, and the first user only their
///   own.
/// - `submitted`: it goes on with a submission. Before the bidding a chair sees only the paper's number, and its
///   author all of it.
/// - `conflict`: it goes on from there to the bidding, in the anonymous mode. The member that the author declared in
///   conflict sees no abstract; the other sees it, and not its authors.
/// - `bulk`: from there the chair goes on with a bulk, which assigns that member, unassigns him, assigns him anew
///   under another label, and tags the paper. A bulk that assigns him twice is refused for the second of these rows.
pub fn law_witness()
    ensures legal { TwoRegistrations }
    ensures hidden { DigestsHidden }
    ensures submitted { OneSubmission }
    ensures conflict { OneConflict }
    ensures bulk { OneBulk }
{}

/// Two histories that differ in nothing that a user is shown look the same to that user. Their entries are alike one
/// by one: of the same kind and on the same paper, with the same label, version, number and tag. What differs is a
/// part that the policy doesn't show the user, or the entry's actor or the user named, if the reader is neither. The
/// same papers are accepted; and of each conflict with a paper of the reader's own, an author of it declared it in
/// both or in neither (`payload`). Others may have made their entries at any other times and by any other numbers
/// (`stamps`).
///
/// *Scope:* any histories, legal or not; every user, and an unauthenticated caller.
pub fn law_hidden_payload()
    ensures payload { HiddenPayload }
    ensures stamps { StampsUnseen }
{}

/// A user sees the same with and without an entry that shows them nothing, if the same papers stay accepted. Another
/// entry may take its place, as the last of a paper's texts, say, or the first form under a label; it is shown no more
/// there than the one that was taken out.
///
/// *Scope:* any histories; every user, and an unauthenticated caller.
pub fn law_removed()
    ensures { Removal }
{}

/// A view tells what its user had accepted under the numbers of their commands: the request's digest, its receipt, and
/// how many entries it added (`kept`). On a legal history each number is that of one command's entries, which follow
/// one another (`once`).
pub fn law_retries()
    ensures kept { KeptFromView }
    ensures once { NumbersOnce }
{}
