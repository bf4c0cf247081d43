// SPDX-License-Identifier: Apache-2.0 OR MIT
//! Theorems over the definitions of several crates, which no crate uses.
//!
//! # Proved
//!
//! - What [may differ without being seen](../../../docs/CLAIMS.md#what-may-differ-without-being-seen), over runs:
//!   `law_hidden_bytes`; and what authors may read of reviews up to the notification: `law_response_bytes`.
//! - The search asked for is exactly what the grammar says of its text: `law_searches_spelt` (`read`, `wished`).
//! - [Runs of a group](../../../docs/CLAIMS.md#the-main-claims), for all together and for each: `law_group_runs`.
//! - What can't be ruled out by all answers to a group, [in bytes](../../../docs/CLAIMS.md#in-bytes):
//!   `law_undeducible_bytes`, `law_twins_bytes`. Histories that a run could have ended in, by all that a group was
//!   answered: `law_another_run`.
//! - The user that `law_twins` of cr_undeduced speaks of must be neither twin, by a pair of histories:
//!   `law_twins_needed`.
//! - A plan's text, posted as a bulk by the chair who was told it with nothing between, spells rows that the rules
//!   accept: `law_plan_posted`.
#![tactic(auto)]

ghost use Rattle.cr_laws.specs.GroupRuns.{TwoRunsOfGroup, EachHearsAlike};
ghost use Rattle.cr_laws.specs.HiddenBytes.{HiddenBytes};
ghost use Rattle.cr_laws.specs.PlanPosted.{PlanPosted};
ghost use Rattle.cr_laws.specs.ResponseBytes.{ResponseBytes};
ghost use Rattle.cr_laws.specs.RunsEndSo.{RunsEndSo};
ghost use Rattle.cr_laws.specs.SearchesSpelt.{ReadsAsSpelt, WishesAsSpelt};
ghost use Rattle.cr_laws.specs.TwinsBytes.{TwinsHeard};
ghost use Rattle.cr_laws.specs.TwinsNeeded.{TwinsNeeded};
ghost use Rattle.cr_laws.specs.UndeducibleBytes.{OthersHeard, ShorterHeard};

/// The text of a plan that a chair is told, posted by that chair as a bulk with nothing between, spells rows that are
/// accepted.
///
/// *Scope:* legal histories; any timestamp, with a number or without.
pub fn law_plan_posted()
    ensures { PlanPosted }
{}

/// Take two runs in which a user's requests, their timestamps, and which answers close the user's connections are the
/// same. If before each request the histories differ only in what the user isn't shown, the answers agree byte for
/// byte. The histories meet the four conditions of `law_hidden_payload` of cr_policy, or one is the other without
/// entries that show the user nothing, or several such steps lead from one to the other.
///
/// *Scope:* any requests by others.
pub fn law_hidden_bytes()
    ensures { HiddenBytes }
{}

/// Take two runs in which a user's requests, their timestamps, and which answers close the user's connections are the
/// same. The answers agree byte for byte if before each request the histories differ only in forms on the user's
/// papers, by others, of which the user is told nothing. Up to the notification that is the score, the confidence and
/// the texts of those that aren't the last of their label before the response, and whether there is one that was
/// written after it was opened. They may differ as for `law_hidden_bytes` too, in several such steps.
///
/// *Scope:* any requests by others.
pub fn law_response_bytes()
    ensures { ResponseBytes }
{}

/// A request's search is what the grammar says of its text: the steps of the tree that the text spells, or a bad query
/// at the offset at which the text is bad.
pub fn law_searches_spelt()
    ensures read { ReadsAsSpelt }
    ensures wished { WishesAsSpelt }
{}

/// Take two runs that agree in what a group of users request, at which timestamps and in which order, in which answers
/// close a connection of theirs, and in what each sees at each of their own requests. Their answers agree byte for
/// byte, in that order (`together`). So they learn nothing more of what none of them is shown by telling each other
/// all their answers. If a group's answers agree, so do each member's (`each`).
///
/// *Scope:* any opening histories; any requests by others; any group, which may have an unauthenticated caller. *Not
/// claimed:* runs in which something accepted is lost.
pub fn law_group_runs()
    ensures together { TwoRunsOfGroup }
    ensures each { EachHearsAlike }
{}

/// Whatever a group asks, all their answers could have come from a conference in which all values that they weren't
/// shown were others. Take a run that a legal history opens, a group, and for each place of the run's last history any
/// other payload (`Payload`). There is another such run in which the group makes the same requests, at the same
/// timestamps and in the same order, and gets the same bytes. It ends with these payloads, as in `law_undeducible` of
/// cr_undeduced, wherever none of the group was shown the part, each looking whenever they ask.
///
/// These stay: timestamps; the entries that one of the group made, since they know what they asked; and the digests of
/// secrets, since a guess at one that failed could be right of another. No command of others has a number, since its
/// request digest would be another's.
///
/// - `quota`: by the other payloads no user has uploaded more than 64 MiB.
/// - `shorter`: instead no content is longer than the one that it replaces.
///
/// *Scope:* payloads within the bounds of commands. *Not claimed:* which other requests the other run has, except for
/// what they add; runs in which something accepted is lost (503, 507).
pub fn law_undeducible_bytes()
    ensures quota { OthersHeard }
    ensures shorter { ShorterHeard }
{}

/// Which histories a run could have ended in, by all that a group was answered: each legal one that looks the same to
/// one of the group whenever they ask, that has what they did and all registrations in the same places, and in which
/// commands end in the same places. For each there is another run that a legal history opens and that ends in it, in
/// which the group makes the same requests, at the same timestamps and in the same order, and gets the same bytes.
/// Others request there what they did in it, each by the name and digest with which they registered. So a theorem on
/// histories that look the same holds of requests and their answers.
///
/// *Not claimed:* the bytes of others' requests, since a number's request digest is that of some request; runs in
/// which something accepted is lost.
pub fn law_another_run()
    ensures { RunsEndSo }
{}

/// Two users of one role, of whom neither wrote a paper, may have had each other's place at it, by all that a group is
/// answered. Take a run that a legal history opens, and whose last history has two twins at the paper by `law_twins`
/// of cr_undeduced. There is another, which ends in the history in which they have changed places, and in which the
/// group makes the same requests, at the same timestamps and in the same order, and gets the same bytes.
///
/// *Scope:* neither of the two is of the group; no entry of the group's names them at the paper; and whenever one of
/// the group asks, they are shown neither the actor of what changes hands nor the user that it names. *Not claimed:*
/// the bytes of others' requests, as in `law_another_run`; runs in which something accepted is lost.
pub fn law_twins_bytes()
    ensures { TwinsHeard }
{}

/// The user of `law_twins` must be neither twin. In the anonymous mode of the small conference dave reviews paper 1,
/// or his twin hal does. Both histories are legal and twins by `law_twins`; a form is written under label A and read
/// in the discussion. Hal is shown neither dave's assignment nor the form's writer, so he meets all else that `unseen`
/// and `unnamed` require. Yet he doesn't see the same of the two, since he is shown his own assignment. A user who is
/// neither, and no chair, does. In each history every other member and chair is shown the form, and no assignment of
/// their own: so if they all tell each other, they know who reviews.
pub fn law_twins_needed()
    ensures { TwinsNeeded }
{}
