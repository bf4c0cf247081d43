// SPDX-License-Identifier: Apache-2.0 OR MIT
//! The most that a view shows. `ShownTo` says who may know what of each entry, without a look at the visibility
//! policy.
//!
//! # Proved
//!
//! - What a view shows, part by part, no more and no less: `law_bounds`.
//!   [VIEWS.md](../../../docs/VIEWS.md#1-the-visibility-policy) has its clauses.
//! - What authors are shown of others' forms [before the
//!   notification](../../../docs/CLAIMS.md#what-a-view-shows-at-most): `law_response_bound`.
#![tactic(auto)]

ghost use Rattle.cr_bounds.specs.ViewBounds.{EntriesShown, MarksShown, MomentsShown, KeysShown, PapersShown};
ghost use Rattle.cr_bounds.specs.ViewBounds.{UsersShown, NamesShown, DigestsShown, RolesShown, PhasesShown};
ghost use Rattle.cr_bounds.specs.ViewBounds.{DeadlinesShown, ModesShown, MakersShown, TitlesShown, AbstractsShown};
ghost use Rattle.cr_bounds.specs.ViewBounds.{VersionsShown, ContentsShown, SwitchesShown, ValuesShown, SeatsShown};
ghost use Rattle.cr_bounds.specs.ViewBounds.{OrdinalsShown, ScoresShown, ConfidencesShown, TextsToAuthorsShown};
ghost use Rattle.cr_bounds.specs.ViewBounds.{TextsToPcShown, DoneShown, NumbersShown, CommentsShown, TagsShown};
ghost use Rattle.cr_bounds.specs.ViewBounds.{FormsEarly, FormsFromAuthors, DecisionsShown, OutcomesShown};
ghost use Rattle.cr_bounds.specs.ViewBounds.{AcceptedShown, DecisionsEarly, DecisionsUntold, CommentsFromAuthors};
ghost use Rattle.cr_bounds.specs.ViewBounds.{WritersUnnamed, PrivateTagsAreOwn, ChairsTags, BidsAreOwn};
ghost use Rattle.cr_bounds.specs.ViewBounds.{ReviewersFromAuthors, ReviewersEarly, ReviewersUnnamed, OneTitle};
ghost use Rattle.cr_bounds.specs.ViewBounds.{OneAbstract, OneContent, OneDecision, OutsidersShown, ExternalsShown};
ghost use Rattle.cr_bounds.specs.ViewBounds.{AccountsShown, StrangersShown, NobodyShown, ResponsesShown};
ghost use Rattle.cr_bounds.specs.ResponseBounds.{ReviewsAwaited, ReviewsForAuthors, OneReview, ReviewsBehindUnseen};
ghost use Rattle.cr_bounds.specs.ResponseBounds.{UnheardForms, LaterForms};

/// Bounds what a view shows, from both sides.
///
/// The clauses up to `accepted` go part by part: a view has one line for each entry of which the user is told, and of
/// each part exactly what `ShownTo` gives them, by the paper's authors, the committee, declared conflicts, phase and
/// mode. An entry's timestamp and number are shown only to its actor.
///
/// The clauses from `own_bids` on say what that leaves. docs/VIEWS.md has the parts, and docs/CLAIMS.md the rest,
/// clause by clause.
///
/// *Scope:* every history, legal or not; every user and an unauthenticated caller.
pub fn law_bounds()
    ensures entries { EntriesShown }
    ensures marks { MarksShown }
    ensures moments { MomentsShown }
    ensures keys { KeysShown }
    ensures papers { PapersShown }
    ensures users { UsersShown }
    ensures names { NamesShown }
    ensures digests { DigestsShown }
    ensures roles { RolesShown }
    ensures phases { PhasesShown }
    ensures deadlines { DeadlinesShown }
    ensures modes { ModesShown }
    ensures makers { MakersShown }
    ensures titles { TitlesShown }
    ensures abstracts { AbstractsShown }
    ensures versions { VersionsShown }
    ensures contents { ContentsShown }
    ensures switches { SwitchesShown }
    ensures values { ValuesShown }
    ensures seats { SeatsShown }
    ensures ordinals { OrdinalsShown }
    ensures scores { ScoresShown }
    ensures confidences { ConfidencesShown }
    ensures texts_to_authors { TextsToAuthorsShown }
    ensures texts_to_pc { TextsToPcShown }
    ensures done { DoneShown }
    ensures numbers { NumbersShown }
    ensures comments { CommentsShown }
    ensures tags { TagsShown }
    ensures decisions { DecisionsShown }
    ensures outcomes { OutcomesShown }
    ensures accepted { AcceptedShown }
    ensures own_bids { BidsAreOwn }
    ensures reviewers_from_authors { ReviewersFromAuthors }
    ensures reviewers_early { ReviewersEarly }
    ensures reviewers_unnamed { ReviewersUnnamed }
    ensures forms_early { FormsEarly }
    ensures forms_from_authors { FormsFromAuthors }
    ensures comments_from_authors { CommentsFromAuthors }
    ensures responses { ResponsesShown }
    ensures writers_unnamed { WritersUnnamed }
    ensures private_tags { PrivateTagsAreOwn }
    ensures chairs_tags { ChairsTags }
    ensures decisions_early { DecisionsEarly }
    ensures decisions_untold { DecisionsUntold }
    ensures one_title { OneTitle }
    ensures one_abstract { OneAbstract }
    ensures one_content { OneContent }
    ensures one_decision { OneDecision }
    ensures outsiders { OutsidersShown }
    ensures externals { ExternalsShown }
    ensures accounts { AccountsShown }
    ensures strangers { StrangersShown }
    ensures nobody { NobodyShown }
{}

/// Bounds what a paper's authors are shown of others' reviews before the notification.
///
/// - `awaited`: nothing until a response is opened.
/// - `for_authors`, `one`, `behind`: then of each label at most one form, with only label, score, confidence and the
///   text to authors; none that was written after the response was opened.
/// - `unheard`, `later`: they see the same whatever is in others' forms on their papers, except the last of each
///   label before the response; and with and without a form written after it was opened.
///
/// *Scope:* every history, in every mode.
pub fn law_response_bound()
    ensures awaited { ReviewsAwaited }
    ensures for_authors { ReviewsForAuthors }
    ensures one { OneReview }
    ensures behind { ReviewsBehindUnseen }
    ensures unheard { UnheardForms }
    ensures later { LaterForms }
{}
