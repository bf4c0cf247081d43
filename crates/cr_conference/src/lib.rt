// SPDX-License-Identifier: Apache-2.0 OR MIT
//! A small conference, whole: its histories, the view of each kind of reader, pairs that differ only in what a reader
//! isn't shown.
//!
//! # Proved
//!
//! - It is legal, whatever its chairs decide, and [what each reader
//!   sees](../../../docs/CLAIMS.md#what-a-view-shows-at-most): `law_views`.
//! - Which of two broken rules a refusal names: `law_first_told`.
//! - Pairs of histories that [differ unseen](../../../docs/CLAIMS.md#what-may-differ-without-being-seen):
//!   `law_hidden_pairs`.
#![tactic(auto)]

ghost use Rattle.cr_conference.specs.ConferenceLaws.{ConferenceLegal, ViewsBeforeBidding, ViewsInBidding};
ghost use Rattle.cr_conference.specs.ConferenceLaws.{ViewsInReviewing, ViewsInDiscussion, ViewsAtNotification};
ghost use Rattle.cr_conference.specs.ConferenceLaws.{ViewsAtClose, ViewsReversed, TwinsAlike, AsidesHidden};
ghost use Rattle.cr_conference.specs.ConferenceLaws.{RespondedAlike, VerdictsHidden, ViewsInResponse};
ghost use Rattle.cr_conference.specs.ConferenceLaws.{ViewsBehindResponse, ViewsTold};
ghost use Rattle.cr_conference.specs.HiddenPairs.{CommentRemovable, VersionRemovable, DigestHidden, NamerHidden};
ghost use Rattle.cr_conference.specs.HiddenPairs.{ModeSetterHidden, PhaseSetterHidden, DeadlineSetterHidden};
ghost use Rattle.cr_conference.specs.HiddenPairs.{MomentHidden, KeyHidden, DismisserHidden, InvitedHidden};
ghost use Rattle.cr_conference.specs.HiddenPairs.{InviterHidden, UninvitedHidden, UninviterHidden};
ghost use Rattle.cr_conference.specs.HiddenPairs.{SeatHiddenFromExternal, BidHiddenFromExternal};
ghost use Rattle.cr_conference.specs.HiddenPairs.{TagHiddenFromExternal, CommentHiddenFromExternal, TitleHidden};
ghost use Rattle.cr_conference.specs.HiddenPairs.{AbstractHidden, SubmitterHidden, CoauthorHidden, RevisionHidden};
ghost use Rattle.cr_conference.specs.HiddenPairs.{ReviserHidden, ContentHidden, UploaderHidden, WithdrawerHidden};
ghost use Rattle.cr_conference.specs.HiddenPairs.{DeclaredHidden, SwitchHidden, DeclarerHidden, BidHidden};
ghost use Rattle.cr_conference.specs.HiddenPairs.{BidderHidden, TagHidden, TaggerHidden, AssignedHidden, SeatHidden};
ghost use Rattle.cr_conference.specs.HiddenPairs.{AssignerHidden, UnassignedHidden, UnassignerHidden, FormHidden};
ghost use Rattle.cr_conference.specs.HiddenPairs.{FormHiddenFromMembers, ToPcHidden, ReviewerHidden, CommentHidden};
ghost use Rattle.cr_conference.specs.HiddenPairs.{WriterHidden, DecisionHidden, DeciderHidden, EarlyToPcHidden};
ghost use Rattle.cr_conference.specs.HiddenPairs.{EarlyReviewerHidden, LateFormHidden, ResponseHidden};
ghost use Rattle.cr_conference.specs.HiddenPairs.{ResponseHiddenFromAccounts, ResponderHidden};
ghost use Rattle.cr_conference.specs.FirstTold.{FirstTold};

/// Lists all that each kind of reader sees of a small conference, entry by entry. The readers are an unauthenticated
/// caller, an account, an external who reviews and was a member once, an author, a co-author, an unconflicted member,
/// one who reviews, a chair who does, and a conflicted member and chair. It has three papers and every kind of entry
/// except a response. The views are those in each mode: before the bidding, in it, in the reviewing, in the
/// discussion, at the notification and at the close. One paper is rejected first and then accepted, one is rejected,
/// one is withdrawn. With the two decisions the other way round, the views of those outside the committee at the
/// close are there too (`reversed`). One submission has a number, which only its actor is shown.
///
/// - `twins`: with another member as the reviewer and the forms' author, the paper's authors see the same up to the
///   discussion, and later except in the open mode. A conflicted member and chair see the same in all phases.
/// - `asides`: these four see the same, in all phases, whatever a private tag, the text to the committee in a form,
///   and a comment are.
/// - `response`, `behind_response`, `told`, `responded_twins`: with a response, what each reader sees in it and in the
///   discussion after it, where a reviewer changes a form and another writes the first; and at the notification what
///   an unauthenticated caller, an account and the two authors see. Up to the discussion its twin is the same for
///   those four.
/// - `verdicts`: whatever the chairs decide, an unauthenticated caller, accounts and authors see the same before the
///   notification; so do a conflicted member and chair, whatever is decided of that paper. From the notification on
///   they all do if the same papers are accepted, and, for authors, if the last decisions on their own papers are the
///   same.
pub fn law_views()
    ensures legal { ConferenceLegal }
    ensures before { ViewsBeforeBidding }
    ensures bidding { ViewsInBidding }
    ensures reviewing { ViewsInReviewing }
    ensures discussion { ViewsInDiscussion }
    ensures notification { ViewsAtNotification }
    ensures closed { ViewsAtClose }
    ensures reversed { ViewsReversed }
    ensures response { ViewsInResponse }
    ensures behind_response { ViewsBehindResponse }
    ensures told { ViewsTold }
    ensures twins { TwinsAlike }
    ensures responded_twins { RespondedAlike }
    ensures asides { AsidesHidden }
    ensures verdicts { VerdictsHidden }
{}

/// Says which rule a refusal names, if several are broken. For each two neighbouring rules of a command's, a query's
/// or a bulk's list, a case of the small conference or of its twins breaks both, and the first is named. All these
/// histories are legal. There is no case of what the conference is too small for (9,999 accounts or papers, 26 labels
/// of one paper, 1,000 comments, a plan that is too large), nor of two rules that can't be broken at once.
pub fn law_first_told()
    ensures { FirstTold }
{}

/// Has for each part of an entry that is listed here two legal histories that differ in that part. They meet the
/// conditions of `law_hidden_payload` of cr_policy for one user, who sees the same of both, while another user doesn't.
/// Timestamps and numbers are tried once for all kinds, and a co-author's entry is its submitter's. What a new member's
/// role is, and which phase, mode or deadline is set, everyone is shown.
///
/// Pairs that differ in a value only: `digests`, `titles`, `abstracts`, `revisions`, `contents`, `bids`, `seats`,
/// `tags`, `forms`, `forms_to_members`, `to_pc`, `early_to_pc`, `late_forms`, `responses`, `responses_to_accounts`,
/// `comments`, `decisions`, `bids_from_externals`, `tags_from_externals`.
///
/// The others; the last two are of `law_removed`:
///
/// - `namers`: Named: which chair names a member. Alike to the member named, not to that chair.
/// - `dismissers`: Dismissed: which chair dismisses a member. Alike to an account, not to that chair.
/// - `mode_setters`: ModeSet: which chair sets the mode. Alike to an account, not to that chair.
/// - `phase_setters`: PhaseSet: which chair opens the bidding. Alike to an author, not to that chair.
/// - `deadline_setters`: DeadlineSet: which chair sets a deadline. Alike to an author, not to that chair.
/// - `moments`, `keys`: PhaseSet: when a chair opens it, and by which number. Alike to an author, not to that chair.
/// - `submitters`: Submitted: who submits, in anonymous mode. Alike to an unconflicted member, not to an unconflicted
///   chair.
/// - `coauthors`: Coauthor: who it is, in anonymous mode. Alike to an unconflicted member, not to an unconflicted
///   chair.
/// - `revisers`: Revised: which author revises. Alike to an unconflicted member, not to that author.
/// - `uploaders`: Uploaded: which author uploads. Alike to an unconflicted member, not to that author.
/// - `withdrawers`: Withdrawn: which author withdraws. Alike to a member, not to that author.
/// - `declared`: Conflict: which member an author declares. Alike to an unconflicted member, not to an unconflicted
///   chair.
/// - `switches`: Conflict: whether a chair turns it off. Alike to an author, not to the member in question.
/// - `declarers`: Conflict: which author declares it. Alike to the member declared, not to that author.
/// - `bidders`: Bid: whose. Alike to another member, not to an unconflicted chair.
/// - `taggers`: Tagged: whose a private tag is. Alike to a chair, not to its owner.
/// - `assigned`: Assigned: who. Alike to an author, not to the user assigned.
/// - `assigners`: Assigned: by which chair. Alike to the user assigned, not to that chair.
/// - `unassigned`: Assigned and Unassigned: who. Alike to an author, not to the user in question.
/// - `unassigners`: Unassigned: by which chair. Alike to the user unassigned, not to that chair.
/// - `invited`, `uninvited`: Invited, Uninvited: who. Alike to an unconflicted member, not to the user in question.
/// - `inviters`, `uninviters`: Invited, Uninvited: by which chair. Alike to the user in question, not to that chair.
/// - `seats_from_externals`: Assigned: who. Alike to an external, not to the user assigned.
/// - `comments_from_externals`: Commented: what, and by which member. Alike to an external, not to an unconflicted
///   member.
/// - `reviewers`: Assigned and Reviewed: who, in anonymous mode. Alike to an unconflicted member, not to an
///   unconflicted chair.
/// - `early_reviewers`: Assigned and Reviewed: who, in the response, in open mode. Alike to an author, not to an
///   unconflicted chair.
/// - `responders`: Responded: which author. Alike to an unconflicted member, not to that author.
/// - `writers`: Commented: who, in anonymous mode. Alike to another member, not to an unconflicted chair.
/// - `deciders`: Decided: by which chair. Alike to an unconflicted member, not to that chair.
/// - `removed_comment`: a comment is left out. Alike to an author, not to an unconflicted member.
/// - `removed_version`: the last version of a content is left out, so that another is the last. Alike to a conflicted
///   member, not to an unconflicted member.
pub fn law_hidden_pairs()
    ensures digests { DigestHidden }
    ensures namers { NamerHidden }
    ensures mode_setters { ModeSetterHidden }
    ensures phase_setters { PhaseSetterHidden }
    ensures deadline_setters { DeadlineSetterHidden }
    ensures moments { MomentHidden }
    ensures keys { KeyHidden }
    ensures titles { TitleHidden }
    ensures abstracts { AbstractHidden }
    ensures submitters { SubmitterHidden }
    ensures coauthors { CoauthorHidden }
    ensures revisions { RevisionHidden }
    ensures revisers { ReviserHidden }
    ensures contents { ContentHidden }
    ensures uploaders { UploaderHidden }
    ensures withdrawers { WithdrawerHidden }
    ensures declared { DeclaredHidden }
    ensures switches { SwitchHidden }
    ensures declarers { DeclarerHidden }
    ensures bids { BidHidden }
    ensures bidders { BidderHidden }
    ensures tags { TagHidden }
    ensures taggers { TaggerHidden }
    ensures assigned { AssignedHidden }
    ensures seats { SeatHidden }
    ensures assigners { AssignerHidden }
    ensures dismissers { DismisserHidden }
    ensures invited { InvitedHidden }
    ensures inviters { InviterHidden }
    ensures uninvited { UninvitedHidden }
    ensures uninviters { UninviterHidden }
    ensures seats_from_externals { SeatHiddenFromExternal }
    ensures bids_from_externals { BidHiddenFromExternal }
    ensures tags_from_externals { TagHiddenFromExternal }
    ensures comments_from_externals { CommentHiddenFromExternal }
    ensures unassigned { UnassignedHidden }
    ensures unassigners { UnassignerHidden }
    ensures forms { FormHidden }
    ensures forms_to_members { FormHiddenFromMembers }
    ensures to_pc { ToPcHidden }
    ensures reviewers { ReviewerHidden }
    ensures early_to_pc { EarlyToPcHidden }
    ensures early_reviewers { EarlyReviewerHidden }
    ensures late_forms { LateFormHidden }
    ensures responses { ResponseHidden }
    ensures responses_to_accounts { ResponseHiddenFromAccounts }
    ensures responders { ResponderHidden }
    ensures comments { CommentHidden }
    ensures writers { WriterHidden }
    ensures decisions { DecisionHidden }
    ensures deciders { DeciderHidden }
    ensures removed_comment { CommentRemovable }
    ensures removed_version { VersionRemovable }
{}
