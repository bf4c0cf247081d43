// SPDX-License-Identifier: Apache-2.0 OR MIT
//! Nothing hidden can be ruled out, by any group; and how somebody came to what they may see. All claims are of legal
//! histories. The comment of each has its premises.
//!
//! # Proved
//!
//! - Other values of all that no user of a group was shown: the history stays legal, and each look shows the same:
//!   `law_undeducible`.
//! - Revisions, bids, tags and decisions may have been made besides, or not: `law_may_have_been`.
//! - An entry may have been added by another user who could have: `law_makers`.
//! - Two users with the same role may have had each other's place at a paper that neither wrote: `law_twins`.
//! - What a view tells though no part of it says so: `law_deducible`.
//! - How somebody came to what lets them see or do something: `law_how_one_came`.
#![tactic(auto)]

ghost use Rattle.cr_undeduced.specs.Deducible.{VersionsTell, FormNumbersTell, CommentNumbersTell, LabelsTell};
ghost use Rattle.cr_undeduced.specs.Deducible.{OneChairActs};
ghost use Rattle.cr_undeduced.specs.HowOneCame.{MembersCame, AuthorsCame, ReviewersCame, ExternalsCame, ConflictsCame};
ghost use Rattle.cr_undeduced.specs.HowOneCame.{AcceptedCame, FormReadersCame};
ghost use Rattle.cr_undeduced.specs.Makers.{OtherMakersLegal, OtherMakersUnseen};
ghost use Rattle.cr_undeduced.specs.MayHaveBeen.{Inserted, LeftOut, BesidesUnseen};
ghost use Rattle.cr_undeduced.specs.Twins.{TwinsLegal, TwinsUnseen, TwinsUnnamed};
ghost use Rattle.cr_undeduced.specs.Undeducible.{OthersLegal, ShorterLegal, LooksAlike, GroupAlike};

/// Users who tell each other all that they saw can rule out no value that none of them was shown (nondeducibility:
/// Sutherland, 1986).
///
/// Take a legal history and any looks at it, each of a user or an unauthenticated caller after so many entries. Choose
/// for each place any other digest, title, abstract, content, bid, kind of assignment, form, comment, response, tag,
/// switch of a tag and decision, and any other timestamp, number and request digest. The other history has these, all
/// at once, part by part, wherever the bounds (`ShownTo`) show none of the looks the part. It is legal, and each look
/// shows the same. So a policy that shows more makes this false.
///
/// - A command's entries have one timestamp, number and digest; they stay if their actor looked.
/// - A tag stays if the other is for other readers: the committee, chairs, or the user who sets it.
/// - If there is a look from the notification on, the last decision on each paper by then stays, since everyone is
///   shown whether it is accepted.
///
/// Clauses:
///
/// - `legal`: the other values are within the bounds of commands. No timestamp is too late for what the phase opens
///   unless the one that it replaces is. No user has a number twice, no registration has one (`StampsFit`). By them no
///   user has uploaded more than 64 MiB.
/// - `shorter`: all but the last; instead no content is longer than the one that it replaces.
/// - `looks`: of every history, legal or not.
/// - `group`: of users who look at the end, each of whom sees the same view.
pub fn law_undeducible()
    ensures legal { OthersLegal }
    ensures shorter { ShorterLegal }
    ensures looks { LooksAlike }
    ensures group { GroupAlike }
{}

/// Revisions, bids, tags and decisions may have been made besides, or not: no rule reads what they tell, nor that they
/// are there. Take a list of them, by commands without a number, that a legal history would have accepted.
///
/// - `inserted`: what came of the commands and bulks that followed is legal after them, with the same entries.
/// - `left_out`: what came after them is legal without them.
/// - `unseen`: a user who by the bounds is told of none of them sees the same with and without them, if the same
///   papers are accepted. So from the notification on, decisions with the same last one look the same to a user who is
///   told only the last.
pub fn law_may_have_been()
    ensures inserted { Inserted }
    ensures left_out { LeftOut }
    ensures unseen { BesidesUnseen }
{}

/// How somebody came to be what lets them see or do something. Each clause names the entry that made them so, between
/// those before it and those after it, and so the row in a store. It says by what right the entry was made, in the
/// words of the sentences on permissions, and that nothing after it changed that.
///
/// - `members`: a member or a chair was appointed by a chair before the notification; the first user became one by
///   registering.
/// - `authors`: an author submitted the paper, or an author named them in the submission.
/// - `reviewers`: an unconflicted chair assigned the reviewer while the committee worked and the reviewer was
///   unconflicted.
/// - `externals`: an unconflicted chair invited the external while the committee worked.
/// - `conflicts`: an author declared the conflict before the bidding; from then on the user did, or an unconflicted
///   chair.
/// - `accepted`: an unconflicted chair decided so in the discussion.
/// - `form_readers`: a user shown that another wrote a form is an author of the paper, from the response on, discusses
///   it, or is an unconflicted chair; and came to be so.
///
/// *Scope:* legal histories.
pub fn law_how_one_came()
    ensures members { MembersCame }
    ensures authors { AuthorsCame }
    ensures reviewers { ReviewersCame }
    ensures externals { ExternalsCame }
    ensures conflicts { ConflictsCame }
    ensures accepted { AcceptedCame }
    ensures form_readers { FormReadersCame }
{}

/// What a view tells though no part of it says so. This is all that is stated, not all that there is.
///
/// - `versions`, `form_numbers`, `comment_numbers`: a number tells a user who is shown it that so many contents were
///   uploaded to the paper, forms written under the label, or comments written on the paper. A comment's number tells
///   its writer, though they may be shown no other comment.
/// - `labels`: a label tells that so many were given. A letter that is missing among an author's reviews was given
///   too.
/// - `one_chair`: if only one user was ever appointed chair, which everyone is shown, that user made each entry of nine
///   kinds that only chairs make (`IsOfChairs`).
///
/// *Scope:* legal histories.
pub fn law_deducible()
    ensures versions { VersionsTell }
    ensures form_numbers { FormNumbersTell }
    ensures comment_numbers { CommentNumbersTell }
    ensures labels { LabelsTell }
    ensures one_chair { OneChairActs }
{}

/// An entry's actor may have been any other user who had the right then. For a phase, a mode, a deadline, an
/// appointment or a dismissal that is any other chair; for a revision, a withdrawal or a response any other author of
/// the paper; for an assignment, an unassignment, an invitation, its end, a decision, or another user's conflict any
/// other unconflicted chair; for a conflict before the bidding any other author; for a bid or a tag any other
/// unconflicted member. This isn't said of registrations, submissions, uploads, forms and comments: rules and labels
/// read their actors.
///
/// - `legal`: with such actors for any entries at once, one for each command and bulk, the history is legal. Another
///   user's command has no number. A bulk's entries have one actor, who is a chair.
/// - `unseen`: a user who is neither of the two, and by the bounds isn't told the actor, sees the same. They are no
///   author of a paper with which an author declared a conflict in only one of the two histories, since authors are
///   told what authors declare.
///
/// *Scope:* legal histories.
pub fn law_makers()
    ensures legal { OtherMakersLegal }
    ensures unseen { OtherMakersUnseen }
{}

/// Two users of one role, of whom neither wrote a paper, are twins at it: they may have had each other's place there.
/// In the other history they change places in every entry on the paper, as its actor and as the user named.
///
/// - `legal`: that history is legal, if at each entry that names or is made by another then, both have registered and
///   have the same role; none that changes hands is one of several of a bulk, whose other rows may be on other papers;
///   and no user has written more than 1,000 comments in it. Another user's command has no number there.
/// - `unseen`: a user who is neither of the two, and by the bounds is told neither the actors of these entries nor the
///   users that they name, sees the same.
/// - `unnamed`: so does everyone but chairs in the anonymous mode, and the paper's authors in any mode but the open
///   one. They made none of the entries that name one of the two, as a dismissed chair may have, and no author of a
///   paper of theirs declared one of the two.
///
/// *Scope:* legal histories.
pub fn law_twins()
    ensures legal { TwinsLegal }
    ensures unseen { TwinsUnseen }
    ensures unnamed { TwinsUnnamed }
{}
