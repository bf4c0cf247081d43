// SPDX-License-Identifier: Apache-2.0 OR MIT
//! What a view shows, some answer tells: nothing is withheld. No crate uses this one.
//!
//! # Proved
//!
//! - What each answer holds, by what its caller's view shows, and that nothing else is left out: `law_told`. Its
//!   comment has the clauses.
#![tactic(auto)]

ghost use Rattle.cr_told.specs.ToldPages.{PagesTold};
ghost use Rattle.cr_told.specs.ToldLists.{PageListsTold, ContentsTold, CommentsTold, ResponsesTold};
ghost use Rattle.cr_told.specs.ToldLists.{AcceptedTold, MeTold};
ghost use Rattle.cr_told.specs.ToldParts.{PartsTold};
ghost use Rattle.cr_told.specs.ToldPlaces.{PlacesTold};
ghost use Rattle.cr_told.specs.ToldPublic.{AccountsTold, ConferenceTold, DeadlinesTold};
ghost use Rattle.cr_told.specs.ToldReports.{ReportsTold, LettersTold};
ghost use Rattle.cr_told.specs.ToldReviews.{ReviewsTold};
ghost use Rattle.cr_told.specs.ToldSearches.{SearchesTold};

/// Equates what a view shows with what answers tell: all of it, and no more. Each clause is an equation between an
/// answer and what the entries show in the caller's view, whatever kind of entry shows it; it doesn't say what the
/// answer is made of.
///
/// *Scope:* legal histories; every user and an unauthenticated caller; of papers those that were submitted. The
/// clauses on accounts, the conference, deadlines, reports, `/me` and searches hold of every history.
///
/// # Words
///
/// As in `ShownTo` of cr_bounds, the caller
///
/// - serves: a member, from bidding
/// - is eligible: unconflicted, and serves
/// - oversees: eligible, and a chair
/// - discusses: eligible, from the discussion
/// - reads: an unconflicted external of the paper, from bidding
/// - is notified: an author, from the notification
/// - is answered: an author, from the notification, in open mode
///
/// *May know names*: the caller oversees the paper, is answered, or discusses it unless the mode is anonymous
/// (`knows_reviewers`). *Open* papers are those of which the caller is shown neither as an author nor in conflict, and
/// which aren't shown as withdrawn.
///
/// # Answers
///
/// Of each clause and key or answer, when it is there (if and only if), and what it holds:
///
/// - `pages`, `paper` (the page itself): if the caller is a member, an external or an author, or is shown that it is
///   accepted. Its number.
/// - `pages`, `title`: if the caller is shown a title of the paper. The last one shown.
/// - `pages`, `abstract`: if the caller is shown an abstract of the paper. The last one shown.
/// - `pages`, `authors`: if the caller is shown an author of the paper. The names of all shown, in order.
/// - `pages`, `withdrawn`: if the caller is an author, serves or reads it. Whether the view shows its withdrawal.
/// - `pages`, `versions`: if the caller is shown an abstract of the paper. The numbers of all uploads shown, in order.
/// - `pages`, `decision`: if the caller discusses it, is notified, or is shown that it is accepted. Acceptance, if
///   shown; else the last decision shown, or none.
/// - `pages`, `conflict`: if the caller is a member, an external or an author. Whether the caller is shown as an
///   author, or last shown in conflict.
/// - `pages`, `conflicts`: if the caller oversees it. The names, by number, of users last shown in conflict.
/// - `pages`, `declared`: if the caller is an author. The names, by number, of users declared by authors: a fact of
///   the history.
/// - `pages`, `bid`: if the caller is eligible. Their last own bid shown, else 0.
/// - `pages`, `label`: if the caller is an unconflicted member or external, and shown to review it. The ordinal last
///   shown.
/// - `page_lists`, `bids`: if the caller oversees it. Of each account the last bid shown as theirs, by number.
/// - `page_lists`, `reviewers`: if the caller oversees it, discusses it or is answered. Users shown as assigned and
///   not unassigned, in order; members see kinds, unconflicted chairs who has written; names if the caller may know
///   them.
/// - `page_lists`, `tags`: if the caller is eligible. The tags that the view leaves on (`tags_in_view`).
/// - `contents`, a content: if the caller is shown an upload of the paper. The last one shown.
/// - `contents`, the content of version v: if the caller is shown an upload of it. The first of that version.
/// - `reviews`, reviews: if the caller is notified; is an author, once a response was opened; discusses it; reviews it
///   and is eligible, before the discussion; reviews it and reads it, from the reviewing. Authors: of each label the
///   last form shown, without its number and the text to the committee. Members, from the discussion: of each label
///   the last before it, and all later ones. Else the caller's own. Named if the caller may know names.
/// - `responses`, response: if the caller is shown one. Its text.
/// - `comments`, comments: if the caller discusses it. All shown on the paper, by the writer's name if shown, else by
///   label.
/// - `accepted`, accepted papers: always. Papers shown as accepted, with all authors and the last title shown.
/// - `accounts`, accounts: always. All whose name is shown, each with their last role shown.
/// - `conference`, the conference: always. The last phase and mode shown, and how many papers.
/// - `deadlines`, deadlines: always. Of each phase the last one shown, unless removed.
/// - `me`, `/me`: always. The papers that the view shows the caller to review, to have written, to be in conflict
///   with. Those to which they are shown as invited, if outside the committee. Counts of own comments and uploaded
///   bytes; name; last role.
/// - `reports`, report of papers: if the caller serves. Each paper, with its mark and last title shown; how many.
/// - `reports`, report of scores: if the caller is a member, from the discussion. Of each open paper the last
///   discussed score of each label, and the mean.
/// - `reports`, report of load: if the caller is a chair, from bidding. Of each member, on papers without conflict
///   with the caller, how many they review, by kind, and how many of these are shown as written.
/// - `reports`, report of decisions: if the caller is a member, from the discussion. Of each open paper its decision
///   and last title; how many have which.
/// - `letters`, letter: if the caller is notified. Title, decision, and of each label the last form shown
///   (`last_form_in_view`), named if the caller may know names.
/// - `searches`, a search; its count: always. Papers with a title shown of which the terms hold, as the answers tell
///   them.
///
/// Two facts of the view are read on both sides: the load's reviewers (`reviewers_in_view`), and tags
/// (`tags_in_view`). So is how a report's lines are laid out (`Reports.antt`).
///
/// # That this is all
///
/// By `places`, each entry that the view shows on a paper has a key or a list above that tells it, unless it is the
/// caller's own on a paper for which they aren't eligible (of a form: nor read it), or, if they did it as a chair, on
/// one that they don't oversee. Only `/me` tells invitations, to the user invited.
///
/// By `parts`, each part that an entry shows is in an answer (`is_told` looks for the text, the name or the number),
/// or is left out for one of these reasons (`is_left_untold`):
///
/// - the digest of one's own secret: it is compared, and never returned.
/// - when, and by which number, one made an entry: its answer had the date, its request the number.
/// - a role or its end, a phase, a mode, a deadline, a title, an abstract, a bid, a decision: a later entry of the
///   same user, phase or paper shows another.
/// - a decision before the one that accepted the paper, if it is shown as accepted, and this entry lacks the mark: the
///   page says that it is accepted.
/// - a removed deadline; a conflict or a tag that is off: no list has it.
/// - a conflict or a tag that is on: a later entry on the same user or tag follows; of a conflict, to users who are no
///   author.
/// - one's own conflict with a paper of one's own, if no author declared it: its authors are in conflict anyway.
/// - an unassigned user: they review it no more. Their label too, if the caller neither oversees nor discusses the
///   paper.
/// - an assignment that ended; one's own, if assigned anew: the page has who reviews it now.
/// - one's own kind of assignment, if the caller neither oversees nor discusses it: the page lists reviewers from the
///   discussion, and not to externals.
/// - an earlier form under a label, if a later one is shown: to authors any, to others one before the discussion is
///   opened: another follows.
/// - a comment's label, or that it has none: the line has the name, or nothing.
/// - own bids, forms, comments, tags and decisions, if they aren't eligible; of a form, they don't read it either: the
///   caller came into conflict, or was dismissed.
/// - one's own label, if the caller isn't eligible and doesn't read it: the caller came into conflict, or was
///   dismissed.
/// - what one did as a chair: others' conflicts and assignments, tags for chairs, if the caller doesn't oversee the
///   paper; of an assignment, doesn't discuss it either; its user, if they may not know names; of a tag, is no chair:
///   the caller came into conflict, or was dismissed.
/// - other invited users; an invitation that ended: only the user invited learns of it, in `/me`.
/// - one's own invitation, if the caller is a member, or a later entry renews or ends it: `/me` has those that last,
///   outside the committee.
///
/// Some allow more omissions than there are: answers still have superseded discussion forms and externals' earlier
/// ones; conflicts and tags that are off show by absence. *Not claimed:* the mark that an entry is one's own, its kind
/// and its paper, which are never hidden.
pub fn law_told()
    ensures pages { PagesTold }
    ensures page_lists { PageListsTold }
    ensures contents { ContentsTold }
    ensures reviews { ReviewsTold }
    ensures comments { CommentsTold }
    ensures responses { ResponsesTold }
    ensures accepted { AcceptedTold }
    ensures me { MeTold }
    ensures accounts { AccountsTold }
    ensures conference { ConferenceTold }
    ensures deadlines { DeadlinesTold }
    ensures reports { ReportsTold }
    ensures letters { LettersTold }
    ensures searches { SearchesTold }
    ensures places { PlacesTold }
    ensures parts { PartsTold }
{}
