// SPDX-License-Identifier: Apache-2.0 OR MIT
//! What one entry shows a reader, as a value.
ghost use Rattle.std.specs.Prelude.{◌≡◌};
ghost use Rattle.cr_sights.specs.Stamps.{stamp_shown};

use cr_base::{
    Bid, Blob, Deadline, Decision, Digest, EntryKind, Grade, Kind, Mode, Moment, PaperNo, Phase,
    RetryKey, Role, Short, Stamp, Tag, Text, UserNo,
};
use std::marker::Model;

/// What one entry shows a reader: its kind and its paper, and of its other parts those that the reader is shown, lent
/// from the entry.
///
/// # Model
///
/// It as the definition of views has it.
#[derive(Drop)]
pub struct Sighting<'a> {
    /// The kind of the entry.
    pub kind: EntryKind,
    /// True if it is the reader's own: the reader made it.
    pub mine: bool,
    /// The paper of an entry that has one.
    pub paper: Option<PaperNo>,
    /// The user who was registered, named, dismissed, told as a co-author, declared in conflict, assigned or
    /// unassigned, invited or no longer.
    pub user: Option<UserNo>,
    /// The name that was registered.
    pub name: Option<&'a Short>,
    /// The digest of the secret that was registered.
    pub digest: Option<&'a Digest>,
    /// The role that a user was named to.
    pub role: Option<Role>,
    /// The phase that was set, or whose deadline was.
    pub phase: Option<Phase>,
    /// The mode that was set.
    pub mode: Option<Mode>,
    /// The actor of a submission, a bid or a comment.
    pub by: Option<UserNo>,
    /// The title of a submission or a revision.
    pub title: Option<&'a Text>,
    /// The abstract of a submission or a revision.
    pub abstract_: Option<&'a Text>,
    /// The number of the version that was uploaded, or of a form.
    pub version: Option<u64>,
    /// The content that was uploaded.
    pub content: Option<&'a Blob>,
    /// True if a conflict or a tag was turned on, or off.
    pub on: Option<bool>,
    /// How much a member wants to review the paper.
    pub value: Option<Bid>,
    /// What the user who was assigned is to the paper.
    pub review_kind: Option<Kind>,
    /// The ordinal of the label under which the user reviews it, or did; that of a form's label; and of a comment that
    /// of its writer's, 0 if the writer didn't review the paper.
    pub ordinal: Option<u64>,
    /// How good a form says that the paper is.
    pub score: Option<Grade>,
    /// How sure its reviewer is.
    pub confidence: Option<Grade>,
    /// What it says to the paper's authors.
    pub to_authors: Option<&'a Text>,
    /// What it says to the committee.
    pub to_pc: Option<&'a Text>,
    /// That there is a form: true if it is told.
    pub done: Option<bool>,
    /// The number of a comment.
    pub n: Option<u64>,
    /// What was commented, or responded.
    pub text: Option<&'a Text>,
    /// The tag that was turned on, or off.
    pub tag: Option<&'a Tag>,
    /// What was decided.
    pub decision: Option<Decision>,
    /// That the decision is what became of the reader's paper: true if it is told.
    pub outcome: Option<bool>,
    /// That the paper is accepted: true if it is told.
    pub accepted: Option<bool>,
    /// The moment of its command's request, if the reader made it.
    pub at: Option<Moment>,
    /// The deadline that a phase has from then on, or that it has none any more.
    pub until: Option<Option<Deadline>>,
    /// The key of its command, or that it has none, if the reader made it.
    pub key: Option<Option<RetryKey>>,
}

impl<'a> Model for Sighting<'a> {
    ghost use Rattle.std.specs.Option.{option_map};
    ghost use Rattle.cr_policy.specs.Sighting.{Sighting as SeenSighting};

    ghost Value = { SeenSighting };

    ghost view = { λ s. record {
      kind = s.kind;
      mine = s.mine;
      paper = s.paper;
      user = s.user;
      name = option_map (λ t. t.now) s.name;
      digest = option_map (λ t. t.now) s.digest;
      role = s.role;
      phase = s.phase;
      mode = s.mode;
      by = s.by;
      title = option_map (λ t. t.now) s.title;
      abstract = option_map (λ t. t.now) s.abstract_;
      version = s.version;
      content = option_map (λ t. t.now) s.content;
      on = s.on;
      value = s.value;
      review_kind = s.review_kind;
      ordinal = s.ordinal;
      score = s.score;
      confidence = s.confidence;
      to_authors = option_map (λ t. t.now) s.to_authors;
      to_pc = option_map (λ t. t.now) s.to_pc;
      done = s.done;
      n = s.n;
      text = option_map (λ t. t.now) s.text;
      tag = option_map (λ t. t.now) s.tag;
      decision = s.decision;
      outcome = s.outcome;
      accepted = s.accepted;
      at = s.at;
      until = s.until;
      key = s.key;
    } };
}

/// Returns what an entry of this kind shows the reader by its metadata only: that it is their own, if the reader made
/// it, and then when, and by which number.
pub(crate) fn of_stamp<'a>(kind: EntryKind, reader: UserNo, stamp: &Stamp) -> Sighting<'a>
    ensures { result ≡ stamp_shown reader stamp.now kind }
{
    let mine = reader == stamp.maker;
    Sighting {
        kind,
        mine,
        paper: None,
        user: None,
        name: None,
        digest: None,
        role: None,
        phase: None,
        mode: None,
        by: None,
        title: None,
        abstract_: None,
        version: None,
        content: None,
        on: None,
        value: None,
        review_kind: None,
        ordinal: None,
        score: None,
        confidence: None,
        to_authors: None,
        to_pc: None,
        done: None,
        n: None,
        text: None,
        tag: None,
        decision: None,
        outcome: None,
        accepted: None,
        at: mine.then_some(stamp.at),
        until: None,
        key: mine.then_some(stamp.key),
    }
}
