// SPDX-License-Identifier: Apache-2.0 OR MIT
//! The comments on papers, and what authors respond.
ghost use Rattle.std.specs.Prelude.{◌≡◌, ◌+◌, [], ◌∷◌, OnOk, IfOk, IfSome, Some, length, is_some, unwrap_or};
ghost use Rattle.std.specs.List.{filter_map};
ghost use Rattle.std.specs.Option.{option_copied};
ghost use Rattle.cr_base.specs.Checks.{judged, comment_checks, respond_checks};
ghost use Rattle.cr_base.specs.History.{History};
ghost use Rattle.cr_base.specs.Steps.{Takes, TakesAtMost};
ghost use Rattle.cr_base.specs.Talk.{no_talk, talk_after, comments_in, own_comments_in, response_in, TalkFit};
ghost use Rattle.cr_talk.specs.Room.{paper_commented, paper_responded, TalkHasRoom};

use cr_base::{Comment, Entry, PaperNo, Rule, Stamped, Standing, Steps, Text, UserNo};
use cr_kept::{Cabinet, Sums};
use std::alloc::{AllocError, Global};
use std::marker::Model;
use std::sync::ledger::Ledger;

/// The most comments that one user may write, on all papers.
pub const MOST_OWN_COMMENTS: u64 = 1_000;

/// What was written on papers: the comments on each in the order in which they came, which are numbered from 1, and
/// how many each user has written, at most 1,000; and what the authors of each responded, once.
///
/// # Model
///
/// The comments and the responses paper by paper and the sums, and for how many more of each paper there is room.
#[derive(Drop)]
pub struct Talk {
    alloc: Global,
    comments: Cabinet<Comment>,
    // How many each user has written.
    written: Sums,
    // One at most of each paper.
    responses: Cabinet<Text>,
}

impl Model for Talk {
    ghost use Rattle.cr_kept.specs.Beside.{rooms_beside};
    ghost use Rattle.cr_talk.specs.Seen.{SeenTalk};

    ghost Value = { SeenTalk };

    ghost view = { λ t. record {
      talk = record { comments = t.comments.files; written = t.written.sums; responses = t.responses.files };
      rooms = record {
        comments = rooms_beside t.written.capacity t.comments.rooms;
        responses = t.responses.rooms;
      };
    } };
}

/// What is read.
impl Talk {
    /// Creates a table without comments or responses.
    ///
    /// # Cost
    ///
    /// Takes no memory.
    pub fn new(alloc: Global) -> Talk
        ensures { result.talk ≡ no_talk }
    {
        Talk {
            alloc,
            comments: Cabinet::new(alloc),
            written: Sums::new(alloc),
            responses: Cabinet::new(alloc),
        }
    }

    /// Returns the comments on the paper, by number; none if there is no such paper.
    ///
    /// # Cost
    ///
    /// Found by number, to be read: a step for each. Takes no memory.
    pub fn comments<L: Ledger>(&self, paper: PaperNo, steps: &mut Steps<L>) -> &[Comment]
        ensures comments { result.now ≡ comments_in self.now.talk paper }
        ensures steps { Takes (length (comments_in self.now.talk paper)) steps.old steps.new }
    {
        self.comments.of_paper(paper, steps)
    }

    /// Returns how many comments the user has written, 0 to 1,000.
    ///
    /// # Cost
    ///
    /// One read by number.
    pub fn count_of_user(&self, user: UserNo) -> u64
        ensures { result ≡ own_comments_in self.now.talk (Some user) }
    {
        self.written.of(user)
    }

    /// Returns what the paper's authors responded; `None` if they didn't, and if there is no such paper.
    ///
    /// # Cost
    ///
    /// Found by number, without reading another: a step where there is one. Takes no memory.
    pub fn response<L: Ledger>(&self, paper: PaperNo, steps: &mut Steps<L>) -> Option<&Text>
        ensures response { option_copied result ≡ response_in self.now.talk paper }
        ensures steps { TakesAtMost 1 steps.old steps.new }
        ensures told { IfSome result (λ text. Takes 1 steps.old steps.new) }
    {
        self.responses.last(paper, steps)
    }

    /// Checks whether the authors of this paper may respond now. `by` is the caller's standing at the paper; `paper`
    /// is none if there is no such paper. Whether it is withdrawn isn't in this table. `late` is what `Stage::is_late`
    /// says at the request's moment.
    ///
    /// # Errors
    ///
    /// The first broken rule, in this order: `NoPaper`, `NotAuthor`, `WrongPhase` if it isn't the response, `Late` if
    /// it is too late, `Withdrawn`, `AlreadyResponded` if one of the authors has responded.
    ///
    /// # Cost
    ///
    /// One read by number at most; takes no memory.
    pub fn judge_respond(
        &self,
        by: &Standing,
        paper: &Option<PaperNo>,
        withdrawn: bool,
        late: bool,
    ) -> Result<(), Rule>
        ensures { result ≡ judged
            (respond_checks by.now (record { there = is_some paper.now; withdrawn = withdrawn })
            (is_some (response_in self.now.talk (unwrap_or paper.now 0))) late) tt }
    {
        let Some(paper) = paper else {
            return Err(Rule::NoPaper);
        };
        if !by.author {
            return Err(Rule::NotAuthor);
        }
        if !by.phase.responses_are_written() {
            return Err(Rule::WrongPhase);
        }
        if late {
            return Err(Rule::Late);
        }
        if withdrawn {
            return Err(Rule::Withdrawn);
        }
        if self.response(*paper, &mut Steps::uncounted()).is_some() {
            return Err(Rule::AlreadyResponded);
        }
        Ok(())
    }

    /// Returns the number that a comment by this maker on this paper would have now, the count of those on it plus 1.
    /// `by` is the maker's standing at the paper; `paper` is none if there is no such paper. Whether it is withdrawn
    /// is in none of the comments. `late` is what `Stage::is_late` says at the request's moment.
    ///
    /// # Errors
    ///
    /// The first broken rule, in this order: `NoPaper`, `NotMember`, `Conflict`, `WrongPhase` if it isn't the
    /// discussion, `Late` if it is too late, `Withdrawn`, `QuotaComments` if the caller has written 1,000 comments.
    ///
    /// # Cost
    ///
    /// Two reads by number at most; takes no memory.
    pub fn judge_comment(
        &self,
        by: &Standing,
        maker: UserNo,
        paper: &Option<PaperNo>,
        withdrawn: bool,
        late: bool,
    ) -> Result<u64, Rule>
        ensures { result ≡ judged
            (comment_checks by.now (record { there = is_some paper.now; withdrawn = withdrawn })
            (own_comments_in self.now.talk (Some maker)) late)
            (length (comments_in self.now.talk (unwrap_or paper.now 0)) + 1) }
    {
        let Some(paper) = paper else {
            return Err(Rule::NoPaper);
        };
        match by.check_eligible() {
            Ok(()) => {}
            Err(rule) => return Err(rule),
        }
        if !by.phase.comments_are_written() {
            return Err(Rule::WrongPhase);
        }
        if late {
            return Err(Rule::Late);
        }
        if withdrawn {
            return Err(Rule::Withdrawn);
        }
        if self.count_of_user(maker) >= MOST_OWN_COMMENTS {
            return Err(Rule::QuotaComments);
        }
        Ok(self.comments(*paper, &mut Steps::uncounted()).len() as u64 + 1)
    }
}

/// What entries make of it.
impl Talk {
    /// Takes the memory that the entries of one command need, and the first time 40,000 bytes for the sums. What is
    /// kept doesn't change. Each paper that they comment on, or whose authors respond, is compared with those before
    /// it.
    ///
    /// # Errors
    ///
    /// If memory runs out.
    pub fn room(&mut self, group: &[Stamped]) -> Result<(), AllocError>
        ensures ok { OnOk result (TalkHasRoom group.now self.new.rooms) }
        ensures same { self.new.talk ≡ self.old.talk }
        ensures keeps { (any : History) → TalkHasRoom any self.old.rooms → TalkHasRoom any self.new.rooms }
    {
        let commented = papers_commented(self.alloc, group)?;
        let responded = papers_responded(self.alloc, group)?;
        self.written.make_room()?;
        self.comments.room(&commented)?;
        self.responses.room(&responded)
    }

    /// Applies one more entry, for which there is room. It is taken whole, since a comment's and a response's text is
    /// kept.
    ///
    /// # Cost
    ///
    /// A comment costs two reads by number, a response one, and neither moves any of the others. Takes no memory.
    pub fn apply(&mut self, stamped: Stamped)
        requires room { TalkHasRoom (stamped ∷ []) self.old.rooms }
        requires fits { TalkFit self.old.talk stamped.stamp.maker stamped.entry }
        ensures after { self.new.talk ≡ talk_after self.old.talk stamped.stamp.maker stamped.entry }
        ensures room { (rest : History)
            → TalkHasRoom (stamped ∷ rest) self.old.rooms → TalkHasRoom rest self.new.rooms }
    {
        let Stamped { stamp, entry, .. } = stamped;
        match entry {
            Entry::Commented {
                paper,
                n,
                ordinal,
                text,
            } => {
                self.written.add(stamp.maker, 1);
                self.comments.file(
                    paper,
                    Comment {
                        n,
                        writer: stamp.maker,
                        ordinal,
                        text,
                    },
                );
            }
            Entry::Responded { paper, text } => self.responses.file(paper, text),
            _ => {}
        }
    }
}

/// Returns the paper on which the entry comments, if it does.
fn paper_commented(stamped: &Stamped) -> Option<PaperNo>
    ensures { result ≡ paper_commented stamped.now }
{
    match &stamped.entry {
        Entry::Commented { paper, .. } => Some(*paper),
        _ => None,
    }
}

/// Returns the papers on which the entries comment, as often as they do.
fn papers_commented(alloc: Global, group: &[Stamped]) -> Result<Vec<PaperNo>, AllocError>
    ensures { IfOk result (λ papers. papers.items ≡ filter_map paper_commented group.now) }
{
    group
        .iter()
        .filter_map(|stamped| paper_commented(stamped))
        .collect(alloc)
}

/// Returns the paper whose authors respond by the entry, if they do.
fn paper_responded(stamped: &Stamped) -> Option<PaperNo>
    ensures { result ≡ paper_responded stamped.now }
{
    match &stamped.entry {
        Entry::Responded { paper, .. } => Some(*paper),
        _ => None,
    }
}

/// Returns the papers whose authors respond by the entries, as often as they do.
fn papers_responded(alloc: Global, group: &[Stamped]) -> Result<Vec<PaperNo>, AllocError>
    ensures { IfOk result (λ papers. papers.items ≡ filter_map paper_responded group.now) }
{
    group
        .iter()
        .filter_map(|stamped| paper_responded(stamped))
        .collect(alloc)
}
