// SPDX-License-Identifier: Apache-2.0 OR MIT
//! What is answered of the comments on a paper.
ghost use Rattle.std.specs.Prelude.{◌≡◌, IfOk};
ghost use Rattle.cr_base.specs.declared.command.Query.TheVariants as queries;
ghost use Rattle.cr_base.specs.Accounts.{lines_of};
ghost use Rattle.cr_base.specs.Answering.{answer_by_role, comment_line};
ghost use Rattle.cr_base.specs.Checks.{judged, of_there, comments_checks};
ghost use Rattle.cr_base.specs.Talk.{comment_as_told};
ghost use Rattle.cr_view.specs.Replies.{AnswersAsDue, ShowsAsDue, reader_at};
ghost use Rattle.cr_view.specs.Comments.{comments_due, lines_told, writer_label, writer_name};

use crate::live::Live;
use crate::queries::AnswerError;
use cr_anonymity::shows_writer;
use cr_base::{
    Comment, CommentLine, CommentLines, Ordinal, PaperNo, Reply, Rule, Short, Standing, Steps,
    UserNo,
};
use std::alloc::{AllocError, Global};

/// Checks whether a caller with this standing at a paper, which is there or isn't, may ask for the comments on it.
///
/// # Errors
///
/// The first broken rule.
pub(crate) fn comments_rule(by: &Standing, there: bool) -> Result<(), Rule>
    ensures { result ≡ judged (comments_checks by.now (of_there there)) tt }
{
    if !there {
        return Err(Rule::NoPaper);
    }
    match by.check_eligible() {
        Ok(()) => {}
        Err(rule) => return Err(rule),
    }
    if !by.phase.members_read_comments() {
        return Err(Rule::WrongPhase);
    }
    Ok(())
}

/// Who may read comments.
impl Live {
    /// Returns the comments on a paper as a user, or an unauthenticated caller, is told them, by number. Fails for
    /// lack of memory only if no rule is broken. Shares the texts.
    ///
    /// # Errors
    ///
    /// The first broken rule: `NoPaper` if there is no such paper, else `NotMember`, else `Conflict` if the user is in
    /// conflict with it, else `WrongPhase` before the discussion.
    ///
    /// # Cost
    ///
    /// A walk over the comments on the paper, with one read by number each.
    pub fn comments_for(
        &self,
        alloc: Global,
        user: &Option<UserNo>,
        paper: &Option<PaperNo>,
    ) -> Result<CommentLines, AnswerError>
        ensures { ShowsAsDue result (comments_due self.now.tables user.now paper.now) }
    {
        let by = match self.comments_reader(user, paper) {
            Ok(by) => by,
            Err(rule) => return Err(AnswerError::Rule(rule)),
        };
        match paper {
            Some(paper) => {
                let comments = self.talk.comments(*paper, &mut Steps::uncounted());
                Ok(self.comment_lines(alloc, &by, comments)?)
            }
            None => unreachable!(),
        }
    }

    /// Returns this as a reply.
    pub(crate) fn comments_reply(
        &self,
        alloc: Global,
        user: &Option<UserNo>,
        paper: &Option<PaperNo>,
    ) -> Result<Reply, AnswerError>
        ensures { AnswersAsDue result (answer_by_role self.now.tables user.now (queries.Comments paper.now)) }
    {
        match self.comments_for(alloc, user, paper) {
            Ok(lines) => Ok(Reply::Comments(lines)),
            Err(error) => Err(error),
        }
    }

    /// Returns the caller's standing at the paper whose comments the user may ask for.
    ///
    /// # Errors
    ///
    /// The first broken rule.
    pub(crate) fn comments_reader(
        &self,
        user: &Option<UserNo>,
        paper: &Option<PaperNo>,
    ) -> Result<Standing, Rule>
        ensures { result ≡ reader_at queries.Comments self.now.tables user.now paper.now }
    {
        let by = self.standing(user, paper);
        match comments_rule(&by, self.has_paper(paper)) {
            Ok(()) => Ok(by),
            Err(rule) => Err(rule),
        }
    }
}

/// What is told.
impl Live {
    /// Returns these comments as a caller with this standing at their paper is told of them.
    fn comment_lines(
        &self,
        alloc: Global,
        by: &Standing,
        comments: &[Comment],
    ) -> Result<CommentLines, AllocError>
        ensures { IfOk result (λ lines. lines ≡ lines_told self.now.tables by.now comments.now) }
    {
        let mut lines = Vec::with_capacity(alloc, comments.len())?;
        for comment in comments {
            lines.push(self.comment_line(by, comment)?)?;
        }
        Ok(CommentLines::from_vec(lines))
    }

    /// Returns a comment as a caller with this standing at its paper is told of it.
    fn comment_line(&self, by: &Standing, comment: &Comment) -> Result<CommentLine, AllocError>
        ensures { IfOk result (λ line. line
            ≡ comment_line by.now (lines_of self.now.tables.accounts) (comment_as_told comment.now)) }
    {
        let text = comment.text.copy()?;
        Ok(CommentLine {
            label: writer_label(by, comment.ordinal),
            n: comment.n,
            text,
            user: self.writer_name(by, comment.writer),
        })
    }

    /// Returns the name of who wrote a comment, if it is told.
    ///
    /// # Cost
    ///
    /// One read by number, if it is.
    fn writer_name(&self, by: &Standing, writer: UserNo) -> Option<Short>
        ensures { result ≡ writer_name self.now.tables by.now writer }
    {
        if !shows_writer(by) {
            return None;
        }
        self.accounts.name_of(writer)
    }
}

/// Returns the label under which a comment was written, if its writer's name isn't told and the user had one.
fn writer_label(by: &Standing, ordinal: Option<Ordinal>) -> Option<Ordinal>
    ensures { result ≡ writer_label by.now ordinal }
{
    if shows_writer(by) {
        return None;
    }
    ordinal
}
