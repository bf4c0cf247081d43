// SPDX-License-Identifier: Apache-2.0 OR MIT
//! What is answered of a paper's content: the last version to members and externals, any to authors.
ghost use Rattle.std.specs.Prelude.{◌≡◌, IfOk, IfErr, Ok, Err, Some};
ghost use Rattle.std.specs.Option.{option_copied};
ghost use Rattle.cr_view.specs.Replies.{AnswersAsDue, ShowsAsDue, content_at};
ghost use Rattle.cr_view.specs.Replies.{content_due, content_reader_at, content_reply_at};

use crate::live::Live;
use crate::queries::AnswerError;
use cr_base::{Blob, PaperNo, Reply, Rule, Standing, Steps, UserNo};

impl Live {
    /// Returns the content of a version of a paper, or of its last one, as a user, or an unauthenticated caller, may
    /// read it. Fails for lack of memory only if no rule is broken. The bytes are shared: the cost is a few reads by
    /// number, that of `is_accepted` and one look-up, whatever their number.
    ///
    /// # Errors
    ///
    /// The first broken rule: `NoPaper` if there is no such paper; if the user is no author of it and it isn't
    /// published, `NotMember`, else `Conflict` if the user is in conflict with it, else `WrongPhase` before the
    /// bidding; else `NoContent` if the paper has no such version, or if the user is no author of it and that isn't
    /// the last one.
    pub fn content_for(
        &self,
        user: &Option<UserNo>,
        paper: &Option<PaperNo>,
        version: Option<u64>,
    ) -> Result<Blob, AnswerError>
        ensures { ShowsAsDue result (content_due self.now.tables user.now paper.now version) }
    {
        match self.content_told(user, paper, version) {
            Ok(content) => Ok(content.copy()?),
            Err(rule) => Err(AnswerError::Rule(rule)),
        }
    }

    /// Returns this as a reply.
    pub(crate) fn content_reply(
        &self,
        user: &Option<UserNo>,
        paper: &Option<PaperNo>,
        version: Option<u64>,
    ) -> Result<Reply, AnswerError>
        ensures { AnswersAsDue result (content_reply_at self.now.tables user.now paper.now version) }
    {
        match self.content_for(user, paper, version) {
            Ok(content) => Ok(Reply::Content(content)),
            Err(error) => Err(error),
        }
    }

    /// Returns the content, lent.
    ///
    /// # Errors
    ///
    /// The first broken rule.
    pub(crate) fn content_told(
        &self,
        user: &Option<UserNo>,
        paper: &Option<PaperNo>,
        version: Option<u64>,
    ) -> Result<&Blob, Rule>
        ensures content { IfOk result (λ content. content_due self.now.tables user.now paper.now version
            ≡ Ok content.now) }
        ensures rule { IfErr result (λ rule. content_due self.now.tables user.now paper.now version ≡ Err rule) }
    {
        let by = match self.content_reader(user, paper) {
            Ok(by) => by,
            Err(rule) => return Err(rule),
        };
        let Some(number) = paper else {
            return Err(Rule::NoPaper);
        };
        match self.content_of(&by, *number, version) {
            Some(content) => Ok(content),
            None => Err(Rule::NoContent),
        }
    }

    /// Returns the caller's standing at the paper of which the user may read some content, if there is any.
    ///
    /// # Errors
    ///
    /// The first broken rule.
    fn content_reader(
        &self,
        user: &Option<UserNo>,
        paper: &Option<PaperNo>,
    ) -> Result<Standing, Rule>
        ensures { result ≡ content_reader_at self.now.tables user.now paper.now }
    {
        if !self.has_paper(paper) {
            return Err(Rule::NoPaper);
        }
        let by = self.standing(user, paper);
        if by.author || self.has_published(paper) {
            return Ok(by);
        }
        if !by.is_admitted() {
            return Err(Rule::NotMember);
        }
        if by.conflicted {
            return Err(Rule::Conflict);
        }
        if !by.phase.members_see_papers() {
            return Err(Rule::WrongPhase);
        }
        Ok(by)
    }

    /// Returns the content that the user is told with this standing at the paper: of any version to authors, of only
    /// the last to others.
    fn content_of(&self, by: &Standing, paper: PaperNo, version: Option<u64>) -> Option<&Blob>
        ensures { option_copied result ≡ content_at self.now.tables by.now.author paper version }
    {
        let Some(version) = version else {
            return self.papers.last_content(paper, &mut Steps::uncounted());
        };
        if by.author {
            return self.papers.content(paper, version, &mut Steps::uncounted());
        }
        let last = self.papers.last_version(paper, &mut Steps::uncounted())?;
        if last == version {
            return self.papers.last_content(paper, &mut Steps::uncounted());
        }
        None
    }
}
