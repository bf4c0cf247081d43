// SPDX-License-Identifier: Apache-2.0 OR MIT
//! What is answered of what a paper's authors responded to its reviews.
ghost use Rattle.std.specs.Prelude.{◌≡◌, IfOk, IfErr, Ok, Err};
ghost use Rattle.cr_base.specs.declared.command.Query.TheVariants as queries;
ghost use Rattle.std.specs.Option.{option_and_then, option_copied};
ghost use Rattle.cr_base.specs.Answering.{answer_by_role};
ghost use Rattle.cr_base.specs.Checks.{judged, of_there, response_checks};
ghost use Rattle.cr_base.specs.Talk.{response_in};
ghost use Rattle.cr_view.specs.Replies.{AnswersAsDue, ShowsAsDue};
ghost use Rattle.cr_view.specs.Responses.{response_due};

use crate::live::Live;
use crate::queries::AnswerError;
use cr_base::{PaperNo, Reply, Rule, Standing, Steps, Text, UserNo};

/// Checks whether a caller with this standing at a paper, which is there or isn't, may ask for its response, which is
/// there or isn't.
///
/// # Errors
///
/// The first broken rule.
pub(crate) fn response_rule(by: &Standing, there: bool, responded: bool) -> Result<(), Rule>
    ensures { result ≡ judged (response_checks by.now (of_there there) responded) tt }
{
    if !there {
        return Err(Rule::NoPaper);
    }
    if !by.author && !by.role.is_member() {
        return Err(Rule::NotMember);
    }
    if !by.author && by.conflicted {
        return Err(Rule::Conflict);
    }
    if !by.author && !by.phase.members_read_responses() {
        return Err(Rule::WrongPhase);
    }
    if !responded {
        return Err(Rule::NoResponse);
    }
    Ok(())
}

impl Live {
    /// Returns what a paper's authors responded, as a user, or an unauthenticated caller, may read it. Fails for lack
    /// of memory only if no rule is broken. The text is shared: the cost is a few reads by number, whatever its
    /// length.
    ///
    /// # Errors
    ///
    /// The first broken rule: `NoPaper` if there is no such paper; if the user is no author of it, `NotMember`, else
    /// `Conflict` if the user is in conflict with it, else `WrongPhase` before the discussion; else `NoResponse` if
    /// there is none.
    pub fn response_for(
        &self,
        user: &Option<UserNo>,
        paper: &Option<PaperNo>,
    ) -> Result<Text, AnswerError>
        ensures { ShowsAsDue result (response_due self.now.tables user.now paper.now) }
    {
        match self.response_told(user, paper) {
            Ok(text) => Ok(text.copy()?),
            Err(rule) => Err(AnswerError::Rule(rule)),
        }
    }

    /// Returns this as a reply.
    pub(crate) fn response_reply(
        &self,
        user: &Option<UserNo>,
        paper: &Option<PaperNo>,
    ) -> Result<Reply, AnswerError>
        ensures { AnswersAsDue result (answer_by_role self.now.tables user.now (queries.Response paper.now)) }
    {
        match self.response_for(user, paper) {
            Ok(text) => Ok(Reply::Response(text)),
            Err(error) => Err(error),
        }
    }

    /// Returns the response, lent.
    ///
    /// # Errors
    ///
    /// The first broken rule.
    pub(crate) fn response_told(
        &self,
        user: &Option<UserNo>,
        paper: &Option<PaperNo>,
    ) -> Result<&Text, Rule>
        ensures response { IfOk result (λ text. response_due self.now.tables user.now paper.now ≡ Ok text.now) }
        ensures rule { IfErr result (λ rule. response_due self.now.tables user.now paper.now ≡ Err rule) }
    {
        let by = self.standing(user, paper);
        let there = self.has_paper(paper);
        let response = self.response_of(paper);
        match response_rule(&by, there, response.is_some()) {
            Ok(()) => Ok(response.unwrap()),
            Err(rule) => Err(rule),
        }
    }

    /// Returns what the authors of the paper responded, where one is named and they did.
    fn response_of(&self, paper: &Option<PaperNo>) -> Option<&Text>
        ensures { option_copied result ≡ option_and_then (response_in self.now.tables.talk) paper.now }
    {
        match paper {
            Some(paper) => self.talk.response(*paper, &mut Steps::uncounted()),
            None => None,
        }
    }
}
