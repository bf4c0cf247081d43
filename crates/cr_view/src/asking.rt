// SPDX-License-Identifier: Apache-2.0 OR MIT
//! Who may ask what.
ghost use Rattle.std.specs.Prelude.{◌≡◌};
ghost use Rattle.cr_base.specs.Answering.{query_checks};
ghost use Rattle.cr_base.specs.Checks.{judged};
ghost use Rattle.cr_base.specs.Sources.{facts_of_tables, shown_in_tables};
ghost use Rattle.cr_base.specs.declared.command.Query.TheVariants as queries;

use crate::live::Live;
use cr_base::{PaperNo, Query, Rule, Steps, UserNo};

impl Live {
    /// Checks whether a user, or an unauthenticated caller, may ask the query. No rule is in the way of a search, nor
    /// of any query of another kind than those that rules name.
    ///
    /// # Errors
    ///
    /// The first broken rule of the query's list: each that `show`, `content_for`, `reviews_for`, `comments_for`,
    /// `response_for`, `may_have` and `may_plan` tell, except `NoPlan`, which takes memory to find.
    ///
    /// # Cost
    ///
    /// What the rules of its kind read: a few reads of the paper that is named, and for a plan what `may_plan` does.
    /// Takes no memory.
    pub fn may(&self, user: &Option<UserNo>, query: &Query) -> Result<(), Rule>
        ensures { result ≡ judged (query_checks (facts_of_tables self.now.tables user.now)
            (shown_in_tables self.now.tables) query.now) tt }
    {
        match query {
            Query::Me => Ok(()),
            Query::Accounts => Ok(()),
            Query::Phase => Ok(()),
            Query::Deadlines => Ok(()),
            Query::AcceptedPapers => Ok(()),
            Query::Search { .. } => Ok(()),
            Query::Page { paper } => self.may_see(user, paper),
            Query::Content { paper } => self.may_take_content(user, paper),
            Query::Version { paper, version } => self.may_take_version(user, paper, *version),
            Query::Reviews { paper } => self.may_read_reviews(user, paper),
            Query::Comments { paper } => self.may_read_comments(user, paper),
            Query::Response { paper } => self.may_read_response(user, paper),
            Query::Report { report } => self.may_have(user, report),
            Query::Plan { per_paper, .. } => self.may_plan(user, *per_paper),
        }
    }

    /// Checks whether the user may see the page of the paper.
    fn may_see(&self, user: &Option<UserNo>, paper: &Option<PaperNo>) -> Result<(), Rule>
        ensures { result ≡ judged (query_checks (facts_of_tables self.now.tables user.now)
            (shown_in_tables self.now.tables) (queries.Page paper.now)) tt }
    {
        match self.page_facts(user, paper, &mut Steps::uncounted()) {
            Ok(_) => Ok(()),
            Err(rule) => Err(rule),
        }
    }

    /// Checks whether the user may read the content of the paper's last version.
    fn may_take_content(&self, user: &Option<UserNo>, paper: &Option<PaperNo>) -> Result<(), Rule>
        ensures { result ≡ judged (query_checks (facts_of_tables self.now.tables user.now)
            (shown_in_tables self.now.tables) (queries.Content paper.now)) tt }
    {
        match self.content_told(user, paper, None) {
            Ok(_) => Ok(()),
            Err(rule) => Err(rule),
        }
    }

    /// Checks whether the user may read the content of this version of it.
    fn may_take_version(
        &self,
        user: &Option<UserNo>,
        paper: &Option<PaperNo>,
        version: u64,
    ) -> Result<(), Rule>
        ensures { result ≡ judged (query_checks (facts_of_tables self.now.tables user.now)
            (shown_in_tables self.now.tables) (queries.Version paper.now version)) tt }
    {
        match self.content_told(user, paper, Some(version)) {
            Ok(_) => Ok(()),
            Err(rule) => Err(rule),
        }
    }

    /// Checks whether the user may read the reviews of the paper.
    fn may_read_reviews(&self, user: &Option<UserNo>, paper: &Option<PaperNo>) -> Result<(), Rule>
        ensures { result ≡ judged (query_checks (facts_of_tables self.now.tables user.now)
            (shown_in_tables self.now.tables) (queries.Reviews paper.now)) tt }
    {
        match self.reviews_reader(user, paper) {
            Ok(_) => Ok(()),
            Err(rule) => Err(rule),
        }
    }

    /// Checks whether the user may read the comments on it.
    fn may_read_comments(&self, user: &Option<UserNo>, paper: &Option<PaperNo>) -> Result<(), Rule>
        ensures { result ≡ judged (query_checks (facts_of_tables self.now.tables user.now)
            (shown_in_tables self.now.tables) (queries.Comments paper.now)) tt }
    {
        match self.comments_reader(user, paper) {
            Ok(_) => Ok(()),
            Err(rule) => Err(rule),
        }
    }

    /// Checks whether the user may read what its authors responded.
    fn may_read_response(&self, user: &Option<UserNo>, paper: &Option<PaperNo>) -> Result<(), Rule>
        ensures { result ≡ judged (query_checks (facts_of_tables self.now.tables user.now)
            (shown_in_tables self.now.tables) (queries.Response paper.now)) tt }
    {
        match self.response_told(user, paper) {
            Ok(_) => Ok(()),
            Err(rule) => Err(rule),
        }
    }
}
