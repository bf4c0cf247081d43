// SPDX-License-Identifier: Apache-2.0 OR MIT
//! What queries are answered by the tables.
ghost use Rattle.std.specs.Prelude.{◌≡◌, ◌≢◌, ◌+◌, ◌++◌, ◌||◌};
ghost use Rattle.std.specs.Prelude.{IfOk, IsSome, IsTrue, OnErr, OnOk, Some, length, unwrap_or};
ghost use Rattle.std.specs.Option.{option_copied, option_map};
ghost use Rattle.cr_base.specs.Accounts.{lines_of};
ghost use Rattle.cr_base.specs.Answering.{query_checks, answer_by_role};
ghost use Rattle.cr_base.specs.Checks.{judged};
ghost use Rattle.cr_base.specs.Deadlines.{deadline_in, deadlines_told, phase_deadline};
ghost use Rattle.cr_base.specs.Filed.{filed_of};
ghost use Rattle.cr_base.specs.Lists.{listed};
ghost use Rattle.cr_base.specs.Page.{gets_tags, gets_versions, is_admitted, where_told};
ghost use Rattle.cr_base.specs.Sources.{facts_of_tables, shown_in_tables, has_paper};
ghost use Rattle.cr_base.specs.Papers.{uploads_at};
ghost use Rattle.cr_base.specs.Steps.{TakesAtMost};
ghost use Rattle.cr_base.specs.Tags.{tags_in};
ghost use Rattle.cr_base.specs.Words.{is_chair, is_member};
ghost use Rattle.cr_base.specs.declared.command.Query.TheVariants as queries;
ghost use Rattle.cr_view.specs.Callers.{HasAsker};
ghost use Rattle.cr_view.specs.Replies.{AnswersAsDue, ShowsAsDue, conference_at, names_of};
ghost use Rattle.cr_view.specs.PaperSeen.{accepted_seen, facts_reads, page_listed, page_reads};
ghost use Rattle.cr_view.specs.PaperSeen.{page_seen, paper_seen_at, TakesFew};
ghost use Rattle.cr_view.specs.Replies.{page_due, versions_at};

use crate::facts::PaperFacts;
use crate::lists::push_some;
use crate::live::Live;
use crate::page::{gets_tags, gets_versions, last_alone, shared};
use crate::page_lists::PageLists;
use cr_base::{
    AccountLines, Conference, Names, Page, PaperNo, Phase, PhaseDeadline, PhaseDeadlines, Query,
    Reply, Rule, Steps, TagList, Tie, UserNo, Versions,
};
use std::alloc::{AllocError, Global};
use std::sync::ledger::Ledger;

/// Returns the caller of a query that is a user's.
fn maker(caller: &Option<UserNo>) -> UserNo
    requires { IsSome caller.now }
    ensures { caller.now ≡ Some result }
{
    match caller {
        Some(user) => *user,
        None => unreachable!(),
    }
}

/// Returns whether the caller may see the page of a paper of which this is asked.
fn may_see_page(facts: &PaperFacts<'_>) -> bool
    ensures { result ≡ (is_admitted facts.now.by || facts.now.by.author || accepted_seen facts.now) }
{
    facts.by().is_admitted() || facts.by().author || facts.is_accepted()
}

/// Who may ask.
impl Live {
    /// Returns what is asked of the paper whose page the user may see.
    ///
    /// # Errors
    ///
    /// The first broken rule.
    pub(crate) fn page_facts<L: Ledger>(
        &self,
        user: &Option<UserNo>,
        paper: &Option<PaperNo>,
        steps: &mut Steps<L>,
    ) -> Result<PaperFacts<'_>, Rule>
        ensures facts { result ≡ judged (query_checks (facts_of_tables self.now.tables user.now)
            (shown_in_tables self.now.tables) (queries.Page paper.now))
            (paper_seen_at self.now.tables user.now (unwrap_or paper.now 0)) }
        ensures steps { TakesAtMost (facts_reads self.now.tables (unwrap_or paper.now 0)) steps.old steps.new }
    {
        let Some(paper) = paper else {
            return Err(Rule::NoPaper);
        };
        if !self.papers.has(*paper) {
            return Err(Rule::NoPaper);
        }
        let facts = self.facts(user, *paper, steps);
        if !may_see_page(&facts) {
            return Err(Rule::NotMember);
        }
        Ok(facts)
    }

    /// Returns whether there is such a paper.
    pub(crate) fn has_paper(&self, paper: &Option<PaperNo>) -> bool
        ensures { result ≡ has_paper (facts_of_tables self.now.tables None) paper.now }
    {
        match paper {
            Some(paper) => self.papers.has(*paper),
            None => false,
        }
    }
}

/// Why a query is not answered.
#[derive(Clone, Copy, PartialEq, Eq)]
pub enum AnswerError {
    /// The query breaks this rule.
    Rule(Rule),
    /// Out of memory.
    OutOfMemory,
}

impl From<AllocError> for AnswerError {
    ghost use Rattle.std.specs.Prelude.{◌≡◌};
    ghost use Rattle.cr_view.specs.declared.queries.AnswerError.TheVariants.{OutOfMemory};

    ghost from_gives = { λ _ e. e ≡ OutOfMemory };

    fn from(_: AllocError) -> AnswerError {
        AnswerError::OutOfMemory
    }
}

/// What is answered.
impl Live {
    /// Returns what the caller's query is answered. There is a caller where the query is about themselves. A search
    /// isn't answered here, see `cr_search_eval`, nor are a report and a plan, see `cr_reports` and `cr_plans`. All
    /// accounts cost a walk over them; a page a few look-ups and one more for each name that is told, whatever the
    /// length of the texts, a step for each version and each tag that is told, and, where reviewers are told, one for
    /// each who was ever assigned, at most 26, and a walk over the paper's forms; a content one look-up, whatever its
    /// length; the deadlines five reads; what the user is told of themselves, the accepted papers, reviews, response
    /// and comments as `me`, `accepted`, `reviews_for`, `response_for` and `comments_for` tell it.
    ///
    /// # Errors
    ///
    /// The first broken rule of the query's list; an error for lack of memory only if no rule is broken, and never if
    /// the state of the conference is asked for.
    pub fn answer(
        &self,
        alloc: Global,
        caller: &Option<UserNo>,
        query: &Query,
    ) -> Result<Reply, AnswerError>
        requires caller { HasAsker caller.now query.now }
        ensures answered { AnswersAsDue result (answer_by_role self.now.tables caller.now query.now) }
        ensures sure { OnErr result (query.now ≢ queries.Phase) }
    {
        match query {
            Query::Me => Ok(Reply::Me(self.me(alloc, maker(caller))?)),
            Query::Accounts => Ok(Reply::Accounts(self.accounts(alloc)?)),
            Query::Phase => Ok(Reply::Conference(self.conference())),
            Query::Deadlines => Ok(Reply::Deadlines(self.deadlines(alloc)?)),
            Query::AcceptedPapers => Ok(Reply::AcceptedPapers(self.accepted(alloc)?)),
            Query::Page { paper } => self.page_reply(alloc, caller, paper),
            Query::Content { paper } => self.content_reply(caller, paper, None),
            Query::Version { paper, version } => self.content_reply(caller, paper, Some(*version)),
            Query::Reviews { paper } => self.reviews_reply(alloc, caller, paper),
            Query::Comments { paper } => self.comments_reply(alloc, caller, paper),
            Query::Response { paper } => self.response_reply(caller, paper),
            Query::Search { .. } | Query::Report { .. } | Query::Plan { .. } => unreachable!(),
        }
    }

    /// Returns every account, by user number.
    ///
    /// # Errors
    ///
    /// If memory runs out.
    ///
    /// # Cost
    ///
    /// Reads and copies each account.
    pub fn accounts(&self, alloc: Global) -> Result<AccountLines, AllocError>
        ensures { IfOk result (λ lines. lines ≡ lines_of self.now.tables.accounts) }
    {
        self.accounts.lines(alloc)
    }

    /// Returns the phases that have a deadline, in the order of phases, each with it.
    ///
    /// # Errors
    ///
    /// If memory runs out.
    pub fn deadlines(&self, alloc: Global) -> Result<PhaseDeadlines, AllocError>
        ensures { IfOk result (λ told. told ≡ deadlines_told (deadline_in self.now.tables.stage.deadlines)) }
    {
        let mut told = Vec::new(alloc);
        self.push_deadline(&mut told, Phase::Submission)?;
        self.push_deadline(&mut told, Phase::Bidding)?;
        self.push_deadline(&mut told, Phase::Reviewing)?;
        self.push_deadline(&mut told, Phase::Response)?;
        self.push_deadline(&mut told, Phase::Discussion)?;
        Ok(PhaseDeadlines::from_vec(told))
    }

    /// Adds the phase with its deadline, if it has one.
    ///
    /// # Errors
    ///
    /// If memory runs out.
    fn push_deadline(&self, told: &mut Vec<PhaseDeadline>, phase: Phase) -> Result<(), AllocError>
        ensures { OnOk result (told.new.items ≡ told.old.items
            ++ listed (option_map (phase_deadline phase) (deadline_in self.now.tables.stage.deadlines phase))) }
    {
        if let Some(until) = self.stage.deadline(phase) {
            told.push(PhaseDeadline { phase, until })?;
        }
        Ok(())
    }

    /// Returns the phase, the mode and the number of papers.
    ///
    /// # Cost
    ///
    /// Takes no memory and reads no account.
    pub fn conference(&self) -> Conference
        ensures { result ≡ conference_at self.now.tables }
    {
        Conference {
            mode: self.stage.mode(&mut Steps::uncounted()),
            papers: self.papers.count(),
            phase: self.stage.phase(&mut Steps::uncounted()),
        }
    }

    /// Returns the page of a paper as a user, or an unauthenticated caller, may see it. Fails for lack of memory only
    /// if no rule is broken. Shares the texts that are told, and no others. The paper is found by number. The steps
    /// are at most twice as many as there are entries on it, and 16, whatever else is kept; of what is told by name a
    /// look-up each.
    ///
    /// # Errors
    ///
    /// The first broken rule: `NoPaper` if there is no such paper, else `NotMember` if the user is neither a member of
    /// the committee nor an external or an author of the paper, and it isn't accepted.
    pub fn show<L: Ledger>(
        &self,
        alloc: Global,
        user: &Option<UserNo>,
        paper: &Option<PaperNo>,
        steps: &mut Steps<L>,
    ) -> Result<Page, AnswerError>
        ensures page { ShowsAsDue result (page_due self.now.tables user.now paper.now) }
        ensures steps { TakesFew self.now.tables (unwrap_or paper.now 0) steps.old steps.new }
    {
        let facts = match self.page_facts(user, paper, steps) {
            Ok(facts) => facts,
            Err(rule) => return Err(AnswerError::Rule(rule)),
        };
        Ok(self.page(alloc, user, &facts, steps)?)
    }

    /// Returns this as a reply, whose steps aren't counted.
    fn page_reply(
        &self,
        alloc: Global,
        user: &Option<UserNo>,
        paper: &Option<PaperNo>,
    ) -> Result<Reply, AnswerError>
        ensures { AnswersAsDue result (answer_by_role self.now.tables user.now (queries.Page paper.now)) }
    {
        match self.show(alloc, user, paper, &mut Steps::uncounted()) {
            Ok(page) => Ok(Reply::Page(page)),
            Err(error) => Err(error),
        }
    }

    /// Returns what a user, or an unauthenticated caller, is told of a paper of which this is asked; members of the
    /// committee are users.
    fn page<L: Ledger>(
        &self,
        alloc: Global,
        user: &Option<UserNo>,
        facts: &PaperFacts<'_>,
        steps: &mut Steps<L>,
    ) -> Result<Page, AllocError>
        requires { IsTrue (is_member facts.now.by.role) → IsSome user.now }
        ensures page { IfOk result (λ page. page ≡ page_seen self.now.tables user.now facts.now) }
        ensures steps { TakesAtMost (page_reads self.now.tables facts.now.by facts.now.paper) steps.old steps.new }
    {
        let lists = self.page_lists(user, facts, steps);
        let versions = self.versions_told(alloc, facts, steps)?;
        let tags = self.tags_told(alloc, user, facts, steps)?;
        self.page_of(alloc, facts, &lists, versions, tags)
    }

    /// Returns the page of a paper of which this is asked, with these lists of it.
    fn page_of(
        &self,
        alloc: Global,
        facts: &PaperFacts<'_>,
        lists: &PageLists<'_>,
        versions: Option<Versions>,
        tags: Option<TagList>,
    ) -> Result<Page, AllocError>
        ensures { IfOk result (λ page. page ≡ page_listed self.now.tables facts.now lists.now versions tags) }
    {
        let authors = self.names_told(alloc, &lists.authors)?;
        let conflicts = self.names_told(alloc, &lists.conflicts)?;
        let declared = self.names_told(alloc, &lists.declared)?;
        let bids = self.bids_told(alloc, &lists.bids)?;
        let reviewers = self.reviewers_told(alloc, facts.by(), &lists.reviewers)?;
        let title = shared(facts.title_told())?;
        let abstract_ = shared(facts.abstract_told())?;
        Ok(Page {
            paper: facts.paper(),
            abstract_,
            authors,
            bid: lists.bid,
            bids,
            conflict: facts.conflict_told(),
            conflicts,
            decision: facts.decision_told(),
            declared,
            label: facts.label_told(),
            reviewers,
            tags,
            title,
            versions,
            withdrawn: facts.withdrawal_told(),
        })
    }

    /// Returns the versions that the user is told: all to authors, only the last to others.
    ///
    /// # Cost
    ///
    /// A step for each.
    fn versions_told<L: Ledger>(
        &self,
        alloc: Global,
        facts: &PaperFacts<'_>,
        steps: &mut Steps<L>,
    ) -> Result<Option<Versions>, AllocError>
        ensures versions { IfOk result (λ versions. versions
            ≡ where_told (gets_versions facts.now.by (accepted_seen facts.now))
            (Some (versions_at self.now.tables facts.now.by.author facts.now.paper))) }
        ensures steps { TakesAtMost (length (uploads_at self.now.tables.papers facts.now.paper) + 1)
            steps.old steps.new }
    {
        if !gets_versions(facts.by(), facts.is_accepted()) {
            return Ok(None);
        }
        if facts.by().author {
            return Ok(Some(self.papers.versions(alloc, facts.paper(), steps)?));
        }
        let last = self.papers.last_version(facts.paper(), steps);
        Ok(Some(last_alone(alloc, last)?))
    }

    /// Returns the tags that are on and for the user, if the user is told them.
    ///
    /// # Cost
    ///
    /// A step for each of the paper's tags.
    fn tags_told<L: Ledger>(
        &self,
        alloc: Global,
        user: &Option<UserNo>,
        facts: &PaperFacts<'_>,
        steps: &mut Steps<L>,
    ) -> Result<Option<TagList>, AllocError>
        requires { IsTrue (is_member facts.now.by.role) → IsSome user.now }
        ensures tags { IfOk result (λ tags. tags ≡ where_told (gets_tags facts.now.by)
            (Some (tags_in self.now.tables.tags user.now (is_chair facts.now.by.role) facts.now.paper))) }
        ensures steps { TakesAtMost (length (filed_of facts.now.paper self.now.tables.tags)) steps.old steps.new }
    {
        if !gets_tags(facts.by()) {
            return Ok(None);
        }
        let chair = facts.by().role.is_chair();
        Ok(Some(
            self.tags
                .tags_for(alloc, maker(user), facts.paper(), chair, steps)?,
        ))
    }
}

/// The names of those who are tied to a paper.
impl Live {
    /// Returns the names of the users of these ties, if they are told.
    fn names_told(
        &self,
        alloc: Global,
        ties: &Option<&[Tie<()>]>,
    ) -> Result<Option<Names>, AllocError>
        ensures { IfOk result (λ names. names ≡ option_map (names_of self.now.tables) (option_copied ties.now)) }
    {
        match ties {
            Some(ties) => Ok(Some(self.names(alloc, ties)?)),
            None => Ok(None),
        }
    }

    /// Returns the names of the users of these ties, without those that no account has.
    pub(crate) fn names(&self, alloc: Global, ties: &[Tie<()>]) -> Result<Names, AllocError>
        ensures { IfOk result (λ names. names ≡ names_of self.now.tables ties.now) }
    {
        let mut names = Vec::with_capacity(alloc, ties.len())?;
        for tie in ties {
            push_some(&mut names, self.accounts.name_of(tie.pair.user))?;
        }
        Ok(Names::from_vec(names))
    }
}
