// SPDX-License-Identifier: Apache-2.0 OR MIT
//! Single lists and fields of what a caller is told of a paper, beside what its facts tell, each read by itself,
//! for callers that need no more. Each says what it costs, and none takes memory.
ghost use Rattle.std.specs.Prelude.{◌≡◌, ◌≤◌, [], Some, is_some, not, if◌then◌else◌};
ghost use Rattle.cr_base.specs.Lists.{is_nothing};
ghost use Rattle.cr_base.specs.Page.{gets_tags};
ghost use Rattle.cr_base.specs.Page.{gets_versions, shows_reviewer, where_told};
ghost use Rattle.cr_base.specs.Papers.{paper_count};
ghost use Rattle.cr_base.specs.Pairs.{ties_of};
ghost use Rattle.cr_base.specs.Reviews.{early_form_in, is_written_in};
ghost use Rattle.cr_base.specs.Searching.{has_tag};
ghost use Rattle.cr_base.specs.Tags.{tags_in};
ghost use Rattle.cr_base.specs.Words.{is_chair};
ghost use Rattle.cr_base.specs.declared.pairs.Order.TheVariants.{ByPaper};
ghost use Rattle.cr_reviews.specs.Labels.{has_label};
ghost use Rattle.cr_view.specs.Fields.{authors_named, comments_told, response_told, reviews_told};
ghost use Rattle.cr_view.specs.Fields.{some_label, tells_some};
ghost use Rattle.cr_view.specs.PaperSeen.{accepted_seen, paper_seen_at};
ghost use Rattle.cr_view.specs.Replies.{names_of, versions_at};
ghost use Rattle.cr_view.specs.Reviews.{reviews_at};

use crate::comments::comments_rule;
use crate::facts::PaperFacts;
use crate::live::Live;
use crate::page::{gets_tags, gets_versions};
use crate::responses::response_rule;
use crate::reviews::reviews_rule;
use cr_anonymity::{shows_author, shows_reviewer};
use cr_base::{MOST_LABELS, Ordinal, PaperNo, Phase, Seat, Steps, Tag, Tie, UserNo};
use cr_reviews::Labels;

/// How many papers there are.
impl Live {
    /// Returns the number of papers, which are numbered from 1.
    ///
    /// # Cost
    ///
    /// Reads no paper.
    pub fn paper_count(&self) -> u64
        ensures count { result ≡ paper_count self.now.tables.papers }
        ensures few { result ≤ 9999 }
    {
        self.papers.count()
    }
}

/// What was uploaded.
impl Live {
    /// Returns whether a version is told of, as there is where there is a content.
    ///
    /// # Cost
    ///
    /// One read.
    pub fn tells_version(&self, facts: &PaperFacts<'_>) -> bool
        ensures { result ≡ tells_some (where_told (gets_versions facts.now.by (accepted_seen facts.now))
            (Some (versions_at self.now.tables facts.now.by.author facts.now.paper))) }
    {
        gets_versions(facts.by(), facts.is_accepted())
            && self
                .papers
                .last_version(facts.paper(), &mut Steps::uncounted())
                .is_some()
    }
}

/// Its authors, its reviewers and its tags.
impl Live {
    /// Returns the authors' ties, if their names are told, and else none; `name_of` tells each name. They are found by
    /// number.
    pub fn authors_told(&self, facts: &PaperFacts<'_>) -> &[Tie<()>]
        ensures { names_of self.now.tables result.now
            ≡ authors_named self.now.tables facts.now.by (accepted_seen facts.now) facts.now.paper }
    {
        if !shows_author(facts.by(), facts.is_accepted()) {
            return &[];
        }
        self.ties.authors(facts.paper(), &mut Steps::uncounted())
    }

    /// Returns the seats of all who were ever assigned, where reviewers' names are told, and else none;
    /// `reviewer_name` tells each name. They are found by number.
    pub fn seats_told(&self, facts: &PaperFacts<'_>) -> &[Tie<Seat>]
        ensures { result.now ≡ (if shows_reviewer facts.now.by
            then ties_of ByPaper facts.now.paper self.now.tables.seats else []) }
    {
        if !shows_reviewer(facts.by()) {
            return &[];
        }
        self.seats.seats(facts.paper(), &mut Steps::uncounted())
    }

    /// Returns whether the user is told that the tag is on.
    ///
    /// # Cost
    ///
    /// A walk over the paper's tags up to it.
    pub fn tells_tag(&self, user: UserNo, facts: &PaperFacts<'_>, tag: &Tag) -> bool
        ensures { result ≡ has_tag tag.now (where_told (gets_tags facts.now.by)
            (Some (tags_in self.now.tables.tags (Some user) (is_chair facts.now.by.role) facts.now.paper))) }
    {
        gets_tags(facts.by())
            && self.tags.has_for(
                user,
                facts.paper(),
                facts.by().role.is_chair(),
                tag,
                &mut Steps::uncounted(),
            )
    }
}

/// Its reviews, its comments and its response, as far as they tell anything.
impl Live {
    /// Returns whether the user with these facts is answered a review, if they ask for them: no rule forbids it, and
    /// there is one for the user.
    ///
    /// # Cost
    ///
    /// A walk over the paper's forms.
    pub fn tells_review(&self, user: &Option<UserNo>, facts: &PaperFacts<'_>) -> bool
        requires { facts.now ≡ paper_seen_at self.now.tables user.now facts.now.paper }
        ensures { result ≡ not (is_nothing
            (reviews_told self.now.tables user.now facts.now.by facts.now.paper)) }
    {
        let opened = self.stage.had_response();
        match reviews_rule(facts.by(), opened, self.papers.has(facts.paper())) {
            Ok(()) => self.has_review(user, facts),
            Err(_) => false,
        }
    }

    /// Returns whether there is a review for the user, where no rule is in the way.
    fn has_review(&self, user: &Option<UserNo>, facts: &PaperFacts<'_>) -> bool
        requires { facts.now ≡ paper_seen_at self.now.tables user.now facts.now.paper }
        ensures { result ≡ not (is_nothing
            (reviews_at self.now.tables user.now facts.now.by facts.now.paper)) }
    {
        let by = facts.by();
        if by.author && !by.phase.authors_read_reviews() {
            return self.has_early_form(facts.paper());
        }
        if by.author || by.reads_all_forms() {
            return self.has_any_form(facts.paper());
        }
        match facts.label() {
            Some(label) => self
                .reviews
                .has_form(facts.paper(), label, &mut Steps::uncounted()),
            None => false,
        }
    }

    /// Returns whether there is a form under some label.
    fn has_any_form(&self, paper: PaperNo) -> bool
        ensures { result ≡ some_label (is_written_in self.now.tables.reviews paper) 26 }
    {
        has_some(&self.reviews.labels(paper, &mut Steps::uncounted()))
    }

    /// Returns whether the response was opened, and there is a form under some label that was written before it.
    fn has_early_form(&self, paper: PaperNo) -> bool
        ensures { result ≡ some_label
            (λ o. is_some (early_form_in self.now.tables.stage.had_response self.now.tables.reviews paper o)) 26 }
    {
        if !self.stage.had_response() {
            return false;
        }
        let steps = &mut Steps::uncounted();
        has_some(&self.reviews.labels_before(paper, Phase::Response, steps))
    }

    /// Returns whether the user is answered a comment, if the user asks for them.
    ///
    /// # Cost
    ///
    /// Reads none.
    pub fn tells_comment(&self, facts: &PaperFacts<'_>) -> bool
        ensures { result ≡ not (is_nothing (comments_told self.now.tables facts.now.by facts.now.paper)) }
    {
        match comments_rule(facts.by(), self.papers.has(facts.paper())) {
            Ok(()) => !self
                .talk
                .comments(facts.paper(), &mut Steps::uncounted())
                .is_empty(),
            Err(_) => false,
        }
    }

    /// Returns whether the user is answered what its authors responded, if the user asks for it.
    ///
    /// # Cost
    ///
    /// One read by number.
    pub fn tells_response(&self, facts: &PaperFacts<'_>) -> bool
        ensures { result ≡ response_told self.now.tables facts.now.by facts.now.paper }
    {
        let paper = facts.paper();
        let responded = self.talk.response(paper, &mut Steps::uncounted()).is_some();
        response_rule(facts.by(), self.papers.has(paper), responded).is_ok()
    }
}

/// Returns whether one of the labels is among these.
fn has_some(labels: &Labels) -> bool
    ensures { result ≡ some_label (has_label labels.now) 26 }
{
    for before in 0..MOST_LABELS {
        if labels.has(Ordinal::new(before + 1)) {
            return true;
        }
    }
    false
}
