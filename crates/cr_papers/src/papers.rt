// SPDX-License-Identifier: Apache-2.0 OR MIT
//! The papers of a history, by number.
ghost use Rattle.std.specs.Prelude.{◌≡◌, ◌≤◌, ◌<◌, ◌+◌, ◌^◌, ◌==◌, [], ◌∷◌, not, OnOk};
ghost use Rattle.std.specs.Prelude.{IfOk, Some, length, map, find, unwrap_or};
ghost use Rattle.std.specs.List.{filter_map, list_any};
ghost use Rattle.std.specs.Option.{option_map, option_copied, IfSome};
ghost use Rattle.cr_base.specs.Checks.{judged, submit_checks, revise_checks, upload_checks};
ghost use Rattle.cr_base.specs.History.{History};
ghost use Rattle.cr_base.specs.Lists.{last, numbered, numbers_from};
ghost use Rattle.cr_base.specs.Papers.{no_papers, papers_after, paper_count};
ghost use Rattle.cr_base.specs.Papers.{paper_numbers, title_at, PapersFit};
ghost use Rattle.cr_base.specs.Papers.{is_withdrawn_at, uploads_at, own_count, own_bytes};
ghost use Rattle.cr_base.specs.Steps.{Takes, TakesAtMost};
ghost use Rattle.cr_papers.specs.Named.{named_in};
ghost use Rattle.cr_papers.specs.Room.{paper_uploaded, PapersHaveRoom};

use crate::uploads::Uploads;
use cr_base::{
    Blob, Entry, Kept, LAST_NUMBER, Paper, PaperNo, Rule, Stamped, Standing, Steps, Text, UserNo,
    Versions,
};
use cr_kept::Sums;
use std::alloc::{AllocError, Global};
use std::marker::Model;
use std::sync::ledger::Ledger;

/// The most papers that one user may submit.
pub const MOST_OWN_PAPERS: u64 = 20;

/// The most bytes that one user may upload, in all versions of all papers.
pub const MOST_OWN_BYTES: u64 = 67_108_864;

/// What was submitted: at most 9,999 papers by their numbers, each with its last texts and all that was uploaded to
/// it; how many papers each user submitted, at most 20; and how many bytes the user uploaded, at most 67,108,864. Who
/// a paper's authors are is in the table of ties.
///
/// # Model
///
/// The papers by number, the uploads paper by paper and the sums, and for how many more papers, and uploads to each
/// paper, there is room.
#[derive(Drop)]
pub struct Papers {
    alloc: Global,
    papers: Vec<Kept<Paper>>,
    uploads: Uploads,
    submitted: Sums,
    uploaded: Sums,
}

impl Model for Papers {
    ghost use Rattle.std.specs.Prelude.{◌≤◌, ◌-◌, length, vec_len, vec_capacity};
    ghost use Rattle.cr_papers.specs.Room.{rooms_of};
    ghost use Rattle.cr_papers.specs.Seen.{SeenPapers};

    ghost Value = { SeenPapers };

    ghost view = { λ t. record {
      papers = record {
        papers = t.papers.items;
        uploads = t.uploads.uploads;
        submitted = t.submitted.sums;
        uploaded = t.uploaded.sums;
      };
      rooms = rooms_of t.submitted.capacity (vec_capacity t.papers - vec_len t.papers)
          t.uploaded.capacity t.uploads.rooms;
    } };

    ghost invariant = { λ t. length t.papers.items ≤ 9999 };
}

/// What is read.
impl Papers {
    /// Creates one without papers.
    ///
    /// # Cost
    ///
    /// Takes no memory.
    pub fn new(alloc: Global) -> Papers
        ensures { result.papers ≡ no_papers }
    {
        Papers {
            alloc,
            papers: Vec::new(alloc),
            uploads: Uploads::new(alloc),
            submitted: Sums::new(alloc),
            uploaded: Sums::new(alloc),
        }
    }

    /// Returns how many papers were submitted, 0 to 9,999; reads no paper.
    pub fn count(&self) -> u64
        ensures value { result ≡ paper_count self.now.papers }
        ensures few { result ≤ 9999 }
    {
        self.papers.len() as u64
    }

    /// Returns how many papers a user has submitted, 0 to 20.
    ///
    /// # Cost
    ///
    /// One read by number.
    pub fn count_of_user(&self, user: UserNo) -> u64
        ensures { result ≡ own_count self.now.papers (Some user) }
    {
        self.submitted.of(user)
    }

    /// Returns how many bytes a user has uploaded, in all versions of all papers, 0 to 67,108,864.
    ///
    /// # Cost
    ///
    /// One read by number.
    pub fn bytes_of_user(&self, user: UserNo) -> u64
        ensures { result ≡ own_bytes self.now.papers (Some user) }
    {
        self.uploaded.of(user)
    }

    /// Returns whether there is a paper of this number; reads no paper.
    pub fn has(&self, paper: PaperNo) -> bool
        ensures { result ≡ list_any (λ p. p == paper) (paper_numbers self.now.papers) }
    {
        paper.number() <= self.count()
    }

    /// Returns what is kept of a paper, or `None` if there is no such paper.
    ///
    /// # Cost
    ///
    /// Found by number; a step where there is one.
    pub fn paper_of<L: Ledger>(&self, paper: PaperNo, steps: &mut Steps<L>) -> Option<&Paper>
        ensures value { option_copied result ≡ numbered self.now.papers.papers paper }
        ensures steps { TakesAtMost 1 steps.old steps.new }
        ensures told { IfSome result (λ value. Takes 1 steps.old steps.new) }
    {
        let paper = self.papers.get(paper.from_zero())?;
        Some(paper.get(steps))
    }

    /// Returns the last title that a paper was given, or `None` if there is no such paper.
    ///
    /// # Cost
    ///
    /// Found by number; a step where there is one.
    pub fn last_title<L: Ledger>(&self, paper: PaperNo, steps: &mut Steps<L>) -> Option<&Text>
        ensures value { option_copied result ≡ title_at self.now.papers paper }
        ensures steps { TakesAtMost 1 steps.old steps.new }
        ensures told { IfSome result (λ value. Takes 1 steps.old steps.new) }
    {
        let paper = self.paper_of(paper, steps)?;
        Some(&paper.title)
    }

    /// Returns whether a paper was withdrawn; false if there is no such paper.
    ///
    /// # Cost
    ///
    /// Found by number; a step where there is one.
    pub fn is_withdrawn<L: Ledger>(&self, paper: PaperNo, steps: &mut Steps<L>) -> bool
        ensures value { result ≡ is_withdrawn_at self.now.papers paper }
        ensures steps { TakesAtMost 1 steps.old steps.new }
        ensures told { IfSome (numbered self.now.papers.papers paper) (λ there. Takes 1 steps.old steps.new) }
    {
        match self.paper_of(paper, steps) {
            Some(paper) => paper.withdrawn,
            None => false,
        }
    }
}

/// What is read of a paper's uploads.
impl Papers {
    /// Returns how many versions a paper has, 0 if there is no such paper. They are numbered from 1, so this is the
    /// last one's number too.
    ///
    /// # Cost
    ///
    /// Reads none of them.
    pub fn version_count(&self, paper: PaperNo) -> u64
        ensures count { result ≡ length (uploads_at self.now.papers paper) }
        ensures numbers { map (λ u. u.version) (uploads_at self.now.papers paper)
            ≡ numbers_from 1 (uploads_at self.now.papers paper) }
        ensures few { result < 2 ^ 63 }
    {
        self.uploads.count(paper)
    }

    /// Returns the number of a paper's last version, or `None` if it has none.
    ///
    /// # Cost
    ///
    /// Found by number; a step where there is one.
    pub fn last_version<L: Ledger>(&self, paper: PaperNo, steps: &mut Steps<L>) -> Option<u64>
        ensures value { result ≡ option_map (λ u. u.version) (last (uploads_at self.now.papers paper)) }
        ensures steps { TakesAtMost 1 steps.old steps.new }
        ensures told { IfSome result (λ value. Takes 1 steps.old steps.new) }
    {
        self.uploads.last_version(paper, steps)
    }

    /// Returns the numbers of a paper's versions, in ascending order.
    ///
    /// # Errors
    ///
    /// If memory runs out.
    ///
    /// # Cost
    ///
    /// Found by number; a step for each of the versions.
    pub fn versions<L: Ledger>(
        &self,
        alloc: Global,
        paper: PaperNo,
        steps: &mut Steps<L>,
    ) -> Result<Versions, AllocError>
        ensures value { IfOk result (λ versions. versions ≡ map (λ u. u.version) (uploads_at self.now.papers paper)) }
        ensures steps { Takes (length (uploads_at self.now.papers paper)) steps.old steps.new }
    {
        self.uploads.versions(alloc, paper, steps)
    }

    /// Returns the content of a version of a paper, or `None` if there is no such version.
    ///
    /// # Cost
    ///
    /// Found by number; a step where there is one.
    pub fn content<L: Ledger>(
        &self,
        paper: PaperNo,
        version: u64,
        steps: &mut Steps<L>,
    ) -> Option<&Blob>
        ensures value { option_copied result ≡ option_map (λ u. u.content)
            (find (λ u. u.version == version) (uploads_at self.now.papers paper)) }
        ensures steps { TakesAtMost 1 steps.old steps.new }
        ensures told { IfSome result (λ value. Takes 1 steps.old steps.new) }
    {
        self.uploads.content(paper, version, steps)
    }

    /// Returns the content of a paper's last version, or `None` if it has none.
    ///
    /// # Cost
    ///
    /// Found by number; a step where there is one.
    pub fn last_content<L: Ledger>(&self, paper: PaperNo, steps: &mut Steps<L>) -> Option<&Blob>
        ensures value { option_copied result ≡ option_map (λ u. u.content) (last (uploads_at self.now.papers paper)) }
        ensures steps { TakesAtMost 1 steps.old steps.new }
        ensures told { IfSome result (λ value. Takes 1 steps.old steps.new) }
    {
        self.uploads.last_content(paper, steps)
    }
}

/// What is judged.
impl Papers {
    /// Returns the number that a paper submitted now would have, the count of papers plus 1. `by` is the maker's
    /// standing, where no paper is named; `late` is what `Stage::is_late` says at the request's moment.
    ///
    /// # Errors
    ///
    /// The first broken rule: `NoUser` if not all of the co-authors named were found, else `WrongPhase` if the phase
    /// isn't submission, else `Late` if it is too late, else `FullPapers` if 9,999 papers were submitted, else
    /// `QuotaPapers` if this maker has submitted 20, withdrawn ones counted.
    ///
    /// # Cost
    ///
    /// One read by number. Takes no memory.
    pub fn judge_submit(
        &self,
        by: &Standing,
        maker: UserNo,
        users_found: bool,
        late: bool,
    ) -> Result<PaperNo, Rule>
        ensures { let count = paper_count self.now.papers in
            result ≡ judged
            (submit_checks (not users_found) by.now count (own_count self.now.papers (Some maker)) late)
            (count + 1) }
    {
        if !users_found {
            return Err(Rule::NoUser);
        }
        if !by.phase.accepts_submissions() {
            return Err(Rule::WrongPhase);
        }
        if late {
            return Err(Rule::Late);
        }
        if self.count() >= LAST_NUMBER {
            return Err(Rule::FullPapers);
        }
        if self.count_of_user(maker) >= MOST_OWN_PAPERS {
            return Err(Rule::QuotaPapers);
        }
        Ok(PaperNo::new(self.count() + 1))
    }

    /// Checks whether the caller may give a paper other texts. `by` is the caller's standing at the paper; `late` is
    /// what `Stage::is_late` says at the request's moment.
    ///
    /// # Errors
    ///
    /// The first broken rule: `NoPaper` if no paper of a number was named or there is none of it, else `NotAuthor` if
    /// the caller is none of its authors, else `WrongPhase` if the phase isn't submission, else `Late` if it is too
    /// late, else `Withdrawn` if the paper was withdrawn.
    ///
    /// # Cost
    ///
    /// One read by number at most. Takes no memory.
    pub fn judge_revise(
        &self,
        by: &Standing,
        paper: &Option<PaperNo>,
        late: bool,
    ) -> Result<(), Rule>
        ensures { result ≡ judged (revise_checks by.now (named_in self.now.papers paper.now) late) tt }
    {
        let Some(paper) = paper else {
            return Err(Rule::NoPaper);
        };
        self.may_change(by, *paper, late)
    }

    /// Checks whether the caller may withdraw a paper.
    ///
    /// # Errors
    ///
    /// The first broken rule: that of revising it, with the same `by` and `late`.
    pub fn judge_withdraw(
        &self,
        by: &Standing,
        paper: &Option<PaperNo>,
        late: bool,
    ) -> Result<(), Rule>
        ensures { result ≡ judged (revise_checks by.now (named_in self.now.papers paper.now) late) tt }
    {
        self.judge_revise(by, paper, late)
    }

    /// Returns the number of the version that so many bytes would be, the count of the paper's versions plus 1. `by`
    /// is the maker's standing at the paper; `late` is what `Stage::is_late` says at the request's moment.
    ///
    /// # Errors
    ///
    /// The first broken rule: that of revising the paper, else `QuotaBytes` if with them the maker would have uploaded
    /// more than 67,108,864 bytes, in all versions of all papers.
    ///
    /// # Cost
    ///
    /// Three reads by number at most. Takes no memory.
    pub fn judge_upload(
        &self,
        by: &Standing,
        maker: UserNo,
        paper: &Option<PaperNo>,
        bytes: u64,
        late: bool,
    ) -> Result<u64, Rule>
        ensures { result ≡ judged
            (upload_checks by.now (named_in self.now.papers paper.now) (own_bytes self.now.papers (Some maker)) bytes
            late)
            (length (uploads_at self.now.papers (unwrap_or paper.now 0)) + 1) }
    {
        let Some(paper) = paper else {
            return Err(Rule::NoPaper);
        };
        match self.may_change(by, *paper, late) {
            Ok(()) => {}
            Err(rule) => return Err(rule),
        }
        if self.bytes_of_user(maker).saturating_add(bytes) > MOST_OWN_BYTES {
            return Err(Rule::QuotaBytes);
        }
        Ok(self.version_count(*paper) + 1)
    }

    /// Checks whether the caller may change the paper of a number.
    fn may_change(&self, by: &Standing, paper: PaperNo, late: bool) -> Result<(), Rule>
        ensures { result ≡ judged (revise_checks by.now (named_in self.now.papers (Some paper)) late) tt }
    {
        if !self.has(paper) {
            return Err(Rule::NoPaper);
        }
        if !by.author {
            return Err(Rule::NotAuthor);
        }
        if !by.phase.papers_may_change() {
            return Err(Rule::WrongPhase);
        }
        if late {
            return Err(Rule::Late);
        }
        if self.is_withdrawn(paper, &mut Steps::uncounted()) {
            return Err(Rule::Withdrawn);
        }
        Ok(())
    }
}

/// What entries make of it.
impl Papers {
    /// Takes the memory that the entries of one command need, and the first time 80,000 bytes for the sums. The papers
    /// don't change.
    ///
    /// # Errors
    ///
    /// If memory runs out.
    ///
    /// # Cost
    ///
    /// Each paper to which they upload is compared with those before it.
    pub fn room(&mut self, group: &[Stamped]) -> Result<(), AllocError>
        ensures ok { OnOk result (PapersHaveRoom group.now self.new.rooms) }
        ensures same { self.new.papers ≡ self.old.papers }
        ensures keeps { (any : History) → PapersHaveRoom any self.old.rooms → PapersHaveRoom any self.new.rooms }
    {
        let papers = papers_uploaded(self.alloc, group)?;
        self.submitted.make_room()?;
        self.uploaded.make_room()?;
        self.papers.reserve(group.len())?;
        self.uploads.room(&papers)
    }

    /// Applies one more entry, for which there is room. It is taken whole, since the texts and the content of a paper
    /// are kept.
    ///
    /// # Cost
    ///
    /// A few reads by number. Takes no memory.
    pub fn apply(&mut self, stamped: Stamped)
        requires room { PapersHaveRoom (stamped ∷ []) self.old.rooms }
        requires fits { PapersFit self.old.papers stamped.stamp.maker stamped.entry }
        ensures after { self.new.papers ≡ papers_after self.old.papers stamped.stamp.maker stamped.entry }
        ensures room { (rest : History)
            → PapersHaveRoom (stamped ∷ rest) self.old.rooms → PapersHaveRoom rest self.new.rooms }
    {
        let Stamped { stamp, entry, .. } = stamped;
        match entry {
            Entry::Submitted {
                title,
                abstract_,
                ..
            } => {
                self.submitted.add(stamp.maker, 1);
                self.papers.push_reserved(Kept::new(Paper {
                    title,
                    abstract_,
                    withdrawn: false,
                }));
            }
            Entry::Revised {
                paper,
                title,
                abstract_,
            } => {
                let revised = &mut self.papers[paper.from_zero()];
                revised.revise(title, abstract_);
            }
            Entry::Uploaded {
                paper,
                version,
                content,
            } => {
                self.uploaded
                    .add(stamp.maker, content.as_slice().len() as u64);
                self.uploads.add(paper, version, content);
            }
            Entry::Withdrawn { paper } => {
                let withdrawn = &mut self.papers[paper.from_zero()];
                withdrawn.withdraw();
            }
            _ => {}
        }
    }
}

/// Returns the paper to which the entry uploads, if it does.
fn paper_uploaded(stamped: &Stamped) -> Option<PaperNo>
    ensures { result ≡ paper_uploaded stamped.now }
{
    match &stamped.entry {
        Entry::Uploaded { paper, .. } => Some(*paper),
        _ => None,
    }
}

/// Returns the papers to which the entries upload, as often as they do.
fn papers_uploaded(alloc: Global, group: &[Stamped]) -> Result<Vec<PaperNo>, AllocError>
    ensures { IfOk result (λ papers. papers.items ≡ filter_map paper_uploaded group.now) }
{
    group
        .iter()
        .filter_map(|stamped| paper_uploaded(stamped))
        .collect(alloc)
}
