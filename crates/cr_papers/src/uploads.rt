// SPDX-License-Identifier: Apache-2.0 OR MIT
//! What was uploaded to papers, by version.
ghost use Rattle.std.specs.Prelude.{◌≡◌, ◌<◌, ◌+◌, ◌^◌, ◌==◌, []};
ghost use Rattle.std.specs.Prelude.{OnOk, IfOk, length, map, find, slice_index};
ghost use Rattle.std.specs.Option.{option_map, option_copied, IfSome};
ghost use Rattle.cr_base.specs.Filed.{filed, with_filed, filed_of};
ghost use Rattle.cr_base.specs.Lists.{last, numbers_from};
ghost use Rattle.cr_base.specs.Steps.{Takes, TakesAtMost};
ghost use Rattle.cr_rooms.specs.Rooms.{HasRoom, IsNoLess, IsOneLess};

use cr_base::{Blob, PaperNo, Steps, Versions};
use cr_kept::Cabinet;
use std::alloc::{AllocError, Global};
use std::marker::Model;
use std::sync::ledger::Ledger;

/// A version of a paper's content.
///
/// # Model
///
/// It as `Upload`.
#[derive(Drop)]
pub(crate) struct Version {
    version: u64,
    content: Blob,
}

impl Model for Version {
    ghost use Rattle.cr_base.specs.History.{Upload};

    ghost Value = { Upload };

    ghost view = { λ v. record { version = v.version; content = v.content } };
}

/// The versions of each paper, in the order in which they were uploaded.
///
/// # Model
///
/// The uploads paper by paper, and for how many more to each paper there is room. A paper's versions are 1, 2 and so
/// on: that is true of every table.
#[derive(Drop)]
pub(crate) struct Uploads {
    uploads: Cabinet<Version>,
}

impl Model for Uploads {
    ghost use Rattle.cr_papers.specs.Seen.{SeenUploads};
    ghost use Rattle.cr_papers.specs.Versions.{AreNumbered};

    ghost Value = { SeenUploads };

    ghost view = { λ t. record { uploads = t.uploads.files; rooms = t.uploads.rooms } };

    ghost invariant = { λ t. AreNumbered t.uploads.files };
}

/// What is read.
impl Uploads {
    /// Creates one without uploads.
    ///
    /// # Cost
    ///
    /// Takes no memory.
    pub(crate) fn new(alloc: Global) -> Uploads
        ensures { result.uploads ≡ [] }
    {
        Uploads {
            uploads: Cabinet::new(alloc),
        }
    }

    /// Returns how many versions a paper has, 0 if there is no such paper. They are numbered from 1, so this is the
    /// last one's number too. None of them is read.
    pub(crate) fn count(&self, paper: PaperNo) -> u64
        ensures count { result ≡ length (filed_of paper self.now.uploads) }
        ensures numbers { map (λ u. u.version) (filed_of paper self.now.uploads)
            ≡ numbers_from 1 (filed_of paper self.now.uploads) }
        ensures few { result < 2 ^ 63 }
    {
        self.uploads.of_paper(paper, &mut Steps::uncounted()).len() as u64
    }

    /// Returns the number of a paper's last version, or `None` if it has none.
    ///
    /// # Cost
    ///
    /// Found by number; a step where there is one.
    pub(crate) fn last_version<L: Ledger>(
        &self,
        paper: PaperNo,
        steps: &mut Steps<L>,
    ) -> Option<u64>
        ensures value { result ≡ option_map (λ u. u.version) (last (filed_of paper self.now.uploads)) }
        ensures steps { TakesAtMost 1 steps.old steps.new }
        ensures told { IfSome result (λ value. Takes 1 steps.old steps.new) }
    {
        let last = self.uploads.last(paper, steps)?;
        Some(last.version)
    }

    /// Returns the numbers of a paper's versions, in ascending order.
    ///
    /// # Errors
    ///
    /// If memory runs out.
    ///
    /// # Cost
    ///
    /// Found by number; a step for each of the versions.
    pub(crate) fn versions<L: Ledger>(
        &self,
        alloc: Global,
        paper: PaperNo,
        steps: &mut Steps<L>,
    ) -> Result<Versions, AllocError>
        ensures value { IfOk result (λ versions. versions ≡ map (λ u. u.version) (filed_of paper self.now.uploads)) }
        ensures steps { Takes (length (filed_of paper self.now.uploads)) steps.old steps.new }
    {
        let numbers = self
            .uploads
            .of_paper(paper, steps)
            .iter()
            .map(|version| version.version)
            .collect(alloc)?;
        Ok(Versions::from_vec(numbers))
    }

    /// Returns the version of this number of a paper, or `None` if there is no such version. Versions are numbered
    /// from 1, so it is found by number; a step where there is one.
    fn version_of<L: Ledger>(
        &self,
        paper: PaperNo,
        version: u64,
        steps: &mut Steps<L>,
    ) -> Option<&Version>
        ensures value { option_copied result ≡ find (λ u. u.version == version) (filed_of paper self.now.uploads) }
        ensures steps { TakesAtMost 1 steps.old steps.new }
        ensures told { IfSome result (λ value. Takes 1 steps.old steps.new) }
    {
        let uploads = &self.uploads;
        if version == 0 {
            return None;
        }
        uploads.get(paper, (version - 1) as usize, steps)
    }

    /// Returns the content of a version of a paper, or `None` if there is no such version.
    ///
    /// # Cost
    ///
    /// Found by number; a step where there is one.
    pub(crate) fn content<L: Ledger>(
        &self,
        paper: PaperNo,
        version: u64,
        steps: &mut Steps<L>,
    ) -> Option<&Blob>
        ensures value { option_copied result ≡ option_map (λ u. u.content)
            (find (λ u. u.version == version) (filed_of paper self.now.uploads)) }
        ensures steps { TakesAtMost 1 steps.old steps.new }
        ensures told { IfSome result (λ value. Takes 1 steps.old steps.new) }
    {
        let version = self.version_of(paper, version, steps)?;
        Some(&version.content)
    }

    /// Returns the content of a paper's last version, or `None` if it has none.
    ///
    /// # Cost
    ///
    /// Found by number; a step where there is one.
    pub(crate) fn last_content<L: Ledger>(
        &self,
        paper: PaperNo,
        steps: &mut Steps<L>,
    ) -> Option<&Blob>
        ensures value { option_copied result ≡ option_map (λ u. u.content) (last (filed_of paper self.now.uploads)) }
        ensures steps { TakesAtMost 1 steps.old steps.new }
        ensures told { IfSome result (λ value. Takes 1 steps.old steps.new) }
    {
        let last = self.uploads.last(paper, steps)?;
        Some(&last.content)
    }
}

/// What is added.
impl Uploads {
    /// Takes the memory for one more upload to each of these papers, as often as it is there. The uploads don't
    /// change.
    ///
    /// # Errors
    ///
    /// If memory runs out.
    ///
    /// # Cost
    ///
    /// Compares each paper with those before it.
    pub(crate) fn room(&mut self, papers: &[PaperNo]) -> Result<(), AllocError>
        ensures ok { OnOk result (HasRoom papers.now self.new.rooms) }
        ensures same { self.new.uploads ≡ self.old.uploads }
        ensures keeps { IsNoLess self.old.rooms self.new.rooms }
    {
        self.uploads.room(papers)
    }

    /// Adds a version of a paper, for which there is room.
    ///
    /// # Cost
    ///
    /// Takes no memory, and moves no other.
    pub(crate) fn add(&mut self, paper: PaperNo, version: u64, content: Blob)
        requires room { 0 < slice_index self.old.rooms paper }
        requires next { version ≡ length (filed_of paper self.old.uploads) + 1 }
        ensures uploads { self.new.uploads
            ≡ with_filed (filed paper (record { version = version; content = content })) self.old.uploads }
        ensures rooms { IsOneLess paper self.old.rooms self.new.rooms }
    {
        self.uploads.file(paper, Version { version, content });
    }
}
