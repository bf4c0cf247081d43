// SPDX-License-Identifier: Apache-2.0 OR MIT
//! A shelf of journals over disks.
ghost use Rattle.std.specs.Prelude.{◌≡◌, ◌≢◌, ◌⊎◌, ◌+◌, ◌≤◌, ℕ, [], List, Some, Err};
ghost use Rattle.std.specs.Prelude.{IfOk, IfSome, IsTrue, IsFalse};
ghost use Rattle.cr_base.specs.declared.row.Row.{Row};
ghost use Rattle.cr_disks.specs.Disk.{Only, with_bytes};
ghost use Rattle.cr_ports.specs.Count.{Gains, Rises};
ghost use Rattle.cr_ports.specs.Keeping.{HasCause};
ghost use Rattle.cr_ports.specs.Shelving.{StaysOpened};
ghost use Rattle.cr_ports.specs.declared.keeper.KeeperError.TheVariants.{Failed};
ghost use Rattle.cr_journal.specs.Grammar.{IsJournalOf};
ghost use Rattle.cr_journal.specs.Keeping.{rows_of};
ghost use Rattle.cr_journal.specs.Shelving.{IsNoJournal, opened_at, rows_at};
ghost use Rattle.cr_journal.specs.declared.opening.OpenError.TheVariants.{NoJournal};

use crate::keeper::JournalKeeper;
use crate::opening::OpenError;
use cr_disks::Disks;
use cr_ports::{KeeperError, Shelf};
use std::alloc::Global;
use std::marker::Model;
use std::snapshot::Snapshot;

/// Opens the files of disks as journals.
///
/// # Model
///
/// Its disks; how many files were refused as no journals; whether the last that was to be opened is none, or was left
/// half made; and the disk of the journal that was opened last, as it was then.
#[derive(Drop)]
pub struct JournalShelf<D: Disks> {
    alloc: Global,
    disks: D,
    refused: u64,
    found_none: bool,
    left_half_made: bool,
    last: Option<Snapshot<D::Disk>>,
}

impl<D: Disks> Model for JournalShelf<D> {
    ghost use Rattle.cr_journal.specs.Shelving.{Shelved};
    ghost use Rattle.std.specs.Option.{option_map};
    ghost use Rattle.std.specs.declared.snapshot.Snapshot.{Snapshot};

    ghost Value = { Shelved D D.Disk };

    ghost view = { λ s. record {
      disks = s.disks;
      refused = s.refused;
      found_none = s.found_none;
      left_half_made = s.left_half_made;
      last = option_map (λ (disk : Snapshot D.Disk). disk.value) s.last;
    } };
}

/// Counts a file if it is no journal, and returns whether it was counted.
fn refuse(refused: &mut u64, error: OpenError) -> bool
    ensures counted { refused.old ≤ refused.new }
    ensures none { IsTrue result → Rises refused.old refused.new × (error ≡ NoJournal) }
    ensures other { IsFalse result → (refused.new ≡ refused.old) × (error ≢ NoJournal) }
{
    if error != OpenError::NoJournal {
        return false;
    }
    *refused = refused.saturating_add(1);
    true
}

impl<D: Disks> JournalShelf<D> {
    /// Creates a shelf over these disks. It opens no file yet.
    pub fn new(alloc: Global, disks: D) -> Self
        ensures disks { result.disks ≡ disks }
        ensures refused { result.refused ≡ 0 }
        ensures none { IsFalse result.found_none }
        ensures whole { IsFalse result.left_half_made }
    {
        JournalShelf {
            alloc,
            disks,
            refused: 0,
            found_none: false,
            left_half_made: false,
            last: None,
        }
    }

    /// Lends its disks.
    pub fn disks(&self) -> &D
        ensures { result.now ≡ self.now.disks }
    {
        &self.disks
    }

    /// Returns whether the last file that was to be opened was refused because it is no journal.
    pub fn found_none(&self) -> bool
        ensures { result ≡ self.now.found_none }
    {
        self.found_none
    }

    /// Returns whether making a journal of the last file that was to be opened failed, and what was made could not be
    /// taken away.
    pub fn left_half_made(&self) -> bool
        ensures { result ≡ self.now.left_half_made }
    {
        self.left_half_made
    }
}

impl<D: Disks> Shelf for JournalShelf<D> {
    type Keeper = JournalKeeper<D::Disk>;

    ghost rows = { λ s path. rows_at D.Disk.tells (D.files s.disks) path };

    ghost tells_stops = { λ _ _. D.Disk.tells };

    ghost has_opened = { λ s path _. D.has_opened s.disks path };

    ghost faults = { λ s. D.faults s.disks + s.refused };

    ghost opened_at = { λ s _. opened_at D.Disk.moment s };

    ghost left = { λ s path image. D.left s.disks path (opened_at D.Disk.moment s) image };

    /// Opens the file as a journal. A file that is missing or empty becomes a journal of no rows. If it can't be made
    /// one, it stays empty, unless what was made can't be taken away again. All of it is read, once it is synced.
    fn open(&mut self, path: &str) -> Result<JournalKeeper<D::Disk>, KeeperError>
        ensures found { IfOk result (λ k. IfSome (rows_at D.Disk.tells (D.files self.old.disks) path.now)
            (λ there. Some k.rows ≡ Some there)) }
        ensures fresh { IfOk result (λ k. D.Disk.faults k.disk ≡ 0) }
        ensures opened { IfOk result (λ k. D.has_opened self.new.disks path.now) }
        ensures begins { IfOk result (λ k. IsTrue D.Disk.tells
            → (opened_at D.Disk.moment self.new ≡ D.Disk.moment k.disk) × (k.doubted ≡ [])) }
        ensures same { StaysOpened D.Disk.tells path.now result (rows_at D.Disk.tells (D.files self.old.disks))
            (rows_at D.Disk.tells (D.files self.new.disks)) }
        ensures cause { HasCause (D.faults self.old.disks + self.old.refused)
            (D.faults self.new.disks + self.new.refused) result }

        // The rows are those of the groups of which the file is a journal.
        ensures journal { IsTrue D.Disk.tells → IfOk result (λ k. (groups : List (List Row))
            × IsJournalOf groups (D.Disk.seen k.disk) × (rows_of groups ≡ k.rows)) }
        ensures file { IsTrue D.Disk.tells → D.files self.old.disks path.now ≢ []
            → IfOk result (λ k. D.Disk.seen k.disk ≡ D.files self.old.disks path.now) }
        // Once it is open a stop leaves what was read, whatever it might have left before.
        ensures durable { IsTrue D.Disk.tells → IfOk result (λ k. Only (D.Disk.seen k.disk) (D.Disk.may_leave k.disk)) }
        ensures files { IsTrue D.Disk.tells → result ≢ Err Failed → D.files self.new.disks ≡ D.files self.old.disks }

        // It fails only where the disks or a disk failed, or where the file is no journal.
        ensures failed { result ≡ Err Failed → Rises (D.faults self.old.disks) (D.faults self.new.disks)
            ⊎ (Rises self.old.refused self.new.refused
            × (IsTrue D.Disk.tells → IsNoJournal (D.files self.old.disks path.now))) }

        // Where it fails each file is as it was, unless it is told that a part of a new journal was left in an empty
        // one.
        ensures spared { IsTrue D.Disk.tells → result ≡ Err Failed → IsFalse self.new.left_half_made
            → D.files self.new.disks ≡ D.files self.old.disks }
        ensures half_made { IsTrue self.new.left_half_made → (result ≡ Err Failed)
            × (IsTrue D.Disk.tells → D.files self.old.disks path.now ≡ []) }

        // Which of both it was stays known until the next file is to be opened.
        ensures none { IsTrue self.new.found_none → (result ≡ Err Failed) × Rises self.old.refused self.new.refused
            × (IsTrue D.Disk.tells → IsNoJournal (D.files self.old.disks path.now)) }
        ensures other { IsFalse self.new.found_none → (self.new.refused ≡ self.old.refused)
            × (result ≡ Err Failed → Rises (D.faults self.old.disks) (D.faults self.new.disks)) }
    {
        self.found_none = false;
        self.left_half_made = false;
        let disk = self.disks.open(path)?;
        match JournalKeeper::open(self.alloc, disk) {
            Ok(keeper) => {
                self.last = Some(Snapshot::of(keeper.disk()));
                Ok(keeper)
            }
            Err((OpenError::OutOfMemory, _)) => Err(KeeperError::OutOfMemory),
            Err((OpenError::NotMade, disk)) => {
                self.left_half_made = !self.disks.discard(path, disk);
                Err(KeeperError::Failed)
            }
            Err((error, disk)) => {
                self.disks.shut(path, disk);
                self.found_none = refuse(&mut self.refused, error);
                Err(KeeperError::Failed)
            }
        }
    }

    /// Takes a keeper back. What was appended is in the file already.
    fn shut(&mut self, path: &str, keeper: JournalKeeper<D::Disk>) {
        self.disks.shut(path, keeper.into_disk());
    }
}
