// SPDX-License-Identifier: Apache-2.0 OR MIT
//! A shelf of two: one for journals, one for all else.
ghost use Rattle.std.specs.Prelude.{◌≡◌, ◌+◌};
ghost use Rattle.cr_ports.specs.Either.{MayBeShut, by_path, is_journal, side};

use crate::either::EitherKeeper;
use crate::keeper::KeeperError;
use crate::shelf::Shelf;
use std::marker::Model;

/// What the path of a journal ends in.
const JOURNALS: &str = ".cj";

/// Opens paths that end in `.cj` by one shelf, and all others by the other.
///
/// # Model
///
/// Both shelves.
#[derive(Drop)]
pub struct EitherShelf<S: Shelf, T: Shelf> {
    journals: S,
    others: T,
}

impl<S: Shelf, T: Shelf> Model for EitherShelf<S, T> {
    ghost use Rattle.cr_ports.specs.Either.{Sides};

    ghost Value = { Sides S T };

    ghost view = { λ s. record { journals = s.journals; others = s.others } };
}

/// Returns whether a path is that of a journal: it ends in `.cj`.
#[tactic(auto, using(std::proofs::lemmas::Str::Pattern::ends_text))]
pub fn is_journal(path: &str) -> bool
    ensures { result ≡ is_journal path.now }
{
    path.ends_with(JOURNALS)
}

impl<S: Shelf, T: Shelf> EitherShelf<S, T> {
    /// Creates a shelf that opens journals by the first, and all else by the second.
    pub fn new(journals: S, others: T) -> Self
        ensures { result ≡ record { journals = journals; others = others } }
    {
        EitherShelf { journals, others }
    }

    /// Lends the shelf of journals.
    pub fn journals(&self) -> &S
        ensures { result.now ≡ self.now.journals }
    {
        &self.journals
    }

    /// Lends the shelf of all else.
    pub fn others(&self) -> &T
        ensures { result.now ≡ self.now.others }
    {
        &self.others
    }
}

impl<S: Shelf, T: Shelf> Shelf for EitherShelf<S, T> {
    type Keeper = EitherKeeper<S::Keeper, T::Keeper>;

    ghost rows = { λ s path. by_path (S.rows s.journals) (T.rows s.others) path };

    ghost tells_stops = { λ s path. by_path (S.tells_stops s.journals) (T.tells_stops s.others) path };

    ghost has_opened = { λ s path kind.
        MayBeShut (S.has_opened s.journals path) (T.has_opened s.others path) (is_journal path) kind };

    ghost faults = { λ s. S.faults s.journals + T.faults s.others };

    ghost opened_at = { λ s path. by_path (S.opened_at s.journals) (T.opened_at s.others) path };

    ghost left = { λ s path image.
        side (is_journal path) (S.left s.journals path image) (T.left s.others path image) };

    fn open(&mut self, path: &str) -> Result<Self::Keeper, KeeperError> {
        if is_journal(path) {
            let keeper = self.journals.open(path)?;
            return Ok(EitherKeeper::First(keeper));
        }
        let keeper = self.others.open(path)?;
        Ok(EitherKeeper::Second(keeper))
    }

    /// Takes a keeper back by the shelf that opened it.
    fn shut(&mut self, path: &str, keeper: Self::Keeper) {
        match keeper {
            EitherKeeper::First(keeper) => self.journals.shut(path, keeper),
            EitherKeeper::Second(keeper) => self.others.shut(path, keeper),
        }
    }
}
