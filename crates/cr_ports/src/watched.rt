// SPDX-License-Identifier: Apache-2.0 OR MIT
//! Who is told of what a shelf opens and of what its keepers append.
ghost use Rattle.std.specs.Prelude.{◌≡◌};

use crate::keeper::{Keeper, KeeperError};
use crate::shelf::Shelf;
use cr_base::Row;
use std::marker::Model;

/// Is told of keepers, as an operator is by lines on standard error. Nothing depends on what it does.
pub trait Observer<K: Keeper> {
    /// Creates an observer of one more keeper, which hasn't been told anything yet.
    fn of_another(&self) -> Self;

    /// Is told that a keeper of the rows at this path was opened.
    fn opened(&mut self, path: &str);

    /// Is told how an append to this keeper ended.
    fn appended(&mut self, keeper: &K, answer: Result<(), KeeperError>);
}

/// Tells nobody.
#[derive(Clone, Copy, Drop)]
pub struct Silent;

impl<K: Keeper> Observer<K> for Silent {
    fn of_another(&self) -> Silent {
        Silent
    }

    fn opened(&mut self, _path: &str) {}

    fn appended(&mut self, _keeper: &K, _answer: Result<(), KeeperError>) {}
}

/// A keeper, each of whose appends an observer is told of.
///
/// # Model
///
/// The keeper.
#[derive(Drop)]
pub struct WatchedKeeper<K: Keeper, N: Observer<K>> {
    keeper: K,
    observer: N,
}

impl<K: Keeper, N: Observer<K>> Model for WatchedKeeper<K, N> {
    ghost Value = { K };

    ghost view = { λ k. k.keeper };
}

impl<K: Keeper, N: Observer<K>> Keeper for WatchedKeeper<K, N> {
    ghost rows = { K.rows };

    ghost faults = { K.faults };

    ghost kind = { K.kind };

    ghost tells_stops = { K.tells_stops };

    ghost tells_alike = { K.tells_alike };

    ghost rows_alike = { K.rows_alike };

    ghost rows_told = { K.rows_told };

    ghost tried = { K.tried };

    ghost moment = { K.moment };

    ghost left_since = { K.left_since };

    ghost opens = { K.opens };

    fn append_all(&mut self, added: &[Row]) -> Result<(), KeeperError> {
        let answer = self.keeper.append_all(added);
        self.observer.appended(&self.keeper, answer);
        answer
    }

    fn len(&mut self) -> Result<u64, KeeperError> {
        self.keeper.len()
    }

    fn row(&mut self, at: u64) -> Result<Row, KeeperError> {
        self.keeper.row(at)
    }
}

/// A shelf, of each of whose keepers an observer is told.
///
/// # Model
///
/// The shelf.
#[derive(Drop)]
pub struct WatchedShelf<S: Shelf, N: Observer<S::Keeper>> {
    shelf: S,
    observer: N,
}

impl<S: Shelf, N: Observer<S::Keeper>> Model for WatchedShelf<S, N> {
    ghost Value = { S };

    ghost view = { λ s. s.shelf };
}

impl<S: Shelf, N: Observer<S::Keeper>> WatchedShelf<S, N> {
    /// Creates a shelf of whose keepers the observer is told.
    pub fn new(shelf: S, observer: N) -> Self
        ensures { result ≡ shelf }
    {
        WatchedShelf { shelf, observer }
    }

    /// Lends the shelf.
    pub fn shelf(&self) -> &S
        ensures { result.now ≡ self.now }
    {
        &self.shelf
    }
}

impl<S: Shelf, N: Observer<S::Keeper> + Send + Drop> Shelf for WatchedShelf<S, N> {
    type Keeper = WatchedKeeper<S::Keeper, N>;

    ghost rows = { S.rows };

    ghost tells_stops = { S.tells_stops };

    ghost has_opened = { S.has_opened };

    ghost faults = { S.faults };

    ghost opened_at = { S.opened_at };

    ghost left = { S.left };

    fn open(&mut self, path: &str) -> Result<Self::Keeper, KeeperError> {
        let keeper = self.shelf.open(path)?;
        self.observer.opened(path);
        let observer = self.observer.of_another();
        Ok(WatchedKeeper { keeper, observer })
    }

    fn shut(&mut self, path: &str, keeper: Self::Keeper) {
        let WatchedKeeper {
            keeper,
            observer: _,
        } = keeper;
        self.shelf.shut(path, keeper);
    }
}
