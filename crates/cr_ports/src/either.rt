// SPDX-License-Identifier: Apache-2.0 OR MIT
//! A keeper of one of two kinds.
ghost use Rattle.cr_ports.specs.Either.{either, either_alike, either_kind, either_left, either_opens};
ghost use Rattle.cr_ports.specs.Either.{either_rows_alike, either_told};

use crate::keeper::{Keeper, KeeperError};
use cr_base::Row;

/// A keeper of one of two kinds, which tells what the one that it is tells. What a stop left opens to the rows to
/// which either kind opens it; a kind that tells no stops opens nothing.
#[derive(Drop)]
pub enum EitherKeeper<K: Keeper, L: Keeper> {
    /// One of the first kind.
    First(K),
    /// One of the second kind.
    Second(L),
}

impl<K: Keeper, L: Keeper> Keeper for EitherKeeper<K, L> {
    ghost rows = { either K.rows L.rows };

    ghost faults = { either K.faults L.faults };

    ghost kind = { either_kind K.kind L.kind };

    ghost tells_stops = { either K.tells_stops L.tells_stops };

    ghost tells_alike = { either_alike K.kind L.kind K.tells_stops L.tells_stops K.tells_alike L.tells_alike };

    ghost rows_alike = { either_rows_alike K.kind L.kind K.rows L.rows K.rows_alike L.rows_alike };

    ghost rows_told = { either_told K.rows L.rows K.tells_stops L.tells_stops K.rows_told L.rows_told };

    ghost tried = { either K.tried L.tried };

    ghost moment = { either K.moment L.moment };

    ghost left_since = { either_left K.left_since L.left_since };

    ghost opens = { either_opens K.opens L.opens };

    fn append_all(&mut self, added: &[Row]) -> Result<(), KeeperError> {
        match self {
            EitherKeeper::First(keeper) => keeper.append_all(added),
            EitherKeeper::Second(keeper) => keeper.append_all(added),
        }
    }

    fn len(&mut self) -> Result<u64, KeeperError> {
        match self {
            EitherKeeper::First(keeper) => keeper.len(),
            EitherKeeper::Second(keeper) => keeper.len(),
        }
    }

    fn row(&mut self, at: u64) -> Result<Row, KeeperError> {
        match self {
            EitherKeeper::First(keeper) => keeper.row(at),
            EitherKeeper::Second(keeper) => keeper.row(at),
        }
    }
}
