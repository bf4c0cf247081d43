// SPDX-License-Identifier: Apache-2.0 OR MIT
//! The history of a value under the lock.
ghost use Rattle.std.specs.Prelude.{◌≡◌, ℕ, List, length};

/// A value that has a list, its history, counts its faults, and has a root, which is what it remembers of its
/// beginning.
///
/// Turns may append to the list and let the count rise, do nothing else to the two, and leave the root unchanged:
/// [`HistoryLock::turn`](crate::HistoryLock::turn) requires that of its act.
pub trait Stands {
    /// What the list is made of. Only contracts speak of it; no value of it is made.
    type Entry;

    /// What a value remembers of its beginning. Only contracts speak of it; no value of it is made.
    type Root;

    // The list that a value stands for.
    ghost list: { Self → List Self.Entry };

    // How many faults a value has counted, as a `u64` that stays at its last value.
    ghost faults: { Self → ℕ };

    // What a value remembers of its beginning, which stays.
    ghost root: { Self → Self.Root };

    /// Returns the length of the list. It should cost no walk: each turn asks for it twice.
    fn entries(&self) -> u64
        ensures { result ≡ length (list self.now) };
}
