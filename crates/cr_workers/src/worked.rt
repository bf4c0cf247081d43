// SPDX-License-Identifier: Apache-2.0 OR MIT
//! How workers ended.
ghost use Rattle.std.specs.Prelude.{◌≡◌};
ghost use Rattle.cr_workers.specs.Doors.{joined};

/// How some workers ended.
#[derive(Clone, Copy, PartialEq, Eq)]
pub enum Worked {
    /// Each door gave its share, and no connection ended for lack of memory.
    Done,
    /// A door failed, and no connection ended for lack of memory.
    DoorFailed,
    /// A connection ended for lack of memory, or doors weren't asked at all for lack of it.
    OutOfMemory,
}

impl Worked {
    /// Returns how these and those ended together.
    pub fn and(self, other: Worked) -> Worked
        ensures { result ≡ joined self other }
    {
        match (self, other) {
            (Worked::OutOfMemory, _) | (_, Worked::OutOfMemory) => Worked::OutOfMemory,
            (Worked::DoorFailed, _) | (_, Worked::DoorFailed) => Worked::DoorFailed,
            (Worked::Done, Worked::Done) => Worked::Done,
        }
    }
}
