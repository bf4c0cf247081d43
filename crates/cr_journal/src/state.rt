// SPDX-License-Identifier: Apache-2.0 OR MIT
//! What a journal is between two calls.
ghost use Rattle.std.specs.Prelude.{◌≡◌};

use cr_disks::Disk;

/// A file of payloads, and the gate at which it ends.
#[derive(Drop)]
pub(crate) struct Journal<D: Disk> {
    /// The file's disk.
    pub(crate) disk: D,
    /// The offset of the gate.
    pub(crate) gate: u64,
    /// The gate may be open, since an append failed after its payload was synced.
    pub(crate) in_doubt: bool,
}

impl<D: Disk> Journal<D> {
    /// Returns its disk.
    pub(crate) fn into_disk(self) -> D
        ensures { result ≡ self.disk }
    {
        let Journal {
            disk,
            gate: _,
            in_doubt: _,
        } = self;
        disk
    }
}
