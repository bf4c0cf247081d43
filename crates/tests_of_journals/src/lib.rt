// SPDX-License-Identifier: Apache-2.0 OR MIT
//! Tests of journals over disks in memory, with ample memory: the bytes of the file, and what opens once the machine
//! stopped at each call of the disk.
#![tactic(auto)]

#[cfg(test)]
mod conferences;
#[cfg(test)]
mod images;
#[cfg(test)]
mod journals;
#[cfg(test)]
mod rows;
#[cfg(test)]
mod shelves;
