// SPDX-License-Identifier: Apache-2.0 OR MIT
//! Tests of ports, locks and sockets: each call that may run out of memory, once with ample memory; what adapters do
//! over streams that fail; 64 threads on one history.
//!
//! Tests are in four crates of their own, since a crate with tests is proved twice, and these side by side. Whole runs
//! are cases of the program `conformance`; what a case shows has no test.
#![tactic(auto)]

#[cfg(test)]
mod locks;
#[cfg(test)]
mod ports;
#[cfg(test)]
mod tcp;
