// SPDX-License-Identifier: Apache-2.0 OR MIT
//! Tests of stores over SQLite, with ample memory: rows come back unchanged, also from a store of an older version;
//! the text of each reason.
#![tactic(auto)]

#[cfg(test)]
mod old_versions;
#[cfg(test)]
mod rows;
#[cfg(test)]
mod steps;
#[cfg(test)]
mod stores;
