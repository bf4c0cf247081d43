// SPDX-License-Identifier: Apache-2.0 OR MIT
//! Tests of books, connections and workers. Each call that may run out of memory and that no case shows, once with
//! ample memory. Two workers at once, the statuses by their numbers, the answer to a lack of memory.
#![tactic(auto)]

#[cfg(test)]
mod exits;
#[cfg(test)]
mod no_memory;
#[cfg(test)]
mod passes;
#[cfg(test)]
mod streams;
#[cfg(test)]
mod workers;
