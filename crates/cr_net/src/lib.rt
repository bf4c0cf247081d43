// SPDX-License-Identifier: Apache-2.0 OR MIT
//! Connections over TCP: gates on a loopback address. The trusted edge: no clause says what the system gives and
//! takes. `reaper.rt` says which connection gives way to another.
//!
//! # Proved
//!
//! - No call does anything undefined, whatever the system and a client do; each returns if the system's calls do
//!   (safety and totality). A stream, a door or the gates fail only if their counter rose.
//! - A read of 0 bytes is the end, and each error a fault. A write that takes nothing of a piece is a fault:
//!   `read_step`, `write_step`.
//! - An opening gives one door a worker; the doors share the connections evenly: `TcpGates::open` (`shares`). A door
//!   gives exactly its share, one connection at a time: `TcpDoor::next` (`left`, `out`).
//!
//! # Tested
//!
//! - Over sockets: only loopback addresses, bodies too large, slow and silent clients, timeouts: `checks/serve.py`,
//!   tests_of_ports. More clients than workers: which connections give way, and that no command is lost or taken
//!   twice: `checks/crowds.py`.
//!
//! # Assumed
//!
//! - That those steps are of the socket's calls; what a real socket gives and takes; every span of time.
#![tactic(auto)]

mod crowd;
mod door;
mod gates;
mod reaper;
mod reason;
mod shared;
mod stream;
mod time;

pub use door::TcpDoor;
pub use gates::TcpGates;
pub use reason::Reason;
pub use stream::{TcpSink, TcpSource};
