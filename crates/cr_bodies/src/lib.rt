// SPDX-License-Identifier: Apache-2.0 OR MIT
//! What a request tells besides its path and method: a JSON body, credentials, and its digest. What JSON, SHA-256 and
//! timestamps are, `serde_json`, `sha2` and `jiff` define.
//!
//! # Proved
//!
//! - Unless memory runs out, a command is read exactly if the body is an object with the members that its request must
//!   have: `read_command` (`told`, `bounded`). Eight deadlines are written out: `law_deadlines_read`.
//! - Credentials are read exactly by their grammar: `read_credentials`. A request's digest is that of its method, path
//!   and body: `mark_of`.
//!
//! # Assumed
//!
//! - Nobody guesses a secret, or finds another with its digest.
#![tactic(auto)]

mod body;
mod bytes;
mod credentials;
mod field;
mod laws;
mod mark;
mod secret;
mod until;

pub use body::read_command;
pub use bytes::{after_first, before_first};
pub use credentials::{Credentials, read_credentials};
pub use laws::law_deadlines_read;
pub use mark::mark_of;
