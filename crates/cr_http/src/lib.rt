// SPDX-License-Identifier: Apache-2.0 OR MIT
//! Requests out of a stream of bytes (RFC 9112), however it is cut into pieces. Head and body are lent from the
//! connection's [`Inbox`].
//!
//! # Proved
//!
//! - What is read is what the stream's text has at this place: a request, a refusal by its name, a clean end, or one
//!   inside a request. After a fault or lack of memory it is what came, and what is left: `read_request` (`reads`). A
//!   text has one reading: `law_one_reading`. What is at its front stays, whatever follows: `law_final_stays`.
//! - Unless memory runs out, a body has at most 4,194,304 bytes (4 MiB), and is kept unchanged: `Inbox::request`
//!   (`short`), `Body::to_blob` (`value`).
//! - Each read was made while the bytes at hand had no request or refusal at their front (`needed`, in `reads`). So
//!   none follows a refusal. None goes past a body of [`LARGE_BODY`] bytes or more: `fill_body` (`exact`).
//! - A read fault means that the source's counter rose; else it stays: `read_request` (`fault`, `steady`).
//!
//! # Assumed
//!
//! - A large body is shared and not copied.
//!
//! # Not claimed
//!
//! - That other servers end a head where the definition does, whose grammar of heads is that of `httparse`.
#![tactic(auto)]

mod body;
mod buffer;
mod fill;
mod fill_body;
mod framing;
mod head;
mod head_range;
mod inbox;
mod judge;
mod laws;
mod read;
mod refusal;
mod values;

pub use body::Body;
pub use fill_body::LARGE_BODY;
pub use framing::MAX_BODY;
pub use head::{Head, MAX_FIELDS, Version};
pub use head_range::WINDOW;
pub use inbox::{Inbox, Request};
pub use laws::{law_final_stays, law_one_reading};
pub use read::{RequestRead, read_request};
pub use refusal::Refusal;
pub use values::{AllValues, Values};
