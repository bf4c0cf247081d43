// SPDX-License-Identifier: Apache-2.0 OR MIT
//! What the tests of books begin with: sources and sinks.

use cr_ports::{MemSink, PlainSource};
use std::alloc::{AllocError, Global};

/// A request for the phase.
pub(crate) const GET_PHASE: &str = "GET /phase HTTP/1.1\r\nHost: c\r\n\r\n";

/// Returns a source of this text.
pub(crate) fn source(alloc: Global, text: &str) -> Result<PlainSource, AllocError> {
    Ok(PlainSource::new(text.as_bytes().to_vec(alloc)?))
}

/// Returns a sink with room for a few answers.
pub(crate) fn sink(alloc: Global) -> Result<MemSink, AllocError> {
    MemSink::new(alloc, 4096, Vec::new(alloc), Vec::new(alloc))
}
