// SPDX-License-Identifier: Apache-2.0 OR MIT
//! The body of a request, lent.
ghost use Rattle.std.specs.Prelude.{◌≡◌, ◌≤◌, length, IfOk};
ghost use Rattle.cr_http.specs.Body.{IsBody, memory_bytes};

use cr_base::Blob;
use std::alloc::{AllocError, Global};
use std::marker::Model;

/// Where the bytes of a body are.
#[derive(Drop)]
pub(crate) enum BodyMemory<'b> {
    /// Among those that were read.
    Buffer(&'b [u8]),
    /// In a block of their own.
    Block(&'b Blob),
}

/// The body of a request, lent: at most 4,194,304 bytes.
///
/// # Model
///
/// The list of its bytes.
#[derive(Drop)]
pub struct Body<'b> {
    memory: BodyMemory<'b>,
}

impl<'b> Model for Body<'b> {
    ghost use Rattle.std.specs.Prelude.{List, ℕ};
    ghost use Rattle.cr_http.specs.Body.{IsBody, memory_bytes};

    ghost Value = { List ℕ };

    ghost view = { λ b. memory_bytes b.memory };

    ghost invariant = { λ b. IsBody (memory_bytes b.memory) };
}

impl<'b> Body<'b> {
    /// Returns the body that these bytes are, at most 4,194,304.
    pub fn lent(bytes: &'b [u8]) -> Body<'b>
        requires { IsBody bytes.now }
        ensures { result ≡ bytes.now }
    {
        Body {
            memory: BodyMemory::Buffer(bytes),
        }
    }

    /// Returns the body that lies in this block: at most 4,194,304 bytes.
    pub fn block(bytes: &'b Blob) -> Body<'b>
        requires { IsBody bytes.now }
        ensures { result ≡ bytes.now }
    {
        Body {
            memory: BodyMemory::Block(bytes),
        }
    }

    /// Returns the bytes, at most 4,194,304.
    pub fn as_slice(&self) -> &[u8]
        ensures value { result.now ≡ self.now }
        ensures short { IsBody self.now }
    {
        match &self.memory {
            BodyMemory::Buffer(bytes) => bytes,
            BodyMemory::Block(blob) => blob.as_slice(),
        }
    }

    /// Returns the bytes to be kept, at most 4,194,304. A body in a block of its own shares it; another is copied into
    /// one.
    ///
    /// # Errors
    ///
    /// If memory runs out.
    ///
    /// # Cost
    ///
    /// For a body in a block of its own it doesn't depend on the length.
    pub fn to_blob(&self, alloc: Global) -> Result<Blob, AllocError>
        ensures value { IfOk result (λ blob. blob ≡ self.now) }
        ensures short { IsBody self.now }
    {
        match &self.memory {
            BodyMemory::Buffer(bytes) => Blob::from_slice(alloc, bytes),
            BodyMemory::Block(blob) => blob.copy(),
        }
    }
}
