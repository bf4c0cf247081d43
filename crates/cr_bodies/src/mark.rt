// SPDX-License-Identifier: Apache-2.0 OR MIT
//! The marks of requests.
ghost use Rattle.std.specs.Prelude.{◌≡◌};
ghost use Rattle.cr_bodies.specs.Mark as spec;

use sha2::{Digest, Sha256};

/// Returns the mark of a request of this method, this path and this body: the SHA-256 digest (FIPS 180-4, section 6.2)
/// of the method, a space, the path, a line feed and the body.
///
/// # Cost
///
/// One walk over all three; copies none and takes no memory.
#[tactic(auto, unfolding(crate::specs::Mark::mark_of))]
pub fn mark_of(method: &[u8], path: &[u8], body: &[u8]) -> cr_base::Digest
    ensures { result ≡ spec.mark_of method.now path.now body.now }
{
    let mut hasher = Sha256::new();
    hasher.update(method);
    hasher.update(b" ");
    hasher.update(path);
    hasher.update(b"\n");
    hasher.update(body);
    hasher.finalize()
}
