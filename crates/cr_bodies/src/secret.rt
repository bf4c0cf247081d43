// SPDX-License-Identifier: Apache-2.0 OR MIT
//! Secrets and their digests.
ghost use Rattle.std.specs.Prelude.{◌≡◌};
ghost use Rattle.std.specs.List.{list_all};
ghost use Rattle.sha2.specs.Sha256.{sha256};
ghost use Rattle.cr_bodies.specs.Secret.{is_secret as is_secret_text, is_secret_byte, is_sized};

use sha2::{Digest, Sha256};

/// Returns whether a secret may have this byte.
fn is_byte(byte: u8) -> bool
    ensures { result ≡ is_secret_byte byte }
{
    byte.is_ascii_alphanumeric() || byte == b'_' || byte == b'~' || byte == b'+' || byte == b'-'
}

/// Returns whether a secret may have every one of these bytes.
fn all_bytes(text: &[u8]) -> bool
    ensures { result ≡ list_all is_secret_byte text.now }
{
    text.iter().all(|byte| is_byte(*byte))
}

/// Returns whether a text has from 16 to 64 bytes.
fn is_of_size(text: &[u8]) -> bool
    ensures { result ≡ is_sized text.now }
{
    16 <= text.len() && text.len() <= 64
}

/// Returns whether these bytes are a secret: 16 to 64 of `A-Za-z0-9_~+-`.
///
/// # Cost
///
/// One walk over at most 64 bytes.
pub(crate) fn is_secret(text: &[u8]) -> bool
    ensures { result ≡ is_secret_text text.now }
{
    is_of_size(text) && all_bytes(text)
}

/// Returns the SHA-256 digest of a secret (FIPS 180-4, section 6.2).
pub(crate) fn digest_of(secret: &[u8]) -> cr_base::Digest
    ensures { result ≡ sha256 secret.now }
{
    Sha256::digest(secret)
}
