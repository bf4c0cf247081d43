// SPDX-License-Identifier: Apache-2.0 OR MIT
//! The credentials that the value of an Authorization field tells.
ghost use Rattle.std.specs.Prelude.{◌≡◌};
ghost use Rattle.cr_bodies.specs.Credentials.{after_spaces, credentials, credentials_of, token_of};

use crate::bytes::{after_first, before_first};
use crate::secret::{digest_of, is_secret};
use cr_base::{Digest, Short, is_name};

/// What a request tells of its caller.
#[derive(Clone, Copy)]
pub struct Credentials {
    /// The name told: 1 to 32 of `a-z0-9-`.
    pub name: Short,
    /// The digest of the secret told.
    pub digest: Digest,
}

/// Returns the bytes after the leading spaces.
fn without_spaces(text: &[u8]) -> &[u8]
    ensures { result.now ≡ after_spaces text.now }
{
    let mut rest = text;
    while let [b' ', tail @ ..] = rest {
        rest = tail;
    }
    rest
}

/// Returns the credentials of a name and a secret.
#[tactic(auto, unfolding(crate::specs::Credentials::credentials))]
fn credentials_from(name: &[u8], secret: &[u8]) -> Option<Credentials>
    ensures { result ≡ credentials name.now secret.now }
{
    if is_name(name) && is_secret(secret) {
        Some(Credentials {
            name: Short::from_slice(name),
            digest: digest_of(secret),
        })
    } else {
        None
    }
}

/// Returns the credentials of a token.
#[tactic(auto, unfolding(crate::specs::Credentials::token_of))]
fn read_token(token: &[u8]) -> Option<Credentials>
    ensures { result ≡ token_of token.now }
{
    credentials_from(before_first(b'.', token), after_first(b'.', token))
}

/// Returns the credentials that the value of an Authorization field tells: the scheme `Bearer` in any case, one or
/// more spaces, and a token (RFC 6750, section 2.1) that is a name, a full stop and a secret. `None` if it is anything
/// else.
///
/// # Cost
///
/// One walk over the value and the digest of at most 64 bytes.
pub fn read_credentials(value: &[u8]) -> Option<Credentials>
    ensures { result ≡ credentials_of value.now }
{
    if before_first(b' ', value).eq_ignore_ascii_case(b"Bearer") {
        read_token(without_spaces(after_first(b' ', value)))
    } else {
        None
    }
}
