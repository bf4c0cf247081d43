// SPDX-License-Identifier: Apache-2.0 OR MIT
//! Retries: by what a client tells that a command is one that it has sent before.
use crate::entry::Digest;
use std::marker::Model;

/// The greatest number that a client may give a command: 18 digits.
pub const LAST_COMMAND_NUMBER: u64 = 999_999_999_999_999_999;

/// The number that a client gives a command, from 1 to 999,999,999,999,999,999, so that the command acts once however
/// often it is sent.
///
/// # Model
///
/// The number.
#[derive(Clone, Copy, PartialEq, Eq)]
pub struct CommandNumber {
    number: u64,
}

impl Model for CommandNumber {
    ghost use Rattle.std.specs.Prelude.{ℕ, ◌≤◌};

    ghost Value = { ℕ };

    ghost view = { λ n. n.number };

    ghost invariant = { λ n. (1 ≤ n.number) × (n.number ≤ 999999999999999999) };

    ghost inverse = { λ n. record { number = n } };
}

impl CommandNumber {
    ghost use Rattle.std.specs.Prelude.{◌≡◌, ◌≤◌};
    ghost use Rattle.cr_base.specs.Keys.{command_number_of};

    /// Returns that number; `None` for 0 and past 999,999,999,999,999,999.
    pub fn new(number: u64) -> Option<CommandNumber>
        ensures { result ≡ command_number_of number }
    {
        if number == 0 || number > LAST_COMMAND_NUMBER {
            return None;
        }
        Some(CommandNumber { number })
    }

    /// Returns the number, from 1 to 999,999,999,999,999,999.
    pub fn number(self) -> u64
        ensures value { result ≡ self }
        ensures low { 1 ≤ result }
        ensures high { result ≤ 999999999999999999 }
    {
        self.number
    }
}

/// What tells that a request repeats an earlier one of the same user: the idempotency number that the client gave its
/// command, and the digest of the request, which covers method, path and body.
#[derive(Clone, Copy, PartialEq, Eq)]
pub struct RetryKey {
    /// The command's number.
    pub number: CommandNumber,
    /// The SHA-256 digest of method, path and body (FIPS 180-4).
    pub mark: Digest,
}
