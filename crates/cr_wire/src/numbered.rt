// SPDX-License-Identifier: Apache-2.0 OR MIT
//! A request whose number was read.
ghost use Rattle.std.specs.Prelude.{◌≡◌};
ghost use Rattle.cr_base.specs.Bounds.{IsBoundedCommand};
ghost use Rattle.cr_base.specs.Logins.{command_wants_login};
ghost use Rattle.cr_wire.specs.Bounds.{IsBoundedWhat, IsKeyFor};
ghost use Rattle.cr_wire.specs.Number.{own_key};

use crate::what::What;
use cr_base::{Command, CommandNumber, RetryKey};
use cr_bodies::{before_first, mark_of};
use cr_http::{Body, Head};

/// A request, and the number that it gives its command, if any.
#[derive(Clone, Copy)]
pub(crate) struct Numbered<'r> {
    /// The number.
    pub(crate) number: Option<CommandNumber>,
    /// The request's head.
    pub(crate) head: &'r Head<'r>,
    /// Its body.
    pub(crate) body: &'r Body<'r>,
}

impl Numbered<'_> {
    /// Returns the key of its command: the number with the mark of the request.
    ///
    /// # Cost
    ///
    /// The digest of method, path and body, and nothing where there is no number.
    pub(crate) fn key(&self) -> Option<RetryKey>
        ensures { result ≡ own_key self.now }
    {
        let number = self.number?;
        let path = before_first(b'?', self.head.target());
        Some(RetryKey {
            number,
            mark: mark_of(self.head.method(), path, self.body.as_slice()),
        })
    }

    /// Returns what is wished where it gives this command.
    pub(crate) fn giving(&self, command: Command) -> What
        requires bounded { IsBoundedCommand command }
        requires key { IsKeyFor (command_wants_login command) (own_key self.now) }
        ensures told { result ≡ What.Command (own_key self.now) command }
        ensures bounded { IsBoundedWhat result }
    {
        What::Command {
            key: self.key(),
            command,
        }
    }
}
