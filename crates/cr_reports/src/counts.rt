// SPDX-License-Identifier: Apache-2.0 OR MIT
//! How much a user reviews.
ghost use Rattle.std.specs.Prelude.{◌≡◌, ◌^◌};
ghost use Rattle.cr_reports.specs.Loads.{IsFew, no_load, with_form, with_kind};

use cr_base::Kind;

/// How much a user reviews, in papers.
#[derive(Clone, Copy)]
pub(crate) struct Load {
    /// As primary reviewer.
    pub(crate) primary: u64,
    /// As secondary reviewer.
    pub(crate) secondary: u64,
    /// Otherwise.
    pub(crate) pc: u64,
    /// Of how many of these the user has written a form.
    pub(crate) written: u64,
}

impl Load {
    /// Returns the load of a user who reviews nothing.
    pub(crate) fn none() -> Load
        ensures { result ≡ no_load }
    {
        Load {
            primary: 0,
            secondary: 0,
            pc: 0,
            written: 0,
        }
    }

    /// Counts one more assignment of this kind, of which a form is written or isn't.
    pub(crate) fn add(&mut self, kind: Kind, written: bool)
        requires { IsFew (2 ^ 32) self.old }
        ensures { self.new ≡ with_form written (with_kind kind self.old) }
    {
        match kind {
            Kind::Primary => self.primary += 1,
            Kind::Secondary => self.secondary += 1,
            Kind::Pc => self.pc += 1,
        }
        if written {
            self.written += 1;
        }
    }
}
