// SPDX-License-Identifier: Apache-2.0 OR MIT
//! A paper of which a user asks.
ghost use Rattle.std.specs.Prelude.{◌≡◌};
ghost use Rattle.cr_search_eval.specs.Asked.{asked_of};

use cr_base::{PaperNo, Steps, UserNo};
use cr_view::{Live, PaperFacts};

/// A paper, as a user asks of it: read once for all terms.
#[derive(Drop)]
pub(crate) struct Asked<'a> {
    /// Who asks.
    pub(crate) user: UserNo,
    /// What is asked of the paper for them.
    pub(crate) facts: PaperFacts<'a>,
}

impl<'a> Asked<'a> {
    /// Returns the paper, as the user asks of it.
    ///
    /// # Cost
    ///
    /// What `facts` of `Live` costs.
    pub(crate) fn new(live: &'a Live, user: UserNo, paper: PaperNo) -> Asked<'a>
        ensures { result ≡ asked_of live.now.tables user paper }
    {
        Asked {
            user,
            facts: live.facts(&Some(user), paper, &mut Steps::uncounted()),
        }
    }
}
