// SPDX-License-Identifier: Apache-2.0 OR MIT
//! By what the log finds entries: a command number, and the user who gave it.
ghost use Rattle.std.specs.Prelude.{◌≡◌};
ghost use Rattle.cr_log.specs.Given.{number_given};

use cr_base::{CommandNumber, Stamped, UserNo};
use std::hash::{Hash, Hasher};

/// A command number, and the user who gave it: each user has numbers of their own.
#[derive(Clone, Copy)]
pub(crate) struct GivenNumber {
    pub(crate) user: UserNo,
    pub(crate) number: CommandNumber,
}

impl PartialEq for GivenNumber {
    ghost use Rattle.std.proofs.Common.{rules};
    ghost use Rattle.std.specs.Cmp.Rules.{comparing};
    ghost use Rattle.cr_log.specs.Given.{is_same};

    ghost eq = { is_same };

    ghost laws = { Prim.search (comparing, rules) };

    fn eq(&self, other: &GivenNumber) -> bool {
        self.user == other.user && self.number == other.number
    }
}

impl Eq for GivenNumber {
    ghost use Rattle.std.proofs.Common.{rules};
    ghost use Rattle.std.specs.Cmp.Rules.{comparing};

    ghost laws = { Prim.search (comparing, rules) };
}

impl Hash for GivenNumber {
    ghost use Rattle.std.proofs.Common.{rules};
    ghost use Rattle.std.specs.Prelude.{◌++◌};
    ghost use Rattle.std.specs.Cmp.Rules.{hashing};
    ghost use Rattle.std.specs.Hash.{u64 as fed_number};

    ghost hash_input = { λ n. fed_number n.user ++ fed_number n.number };

    ghost respects_eq = { Prim.search (hashing, rules) };

    fn hash<H: Hasher>(&self, state: &mut H) {
        self.user.number().hash(state);
        self.number.number().hash(state);
    }
}

/// Returns the number under which these entries of one command are found, which is its first entry's; `None` if the
/// command had none.
///
/// # Cost
///
/// Reads only the first entry.
pub(crate) fn number_given(group: &[Stamped]) -> Option<GivenNumber>
    ensures { result ≡ number_given group.now }
{
    let first = group.first()?;
    let key = first.stamp.key?;
    Some(GivenNumber {
        user: first.stamp.maker,
        number: key.number,
    })
}
