// SPDX-License-Identifier: Apache-2.0 OR MIT
//! What a path is found to be.
ghost use Rattle.std.specs.Prelude.{◌≡◌, option_map};
ghost use Rattle.cr_routes.specs.Parts.{first_of, second_of};
ghost use Rattle.cr_routes.specs.Rows.{AreTexts, walked};

use crate::resource::Resource;
use matchit::Params;

/// A path's resource, with what its parameters took of the path, in their order. No path has more than two.
#[derive(Clone, Copy, PartialEq, Eq)]
pub struct Matched<'p> {
    /// Which of the server's paths it is.
    pub resource: Resource,
    /// What its first parameter took: one part of the path, of at least one byte. `None` if it has no parameter.
    pub first: Option<&'p str>,
    /// What its second parameter took, as the first.
    pub second: Option<&'p str>,
}

/// Returns what the first two parameters of a match took.
pub(crate) fn taken<'p>(params: &Params<'_, 'p>) -> (Option<&'p str>, Option<&'p str>)
    requires { AreTexts (walked params.now.pattern.now params.now.text.now params.now.path.now params.now.names.now) }
    ensures first { option_map (λ t. t.now) result.0
        ≡ first_of (walked params.now.pattern.now params.now.text.now params.now.path.now params.now.names.now) }
    ensures second { option_map (λ t. t.now) result.1
        ≡ second_of (walked params.now.pattern.now params.now.text.now params.now.path.now params.now.names.now) }
{
    let mut parts = params.iter();
    let Some((_, first)) = parts.next() else {
        return (None, None);
    };
    match parts.next() {
        Some((_, second)) => (Some(first), Some(second)),
        None => (Some(first), None),
    }
}
