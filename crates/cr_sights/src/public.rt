// SPDX-License-Identifier: Apache-2.0 OR MIT
//! What entries of which everyone is told, on accounts, roles, the phase, the mode and deadlines, show a reader.
ghost use Rattle.std.specs.Prelude.{◌≡◌, Some};
ghost use Rattle.cr_base.specs.declared.entry.EntryKind.TheVariants as kinds;
ghost use Rattle.cr_base.specs.Lists.{listed};
ghost use Rattle.cr_base.specs.Rows.{kind_of};
ghost use Rattle.cr_base.specs.Tables.{Tables};
ghost use Rattle.cr_policy.specs.Triggers.{Around};
ghost use Rattle.cr_policy.specs.View.{sight as sight_at};
ghost use Rattle.cr_sights.specs.Readers.{reader_in};

use crate::sighting::{Sighting, of_stamp};
use cr_base::{Entry, EntryKind, Stamped, UserNo};

/// Returns what a registration shows the reader: the user and their name, and the digest where it is their own.
pub(crate) fn registration<'a>(reader: UserNo, stamped: &'a Stamped) -> Option<Sighting<'a>>
    requires { kind_of stamped.now.entry ≡ kinds.Registered }
    ensures { (t : Tables) (at : Around) → listed result ≡ sight_at (reader_in t (Some reader)) at stamped.now }
{
    let Entry::Registered { user, name, digest } = &stamped.entry else {
        return None;
    };
    let mine = reader == stamped.stamp.maker;
    let mut sighting = of_stamp(EntryKind::Registered, reader, &stamped.stamp);
    sighting.user = Some(*user);
    sighting.name = Some(name);
    sighting.digest = mine.then_some(digest);
    Some(sighting)
}

/// Returns what a naming shows the reader: all of it.
pub(crate) fn naming<'a>(reader: UserNo, stamped: &'a Stamped) -> Option<Sighting<'a>>
    requires { kind_of stamped.now.entry ≡ kinds.Named }
    ensures { (t : Tables) (at : Around) → listed result ≡ sight_at (reader_in t (Some reader)) at stamped.now }
{
    let Entry::Named { user, role } = &stamped.entry else {
        return None;
    };
    let mut sighting = of_stamp(EntryKind::Named, reader, &stamped.stamp);
    sighting.user = Some(*user);
    sighting.role = Some(*role);
    Some(sighting)
}

/// Returns what the end of a role shows the reader: all of it.
pub(crate) fn dismissal<'a>(reader: UserNo, stamped: &'a Stamped) -> Option<Sighting<'a>>
    requires { kind_of stamped.now.entry ≡ kinds.Dismissed }
    ensures { (t : Tables) (at : Around) → listed result ≡ sight_at (reader_in t (Some reader)) at stamped.now }
{
    let Entry::Dismissed { user } = &stamped.entry else {
        return None;
    };
    let mut sighting = of_stamp(EntryKind::Dismissed, reader, &stamped.stamp);
    sighting.user = Some(*user);
    Some(sighting)
}

/// Returns what another phase shows the reader: all of it.
pub(crate) fn phase_set<'a>(reader: UserNo, stamped: &'a Stamped) -> Option<Sighting<'a>>
    requires { kind_of stamped.now.entry ≡ kinds.PhaseSet }
    ensures { (t : Tables) (at : Around) → listed result ≡ sight_at (reader_in t (Some reader)) at stamped.now }
{
    let Entry::PhaseSet { phase } = &stamped.entry else {
        return None;
    };
    let mut sighting = of_stamp(EntryKind::PhaseSet, reader, &stamped.stamp);
    sighting.phase = Some(*phase);
    Some(sighting)
}

/// Returns what another mode shows the reader: all of it.
pub(crate) fn mode_set<'a>(reader: UserNo, stamped: &'a Stamped) -> Option<Sighting<'a>>
    requires { kind_of stamped.now.entry ≡ kinds.ModeSet }
    ensures { (t : Tables) (at : Around) → listed result ≡ sight_at (reader_in t (Some reader)) at stamped.now }
{
    let Entry::ModeSet { mode } = &stamped.entry else {
        return None;
    };
    let mut sighting = of_stamp(EntryKind::ModeSet, reader, &stamped.stamp);
    sighting.mode = Some(*mode);
    Some(sighting)
}

/// Returns what a deadline that is set, or taken away, shows the reader: all of it.
pub(crate) fn deadline_set<'a>(reader: UserNo, stamped: &'a Stamped) -> Option<Sighting<'a>>
    requires { kind_of stamped.now.entry ≡ kinds.DeadlineSet }
    ensures { (t : Tables) (at : Around) → listed result ≡ sight_at (reader_in t (Some reader)) at stamped.now }
{
    let Entry::DeadlineSet { phase, until } = &stamped.entry else {
        return None;
    };
    let mut sighting = of_stamp(EntryKind::DeadlineSet, reader, &stamped.stamp);
    sighting.phase = Some(*phase);
    sighting.until = Some(*until);
    Some(sighting)
}
