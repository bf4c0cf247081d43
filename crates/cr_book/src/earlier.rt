// SPDX-License-Identifier: Apache-2.0 OR MIT
//! What the history has under the number of a command, which is looked up before the command is judged.
ghost use Rattle.std.specs.Prelude.{◌≡◌};
ghost use Rattle.std.specs.Str.{bytes_eq};
ghost use Rattle.cr_base.specs.Accounts.{lines_of};
ghost use Rattle.cr_base.specs.Retries.{repeated_receipt};
ghost use Rattle.cr_base.specs.Rows.{key_mark};
ghost use Rattle.cr_book.specs.Earlier.{earlier_of, kept_by, kept_seen};

use cr_base::{Digest, Receipt, RetryKey, Stamped, UserNo};
use cr_judge::receipt_of;
use cr_log::{KeptEntries, Log};
use cr_view::Live;

/// What the history has under a command's number.
#[derive(Clone, Copy)]
pub(crate) enum Earlier {
    /// Nothing, or the command has no number: it is to be judged.
    Nothing,
    /// What a command of the same mark added, so that the command at hand repeats it: it is answered this, and not
    /// judged.
    Same(Receipt),
    /// What a command of another mark added: the number is used.
    Other,
}

/// Returns the mark that the entry's command had; no bytes if it had no number.
fn mark_of(first: &Stamped) -> &[u8]
    ensures { result.now ≡ key_mark first.now.stamp.key }
{
    match &first.stamp.key {
        Some(key) => key.mark.as_slice(),
        None => b"".as_slice(),
    }
}

/// Returns whether a command of this mark added the entry.
fn has_mark(first: &Stamped, mark: &Digest) -> bool
    ensures { result ≡ bytes_eq (key_mark first.now.stamp.key) mark.now }
{
    mark_of(first) == mark.as_slice()
}

/// Returns the receipt of a repeat of the command that added these: of a bulk the number of rows, of any other command
/// what the first entry tells.
fn receipt_again(live: &Live, kept: &KeptEntries<'_>, is_bulk: bool) -> Receipt
    ensures { result ≡ repeated_receipt is_bulk (kept_seen (lines_of live.now.tables.accounts) kept.now) }
{
    if is_bulk {
        Receipt::Rows { rows: kept.count() }
    } else {
        receipt_of(live, &kept.first().entry)
    }
}

/// Looks up what the history has under this caller's number of the command, which may be a bulk, if it has one. Nothing
/// is judged.
///
/// # Cost
///
/// Takes no memory. One look-up by number; if the command repeats one that gave somebody a role, one read by number
/// more.
pub(crate) fn look_up(
    log: &Log,
    live: &Live,
    caller: &Option<UserNo>,
    key: &Option<RetryKey>,
    is_bulk: bool,
) -> Earlier
    ensures { result ≡ earlier_of is_bulk key.now (kept_by live.now.tables caller.now log.now.entries) }
{
    let Some(user) = caller else {
        return Earlier::Nothing;
    };
    let Some(key) = key else {
        return Earlier::Nothing;
    };
    let Some(kept) = log.find(*user, key.number) else {
        return Earlier::Nothing;
    };
    if !has_mark(kept.first(), &key.mark) {
        return Earlier::Other;
    }
    Earlier::Same(receipt_again(live, &kept, is_bulk))
}
