// SPDX-License-Identifier: Apache-2.0 OR MIT
//! The command that a row tells.
ghost use Rattle.std.specs.Prelude.{◌≡◌};
ghost use Rattle.cr_base.specs.Bulk.{command_by, row_command};
ghost use Rattle.cr_bulk.specs.Actions.{command_or_rule, seen, tag_command};

use crate::action::Action;
use cr_base::{BulkRow, RowCommand, Rule, Tag, parse_name, parse_paper};

/// Returns the command of a row that turns a tag on or off.
fn tag_command(row: &BulkRow, on: bool) -> Result<RowCommand, Rule>
    ensures { command_or_rule result ≡ tag_command row.now on }
{
    match Tag::read(row.tag.as_slice()) {
        Some(tag) => Ok(RowCommand::Tag {
            paper: parse_paper(row.paper.as_slice()),
            tag,
            on,
        }),
        None => Err(Rule::BadTag),
    }
}

/// Returns the command of a row with this action.
fn command_by(action: Action, row: &BulkRow) -> Result<RowCommand, Rule>
    ensures { command_or_rule result ≡ command_by (seen action) row.now }
{
    let paper = parse_paper(row.paper.as_slice());
    match action {
        Action::Assign(kind) => Ok(RowCommand::Assign {
            paper,
            user: parse_name(row.user.as_slice()),
            kind,
        }),
        Action::Unassign => Ok(RowCommand::Unassign {
            paper,
            user: parse_name(row.user.as_slice()),
        }),
        Action::TurnConflict(on) => Ok(RowCommand::Conflict {
            paper,
            user: parse_name(row.user.as_slice()),
            on,
        }),
        Action::TurnTag(on) => tag_command(row, on),
    }
}

/// Returns the command that a row tells, or why it tells none: `BadAction` if there is no such action, and `BadTag`
/// where the action is one of tags and the column `tag` has none. The column that the action isn't about isn't read.
///
/// # Cost
///
/// One walk over at most 34 bytes of each column. Takes no memory.
#[tactic(auto, unfolding(cr_base::specs::Bulk::row_command))]
pub fn row_command(row: &BulkRow) -> Result<RowCommand, Rule>
    ensures { command_or_rule result ≡ row_command row.now }
{
    match Action::read(row.action.as_slice()) {
        Some(action) => command_by(action, row),
        None => Err(Rule::BadAction),
    }
}
