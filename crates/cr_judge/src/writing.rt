// SPDX-License-Identifier: Apache-2.0 OR MIT
//! What is judged of what is written on a paper, reviews, what authors respond to them, comments and tags, and of what
//! is decided of it.
ghost use Rattle.std.specs.Prelude.{◌≡◌};
ghost use Rattle.cr_base.specs.Calls.{resolved_by};
ghost use Rattle.cr_base.specs.Judging.{resolved_by_role};
ghost use Rattle.cr_base.specs.Tables.{tables_from};
ghost use Rattle.cr_base.specs.declared.resolved.ResolvedCommand.TheVariants as commands;
ghost use Rattle.cr_judge.specs.Effects.{drawn_or_rule, entry_or_rule};
ghost use Rattle.cr_judge.specs.Rows.{AreEarlier};

use crate::effect::{Effect, alone};
use crate::named::{held, is_late, named_paper, ordinal_of};
use cr_base::{Decision, Entry, Form, PaperNo, Rule, Stamp, Stamped, Tag, Text};
use cr_view::Live;

pub(crate) fn review(
    live: &Live,
    stamp: &Stamp,
    paper: &Option<PaperNo>,
    form: Form,
) -> Result<Effect, Rule>
    ensures { drawn_or_rule live.now.tables.accounts result
        ≡ resolved_by_role live.now.tables (resolved_by stamp.now (commands.Review paper.now form)) }
{
    let named = named_paper(live, stamp.maker, paper, &[]);
    let ordinal = ordinal_of(live, &Some(stamp.maker), &named.paper, &[]);
    let late = is_late(live, stamp);
    let version = live
        .review_table()
        .judge_review(&named.by, &named.paper, &ordinal, named.withdrawn, late)?;
    let paper = held(&named.paper);
    let ordinal = held(&ordinal);
    Ok(alone(
        stamp,
        Entry::Reviewed {
            paper,
            ordinal,
            version,
            form,
        },
    ))
}

pub(crate) fn response(
    live: &Live,
    stamp: &Stamp,
    paper: &Option<PaperNo>,
    text: Text,
) -> Result<Effect, Rule>
    ensures { drawn_or_rule live.now.tables.accounts result
        ≡ resolved_by_role live.now.tables (resolved_by stamp.now (commands.Respond paper.now text)) }
{
    let named = named_paper(live, stamp.maker, paper, &[]);
    let late = is_late(live, stamp);
    live.comment_table()
        .judge_respond(&named.by, &named.paper, named.withdrawn, late)?;
    let paper = held(&named.paper);
    Ok(alone(stamp, Entry::Responded { paper, text }))
}

pub(crate) fn comment(
    live: &Live,
    stamp: &Stamp,
    paper: &Option<PaperNo>,
    text: Text,
) -> Result<Effect, Rule>
    ensures { drawn_or_rule live.now.tables.accounts result
        ≡ resolved_by_role live.now.tables (resolved_by stamp.now (commands.Comment paper.now text)) }
{
    let named = named_paper(live, stamp.maker, paper, &[]);
    let late = is_late(live, stamp);
    let n = live.comment_table().judge_comment(
        &named.by,
        stamp.maker,
        &named.paper,
        named.withdrawn,
        late,
    )?;
    let ordinal = ordinal_of(live, &Some(stamp.maker), &named.paper, &[]);
    let paper = held(&named.paper);
    Ok(alone(
        stamp,
        Entry::Commented {
            paper,
            n,
            ordinal,
            text,
        },
    ))
}

/// Returns the entry that turns a tag on or off, after earlier entries of the same bulk.
pub(crate) fn tag(
    live: &Live,
    stamp: &Stamp,
    paper: &Option<PaperNo>,
    tag: Tag,
    on: bool,
    earlier: &[Stamped],
) -> Result<Entry, Rule>
    requires { AreEarlier live.now.tables earlier.now }
    ensures { entry_or_rule live.now.tables.accounts stamp.now result
        ≡ resolved_by_role (tables_from live.now.tables earlier.now)
        (resolved_by stamp.now (commands.Tag paper.now tag on)) }
{
    let named = named_paper(live, stamp.maker, paper, earlier);
    live.tag_table()
        .judge_tag(&named.by, &named.paper, &tag, named.withdrawn)?;
    let paper = held(&named.paper);
    Ok(Entry::Tagged { paper, tag, on })
}

pub(crate) fn decision(
    live: &Live,
    stamp: &Stamp,
    paper: &Option<PaperNo>,
    decision: Decision,
) -> Result<Effect, Rule>
    ensures { drawn_or_rule live.now.tables.accounts result
        ≡ resolved_by_role live.now.tables (resolved_by stamp.now (commands.Decide paper.now decision)) }
{
    let named = named_paper(live, stamp.maker, paper, &[]);
    live.decision_table()
        .judge_decide(&named.by, &named.paper, named.withdrawn)?;
    let paper = held(&named.paper);
    Ok(alone(stamp, Entry::Decided { paper, decision }))
}
