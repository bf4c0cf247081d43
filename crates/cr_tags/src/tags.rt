// SPDX-License-Identifier: Apache-2.0 OR MIT
//! The tags that are on.
ghost use Rattle.std.specs.Prelude.{◌≡◌, ◌<◌, ◌&&◌, [], ◌∷◌, OnOk, IfOk, MatchResult};
ghost use Rattle.std.specs.Prelude.{Some, true, false, is_some, length, slice_index};
ghost use Rattle.std.specs.Str.{bytes_eq};
ghost use Rattle.std.specs.List.{filter_map, list_any};
ghost use Rattle.cr_base.specs.Checks.{judged, tag_checks};
ghost use Rattle.cr_base.specs.Filed.{filed, filed_of};
ghost use Rattle.cr_base.specs.History.{History};
ghost use Rattle.cr_base.specs.Steps.{Takes};
ghost use Rattle.cr_rooms.specs.Rooms.{IsNoLess, IsOneLess};
ghost use Rattle.cr_base.specs.TagTexts.{is_for_chairs};
ghost use Rattle.cr_base.specs.Tags.{no_tags, tag_owner, is_tag_for, tags_for, tag_switched, tags_after, tags_in};
ghost use Rattle.cr_tags.specs.BinarySearch.{IsAt, IsGapFor};
ghost use Rattle.cr_tags.specs.Room.{paper_tagged, TagsHaveRoom};

use crate::order::compare;
use cr_base::{Entry, PaperNo, Rule, SetTag, Stamped, Standing, Steps, Tag, TagList, UserNo};
use cr_kept::Cabinet;
use std::alloc::{AllocError, Global};
use std::marker::Model;
use std::sync::ledger::Ledger;

/// The tags that are on: each paper's own together, by their bytes; a private one as often as users have set it, by
/// their numbers.
///
/// # Model
///
/// The tags paper by paper, and for how many more at each paper there is room.
#[derive(Drop)]
pub struct Tags {
    alloc: Global,
    tags: Cabinet<SetTag>,
}

impl Model for Tags {
    ghost use Rattle.cr_base.specs.Tags.{IsSortedState};
    ghost use Rattle.cr_tags.specs.Seen.{SeenTags};

    ghost Value = { SeenTags };

    ghost view = { λ t. record { tags = t.tags.files; rooms = t.tags.rooms } };

    ghost invariant = { λ t. IsSortedState t.tags.files };
}

/// Returns who owns a tag that this user sets: the user, if it is private, and else none.
fn owner_of(tag: &Tag, maker: UserNo) -> Option<UserNo>
    ensures { result ≡ tag_owner tag.now maker }
{
    if tag.is_private() { Some(maker) } else { None }
}

/// Returns whether the tag is for this user: everyone's; their own private one; or a chair's, if the user is one.
fn is_for(set: &SetTag, user: UserNo, chair: bool) -> bool
    ensures { result ≡ is_tag_for (Some user) chair set.now }
{
    if set.tag.is_for_chairs() {
        return chair;
    }
    if !set.tag.is_private() {
        return true;
    }
    match &set.owner {
        Some(owner) => owner.number() == user.number(),
        None => false,
    }
}

/// Returns those of the tags that are for this user, in their order.
///
/// # Errors
///
/// If memory runs out.
///
/// # Cost
///
/// A walk over them.
fn those_for(
    alloc: Global,
    sets: &[SetTag],
    user: UserNo,
    chair: bool,
) -> Result<Vec<Tag>, AllocError>
    ensures { IfOk result (λ tags. tags.items ≡ tags_for (Some user) chair sets.now) }
{
    sets.iter()
        .filter(|set| is_for(set, user, chair))
        .map(|set| set.tag)
        .collect(alloc)
}

/// Returns whether it is this tag, and is for this user.
fn is_it_for(set: &SetTag, tag: &Tag, user: UserNo, chair: bool) -> bool
    ensures { result ≡ (is_tag_for (Some user) chair set.now && bytes_eq tag.now set.now.tag) }
{
    is_for(set, user, chair) && tag.as_slice() == set.tag.as_slice()
}

/// Returns whether this tag is one of the tags, and is for this user.
///
/// # Cost
///
/// A walk over them up to it.
fn has_it_for(sets: &[SetTag], tag: &Tag, user: UserNo, chair: bool) -> bool
    ensures { result ≡ list_any (λ set. is_tag_for (Some user) chair set && bytes_eq tag.now set.tag) sets.now }
{
    sets.iter().any(|set| is_it_for(set, tag, user, chair))
}

/// What is read.
impl Tags {
    /// Creates one without tags.
    ///
    /// # Cost
    ///
    /// Takes no memory.
    pub fn new(alloc: Global) -> Tags
        ensures { result.tags ≡ no_tags }
    {
        Tags {
            alloc,
            tags: Cabinet::new(alloc),
        }
    }

    /// Checks whether the caller may turn this tag on or off at this paper. `by` is the caller's standing at the
    /// paper; `paper` is none if there is no such paper. Whether it is withdrawn is in none of the tags, and no rule
    /// asks which of them are on.
    ///
    /// # Errors
    ///
    /// The first broken rule, in this order: `NoPaper`, `NotChair` if the tag is for chairs, `NotMember`, `Conflict`
    /// if the user is in conflict with the paper, `WrongPhase` before the bidding or after the discussion,
    /// `Withdrawn`.
    ///
    /// # Cost
    ///
    /// Takes no search.
    pub fn judge_tag(
        &self,
        by: &Standing,
        paper: &Option<PaperNo>,
        tag: &Tag,
        withdrawn: bool,
    ) -> Result<(), Rule>
        ensures { result ≡ judged
            (tag_checks by.now (record { there = is_some paper.now; withdrawn = withdrawn }) (is_for_chairs tag.now))
            tt }
    {
        if paper.is_none() {
            return Err(Rule::NoPaper);
        }
        if tag.is_for_chairs() && !by.role.is_chair() {
            return Err(Rule::NotChair);
        }
        if !by.role.is_member() {
            return Err(Rule::NotMember);
        }
        if by.conflicted {
            return Err(Rule::Conflict);
        }
        if !by.phase.committee_works() {
            return Err(Rule::WrongPhase);
        }
        if withdrawn {
            return Err(Rule::Withdrawn);
        }
        Ok(())
    }

    /// Returns the tags on the paper that are for this user, by their bytes: everyone's, their own private ones, and
    /// those for chairs if the user is one. `None` if there is no such paper.
    ///
    /// # Errors
    ///
    /// If memory runs out.
    ///
    /// # Cost
    ///
    /// Found by number; a step for each of the paper's tags, and a copy of those for the user, of 48 bytes each.
    pub fn tags_for<L: Ledger>(
        &self,
        alloc: Global,
        user: UserNo,
        paper: PaperNo,
        chair: bool,
        steps: &mut Steps<L>,
    ) -> Result<TagList, AllocError>
        ensures value { IfOk result (λ tags. tags ≡ tags_in self.now.tags (Some user) chair paper) }
        ensures steps { Takes (length (filed_of paper self.now.tags)) steps.old steps.new }
    {
        let tags = those_for(alloc, self.tags.of_paper(paper, steps), user, chair)?;
        Ok(TagList::from_vec(tags))
    }

    /// Returns whether this tag is among those on the paper that are for this user, as `tags_for` tells them.
    ///
    /// # Cost
    ///
    /// Found by number; a step for each of the paper's tags. Takes no memory.
    pub fn has_for<L: Ledger>(
        &self,
        user: UserNo,
        paper: PaperNo,
        chair: bool,
        tag: &Tag,
        steps: &mut Steps<L>,
    ) -> bool
        ensures value { result ≡ list_any (bytes_eq tag.now) (tags_in self.now.tags (Some user) chair paper) }
        ensures steps { Takes (length (filed_of paper self.now.tags)) steps.old steps.new }
    {
        has_it_for(self.tags.of_paper(paper, steps), tag, user, chair)
    }

    /// Returns the tag's index among those on the paper, or else where it would be.
    fn index_of(&self, paper: PaperNo, tag: &SetTag) -> Result<usize, usize>
        ensures { MatchResult result (IsAt tag.now (filed_of paper self.now.tags))
            (IsGapFor tag.now (filed_of paper self.now.tags)) }
    {
        self.tags
            .of_paper(paper, &mut Steps::uncounted())
            .binary_search_by(|other| compare(other, tag))
    }
}

/// What entries make of it.
impl Tags {
    /// Takes the memory that the entries of one command need. The tags don't change.
    ///
    /// # Errors
    ///
    /// If memory runs out.
    ///
    /// # Cost
    ///
    /// Each paper at which they turn a tag on is compared with those before it.
    pub fn room(&mut self, group: &[Stamped]) -> Result<(), AllocError>
        ensures ok { OnOk result (TagsHaveRoom group.now self.new.rooms) }
        ensures same { self.new.tags ≡ self.old.tags }
        ensures keeps { (any : History) → TagsHaveRoom any self.old.rooms → TagsHaveRoom any self.new.rooms }
    {
        let papers = papers_tagged(self.alloc, group)?;
        self.tags.room(&papers)
    }

    /// Turns the tag on, for which there is room.
    ///
    /// # Cost
    ///
    /// Takes no memory.
    fn insert(&mut self, paper: PaperNo, tag: Tag, owner: Option<UserNo>)
        requires { 0 < slice_index self.old.rooms paper }
        ensures tags { self.new.tags ≡ tag_switched true
            (filed paper (record { tag = tag; owner = owner })) self.old.tags }
        ensures rooms { IsOneLess paper self.old.rooms self.new.rooms }
    {
        let set = SetTag { tag, owner };
        match self.index_of(paper, &set) {
            Ok(index) => self.tags.change(paper, index, set),
            Err(index) => self.tags.insert(paper, index, set),
        }
    }

    /// Turns the tag off; nothing changes where it wasn't on.
    fn remove(&mut self, paper: PaperNo, tag: Tag, owner: Option<UserNo>)
        ensures tags { self.new.tags ≡ tag_switched false
            (filed paper (record { tag = tag; owner = owner })) self.old.tags }
        ensures rooms { IsNoLess self.old.rooms self.new.rooms }
    {
        if let Ok(index) = self.index_of(paper, &SetTag { tag, owner }) {
            self.tags.remove(paper, index);
        }
    }

    /// Applies one more entry, for which there is room; takes no memory. One that turns a tag on or off costs a binary
    /// search among the paper's tags, and a move of those after its index, of 56 bytes each.
    pub fn apply(&mut self, stamped: &Stamped)
        requires { TagsHaveRoom (stamped.now ∷ []) self.old.rooms }
        ensures after { self.new.tags ≡ tags_after self.old.tags stamped.now.stamp.maker stamped.now.entry }
        ensures room { (rest : History)
            → TagsHaveRoom (stamped.now ∷ rest) self.old.rooms → TagsHaveRoom rest self.new.rooms }
    {
        match &stamped.entry {
            Entry::Tagged { paper, tag, on } => {
                let owner = owner_of(tag, stamped.stamp.maker);
                if *on {
                    self.insert(*paper, *tag, owner);
                } else {
                    self.remove(*paper, *tag, owner);
                }
            }
            _ => {}
        }
    }
}

/// Returns the paper at which the entry turns a tag on, if it does.
fn paper_tagged(stamped: &Stamped) -> Option<PaperNo>
    ensures { result ≡ paper_tagged stamped.now }
{
    match &stamped.entry {
        Entry::Tagged {
            paper,
            on: true,
            ..
        } => Some(*paper),
        _ => None,
    }
}

/// Returns the papers at which the entries turn tags on, as often as they do.
fn papers_tagged(alloc: Global, group: &[Stamped]) -> Result<Vec<PaperNo>, AllocError>
    ensures { IfOk result (λ papers. papers.items ≡ filter_map paper_tagged group.now) }
{
    group
        .iter()
        .filter_map(|stamped| paper_tagged(stamped))
        .collect(alloc)
}
