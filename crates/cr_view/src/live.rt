// SPDX-License-Identifier: Apache-2.0 OR MIT
//! The tables of a history, and what a user is by them.
ghost use Rattle.std.specs.Prelude.{◌≡◌, [], ◌∷◌, ◌++◌, IsTrue, OnOk};
ghost use Rattle.std.specs.Option.{option_map};
ghost use Rattle.cr_base.specs.Accounts.{number_at, account_at, caller_at};
ghost use Rattle.cr_base.specs.History.{History};
ghost use Rattle.cr_base.specs.Lists.{at_some};
ghost use Rattle.cr_base.specs.Papers.{paper_count};
ghost use Rattle.cr_base.specs.Tables.{no_tables, tables_after, tables_from, Fits, FitInTurn};
ghost use Rattle.cr_base.specs.Ties.{is_author_in, are_within, AreWithin};
ghost use Rattle.cr_view.specs.Room.{RoomFor};

use cr_accounts::Accounts;
use cr_assign::Seats;
use cr_base::{Digest, Entry, PaperNo, Short, Stamped, Steps, UserNo};
use cr_conflicts::Ties;
use cr_decisions::Decisions;
use cr_papers::Papers;
use cr_phases::Stage;
use cr_reviews::Reviews;
use cr_tags::Tags;
use cr_talk::Talk;
use std::alloc::{AllocError, Global};
use std::marker::Model;

/// All tables of a history.
///
/// # Model
///
/// The tables, and for how many more accounts there is room, and values of each paper and each user.
pub struct Live {
    pub(crate) stage: Stage,
    pub(crate) accounts: Accounts,
    pub(crate) papers: Papers,
    pub(crate) ties: Ties,
    pub(crate) seats: Seats,
    pub(crate) reviews: Reviews,
    pub(crate) talk: Talk,
    pub(crate) tags: Tags,
    pub(crate) decisions: Decisions,
}

// Written out, so that a caller doesn't prove again how each table is dropped.
impl Drop for Live {
    fn drop(self) {
        let Live {
            stage: _,
            accounts: _,
            papers: _,
            ties: _,
            seats: _,
            reviews: _,
            talk: _,
            tags: _,
            decisions: _,
        } = self;
    }
}

impl Model for Live {
    ghost use Rattle.std.specs.Prelude.{IsTrue};
    ghost use Rattle.cr_base.specs.Papers.{paper_count};
    ghost use Rattle.cr_base.specs.Ties.{are_within, AreWithin};
    ghost use Rattle.cr_view.specs.Seen.{SeenTables};

    ghost Value = { SeenTables };

    ghost view = { λ t. record {
      tables = record {
        stage = t.stage;
        accounts = t.accounts.accounts;
        papers = t.papers.papers;
        ties = t.ties.ties;
        seats = t.seats.seats;
        invites = t.seats.invites;
        reviews = t.reviews.reviews;
        talk = t.talk.talk;
        tags = t.tags.tags;
        decisions = t.decisions.decisions;
      };
      rooms = record {
        accounts = t.accounts.room;
        papers = t.papers.rooms;
        ties = t.ties.rooms;
        seats = t.seats.rooms;
        reviews = t.reviews.rooms;
        talk = t.talk.rooms;
        tags = t.tags.rooms;
        decisions = t.decisions.rooms;
      };
    } };

    // The papers that have ties are there, and so are those that have seats, and those to which somebody is invited.
    ghost invariant = { λ t. AreWithin (paper_count t.papers.papers) t.ties.ties
        × IsTrue (are_within (paper_count t.papers.papers) t.seats.seats)
        × IsTrue (are_within (paper_count t.papers.papers) t.seats.invites) };
}

/// The tables and their entries.
impl Live {
    /// Returns the tables of the empty history.
    ///
    /// # Cost
    ///
    /// Takes no memory.
    pub fn new(alloc: Global) -> Live
        ensures { result.tables ≡ no_tables }
    {
        Live {
            stage: Stage::new(),
            accounts: Accounts::new(alloc),
            papers: Papers::new(alloc),
            ties: Ties::new(alloc),
            seats: Seats::new(alloc),
            reviews: Reviews::new(alloc),
            talk: Talk::new(alloc),
            tags: Tags::new(alloc),
            decisions: Decisions::new(alloc),
        }
    }

    /// Takes the memory that the entries of one command need. The tables don't change.
    ///
    /// # Errors
    ///
    /// If memory runs out.
    pub fn room(&mut self, group: &[Stamped]) -> Result<(), AllocError>
        ensures ok { OnOk result (RoomFor group.now self.new.rooms) }
        ensures same { self.new.tables ≡ self.old.tables }
        ensures keeps { (any : History) → RoomFor any self.old.rooms → RoomFor any self.new.rooms }
    {
        self.accounts.room(group)?;
        self.papers.room(group)?;
        self.ties.room(group)?;
        self.seats.room(group)?;
        self.reviews.room(group)?;
        self.talk.room(group)?;
        self.tags.room(group)?;
        self.decisions.room(group)
    }

    /// Applies one more entry, for which there is room. It is taken whole, since one table keeps its texts or its
    /// content: that of papers, of reviews, or of comments and responses.
    ///
    /// # Cost
    ///
    /// Takes no memory.
    pub fn apply(&mut self, stamped: Stamped)
        requires room { RoomFor (stamped ∷ []) self.old.rooms }
        requires fits { Fits self.old.tables stamped }
        ensures after { self.new.tables ≡ tables_after self.old.tables stamped }
        ensures room { (rest : History) → RoomFor (stamped ∷ rest) self.old.rooms → RoomFor rest self.new.rooms }
    {
        self.stage.apply(&stamped);
        self.accounts.apply(&stamped);
        self.ties.apply(&stamped);
        self.seats.apply(&stamped);
        self.tags.apply(&stamped);
        self.decisions.apply(&stamped);
        match &stamped.entry {
            Entry::PhaseSet { .. } | Entry::Reviewed { .. } => self.reviews.apply(stamped),
            Entry::Commented { .. } | Entry::Responded { .. } => self.talk.apply(stamped),
            _ => self.papers.apply(stamped),
        }
    }

    /// Applies the entries of one command, for which there is room.
    ///
    /// # Cost
    ///
    /// Takes no memory.
    pub fn apply_all(&mut self, group: Vec<Stamped>)
        requires room { RoomFor group.items self.old.rooms }
        requires fits { FitInTurn self.old.tables group.items }
        ensures after { self.new.tables ≡ tables_from self.old.tables group.items }
        ensures room { (rest : History) → RoomFor (group.items ++ rest) self.old.rooms → RoomFor rest self.new.rooms }
    {
        for stamped in group {
            self.apply(stamped);
        }
    }
}

/// The callers.
impl Live {
    /// Returns the user who registered a name, or `None` if no user did.
    ///
    /// # Cost
    ///
    /// One look-up by name.
    pub fn number_of(&self, name: &Short) -> Option<UserNo>
        ensures { result ≡ number_at self.now.tables.accounts name.now }
    {
        self.accounts.number_of(name)
    }

    /// Returns the name of a user, or `None` if no user has that number.
    ///
    /// # Cost
    ///
    /// One read by number.
    pub fn name_of(&self, user: UserNo) -> Option<Short>
        ensures { result ≡ option_map (λ a. a.name) (account_at self.now.tables.accounts user) }
    {
        self.accounts.name_of(user)
    }

    /// Returns the user who registered a name with this digest of a secret, or `None` if no user did: no such name, or
    /// another digest.
    ///
    /// # Cost
    ///
    /// One look-up by name, and one read by number.
    pub fn caller(&self, name: &Short, digest: &Digest) -> Option<UserNo>
        ensures { result ≡ caller_at self.now.tables.accounts name.now digest.now }
    {
        self.accounts.caller(name, digest)
    }

    /// Returns whether the user is an author of the paper; false for an unauthenticated caller, and if no paper is
    /// named.
    pub fn is_author(&self, user: &Option<UserNo>, paper: &Option<PaperNo>) -> bool
        ensures { result ≡ at_some (is_author_in self.now.tables.ties user.now) paper.now }
    {
        let Some(user) = user else {
            return false;
        };
        match paper {
            Some(paper) => self.ties.is_author(*user, *paper, &mut Steps::uncounted()),
            None => false,
        }
    }

    /// Proves, and does nothing else, that the papers which have ties are there, those which have seats, and those to
    /// which somebody is invited.
    pub fn law_within(&self)
        ensures ties { AreWithin (paper_count self.now.tables.papers) self.now.tables.ties }
        ensures seats { IsTrue (are_within (paper_count self.now.tables.papers) self.now.tables.seats) }
        ensures invites { IsTrue (are_within (paper_count self.now.tables.papers) self.now.tables.invites) }
    {
        let _papers = &self.papers;
    }
}

/// The tables, lent to the code that judges by them.
impl Live {
    /// Returns the table of the phase, the mode and the deadlines.
    pub fn stage_table(&self) -> &Stage
        ensures { result.now ≡ self.now.tables.stage }
    {
        &self.stage
    }

    /// Returns the table of accounts.
    pub fn account_table(&self) -> &Accounts
        ensures { result.now.accounts ≡ self.now.tables.accounts }
    {
        &self.accounts
    }

    /// Returns the table of papers.
    pub fn paper_table(&self) -> &Papers
        ensures { result.now.papers ≡ self.now.tables.papers }
    {
        &self.papers
    }

    /// Returns the table of authors, conflicts and bids.
    pub fn tie_table(&self) -> &Ties
        ensures { result.now.ties ≡ self.now.tables.ties }
    {
        &self.ties
    }

    /// Returns the table of who reviews which paper, and who is invited to.
    pub fn seat_table(&self) -> &Seats
        ensures seats { result.now.seats ≡ self.now.tables.seats }
        ensures invites { result.now.invites ≡ self.now.tables.invites }
    {
        &self.seats
    }

    /// Returns the table of reviews.
    pub fn review_table(&self) -> &Reviews
        ensures { result.now.reviews ≡ self.now.tables.reviews }
    {
        &self.reviews
    }

    /// Returns the table of comments, and of what authors respond.
    pub fn comment_table(&self) -> &Talk
        ensures { result.now.talk ≡ self.now.tables.talk }
    {
        &self.talk
    }

    /// Returns the table of tags.
    pub fn tag_table(&self) -> &Tags
        ensures { result.now.tags ≡ self.now.tables.tags }
    {
        &self.tags
    }

    /// Returns the table of decisions.
    pub fn decision_table(&self) -> &Decisions
        ensures { result.now.decisions ≡ self.now.tables.decisions }
    {
        &self.decisions
    }
}
