// SPDX-License-Identifier: Apache-2.0 OR MIT
//! What a search asks of each paper, as a tree of terms (the HotCRP manual's search keywords).
ghost use Rattle.std.specs.Prelude.{◌≡◌};
ghost use Rattle.cr_base.specs.Search.{IsSpelled};

use crate::tag::Tag;
use crate::texts::Blob;
use crate::words::Decision;
use std::marker::Model;

/// A state of a paper, as `status:` names it.
#[derive(Clone, Copy, PartialEq, Eq)]
pub enum Status {
    /// It isn't withdrawn.
    Active,
    /// It is withdrawn.
    Withdrawn,
    /// It is accepted, and everyone is told so.
    Accepted,
}

/// What a paper may have, as `has:` asks.
#[derive(Clone, Copy, PartialEq, Eq)]
pub enum Feature {
    /// A content.
    Content,
    /// A review.
    Review,
    /// A comment.
    Comment,
    /// Its authors' response.
    Response,
    /// A decision.
    Decision,
    /// The caller's conflict.
    Conflict,
    /// The caller's label: the caller reviews it.
    Mine,
}

/// What one term of a search asks of a paper. A text is looked for literally, ASCII letters without regard to case.
#[derive(Drop)]
pub enum Term {
    /// Title or abstract has the text.
    Plain(Blob),
    /// The title has it.
    Title(Blob),
    /// The abstract has it.
    Abstract(Blob),
    /// The name of an author has it.
    Author(Blob),
    /// The name of a reviewer has it.
    Reviewer(Blob),
    /// The tag is on.
    Tag(Tag),
    /// The decision is this one, or none was made.
    Decision(Option<Decision>),
    /// The paper has this status.
    Status(Status),
    /// The paper has that.
    Has(Feature),
}

/// A node of a search in postfix order: terms and operations, each operation after its operands.
#[derive(Drop)]
pub enum Node {
    /// A term.
    Term(Term),
    /// The operand doesn't hold.
    Not,
    /// Both operands hold.
    And {
        /// How many nodes the second operand takes, which come right before this one.
        second: u16,
    },
    /// One of the operands holds, or both.
    Or {
        /// How many nodes the second operand takes, which come right before this one.
        second: u16,
    },
}

/// A search, or the empty one, which has no node and holds of every paper.
///
/// # Model
///
/// Its nodes, which spell one tree (`tree_of`).
#[derive(Drop)]
pub struct Search {
    nodes: Vec<Node>,
}

impl Model for Search {
    ghost use Rattle.std.specs.Prelude.{List};
    ghost use Rattle.cr_base.specs.declared.search.Node.{Node};
    ghost use Rattle.cr_base.specs.Search.{IsSpelled};

    ghost Value = { List Node };

    ghost view = { λ s. s.nodes.items };

    ghost invariant = { λ s. IsSpelled s.nodes.items };
}

impl Search {
    /// Returns the search that these nodes spell.
    pub fn from_nodes(nodes: Vec<Node>) -> Search
        requires { IsSpelled nodes.items }
        ensures { result ≡ nodes.items }
    {
        Search { nodes }
    }

    /// Returns its nodes; the empty search has none.
    pub fn nodes(&self) -> &[Node]
        ensures value { result.now ≡ self.now }
        ensures spelled { IsSpelled result.now }
    {
        self.nodes.as_slice()
    }
}
