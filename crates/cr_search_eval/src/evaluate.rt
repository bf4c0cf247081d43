// SPDX-License-Identifier: Apache-2.0 OR MIT
//! A search at one paper, by its nodes.
ghost use Rattle.std.specs.Prelude.{◌≡◌, ◌≤◌, ◌<◌, ◌+◌, ◌-◌, drop, length, take};
ghost use Rattle.cr_base.specs.Search.{Tree, nodes_of};
ghost use Rattle.cr_base.specs.Searching.{search_holds, term_holds, tree_holds};
ghost use Rattle.cr_search_eval.specs.Asked.{IsAsked, told_at};
ghost use Rattle.cr_search_eval.specs.Spelled.{Spelled};

use crate::asked::Asked;
use crate::terms::term_holds;
use cr_base::{Node, Search};
use cr_view::Live;

/// Returns whether the search holds of the paper; the empty one does. A term is tried only if the truth isn't known by
/// those before it. Takes no memory.
pub(crate) fn search_holds(live: &Live, asked: &Asked<'_>, search: &Search) -> bool
    requires { IsAsked live.now.tables asked.now }
    ensures { result ≡ search_holds (term_holds (told_at live.now.tables asked.now)) search.now }
{
    let nodes = search.nodes();
    nodes.is_empty() || nodes_hold(live, asked, nodes)
}

/// Returns the nodes of the two operands of the last node: those of the second one, so many, come right before it.
fn operands(nodes: &[Node], second: u16) -> (&[Node], &[Node])
    requires { second + 1 ≤ length nodes.now }
    ensures first { result.0.now ≡ take (length nodes.now - 1 - second) (take (length nodes.now - 1) nodes.now) }
    ensures second { result.1.now ≡ drop (length nodes.now - 1 - second) (take (length nodes.now - 1) nodes.now) }
    ensures first_shorter { length result.0.now < length nodes.now }
    ensures second_shorter { length result.1.now < length nodes.now }
{
    let before = nodes.len() - 1;
    nodes[..before].split_at(before - usize::from(second))
}

/// Returns whether the search that these nodes spell holds: the last one is its operation, after its operands.
fn nodes_hold(live: &Live, asked: &Asked<'_>, nodes: &[Node]) -> bool
    requires asked { IsAsked live.now.tables asked.now }
    requires spelled { Spelled nodes.now }
    ensures { (t : Tree) → nodes.now ≡ nodes_of t
        → result ≡ tree_holds (term_holds (told_at live.now.tables asked.now)) t }
{
    match &nodes[nodes.len() - 1] {
        Node::Term(term) => term_holds(live, asked, term),
        Node::Not => !nodes_hold(live, asked, &nodes[..nodes.len() - 1]),
        Node::And { second } => {
            let (first, second) = operands(nodes, *second);
            nodes_hold(live, asked, first) && nodes_hold(live, asked, second)
        }
        Node::Or { second } => {
            let (first, second) = operands(nodes, *second);
            nodes_hold(live, asked, first) || nodes_hold(live, asked, second)
        }
    }
}
