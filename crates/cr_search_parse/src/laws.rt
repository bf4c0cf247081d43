// SPDX-License-Identifier: Apache-2.0 OR MIT
//! What the definitions of searches come to.
ghost use Rattle.std.specs.Prelude.{◌≡◌, ℕ, List, Option, Result};
ghost use Rattle.cr_base.specs.Search.{Tree};
ghost use Rattle.cr_base.specs.declared.search.Node.{Node};
ghost use Rattle.cr_search_parse.specs.Laws.{GrammarSays};
ghost use Rattle.cr_search_parse.specs.Offsets.{Spells};
ghost use Rattle.cr_search_parse.specs.Reading.{text_read};

/// Proves that a text spells one search at most.
pub fn law_one_tree()
    ensures { (text : List ℕ) (t u : Option Tree) → Spells text t → Spells text u → t ≡ u }
{}

/// Proves that what `text_read` gives of a text, by the states of a reader, is what the grammar says of it: the nodes
/// of a tree if and only if the text spells it within the limits on bytes, levels and terms, and else the one offset
/// at which the text is bad. The grammar says nothing else.
pub fn law_reading()
    ensures said { (text : List ℕ) → GrammarSays text (text_read text) }
    ensures only { (text : List ℕ) (read : Result (List Node) ℕ) → GrammarSays text read → text_read text ≡ read }
{}
