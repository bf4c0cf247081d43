// SPDX-License-Identifier: Apache-2.0 OR MIT
//! A reader of searches: the nodes are written as their operands end (Dijkstra's shunting-yard algorithm).
ghost use Rattle.std.specs.Prelude.{◌≡◌, ◌≤◌, ◌<◌, ◌+◌, ◌*◌, ◌++◌, length, replicate, Some, IfOk, OnOk};
ghost use Rattle.cr_base.specs.declared.search.Node.TheVariants as node;
ghost use Rattle.cr_search_parse.specs.Grammar.{gap, opens, closes, chunk_symbols, run_symbols};
ghost use Rattle.cr_search_parse.specs.Cutting.{run_told};
ghost use Rattle.cr_search_parse.specs.Runs.{run_length};
ghost use Rattle.cr_search_parse.specs.Reading.{State, start, one_negation_more, if_shallow};
ghost use Rattle.cr_search_parse.specs.Reading.{after_and, after_or, after_term};
ghost use Rattle.cr_search_parse.specs.Reading.{after_word, after_symbol, after_symbols, nodes_read};
ghost use Rattle.cr_search_parse.specs.Standing.{Stands, StandsForOne, weight, Takes, TakesNodes, next_told};
ghost use Rattle.cr_search_parse.specs.Standing.{operation_behind, count_behind, behind_item, counts_behind_item};
ghost use Rattle.cr_search_parse.specs.Terms.{term_of};

use crate::runs::Run;
use crate::terms::{is_and, is_not, is_or, read_term};
use cr_base::{Node, Term};
use std::alloc::{AllocError, AllocFailed, Global};

/// How many dashes, `NOT`s and parentheses an item may be inside of.
const MOST_DEPTH: u16 = 64;

/// How many terms a search may have.
const MOST_TERMS: u16 = 128;

/// Why a reader reads no further.
#[derive(Drop)]
pub(crate) enum Stop {
    /// What comes can't come here in a search.
    Misplaced,
    /// Memory ran out.
    OutOfMemory,
}

impl From<AllocError> for Stop {
    ghost use Rattle.std.specs.Prelude.{◌≡◌};
    ghost use Rattle.cr_search_parse.specs.declared.reader.Stop.TheVariants.{OutOfMemory};

    ghost from_gives = { λ _ e. e ≡ OutOfMemory };

    fn from(_: AllocError) -> Stop {
        Stop::OutOfMemory
    }
}

impl<T: Drop> From<AllocFailed<T>> for Stop {
    ghost use Rattle.std.specs.Prelude.{◌≡◌};
    ghost use Rattle.cr_search_parse.specs.declared.reader.Stop.TheVariants.{OutOfMemory};

    ghost from_gives = { λ _ e. e ≡ OutOfMemory };

    fn from(_: AllocFailed<T>) -> Stop {
        Stop::OutOfMemory
    }
}

/// What may come.
#[derive(Clone, Copy)]
enum Next {
    /// An item, or nothing where nothing is open: nothing has come yet.
    First,
    /// Anything: an item has ended.
    Ended,
    /// An item.
    Wanted,
    /// An item at once: a dash came.
    Touching,
}

/// What was read between two parentheses, in nodes of the reader's: those of the alternatives that have ended, and
/// after them those of the items that have.
#[derive(Clone, Copy)]
struct Level {
    alternatives: u16,
    items: u16,
    /// How many negations wait for the item that comes.
    negations: u16,
}

/// A reader. Its nodes are those of its levels, the outermost first.
#[derive(Drop)]
pub(crate) struct Reader {
    alloc: Global,
    nodes: Vec<Node>,
    /// The levels around the one that is read, the outermost first.
    around: Vec<Level>,
    level: Level,
    next: Next,
    /// How many dashes, `NOT`s and parentheses the level that is read is inside of.
    outside: u16,
    terms: u16,
}

/// Returns a level in which nothing was read.
fn no_level() -> Level
    ensures { result ≡ record { alternatives = 0; items = 0; negations = 0 } }
{
    Level {
        alternatives: 0,
        items: 0,
        negations: 0,
    }
}

/// Adds so many negations.
fn push_negations(nodes: &mut Vec<Node>, count: u16) -> Result<(), AllocError>
    ensures { OnOk result (nodes.new.items ≡ nodes.old.items ++ replicate count node.Not) }
{
    for _ in 0..count {
        nodes.push(Node::Not)?;
    }
    Ok(())
}

/// Adds an operation after its second operand, if there is a first one, which has so many nodes.
fn push_behind(nodes: &mut Vec<Node>, first: u16, operation: Node) -> Result<(), AllocError>
    ensures { OnOk result (nodes.new.items ≡ nodes.old.items ++ operation_behind first operation) }
{
    if first == 0 {
        return Ok(());
    }
    nodes.push(operation)?;
    Ok(())
}

/// Returns how many nodes these two operands are with their operation.
fn count_behind(first: u16, second: u16) -> u16
    requires { first + second < 65535 }
    ensures { result ≡ count_behind first second }
{
    if first == 0 {
        return second;
    }
    first + second + 1
}

/// Ends a level, whose nodes come last, and gives their number.
fn end_level(nodes: &mut Vec<Node>, level: Level) -> Result<u16, AllocError>
    requires { level.alternatives + level.items < 65535 }
    ensures nodes { OnOk result (nodes.new.items
        ≡ nodes.old.items ++ operation_behind level.alternatives (node.Or level.items)) }
    ensures count { IfOk result (λ count. count ≡ count_behind level.alternatives level.items) }
{
    push_behind(
        nodes,
        level.alternatives,
        Node::Or {
            second: level.items,
        },
    )?;
    Ok(count_behind(level.alternatives, level.items))
}

/// Ends an item of a level, which has so many nodes, the last ones.
fn end_item(nodes: &mut Vec<Node>, level: Level, count: u16) -> Result<Level, AllocError>
    requires { level.items + (count + level.negations) < 65535 }
    ensures nodes { OnOk result (nodes.new.items ≡ nodes.old.items ++ behind_item level count) }
    ensures level { IfOk result (λ after. after ≡ counts_behind_item level count) }
{
    push_negations(nodes, level.negations)?;
    let second = count + level.negations;
    push_behind(nodes, level.items, Node::And { second })?;
    Ok(Level {
        alternatives: level.alternatives,
        items: count_behind(level.items, second),
        negations: 0,
    })
}

impl Reader {
    /// Returns a reader that has read nothing.
    ///
    /// # Cost
    ///
    /// Takes no memory.
    pub(crate) fn new(alloc: Global) -> Reader
        ensures stands { Stands result start }
        ensures light { weight result ≡ 0 }
    {
        Reader {
            alloc,
            nodes: Vec::new(alloc),
            around: Vec::new(alloc),
            level: no_level(),
            next: Next::First,
            outside: 0,
            terms: 0,
        }
    }

    /// Reads spaces.
    fn gap(&mut self) -> Result<(), Stop>
        requires stands { StandsForOne self.old }
        requires light { weight self.old < 60000 }
        ensures takes { (s : State) → Stands self.old s → Takes result self.new (after_symbol s gap) }
        ensures grows { OnOk result (weight self.new ≤ weight self.old + 2) }
    {
        match self.next {
            Next::Touching => Err(Stop::Misplaced),
            _ => Ok(()),
        }
    }

    /// Reads a parenthesis that opens.
    fn open(&mut self) -> Result<(), Stop>
        requires stands { StandsForOne self.old }
        requires light { weight self.old < 60000 }
        ensures takes { (s : State) → Stands self.old s → Takes result self.new (after_symbol s opens) }
        ensures grows { OnOk result (weight self.new ≤ weight self.old + 2) }
    {
        if self.outside + self.level.negations >= MOST_DEPTH {
            return Err(Stop::Misplaced);
        }
        self.around.push(self.level)?;
        self.outside += self.level.negations + 1;
        self.level = no_level();
        self.next = Next::First;
        Ok(())
    }

    /// Reads one that closes.
    fn close(&mut self) -> Result<(), Stop>
        requires stands { StandsForOne self.old }
        requires light { weight self.old < 60000 }
        ensures takes { (s : State) → Stands self.old s → Takes result self.new (after_symbol s closes) }
        ensures grows { OnOk result (weight self.new ≤ weight self.old + 2) }
    {
        let Next::Ended = self.next else {
            return Err(Stop::Misplaced);
        };
        let Some(around) = self.around.pop() else {
            return Err(Stop::Misplaced);
        };
        let count = end_level(&mut self.nodes, self.level)?;
        self.level = end_item(&mut self.nodes, around, count)?;
        self.outside -= around.negations + 1;
        Ok(())
    }

    /// Reads a negation, followed by `next`.
    fn negation(&mut self, next: Next) -> Result<(), Stop>
        requires stands { StandsForOne self.old }
        requires light { weight self.old < 60000 }
        ensures takes { (s : State) → Stands self.old s
            → Takes result self.new (if_shallow (one_negation_more (next_told next) s)) }
        ensures grows { OnOk result (weight self.new ≤ weight self.old + 2) }
    {
        if self.outside + self.level.negations >= MOST_DEPTH {
            return Err(Stop::Misplaced);
        }
        self.level.negations += 1;
        self.next = next;
        Ok(())
    }

    /// Reads an `AND`.
    fn and(&mut self) -> Result<(), Stop>
        requires stands { StandsForOne self.old }
        requires light { weight self.old < 60000 }
        ensures takes { (s : State) → Stands self.old s → Takes result self.new (after_and s s.next) }
        ensures grows { OnOk result (weight self.new ≤ weight self.old + 2) }
    {
        let Next::Ended = self.next else {
            return Err(Stop::Misplaced);
        };
        self.next = Next::Wanted;
        Ok(())
    }

    /// Reads an `OR`.
    fn or(&mut self) -> Result<(), Stop>
        requires stands { StandsForOne self.old }
        requires light { weight self.old < 60000 }
        ensures takes { (s : State) → Stands self.old s → Takes result self.new (after_or s s.next) }
        ensures grows { OnOk result (weight self.new ≤ weight self.old + 2) }
    {
        let Next::Ended = self.next else {
            return Err(Stop::Misplaced);
        };
        let alternatives = end_level(&mut self.nodes, self.level)?;
        self.level = Level {
            alternatives,
            items: 0,
            negations: 0,
        };
        self.next = Next::Wanted;
        Ok(())
    }

    /// Reads a term.
    fn term(&mut self, term: Term) -> Result<(), Stop>
        requires stands { StandsForOne self.old }
        requires light { weight self.old < 60000 }
        ensures takes { (s : State) → Stands self.old s → Takes result self.new (after_term s (Some term)) }
        ensures grows { OnOk result (weight self.new ≤ weight self.old + 2) }
    {
        if self.terms >= MOST_TERMS {
            return Err(Stop::Misplaced);
        }
        self.nodes.push(Node::Term(term))?;
        self.level = end_item(&mut self.nodes, self.level, 1)?;
        self.next = Next::Ended;
        self.terms += 1;
        Ok(())
    }

    /// Reads what is a term, or none.
    fn maybe_term(&mut self, text: &[u8]) -> Result<(), Stop>
        requires stands { StandsForOne self.old }
        requires light { weight self.old < 60000 }
        ensures takes { (s : State) → Stands self.old s → Takes result self.new (after_term s (term_of text.now)) }
        ensures grows { OnOk result (weight self.new ≤ weight self.old + 2) }
    {
        match read_term(self.alloc, text)? {
            Some(term) => self.term(term),
            None => Err(Stop::Misplaced),
        }
    }

    /// Reads a word.
    fn word(&mut self, text: &[u8]) -> Result<(), Stop>
        requires stands { StandsForOne self.old }
        requires light { weight self.old < 60000 }
        ensures takes { (s : State) → Stands self.old s → Takes result self.new (after_word s text.now) }
        ensures grows { OnOk result (weight self.new ≤ weight self.old + 2) }
    {
        if is_and(text) {
            return self.and();
        }
        if is_or(text) {
            return self.or();
        }
        if is_not(text) {
            return self.negation(Next::Wanted);
        }
        self.maybe_term(text)
    }

    /// Reads a chunk.
    fn chunk(&mut self, text: &[u8]) -> Result<(), Stop>
        requires stands { StandsForOne self.old }
        requires light { weight self.old + 2 * length text.now < 60000 }
        ensures takes { (s : State) → Stands self.old s
            → Takes result self.new (after_symbols s (chunk_symbols text.now)) }
        ensures grows { OnOk result (weight self.new ≤ weight self.old + 2 * length text.now) }
    {
        for (i, byte) in text.iter().enumerate() {
            if *byte != b'-' {
                return self.word(&text[i..]);
            }
            self.negation(Next::Touching)?;
        }
        Ok(())
    }

    /// Reads a run.
    pub(crate) fn read(&mut self, run: &Run) -> Result<(), Stop>
        requires stands { StandsForOne self.old }
        requires light { weight self.old + 2 * run_length (run_told run.now) < 60000 }
        ensures takes { (s : State) → Stands self.old s
            → Takes result self.new (after_symbols s (run_symbols (run_told run.now))) }
        ensures grows { OnOk result (weight self.new ≤ weight self.old + 2 * run_length (run_told run.now)) }
    {
        match run {
            Run::Spaces(_) => self.gap(),
            Run::Opening => self.open(),
            Run::Closing => self.close(),
            Run::Chunk(text) => self.chunk(text),
        }
    }

    /// Returns the nodes of what was read, if it may end so.
    pub(crate) fn finish(self) -> Result<Vec<Node>, Stop>
        requires stands { StandsForOne self }
        requires light { weight self < 60000 }
        ensures { (s : State) → Stands self s → TakesNodes result (nodes_read s) }
    {
        let Reader {
            alloc,
            mut nodes,
            around,
            level,
            next,
            outside: _,
            terms: _,
        } = self;
        if !around.is_empty() {
            return Err(Stop::Misplaced);
        }
        match next {
            Next::First => Ok(Vec::new(alloc)),
            Next::Ended => {
                let _ = end_level(&mut nodes, level)?;
                Ok(nodes)
            }
            _ => Err(Stop::Misplaced),
        }
    }
}
