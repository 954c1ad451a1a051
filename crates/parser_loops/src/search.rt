//! The search for a state that can reach itself: depth first, with a path in memory in place of recursion. Each case is
//! looked up twice at most. Both answers have a direct reason. Where a case goes on to a state of the path, the path leads
//! from that state back to itself. And a state is done after all that it goes on to, so what is done leads to nothing else,
//! and the last one done can't reach itself.

ghost use Rattle.std.specs.Prelude.{◌≡◌, ◌<◌, ◌↔◌, IfOk, OnOk, IsTrue, None, [], length, map, true};
ghost use Rattle.elastic_ast.specs.Seen.{seen_state};
ghost use Rattle.elastic_ast.specs.Typing.AskedOfNames.{asks_names};
ghost use Rattle.elastic_ast.specs.Typing.Demand.{first_broken};
ghost use Rattle.elastic_ast.specs.Typing.ParserLoops.{Loops, state_names};
ghost use Rattle.parser_loops.specs.Shown.{states_of};
ghost use Rattle.parser_loops.specs.Searching.{Entered, IsFresh, NextEdge, ReachesItself, RootAnswer, HasFacts, HasFactsWith, StepAnswer, is_new, mark_of};

use crate::graph::Graph;
use elastic_ast::State;
use std::alloc::{AllocError, Global};

/// How far the search has come with a state: it is new, on the path, or done, with all that it leads to.
#[derive(Clone, Copy, PartialEq, Eq)]
enum Mark {
    New,
    Open,
    Done,
}

/// A search: the mark of each state, how many of its cases go on to states that are done, and the path, whose states each
/// go on to the next.
#[derive(Drop)]
struct Search {
    marks: Vec<Mark>,
    passed: Vec<usize>,
    path: Vec<usize>,
}

/// A case of a state, and the state to which it goes on.
#[derive(Clone, Copy)]
struct Edge {
    case: usize,
    target: usize,
}

/// The first case of a state, from one on, that goes on to a state that isn't done.
fn next_edge(graph: &Graph<'_>, marks: &[Mark], state: usize, from: usize) -> Option<Edge>
    requires state_in { state < length graph.now.states.now }
    requires marked { length marks.now ≡ length graph.now.states.now }
    ensures { NextEdge (states_of graph.now) marks.now state from result }
{
    for case in from..graph.case_count(state) {
        if let Some(other) = graph.target(state, case) {
            if marks[other] != Mark::Done {
                return Some(Edge {
                    case,
                    target: other,
                });
            }
        }
    }
    None
}

impl Search {
    /// A search over so many states, all of them new.
    fn new(alloc: Global, count: usize) -> Result<Search, AllocError>
        ensures { IfOk result (IsFresh count) }
    {
        Ok(Search {
            marks: vec![in alloc; Mark::New; count]?,
            passed: vec![in alloc; 0; count]?,
            path: Vec::new(alloc),
        })
    }

    /// Puts a state at the end of the path.
    fn enter(&mut self, state: usize) -> Result<(), AllocError>
        requires { state < length self.old.marks.items }
        ensures { OnOk result (Entered self.old self.new state) }
    {
        self.path.push(state)?;
        self.marks[state] = Mark::Open;
        Ok(())
    }

    /// Goes on from a state that was taken from the end of the path: to a new state, or back where all its cases go on to
    /// states that are done. True says that a case goes on to a state of the path.
    fn step(&mut self, graph: &Graph<'_>, state: usize) -> Result<bool, AllocError>
        requires { HasFactsWith (states_of graph.now) self.old state }
        ensures { IfOk result (StepAnswer (states_of graph.now) self.old self.new) }
    {
        match next_edge(graph, self.marks.as_slice(), state, self.passed[state]) {
            Some(next) => {
                if self.marks[next.target] == Mark::Open {
                    return Ok(true);
                }
                self.passed[state] = next.case;
                self.path.push(state)?;
                self.enter(next.target)?;
            }
            None => self.marks[state] = Mark::Done,
        }
        Ok(false)
    }

    /// Searches all that a new state leads to. True says that a state can reach itself.
    fn explore(&mut self, graph: &Graph<'_>, root: usize) -> Result<bool, AllocError>
        requires searched { HasFacts (states_of graph.now) self.old }
        requires ended { self.old.path.items ≡ [] }
        requires root_in { root < length graph.now.states.now }
        requires root_new { is_new (mark_of self.old.marks.items root) ≡ true }
        ensures { IfOk result (RootAnswer (states_of graph.now) self.old self.new root) }
    {
        self.enter(root)?;
        while let Some(state) = self.path.pop() {
            if self.step(graph, state)? {
                return Ok(true);
            }
        }
        Ok(false)
    }
}

/// Whether a state of a graph can reach itself.
fn reaches_itself(alloc: Global, graph: &Graph<'_>) -> Result<bool, AllocError>
    ensures { IfOk result (λ met. IsTrue met ↔ ReachesItself (states_of graph.now)) }
{
    let mut search = Search::new(alloc, graph.len())?;
    for root in 0..graph.len() {
        if search.marks[root] == Mark::New && search.explore(graph, root)? {
            return Ok(true);
        }
    }
    Ok(false)
}

/// Whether a state of a parser can reach itself, or there is no state `start`. The names of the states are distinct, and
/// none is a fixed name. An error says that there was no memory left.
pub fn loops(alloc: Global, states: &[State]) -> Result<bool, AllocError>
    requires { first_broken true (asks_names [] (state_names (map seen_state states.now))) ≡ None }
    ensures { IfOk result (λ loops. IsTrue loops ↔ Loops (map seen_state states.now)) }
{
    let graph = Graph::of(alloc, states)?;
    if !graph.has_start() {
        return Ok(true);
    }
    reaches_itself(alloc, &graph)
}
