//! The states of a parser as a graph: the transitions of each state, by the numbers of the states.

ghost use Rattle.std.specs.Prelude.{◌≡◌, ◌<◌, ◌↔◌, ℕ, IfOk, Some, codes, length, map, slice_get};
ghost use Rattle.elastic_ast.specs.Seen.{seen_next, seen_state};
ghost use Rattle.elastic_ast.specs.Typing.ParserLoops.{state_names, targets_of};
ghost use Rattle.elastic_ast.specs.Typing.Scope.{among};
ghost use Rattle.parser_loops.specs.Transitions.{Distinct, HasNumbers, IsCase, targets_at};

use elastic_ast::{Next, State};
use elx_bits::Name;
use indexmap::IndexMap;
use std::alloc::{AllocError, Global};

/// The states of a parser, with the number of each by its name.
#[derive(Drop)]
pub struct Graph<'a> {
    states: &'a [State],
    numbers: IndexMap<&'a [u8], usize>,
    ghost numbered: { HasNumbers (map seen_state states.now) numbers.entries },
}

/// How many names a state may go on to.
fn target_count(next: &Next) -> usize
    ensures { result ≡ length (targets_of (seen_next next.now)) }
{
    match next {
        Next::To(_) => 1,
        Next::Select { of: _, cases } => cases.as_slice().len(),
    }
}

/// One of the names that a state may go on to.
fn target_name(next: &Next, case: usize) -> &Name
    requires { case < length (targets_of (seen_next next.now)) }
    ensures { slice_get (targets_of (seen_next next.now)) case ≡ Some result.now }
{
    match next {
        Next::To(name) => name,
        Next::Select { of: _, cases } => &cases.as_slice()[case].1,
    }
}

impl<'a> Graph<'a> {
    ghost use Rattle.parser_loops.specs.Shown.{states_of};

    /// The graph of some states with distinct names.
    pub fn of(alloc: Global, states: &'a [State]) -> Result<Graph<'a>, AllocError>
        requires { Distinct (state_names (map seen_state states.now)) }
        ensures { IfOk result (λ graph. graph.states.now ≡ states.now) }
    {
        let mut numbers: IndexMap<&'a [u8], usize> = IndexMap::new(alloc);
        for (number, state) in states.iter().enumerate() {
            numbers.insert(state.name.as_slice(), number)?;
        }
        Ok(Graph { states, numbers })
    }

    /// How many states there are.
    pub fn len(&self) -> usize
        ensures { result ≡ length self.now.states.now }
    {
        self.states.len()
    }

    /// Whether a state has the name `start`.
    pub fn has_start(&self) -> bool
        ensures { result ≡ among (state_names (states_of self.now)) (codes "start") }
    {
        self.numbers.contains_key(b"start".as_slice())
    }

    /// How many cases the transition of a state has.
    pub fn case_count(&self, state: usize) -> usize
        requires { state < length self.now.states.now }
        ensures { result ≡ length (targets_at (states_of self.now) state) }
    {
        target_count(&self.states[state].next)
    }

    /// The state to which a case of a state goes on, if its name is that of a state.
    pub fn target(&self, state: usize, case: usize) -> Option<usize>
        requires state_in { state < length self.now.states.now }
        requires case_in { case < length (targets_at (states_of self.now) state) }
        ensures { (other : ℕ) → (result ≡ Some other) ↔ IsCase (states_of self.now) state case other }
    {
        let name = target_name(&self.states[state].next, case);
        self.numbers.get(name.as_slice()).copied()
    }
}
