//! Sets of nodes on which one stands at once, and moves between them by numbers: each list of numbers is read in one way.

ghost use Rattle.std.specs.Prelude.{◌≡◌, ◌<◌, ◌≤◌, ◌+◌, ℕ, true, false, length, slice_get, IfOk, OnOk, Some};
ghost use Rattle.xk_readings.specs.Automata.{AreEnds, AreMoves, AreStates, HasMoved, KeepsStates};
ghost use Rattle.xk_readings.specs.Beginnings.{AreOnce, IsPrintedFrom};
ghost use Rattle.xk_readings.specs.Graphs.{IsWithin};

use crate::edge::Edge;
use crate::graph::Graph;
use crate::moves::{first_nodes, has_end, nodes_behind, numbers_from};
use crate::node_set::NodeSet;
use crate::states::States;
use std::alloc::{AllocError, Global};

/// Sets of nodes, and moves from one to another.
#[derive(Drop)]
pub struct Automaton {
    /// The sets, of which the first one is where one may be before any number.
    pub states: States,
    /// The moves: edges from one number of a set to another.
    pub moves: Vec<Edge>,
}

/// Adds the move by a number from a set, which has these nodes. Err where memory was refused.
fn add_move(
    alloc: Global,
    graph: &Graph,
    automaton: &mut Automaton,
    set: &mut NodeSet,
    from: usize,
    nodes: &[usize],
    number: i64,
) -> Result<(), AllocError>
    requires within { IsWithin graph.now }
    requires room { set.old.room ≡ length graph.now.ends }
    requires there { slice_get automaton.old.states from ≡ Some nodes.now }
    requires printed { IsPrintedFrom graph.now nodes.now number }
    requires states { AreStates graph.now automaton.old.states }
    ensures room { set.new.room ≡ set.old.room }
    ensures kept { KeepsStates automaton.old.states automaton.new.states }
    ensures states { AreStates graph.now automaton.new.states }
    ensures moved { OnOk result (HasMoved graph.now automaton.new.states
        automaton.old.moves.items automaton.new.moves.items from nodes.now number) }
{
    let behind = nodes_behind(alloc, graph, nodes, number, set)?;
    let to = automaton.states.number_of(behind)?;
    automaton.moves.push(Edge {
        from,
        act: 0,
        printed: Some(number),
        to,
    })?;
    Ok(())
}

/// Adds the moves from the set of a number. Err where memory was refused.
fn add_moves(
    alloc: Global,
    graph: &Graph,
    automaton: &mut Automaton,
    set: &mut NodeSet,
    from: usize,
) -> Result<(), AllocError>
    requires within { IsWithin graph.now }
    requires room { set.old.room ≡ length graph.now.ends }
    requires from { from < length automaton.old.states }
    requires states { AreStates graph.now automaton.old.states }
    requires moves { AreMoves graph.now automaton.old.states automaton.old.moves.items from }
    ensures room { set.new.room ≡ set.old.room }
    ensures longer { length automaton.old.states ≤ length automaton.new.states }
    ensures states { AreStates graph.now automaton.new.states }
    ensures moves { OnOk result
        (AreMoves graph.now automaton.new.states automaton.new.moves.items (from + 1)) }
{
    let nodes = automaton.states.nodes(alloc, from)?;
    let numbers = numbers_from(alloc, graph, &nodes)?;
    for number in &numbers {
        add_move(alloc, graph, automaton, set, from, &nodes, *number)?;
    }
    Ok(())
}

/// Adds the moves from each set, until none is left or more are met than the limit says. Whether none is left. Err where memory was
/// refused.
fn grow(
    alloc: Global,
    graph: &Graph,
    automaton: &mut Automaton,
    set: &mut NodeSet,
    limit: usize,
) -> Result<bool, AllocError>
    requires within { IsWithin graph.now }
    requires room { set.old.room ≡ length graph.now.ends }
    requires states { AreStates graph.now automaton.old.states }
    requires moves { AreMoves graph.now automaton.old.states automaton.old.moves.items 0 }
    ensures states { AreStates graph.now automaton.new.states }
    ensures moves { IfOk result (λ complete. (place : ℕ)
        × AreMoves graph.now automaton.new.states automaton.new.moves.items place
        × (complete ≡ true → length automaton.new.states ≤ place)) }
    ensures limit { IfOk result
        (λ complete. complete ≡ false → limit < length automaton.new.states) }
    ensures once { IfOk result (λ complete. AreOnce automaton.new.states) }
{
    let mut at = 0;
    while at < automaton.states.len() {
        if automaton.states.len() > limit {
            return Ok(false);
        }
        add_moves(alloc, graph, automaton, set, at)?;
        at += 1;
    }
    Ok(true)
}

/// For each set whether a reading may end there. Err where memory was refused.
pub fn ends_of(alloc: Global, graph: &Graph, states: &States) -> Result<Vec<bool>, AllocError>
    requires { AreStates graph.now states.now }
    ensures { IfOk result (λ v. AreEnds graph.now states.now v.items) }
{
    let mut ends = Vec::new(alloc);
    for number in 0..states.len() {
        let nodes = states.nodes(alloc, number)?;
        ends.push(has_end(graph, &nodes))?;
    }
    Ok(ends)
}

/// The first set alone. Err where memory was refused.
fn beginning(alloc: Global, graph: &Graph, set: &mut NodeSet) -> Result<Automaton, AllocError>
    requires within { IsWithin graph.now }
    requires some { 0 < length graph.now.ends }
    requires room { set.old.room ≡ length graph.now.ends }
    ensures room { set.new.room ≡ set.old.room }
    ensures states { IfOk result (λ a. AreStates graph.now a.states) }
    ensures moves { IfOk result (λ a. AreMoves graph.now a.states a.moves.items 0) }
{
    let mut states = States::new(alloc);
    let first = first_nodes(alloc, graph, set)?;
    states.number_of(first)?;
    Ok(Automaton {
        states,
        moves: Vec::new(alloc),
    })
}

/// The sets of a graph, and the moves between them; and whether these are all, which they are unless there are more than the limit says.
/// Err where memory was refused.
pub fn automaton_of(
    alloc: Global,
    graph: &Graph,
    nodes: usize,
    limit: usize,
) -> Result<(Automaton, bool), AllocError>
    requires within { IsWithin graph.now }
    requires some { 0 < nodes }
    requires nodes { nodes ≡ length graph.now.ends }
    ensures states { IfOk result (λ r. AreStates graph.now r.0.states) }
    ensures moves { IfOk result (λ r. (place : ℕ)
        × AreMoves graph.now r.0.states r.0.moves.items place
        × (r.1 ≡ true → length r.0.states ≤ place)) }
    ensures limit { IfOk result (λ r. r.1 ≡ false → limit < length r.0.states) }
    ensures once { IfOk result (λ r. AreOnce r.0.states) }
{
    let mut set = NodeSet::new(alloc, nodes)?;
    let mut automaton = beginning(alloc, graph, &mut set)?;
    let complete = grow(alloc, graph, &mut automaton, &mut set, limit)?;
    Ok((automaton, complete))
}
