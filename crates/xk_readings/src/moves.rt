//! Where one comes from some nodes by a number.

ghost use Rattle.std.specs.Prelude.{◌≡◌, ◌<◌, ◌∷◌, ◌⊎◌, [], ℕ, ℤ, List, length, IfOk, OnOk, Some};
ghost use Rattle.std.specs.Bool.{Decides};
ghost use Rattle.xk_readings.specs.Automata.{AreNodes, HasEndNode, HasTargets, IsMove, IsShut, IsTarget, ReadsNoMore};
ghost use Rattle.xk_readings.specs.Beginnings.{AreBehind, AreReadTo, IsPrintedFrom};
ghost use Rattle.xk_readings.specs.Graphs.{HasEdge, IsWithin};
ghost use Rattle.xk_readings.specs.NodeSets.{HasNode, KeepsNodes};
ghost use Rattle.xk_readings.specs.Sets.{AreDifferent, Has, KeepsAll};

use crate::edge::Edge;
use crate::graph::Graph;
use crate::node_set::NodeSet;
use std::alloc::{AllocError, Global};

/// Adds a number, unless it is among them. Err where memory was refused.
fn add_number(numbers: &mut Vec<i64>, number: i64) -> Result<(), AllocError>
    ensures different { AreDifferent numbers.old.items → AreDifferent numbers.new.items }
    ensures kept { KeepsAll numbers.old.items numbers.new.items }
    ensures there { OnOk result (Has numbers.new.items number) }
    ensures only { (x : ℤ) → Has numbers.new.items x → Has numbers.old.items x ⊎ (x ≡ number) }
{
    if !numbers.contains(&number) {
        numbers.push(number)?;
    }
    Ok(())
}

/// Adds what the edge prints, if it prints a number that isn't among them. Err where memory was refused.
fn add_printed(numbers: &mut Vec<i64>, edge: &Edge) -> Result<(), AllocError>
    ensures different { AreDifferent numbers.old.items → AreDifferent numbers.new.items }
    ensures kept { KeepsAll numbers.old.items numbers.new.items }
    ensures there { OnOk result
        ((x : ℤ) → edge.now.printed ≡ Some x → Has numbers.new.items x) }
    ensures only { (x : ℤ) → Has numbers.new.items x
        → Has numbers.old.items x ⊎ (edge.now.printed ≡ Some x) }
{
    if let Some(number) = edge.printed {
        add_number(numbers, number)?;
    }
    Ok(())
}

/// Adds the numbers that edges print from a node. Err where memory was refused.
fn add_numbers(graph: &Graph, node: usize, numbers: &mut Vec<i64>) -> Result<(), AllocError>
    ensures different { AreDifferent numbers.old.items → AreDifferent numbers.new.items }
    ensures kept { KeepsAll numbers.old.items numbers.new.items }
    ensures there { OnOk result ((e : Edge) (x : ℤ) → HasEdge graph.now e → e.from ≡ node
        → e.printed ≡ Some x → Has numbers.new.items x) }
    ensures only { (x : ℤ) → Has numbers.new.items x
        → Has numbers.old.items x ⊎ IsPrintedFrom graph.now (node ∷ []) x }
{
    for edge in graph.edges_from(node) {
        add_printed(numbers, edge)?;
    }
    Ok(())
}

/// The numbers that edges print from the nodes, each once. Err where memory was refused.
pub fn numbers_from(alloc: Global, graph: &Graph, nodes: &[usize]) -> Result<Vec<i64>, AllocError>
    ensures different { IfOk result (λ v. AreDifferent v.items) }
    ensures there { IfOk result (λ v. (e : Edge) (x : ℤ) → HasEdge graph.now e
        → HasNode nodes.now e.from → e.printed ≡ Some x → Has v.items x) }
    ensures only { IfOk result
        (λ v. (x : ℤ) → Has v.items x → IsPrintedFrom graph.now nodes.now x) }
{
    let mut numbers = Vec::new(alloc);
    for node in nodes {
        add_numbers(graph, *node, &mut numbers)?;
    }
    Ok(numbers)
}

/// Whether the edge prints this.
fn does_print(edge: &Edge, printed: Option<i64>) -> bool
    ensures { Decides result (edge.now.printed ≡ printed) }
{
    match edge.printed {
        None => match printed {
            None => true,
            Some(_) => false,
        },
        Some(a) => match printed {
            None => false,
            Some(b) => a == b,
        },
    }
}

/// Adds where the edge leads, if it prints this. Err where memory was refused.
fn add_target(edge: &Edge, printed: Option<i64>, set: &mut NodeSet) -> Result<(), AllocError>
    requires { edge.now.to < set.old.room }
    ensures room { set.new.room ≡ set.old.room }
    ensures kept { KeepsNodes set.old.nodes set.new.nodes }
    ensures there { OnOk result
        (edge.now.printed ≡ printed → HasNode set.new.nodes edge.now.to) }
    ensures each { (k : ℕ) → HasNode set.new.nodes k
        → HasNode set.old.nodes k ⊎ ((edge.now.printed ≡ printed) × (edge.now.to ≡ k)) }
{
    let prints = does_print(edge, printed);
    if !prints {
        return Ok(());
    }
    set.put(edge.to)
}

/// Adds where the edges from a node lead that print this. Err where memory was refused.
fn add_targets(
    graph: &Graph,
    node: usize,
    printed: Option<i64>,
    set: &mut NodeSet,
) -> Result<(), AllocError>
    requires within { IsWithin graph.now }
    requires room { set.old.room ≡ length graph.now.ends }
    ensures room { set.new.room ≡ set.old.room }
    ensures kept { KeepsNodes set.old.nodes set.new.nodes }
    ensures there { OnOk result (HasTargets graph.now node printed set.new.nodes) }
    ensures each { (k : ℕ) → HasNode set.new.nodes k
        → HasNode set.old.nodes k ⊎ IsTarget graph.now node printed k }
{
    for edge in graph.edges_from(node) {
        add_target(edge, printed, set)?;
    }
    Ok(())
}

/// Keeps the nodes where the edges lead that print the number, from these. Err where memory was refused.
fn start_from(
    graph: &Graph,
    nodes: &[usize],
    number: i64,
    set: &mut NodeSet,
) -> Result<(), AllocError>
    requires within { IsWithin graph.now }
    requires room { set.old.room ≡ length graph.now.ends }
    ensures room { set.new.room ≡ set.old.room }
    ensures there { OnOk result ((k : ℕ) → HasNode nodes.now k
        → HasTargets graph.now k (Some number) set.new.nodes) }
    ensures each { (k : ℕ) → HasNode set.new.nodes k
        → (from : ℕ) × HasNode nodes.now from × IsTarget graph.now from (Some number) k }
{
    set.clear();
    for node in nodes {
        add_targets(graph, *node, Some(number), set)?;
    }
    Ok(())
}

/// Adds where one comes from these nodes without a number being printed. Err where memory was refused.
fn shut(graph: &Graph, set: &mut NodeSet) -> Result<(), AllocError>
    requires within { IsWithin graph.now }
    requires room { set.old.room ≡ length graph.now.ends }
    requires nodes { AreNodes graph.now set.old.nodes }
    ensures room { set.new.room ≡ set.old.room }
    ensures kept { KeepsNodes set.old.nodes set.new.nodes }
    ensures nodes { AreNodes graph.now set.new.nodes }
    ensures shut { OnOk result (IsShut graph.now set.new.nodes) }
    ensures reads { ReadsNoMore graph.now set.new.nodes set.old.nodes }
    ensures read_to { (numbers : List ℤ) → AreReadTo graph.now numbers set.old.nodes
        → AreReadTo graph.now numbers set.new.nodes }
{
    let mut at = 0;
    while at < set.len() {
        add_targets(graph, set.node(at), None, set)?;
        at += 1;
    }
    Ok(())
}

/// The nodes where one may be behind the number, from these. Err where memory was refused.
pub fn nodes_behind(
    alloc: Global,
    graph: &Graph,
    nodes: &[usize],
    number: i64,
    set: &mut NodeSet,
) -> Result<Vec<usize>, AllocError>
    requires within { IsWithin graph.now }
    requires room { set.old.room ≡ length graph.now.ends }
    requires shut { IsShut graph.now nodes.now }
    ensures room { set.new.room ≡ set.old.room }
    ensures moved { IfOk result (λ v. IsMove graph.now nodes.now number v.items) }
{
    start_from(graph, nodes, number, set)?;
    shut(graph, set)?;
    set.sorted(alloc)
}

/// The nodes where one may be before any number. Err where memory was refused.
pub fn first_nodes(
    alloc: Global,
    graph: &Graph,
    set: &mut NodeSet,
) -> Result<Vec<usize>, AllocError>
    requires within { IsWithin graph.now }
    requires some { 0 < length graph.now.ends }
    requires room { set.old.room ≡ length graph.now.ends }
    ensures room { set.new.room ≡ set.old.room }
    ensures nodes { IfOk result (λ v. AreNodes graph.now v.items) }
    ensures shut { IfOk result (λ v. IsShut graph.now v.items) }
    ensures reads { IfOk result (λ v. ReadsNoMore graph.now v.items (0 ∷ [])) }
    ensures first { IfOk result (λ v. HasNode v.items 0) }
    ensures behind { IfOk result (λ v. AreBehind graph.now [] v.items) }
{
    set.clear();
    set.put(0)?;
    shut(graph, set)?;
    set.sorted(alloc)
}

/// Whether a reading may end at one of the nodes.
pub fn has_end(graph: &Graph, nodes: &[usize]) -> bool
    requires { AreNodes graph.now nodes.now }
    ensures { Decides result (HasEndNode graph.now nodes.now) }
{
    for node in nodes {
        if graph.may_end(*node) {
            return true;
        }
    }
    false
}
