//! Where one can come without a number being printed.

ghost use Rattle.std.specs.Prelude.{◌≡◌, ◌<◌, ◌≤◌, ◌+◌, ℕ, true, length, slice_get, OnOk, IfNone, IfSome, Some};
ghost use Rattle.xk_readings.specs.Graphs.{IsWithin};
ghost use Rattle.xk_readings.specs.Ways.{at, left};
ghost use Rattle.xk_readings.specs.Closures.{AreReached, AreTrim, IsClosed, IsSpread, NoneEnds, PrintsFrom};

use crate::graph::Graph;
use crate::ways::Ways;
use std::alloc::AllocError;

/// Adds the ways that are one edge longer than the one of a number, that edge printing nothing. Err where memory was refused.
fn spread(graph: &Graph, ways: &mut Ways, number: usize) -> Result<(), AllocError>
    requires within { IsWithin graph.now }
    requires trim { AreTrim graph.now }
    requires room { ways.old.here.room ≡ length graph.now.ends }
    requires reached { AreReached graph.now ways.old.all }
    requires since { ways.old.since ≤ number }
    requires there { number < length ways.old.all }
    ensures spread { OnOk result
        (IsSpread graph.now (at ways.old.all number).numbers ways.old ways.new) }
    ensures since { OnOk result (ways.new.since ≡ ways.old.since) }
    ensures left { OnOk result (length ways.new.all + left ways.new
        ≡ length ways.old.all + left ways.old) }
    ensures edges { OnOk result (IsClosed graph.now ways.new.all ways.new.since
        (at ways.old.all number)) }
{
    for edge in graph.edges_from(ways.node(number)) {
        if edge.printed.is_none() {
            ways.lengthen(number, *edge)?;
        }
    }
    Ok(())
}

/// Adds ways to those from a number on, until each edge that prints nothing leads from where one of them ends to where one of them ends.
/// Err where memory was refused.
pub fn close(graph: &Graph, ways: &mut Ways, first: usize) -> Result<(), AllocError>
    requires within { IsWithin graph.now }
    requires trim { AreTrim graph.now }
    requires room { ways.old.here.room ≡ length graph.now.ends }
    requires reached { AreReached graph.now ways.old.all }
    requires there { first < length ways.old.all }
    requires same { PrintsFrom first (at ways.old.all first).numbers ways.old.all }
    ensures spread { OnOk result
        (IsSpread graph.now (at ways.old.all first).numbers ways.old ways.new) }
    ensures closed { OnOk result ((k : ℕ) → first ≤ k → k < length ways.new.all
        → IsClosed graph.now ways.new.all first (at ways.new.all k)) }
{
    ways.look_from(first)?;
    let mut number = first;
    while number < ways.len() {
        spread(graph, ways, number)?;
        number += 1;
    }
    Ok(())
}

/// The first of the ways from a number on that ends where a reading may end, if one does.
pub fn ending(graph: &Graph, ways: &Ways, first: usize) -> Option<usize>
    requires within { IsWithin graph.now }
    requires reached { AreReached graph.now ways.now.all }
    ensures found { IfSome result (λ k. (first ≤ k) × (k < length ways.now.all)
        × (slice_get graph.now.ends (at ways.now.all k).node ≡ Some true)) }
    ensures none { IfNone result (NoneEnds graph.now ways.now.all first) }
{
    for number in first..ways.len() {
        if graph.may_end(ways.node(number)) {
            return Some(number);
        }
    }
    None
}
