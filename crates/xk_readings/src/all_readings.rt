//! All that can be read from the first node of a graph, listed in rising order.

ghost use Rattle.std.specs.Prelude.{◌≡◌, ◌≤◌, true, false, length, IfOk};
ghost use Rattle.xk_readings.specs.Graphs.{IsWithin, graph};
ghost use Rattle.xk_readings.specs.Readings.{AreAllListed, AreShown, IsLongest};
ghost use Rattle.xk_readings.specs.Rising.{AreFirst, AreRising};

use crate::edge::Edge;
use crate::graph::Graph;
use crate::listing::Readings;
use crate::useful::{is_first_useful, useful_edges, useful_nodes};
use crate::walk::walk_all;
use std::alloc::{AllocError, Global};

/// Lists what can be read from node 0, each list of numbers once, rising, up to `limit` of them. No reading has more edges than `longest`
/// says, which the walk's end rests on. Err where memory was refused.
pub fn readings(
    alloc: Global,
    edges: &[Edge],
    ends: &[bool],
    longest: u64,
    limit: usize,
) -> Result<Readings, AllocError>
    requires within { IsWithin (graph edges.now ends.now) }
    requires longest { IsLongest (graph edges.now ends.now) longest }
    ensures shown { IfOk result (λ r. AreShown (graph edges.now ends.now) r.list.items) }
    ensures all { IfOk result (λ r. r.complete ≡ true
        → AreAllListed (graph edges.now ends.now) r.list.items) }
    ensures limit { IfOk result (λ r. r.complete ≡ false → limit ≤ length r.list.items) }
    ensures most { IfOk result (λ r. length r.list.items ≤ limit) }
    // No list is there twice.
    ensures rising { IfOk result (λ r. AreRising r.list.items) }
    // What isn't listed where the limit is met comes behind all that is.
    ensures first { IfOk result (λ r. AreFirst (graph edges.now ends.now) r.list.items) }
{
    let useful = useful_nodes(alloc, edges, ends)?;
    if !is_first_useful(&useful) {
        return Ok(Readings {
            list: Vec::new(alloc),
            complete: true,
        });
    }
    let kept = useful_edges(alloc, edges, &useful)?;
    let graph = Graph::new(alloc, kept, ends)?;
    walk_all(alloc, &graph, ends.len(), longest, limit)
}
