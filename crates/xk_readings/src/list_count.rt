//! How many lists of numbers can be read from the first node of a graph.

ghost use Rattle.std.specs.Prelude.{◌≡◌, ◌<◌, ◌⊎◌, true, false, length, IfOk};
ghost use Rattle.xk_readings.specs.Beginnings.{HasMoreSets};
ghost use Rattle.xk_readings.specs.Closures.{AreTrim};
ghost use Rattle.xk_readings.specs.Counts.{AreAsMany, AreAtLeast, most_counted};
ghost use Rattle.xk_readings.specs.Graphs.{IsWithin, graph};
ghost use Rattle.xk_readings.specs.Readings.{IsLongest};
ghost use Rattle.xk_readings.specs.Useful.{IsReadable};

use crate::automaton::{automaton_of, ends_of};
use crate::counts::{MOST, count_along};
use crate::edge::Edge;
use crate::graph::Graph;
use crate::useful::{is_first_useful, useful_edges, useful_nodes};
use std::alloc::{AllocError, Global};

/// How many lists of numbers can be read.
#[derive(Clone, Copy, Debug)]
pub struct HowMany {
    /// So many, or the most that is counted.
    pub count: u128,
    /// Whether there are no more.
    pub exact: bool,
}

/// Counts what can be read along edges that each lead to where a reading goes out. Err where memory was refused.
fn count_in(
    alloc: Global,
    graph: &Graph,
    nodes: usize,
    longest: u64,
    limit: usize,
) -> Result<HowMany, AllocError>
    requires within { IsWithin graph.now }
    requires some { 0 < nodes }
    requires nodes { nodes ≡ length graph.now.ends }
    requires longest { IsLongest graph.now longest }
    requires trim { AreTrim graph.now }
    requires readable { IsReadable graph.now 0 }
    ensures least { IfOk result (λ r. AreAtLeast graph.now r.count) }
    ensures exact { IfOk result (λ r. r.exact ≡ true → AreAsMany graph.now r.count) }
    ensures limit { IfOk result (λ r. r.exact ≡ false
        → HasMoreSets graph.now limit ⊎ (r.count ≡ most_counted)) }
{
    let (automaton, complete) = automaton_of(alloc, graph, nodes, limit)?;
    let ends = ends_of(alloc, graph, &automaton.states)?;
    let count = count_along(alloc, &automaton.moves, &ends, longest)?;
    Ok(HowMany {
        count,
        exact: complete && count < MOST,
    })
}

/// Counts the lists of numbers that can be read from node 0, each once. So many can be read; and no more, unless there are more sets of nodes
/// on which one may stand at once than the limit says, or more lists than are counted. No reading has more edges than `longest` says. Err
/// where memory was refused.
pub fn how_many(
    alloc: Global,
    edges: &[Edge],
    ends: &[bool],
    longest: u64,
    limit: usize,
) -> Result<HowMany, AllocError>
    requires within { IsWithin (graph edges.now ends.now) }
    requires some { 0 < length ends.now }
    requires longest { IsLongest (graph edges.now ends.now) longest }
    ensures least { IfOk result (λ r. AreAtLeast (graph edges.now ends.now) r.count) }
    ensures exact { IfOk result
        (λ r. r.exact ≡ true → AreAsMany (graph edges.now ends.now) r.count) }
    // Else there are more sets of nodes than the limit says, on each of which one may stand at once; or more lists than are counted.
    ensures limit { IfOk result (λ r. r.exact ≡ false
        → HasMoreSets (graph edges.now ends.now) limit ⊎ (r.count ≡ most_counted)) }
{
    let useful = useful_nodes(alloc, edges, ends)?;
    if !is_first_useful(&useful) {
        return Ok(HowMany {
            count: 0,
            exact: true,
        });
    }
    let kept = useful_edges(alloc, edges, &useful)?;
    let graph = Graph::new(alloc, kept, ends)?;
    count_in(alloc, &graph, ends.len(), longest, limit)
}
