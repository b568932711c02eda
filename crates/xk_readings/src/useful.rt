//! The nodes from which a reading goes out.

ghost use Rattle.std.specs.Prelude.{◌≡◌, ◌<◌, ◌≤◌, ℕ, true, false, not, length, slice_get, count_by, IfOk, Some};
ghost use Rattle.std.specs.Bool.{Decides};
ghost use Rattle.xk_readings.specs.Graphs.{IsWithin, graph};
ghost use Rattle.xk_readings.specs.Useful.{AreKept, AreReadable, AreUseful, IsFollowed, IsMarked};

use crate::edge::Edge;
use std::alloc::{AllocError, Global};

/// Marks where the edge begins, if where it ends is marked. Whether it wasn't marked before.
fn mark(useful: &mut [bool], edge: &Edge) -> bool
    requires from { edge.now.from < length useful.old }
    requires to { edge.now.to < length useful.old }
    ensures { IsMarked edge.now useful.old useful.new result }
{
    if useful[edge.to] && !useful[edge.from] {
        useful[edge.from] = true;
        return true;
    }
    false
}

/// Goes along the edges once, the last one first, and marks where they begin if where they end is marked. Whether one was marked that
/// wasn't before.
fn mark_along(edges: &[Edge], ends: &[bool], useful: &mut [bool]) -> bool
    requires within { IsWithin (graph edges.now ends.now) }
    requires many { length useful.old ≡ length ends.now }
    requires readable { AreReadable (graph edges.now ends.now) useful.old }
    ensures readable { AreReadable (graph edges.now ends.now) useful.new }
    ensures kept { (k : ℕ) → slice_get useful.old k ≡ Some true
        → slice_get useful.new k ≡ Some true }
    ensures followed { result ≡ false → IsFollowed edges.now useful.new }
    ensures fewer { result ≡ true → count_by not useful.new < count_by not useful.old }
{
    let mut more = false;
    let mut at = edges.len();
    while at > 0 {
        at -= 1;
        if mark(useful, &edges[at]) {
            more = true;
        }
    }
    more
}

/// For each node whether a reading goes out from it.
pub fn useful_nodes(alloc: Global, edges: &[Edge], ends: &[bool]) -> Result<Vec<bool>, AllocError>
    requires { IsWithin (graph edges.now ends.now) }
    ensures { IfOk result (λ useful. AreUseful (graph edges.now ends.now) useful.items) }
{
    let mut useful = ends.to_vec(alloc)?;
    'passes: while mark_along(edges, ends, &mut useful) {}
    Ok(useful)
}

/// Whether the first node is marked.
pub fn is_first_useful(useful: &[bool]) -> bool
    ensures { Decides result (slice_get useful.now 0 ≡ Some true) }
{
    match useful {
        [first, ..] => *first,
        [] => false,
    }
}

/// The edges that end at marked nodes. Err where memory was refused.
pub fn useful_edges(alloc: Global, edges: &[Edge], useful: &[bool]) -> Result<Vec<Edge>, AllocError>
    requires { (j : ℕ) (e : Edge) → slice_get edges.now j ≡ Some e → e.to < length useful.now }
    ensures { IfOk result (λ kept. AreKept edges.now useful.now kept.items) }
{
    let mut kept = Vec::new(alloc);
    for edge in edges {
        if useful[edge.to] {
            kept.push(*edge)?;
        }
    }
    Ok(kept)
}
