//! A graph whose edges are found by the node where they begin.

ghost use Rattle.std.specs.Prelude.{◌≡◌, ◌<◌, length, slice_get, IfOk, Some};
ghost use Rattle.xk_readings.specs.Graphs.{AreFrom, graph, HasSameEdges};

use crate::edge::Edge;
use std::alloc::{AllocError, Global};
use std::marker::Model;

/// A graph: its edges, and for each node whether a reading may end there.
#[derive(Drop)]
pub struct Graph {
    // rising by where they begin
    edges: Vec<Edge>,
    ends: Vec<bool>,
}

impl Model for Graph {
    ghost use Rattle.xk_readings.specs.Graphs.{GraphValue, AreSorted};

    ghost Value = { GraphValue };

    ghost view = { λ g. record {
      edges = g.edges.items;
      ends = g.ends.items;
    } };

    ghost invariant = { λ g. AreSorted g.edges.items };
}

impl Graph {
    /// The graph of these edges. Err where memory was refused.
    pub fn new(alloc: Global, mut edges: Vec<Edge>, ends: &[bool]) -> Result<Graph, AllocError>
        ensures { IfOk result (λ g. HasSameEdges (graph edges.items ends.now) g) }
    {
        edges.sort_by_key(|edge| edge.from)?;
        let ends = ends.to_vec(alloc)?;
        Ok(Graph { edges, ends })
    }

    /// Whether a reading may end at the node.
    pub fn may_end(&self, node: usize) -> bool
        requires { node < length self.now.ends }
        ensures { slice_get self.now.ends node ≡ Some result }
    {
        self.ends[node]
    }

    /// The edges that begin at the node.
    pub fn edges_from(&self, node: usize) -> &[Edge]
        ensures { AreFrom self.now node result.now }
    {
        let start = self.edges.partition_point(|edge| edge.from < node);
        let end = self.edges.partition_point(|edge| edge.from <= node);
        &self.edges[start..end]
    }
}
