//! The edges of a graph: steps from one node to another.

/// A step from one node to another.
#[derive(Clone, Copy, Debug)]
pub struct Edge {
    /// The node where it begins.
    pub from: usize,
    /// How it is taken, by a number that the graph's maker chose: of who takes it, or of a way.
    pub act: usize,
    /// What it prints, if it prints a number.
    pub printed: Option<i64>,
    /// The node where it ends.
    pub to: usize,
}
