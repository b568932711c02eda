//! The numbering of units: which parts of a program have units, and in which order.
#![tactic(auto, using(crate::proofs::ListLemmas::part_push, xk_callgraph::proofs::NameNumberLemmas::adjacency_push))]

mod part_graph;
mod parts;
mod unit_order;

pub use parts::Part;
pub use unit_order::units_in_order;
