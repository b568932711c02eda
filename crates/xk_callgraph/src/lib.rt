//! Calls among methods: the recursive ones of a source tree, and numbers and places in the order of calls.
#![tactic(auto, using(crate::proofs::NameNumberLemmas::words_push, crate::proofs::NameNumberLemmas::lists_push, crate::proofs::NameNumberLemmas::adjacency_push, crate::proofs::NameNumberLemmas::put_number))]

mod callees;
mod numbering;
mod recursion;
mod strong_components;
mod topological_order;

pub use numbering::{CallPlace, numbers_by_calls};
pub use recursion::check_recursion;
pub use topological_order::order_from;
