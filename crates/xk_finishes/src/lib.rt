//! Which finishes are open in a running program, and who is under them.
#![tactic(auto)]

mod counters;
mod finish;
pub mod laws;
mod node;
mod tree;

pub use tree::FinishTree;
