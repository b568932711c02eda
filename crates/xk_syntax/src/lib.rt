//! Source texts to trees.
#![tactic(auto)]

mod hidden_clocks;
pub mod laws;
mod leaf_statements;
mod lists;
mod loop_bounds;
mod program;
mod statement_heads;
mod statements;
mod token_readers;

pub use program::parse;
