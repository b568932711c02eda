//! What could stand where a token of a source text can't: the grammar as a machine with a stack, and what it takes next.
#![tactic(auto)]

mod choices;
mod grammar;
pub mod laws;
mod machine;
mod missing;
mod notes;
mod terminal;

pub use notes::expected_notes;
