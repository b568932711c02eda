//! The lanes of a run by rounds: what each activity does in each round of a machine with a processor for each, and who stands idle.
#![tactic(auto)]

mod cells;
mod lanes;
mod rows;
mod table;

pub use lanes::{module_rounds, source_rounds};
