//! The running machine: one world, stepped by activity numbers.
#![tactic(auto)]

mod alike;
mod change;
pub mod laws;
mod machine;
mod quiet;
mod state;

pub use machine::Core;
