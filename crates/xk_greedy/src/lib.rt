//! Runs by rounds: everybody who can takes a step, and again, on however many processors.
#![tactic(auto)]

pub mod laws;
mod rounds;

pub use rounds::{InRounds, drive_by_rounds};
