//! How long a run had to take, whoever takes its steps: the longest chain of steps that had to come one after another.
#![tactic(auto)]

pub mod laws;
mod marks;
mod pass;
mod paths;
mod steps;
mod times;
mod timing;

pub use timing::{Timing, time_run};
