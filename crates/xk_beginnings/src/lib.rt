//! The beginning of a log, up to a step.
#![tactic(auto)]

mod beginning;

pub use beginning::{beginnings, end_before, first_steps, lacking};
