//! The races of a run as one JSON value.
#![tactic(auto)]

mod pairs;
mod races;
mod report;

pub use pairs::Pair;
pub use report::{module_race_values, source_race_values};
