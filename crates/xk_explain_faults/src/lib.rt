//! All that is said of a source text whose names are at fault: of the first fault, and of those behind it.
#![tactic(auto)]

mod explanation;
mod further;

pub use explanation::{explain_faults, faults_json};
