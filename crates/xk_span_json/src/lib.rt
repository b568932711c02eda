//! How long a run had to take as one JSON value.
#![tactic(auto)]

mod head;
mod path;
mod phases;
mod report;
mod steps;
mod waits;

pub use report::{module_span_value, source_span_value};
