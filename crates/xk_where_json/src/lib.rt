//! How things stand behind the steps of a log as one JSON value.
#![tactic(auto)]

mod acts;
mod excerpts;
mod frames;
mod own_names;
mod standings;
mod whole;

pub use whole::{module_where_value, source_where_value};
