//! What the program answers: a job and the bytes of its files to a status, two texts and a log.
#![tactic(auto)]

mod commands;
mod devices;
pub mod laws;
mod lone_caller;
mod lone_runs;
mod refusal;
mod tally;
mod values;

pub use devices::{report, serve, tell, tell_words};
pub use lone_caller::serve_alone;
