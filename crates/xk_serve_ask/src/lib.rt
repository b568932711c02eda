//! What the program answers where a person is asked for the order of a run.
#![tactic(auto)]

mod asked_run;

pub use asked_run::serve_asked;
