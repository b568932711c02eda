//! The steps of a run that other activities can see, a line each.
#![tactic(auto)]

mod advances;
mod events;
mod legal_run;
mod pairs;
mod places;
mod steps;
mod walk;
mod words;

pub use advances::advanced;
pub use events::module_events;
pub use legal_run::LegalRun;
pub use pairs::{Both, describe_run_by_both};
pub use places::Places;
pub use steps::{RunStep, seen_steps, take_step};
pub use walk::{Describe, Tell, describe_run, tell_run};
pub use words::{event_line, event_words, is_seen, place_words};
