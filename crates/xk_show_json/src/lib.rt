//! What the program tells, as JSON values, a line each: what a run printed, what a program can print, and what others see of steps.
#![tactic(auto)]

mod endings;
mod events;
mod outcomes;
mod runs;
mod subjects;

pub use events::{
    event_name, event_value, module_event_values, put_origin, put_step, source_event_values,
};
pub use outcomes::{held_json, outcomes_json};
pub use runs::run_json;
pub use subjects::put_subject;
