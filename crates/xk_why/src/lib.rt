//! What a step of a run rests on: the steps before it that made what it used, and what those used, and so on; or those that it waited for.
#![tactic(auto)]

mod data;
mod finishes;
mod flows;
pub mod laws;
mod lines;
mod module_lines;
mod report;
mod rest;
mod slices;
mod told;
mod waits;

pub use report::{is_told, module_why, source_why};
