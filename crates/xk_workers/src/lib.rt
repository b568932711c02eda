//! The machine under one lock, driven by worker threads: each of its answers is a legal schedule, with its log.
#![tactic(auto)]

mod claims;
mod gate;
mod lock_table;
mod run;
mod workers;

pub use gate::{Direct, Gate};
pub use lock_table::{CommitFault, Shared, Take};
pub use workers::run_workers;
