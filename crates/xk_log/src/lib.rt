//! The text of a log: writing it, and reading it.
#![tactic(auto)]

mod fault;
pub mod laws;
mod lines;
mod log;
mod progress;
mod reading;
mod writing;

pub use fault::LogFault;
pub use log::Log;
pub use reading::read_log;
pub use writing::write_entries;
