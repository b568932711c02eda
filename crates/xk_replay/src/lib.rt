//! The log of a run is written, and played again, and the phases of its clocks are told.
#![tactic(auto)]

mod chart_lists;
mod clock_chart;
mod fault;
pub mod laws;
mod log_replay;
mod log_writer;

pub use clock_chart::chart;
pub use fault::ReplayFault;
pub use log_replay::{replay, replay_so_far};
pub use log_writer::write_log;
