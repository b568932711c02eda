//! The clocks of a running program, each told by three numbers.
#![tactic(auto)]

mod count;
pub mod laws;
mod table;

pub use table::ClockTable;
