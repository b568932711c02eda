//! Where the instructions of a compiled module come from in its text, and what their slots are called there.
#![tactic(auto)]

mod expressions;
pub mod laws;
mod shared_names;
mod slots;
mod statements;
mod units;

pub use units::origins;
