//! Source trees to modules: the units of their parts, and what the code of these refers to.
#![tactic(auto)]

mod compiler;
pub mod laws;
mod setting;

pub use compiler::compile;
