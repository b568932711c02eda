//! The simulation: that compiled programs mean their source.
#![tactic(auto)]

pub mod laws;
