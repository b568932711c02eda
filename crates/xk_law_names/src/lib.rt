//! Numbers of activities and of clocks may be exchanged: no step looks at them but to tell one from another.
#![tactic(auto)]

pub mod activities;
pub mod clocks;
pub mod worlds;
