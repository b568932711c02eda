//! Where the instructions of a module come from in its source text, and what its slots are called there.
#![tactic(auto)]

mod unit_origins;

pub use unit_origins::{Head, Origins, UnitOrigins};
