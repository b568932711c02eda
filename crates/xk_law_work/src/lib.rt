//! How many steps the runs of a program take that has no race, and how many come one after another: all as many, and as is
//! told.
#![tactic(auto)]

pub mod laws;
