//! Brackets that are open at a place of a text.
#![tactic(auto)]

mod brackets;

pub use brackets::{bracket_repair, closes_nothing, push_bracket};
