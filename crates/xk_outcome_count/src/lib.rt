//! How many outcomes a program has, in whichever order its activities take their steps: they are counted, and not listed.
#![tactic(auto)]

mod counting;
mod text;

pub use counting::{Counted, count_outcomes};
pub use text::count_line;
