//! Runs by chance: a chooser that draws who steps from a seed, and how often what is printed in some runs.
#![tactic(auto)]

mod random;
mod runs;
mod share;
mod text;

pub use random::Random;
pub use runs::tally;
