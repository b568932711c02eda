//! What is reckoned of a run whose steps have times: widths of rounds, stretches of a path, waits.
#![tactic(auto)]

mod counts;
mod shares;
mod stretches;
mod waits;

pub use counts::{Count, add_one, greatest, greatest_few, number_at, sum};
pub use shares::{hundredths, least_rounds, level_rounds, widths_of};
pub use stretches::{Stretch, stretches_of};
pub use waits::{Wait, rounds_waited, wait_at, waits_of};
