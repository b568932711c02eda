//! All that a program can print, in whichever order its activities take their steps, each list of numbers with a log that shows it.
#![tactic(auto)]

mod all_outcomes;
mod checkpoint;
mod counts;
mod entries;
mod found;
mod listed;
mod listing;
mod lone_runs;
mod order;
mod paths;
mod plain_runs;
mod private_steps;
mod run;
mod search;

pub use all_outcomes::{Limit, explored_in, listed_in, outcome_sets, outcomes, outcomes_as};
pub use entries::Entries;
pub use listing::{Outcome, Outcomes};
pub use lone_runs::lone_outcome;
pub use order::Order;
pub use search::Explored;
