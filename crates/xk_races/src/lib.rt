//! The races of a run: accesses of one shared number whose order nothing but the schedule says.
#![tactic(auto)]

mod accesses;
mod deeds;
mod knowledge;
pub mod laws;
mod pairs;
mod race_list;
mod report;
mod rows;
mod sights;
mod text;

pub use deeds::{Deed, Part, push_deeds};
pub use knowledge::Scopes;
pub use pairs::Race;
pub use report::{RaceReport, Reach, ShownRaces, module_races, reach_of, shown_races};
