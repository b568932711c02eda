//! From a running core, a set of activities whose steps suffice: a search that tries these alone misses nothing.
#![tactic(auto)]

mod claims;
mod closed_sets;
mod closedness;
mod footprint;
mod footprints;
mod growth;
mod holding;
mod instructions;
mod places;
mod reads;
mod rules;
mod table;

pub use closed_sets::{ClosedSet, closed_set};
pub use footprints::Footprints;
pub use reads::numbers_read;
