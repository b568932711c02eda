//! Notes on what the verifier says of a module: where else it comes from what is refused, and the sums of a program by their parts.
#![tactic(auto)]

mod amounts;
mod notes;
mod other_places;
mod parts;
mod remark;
mod totals;
mod visits;
mod words;

pub use notes::{accepted_notes, module_notes, refusal_notes};
