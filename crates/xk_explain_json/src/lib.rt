//! What `explain` says of a program, as one JSON value on one line.
#![tactic(auto)]

mod acceptance;
mod finding;
mod fronts;
mod members;
mod names;
mod notes;
mod refusals;
mod source_refusals;
mod walks;

pub use acceptance::accepted_json;
pub use finding::Finding;
pub use fronts::{front_json, fronts_json, module_json};
pub use refusals::refusal_json;
pub use source_refusals::source_json;
