//! The races of a run of a source text's module, told by names, by the lines of the text and with values.
#![tactic(auto)]

mod accounts;
pub mod laws;
mod report;
mod source_lines;
mod text;

pub use accounts::{ByNumber, racing};
pub use report::source_races;
