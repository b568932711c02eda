//! What a job on all outcomes of a program comes to: they are listed, counted, held against a list, or one of them is shown.
#![tactic(auto)]

mod outcome_count;
mod outcome_page;
mod outcome_search;

pub use outcome_count::counted;
pub use outcome_page::paged;
pub use outcome_search::{LONGEST_LIST, held, kept_log, searched};
