//! What the steps of a run were about, by the names of its source text, and with values; and the steps that others see, told so.
#![tactic(auto)]

mod accounts;
mod clock_names;
mod events;
mod letters;
mod methods;
mod name_counts;
mod pairs;
mod writers;

pub use accounts::{Account, Recount, Subject, recount_run};
pub use clock_names::Names;
pub use events::{account_words, clock_word, named_events, shared_word};
pub use pairs::recount_run_by_both;
