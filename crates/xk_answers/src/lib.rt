//! What a job on a program comes to: its runs, what it can print, and what is shown of it.
#![tactic(auto)]

mod event_values;
mod explanation;
mod first_races;
mod job_result;
mod picture;
mod reasons;
mod replay;
mod runs;
mod so_far;
mod verdict;
mod whereabouts;

pub use explanation::{Refused, listing, unsaid};
pub use first_races::raced;
pub use job_result::Done;
pub use picture::{Picture, Tale, drawn, lanes_given, page_given, window_given};
pub use replay::replayed;
pub use runs::{Finished, run_as};
pub use so_far::page_so_far;
pub use verdict::explained;
pub use whereabouts::stood;
