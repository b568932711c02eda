//! How things stand behind the steps of a log: who is where, who waits for whom, clocks, shared numbers.
#![tactic(auto)]

mod acts;
mod awaited;
mod condition;
mod excerpts;
mod holders;
pub mod laws;
mod named;
mod progress;
mod standings;
mod texts;
mod waits;

pub use awaited::all_awaited;
pub use condition::{Condition, condition_of};
pub use excerpts::Excerpt;
pub use holders::holders_of;
pub use named::{named_standings_text, named_where};
pub use progress::{Progress, Stop, take_steps};
pub use standings::{Whereabouts, module_where, standings_text};
