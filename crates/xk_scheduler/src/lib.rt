//! Runs of a core: by single steps, by a chooser, by a given schedule; and what is written down of them.
#![tactic(auto)]

mod chooser;
mod driver;
mod logged_run;
mod roster;
mod schedule;
mod whole_run;

pub use chooser::{Chooser, First, Last, Round};
pub use driver::{Driver, Turn};
pub use logged_run::{Ended, Logged, Partial, keep_printed};
pub use schedule::{Halt, Ran, run_schedule};
pub use whole_run::{Summary, drive, drive_unlogged, unstarted};
