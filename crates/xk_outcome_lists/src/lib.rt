//! Outcomes as lines, and what is found held against a list of such lines.
#![tactic(auto)]

mod expected;
mod holding;
mod reading;
mod text;

pub use holding::{Held, Verdict, expected_outcomes};
pub use reading::ListFault;
pub use text::{is_whole, outcomes_text};
