//! Where something stands in a text: its line and column, and the line with a caret under it.
#![tactic(auto)]

mod columns;
mod excerpts;
pub mod laws;
mod lines;
mod signs;

pub use lines::{LineStarts, Position};
pub use signs::{shown, shown_front};
