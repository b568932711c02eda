//! The critical path of a run, in its lanes and in its picture: the steps that had to come one after another, and the round of each step.
#![tactic(auto)]

mod columns;
mod forms;
mod lanes;
mod line;
mod marks;
mod picture;
mod rounds;
mod shapes;

pub use columns::{Columns, columns_for};
pub use forms::{PathForm, form_of, module_path, path_drawn, source_path};
pub use line::boxes_of;
pub use rounds::Rounds;
