//! The lanes of a run: a column for each activity, a row for each step that others can see, and a bar where a clock advanced.
#![tactic(auto)]

mod bars;
mod fields;
mod grid;
mod lanes;
mod named_lanes;
mod rows;
mod window;

pub use bars::{any_behind, any_below, bar_label, is_on, push_bar_lanes};
pub use fields::{push_at_right, push_line, push_text, push_times};
pub use grid::{Grid, grid_of, spot};
pub use lanes::{AskedSteps, Drawing, grid_for, module_lanes, push_left_out, source_lanes};
pub use named_lanes::{
    Columns, KeptAccounts, accounts_kept, lanes_with_names, named_columns, named_label,
};
pub use rows::{push_cells, push_head, push_words_behind, row_front, title};
pub use window::Window;
