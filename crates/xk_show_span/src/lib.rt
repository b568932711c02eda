//! What is told of how long a run had to take: work, span, a critical path.
#![tactic(auto)]

mod lines;
mod path;
mod phase_lines;
mod phases;
mod report;
mod spots;
mod text;
mod wait_lines;

pub use lines::lines_of;
pub use phase_lines::{earlier_of, last_of, last_round};
pub use phases::{Arrival, Coming};
pub use report::{SpanReport, is_free, module_span, source_span, span};
pub use text::work_of;
