//! The lines that the program prints of a program, a run or a fault, and the statuses of faults.
#![tactic(auto)]

mod lines;
mod statuses;

pub use lines::{
    MEMORY_LINE, accepted_line, arguments_line, ended_line, front_text, grammar_line, label_line,
    line, local_line, log_end_line, no_outcome_line, not_enabled_line, refusal_line, rounds_line,
};
pub use statuses::{label_status, refusal_status};
